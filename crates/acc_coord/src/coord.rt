//! The coordinator of an attempt.
ghost use Rattle.std.specs.Prelude.{◌≡◌, [], IsTrue, IfOk, IfErr, OnErr, true, false};
ghost use Rattle.acc_stamp.specs.declared.stamps.TxnId.{TxnId};
ghost use Rattle.acc_stamp.specs.Actor.{home_of};
ghost use Rattle.acc_stamp.specs.Stamp.{zero_ballot};
ghost use Rattle.acc_topology.specs.Layout.{Layout};
ghost use Rattle.acc_message.specs.Attempts.{Attempt, majority_everywhere};
ghost use Rattle.acc_message.specs.Coordinator.{begun, ask_for_votes, go, reaction};
ghost use Rattle.acc_coord.specs.declared.error.SlowError.{SlowError as Refused};
ghost use Rattle.acc_coord.specs.Stands.{StandsFor, Answers, MakesFastQuorum, DecidesFast, Slows, IsNew, is_voting, is_voting_phase, after_step, is_end};

use crate::counted::no_answers;
use crate::error::SlowError;
use crate::step::{Next, Stage, Step};
use acc_base::{OutOfMemory, Sequence};
use acc_deps::Choice;
use acc_message::{Emitted, Message, Messages};
use acc_stamp::{Actor, Ballot, TxnId};
use acc_tally::stores;
use acc_topology::{ShardSet, Topology};
use acc_txn::Body;

/// The coordinator of one attempt at a transaction, from the first PreAccept or the choice of a recovery to the outcome.
#[derive(Debug, Drop)]
pub struct Coord {
    pub(crate) id: TxnId,
    pub(crate) ballot: Ballot,
    pub(crate) body: Body,
    pub(crate) shards: ShardSet,
    pub(crate) stores: Sequence<Actor>,
    pub(crate) stage: Stage,
}

impl Coord {
    // A coordinator that has no vote yet.
    fn new(
        topology: &Topology,
        id: TxnId,
        ballot: Ballot,
        body: &Body,
    ) -> Result<Coord, OutOfMemory>
        ensures { IfOk result (λ coord. IsNew topology.now id ballot body.now coord) }
    {
        let alloc = body.parts().lets.allocator();
        let shards = topology.shards_of(body.uses());
        let stores = stores(alloc, topology, shards)?;
        let body = body.copy()?;
        let tally = no_answers(alloc, shards)?;
        let _ = topology.shards();
        Ok(Coord {
            id,
            ballot,
            body,
            shards,
            stores,
            stage: Stage::Votes(tally),
        })
    }

    /// The first attempt at a transaction, and its PreAccepts to all stores.
    pub fn begin(
        topology: &Topology,
        id: TxnId,
        body: &Body,
    ) -> Result<(Coord, Messages), OutOfMemory>
        ensures stands { IfOk result (λ begun_with. StandsFor topology.now id begun_with.0 (begun body.now)) }
        ensures sends { IfOk result (λ begun_with. begun_with.1 ≡ ask_for_votes topology.now (home_of id zero_ballot) id body.now) }
    {
        let coord = Coord::new(topology, id, Ballot::ZERO, body)?;
        let out = coord.ask_for_votes()?;
        Ok((coord, out))
    }

    /// An attempt that a recovery goes on with, by its choice, and what it emits.
    pub fn go(
        topology: &Topology,
        id: TxnId,
        ballot: Ballot,
        body: &Body,
        choice: Choice,
    ) -> Result<(Coord, Emitted), OutOfMemory>
        ensures { IfOk result (λ gone. (a : Attempt) → a.ballot ≡ ballot → a.body ≡ body.now →
            Answers topology.now id gone.0 gone.1 false (go topology.now (home_of id ballot) id a choice)) }
    {
        let mut coord = Coord::new(topology, id, ballot, body)?;
        let step = coord.chosen(choice)?;
        let (emitted, _) = coord.make(step);
        Ok((coord, emitted))
    }

    // Makes a step, and tells what it emits and whether the attempt has ended.
    #[inline(always)]
    fn make(&mut self, step: Step) -> (Emitted, bool)
        ensures made { self.new ≡ after_step self.old step.next }
        ensures emits { result.0 ≡ step.emitted }
        ensures ends { result.1 ≡ is_end step.next }
    {
        let Step { emitted, next } = step;
        match next {
            Next::Same => (emitted, false),
            Next::Stage(stage) => {
                self.stage = stage;
                (emitted, false)
            }
            Next::Ended => (emitted, true),
        }
    }

    /// Takes a message about the attempt's transaction, and tells what the attempt emits and whether it has ended. Of the message's
    /// two names, transaction and ballot, only the ballot is looked at here: the node finds the attempt by the transaction. The
    /// node adds the reply to an outcome. Where it has ended, and without memory, the coordinator is as before.
    #[tactic(auto, using(crate::proofs::Made::made_answers, crate::proofs::Made::ended_stays, crate::proofs::Made::decides_fast))]
    pub fn on_answer(
        &mut self,
        topology: &Topology,
        m: &Message,
    ) -> Result<(Emitted, bool), OutOfMemory>
        ensures step { IfOk result (λ r. (x : TxnId) (a : Attempt) → StandsFor topology.now x self.old a →
            Answers topology.now x self.new r.0 r.1 (reaction topology.now (home_of x a.ballot) x a m.now)) }
        ensures fast_quorum_decides_at_once { IfOk result (λ r. (x : TxnId) (a : Attempt) → StandsFor topology.now x self.old a →
            MakesFastQuorum topology.now x a m.now → DecidesFast x a m.now r.0) }
        ensures kept { IfOk result (λ r. r.1 ≡ true → self.new ≡ self.old) }
        ensures err { OnErr result (self.new ≡ self.old) }
    {
        let step = self.step(topology, m)?;
        Ok(self.make(step))
    }

    /// Gives the fast path up, and proposes the greatest vote. NoQuorum comes exactly where some shard lacks a majority of
    /// answers, since memory is only asked for where none does. After an error all is as before.
    pub fn go_slow(&mut self, topology: &Topology) -> Result<Messages, SlowError>
        requires { IsTrue (is_voting self.old) }
        ensures ok { IfOk result (λ out. (x : TxnId) (a : Attempt) → StandsFor topology.now x self.old a →
            Slows topology.now x self.new out a) }
        ensures no_quorum { IfErr result (λ error. error ≡ Refused.NoQuorum → (x : TxnId) (a : Attempt) → StandsFor topology.now x self.old a →
            majority_everywhere topology.now x a.body a.answers ≡ false) }
        ensures no_memory { IfErr result (λ error. error ≡ Refused.OutOfMemory → (x : TxnId) (a : Attempt) → StandsFor topology.now x self.old a →
            majority_everywhere topology.now x a.body a.answers ≡ true) }
        ensures err { OnErr result (self.new ≡ self.old) }
    {
        let step = self.slow_step(topology)?;
        let (emitted, _) = self.make(step);
        let Emitted { notes: _, out } = emitted;
        Ok(out)
    }

    /// Whether the attempt waits for votes.
    pub fn in_preaccept(&self) -> bool
        ensures value { result ≡ is_voting self.now }
        ensures stands { (layout : Layout) (x : TxnId) (a : Attempt) → StandsFor layout x self.now a → result ≡ is_voting_phase a.phase }
    {
        match &self.stage {
            Stage::Votes(_) => true,
            Stage::Accepts(_, _) | Stage::Commits(_, _) | Stage::Reads(_, _) => false,
        }
    }
}
