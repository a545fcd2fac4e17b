//! The first phase.
ghost use Rattle.std.specs.Prelude.{◌≡◌, List, IfOk, IfErr, true, false, IsTrue};
ghost use Rattle.acc_stamp.specs.declared.stamps.TxnId.{TxnId};
ghost use Rattle.acc_stamp.specs.declared.stamps.Ballot.{Ballot as AnyBallot};
ghost use Rattle.acc_stamp.specs.declared.actors.Actor.{Actor as AnyActor};
ghost use Rattle.acc_topology.specs.Layout.{Layout};
ghost use Rattle.acc_message.specs.declared.message.Message.{Message as Letter};
ghost use Rattle.acc_message.specs.declared.message.Message.TheVariants.{PreAcceptOk};
ghost use Rattle.acc_message.specs.Attempts.{Voting, plainly, majority_everywhere};
ghost use Rattle.acc_message.specs.Shares.{shards_used};
ghost use Rattle.acc_message.specs.Coordinator.{on_message, after_vote, slow_down};
ghost use Rattle.acc_tally.specs.Stands.{StandsFor as Tallies};
ghost use Rattle.acc_coord.specs.declared.error.SlowError.{SlowError as Refused};
ghost use Rattle.acc_coord.specs.Stands.{own_of, attempt_in, attempt_at, is_voting, IsPlaced, Keeps, Follows, SlowStepIs};

use crate::coord::Coord;
use crate::error::SlowError;
use crate::step::{Next, Stage, Step, silent};
use acc_base::{Kept, OutOfMemory};
use acc_deps::{Deps, Settled};
use acc_message::Path;
use acc_stamp::{Actor, Stamp};
use acc_tally::Tally;
use acc_topology::Topology;

impl Coord {
    // Proposes the greatest vote.
    fn slow_down(&self, tally: &Tally) -> Result<Step, OutOfMemory>
        ensures { IfOk result (λ step. (layout : Layout) (answers more : List Letter) → IsPlaced layout self.now →
            Tallies tally.now (shards_used layout self.now.body) (plainly self.now.id more) →
            Follows layout self.now answers step (slow_down layout (own_of self.now) self.now.id (attempt_at self.now Voting more))) }
    {
        let settled = Settled {
            t: tally.greatest().unwrap_or(Stamp::ZERO),
            deps: tally.deps().copy()?,
        };
        self.propose(settled)
    }

    // What the votes with the newest one make.
    fn after_vote(&self, topology: &Topology, tally: Kept<Tally>) -> Result<Step, OutOfMemory>
        ensures { IfOk result (λ step. (answers more : List Letter) → IsPlaced topology.now self.now →
            Tallies tally (shards_used topology.now self.now.body) (plainly self.now.id more) →
            Follows topology.now self.now answers step (after_vote topology.now (own_of self.now) self.now.id (attempt_at self.now Voting more))) }
    {
        let votes = tally.get();
        if votes.fast_everywhere(topology) {
            let deps = votes.deps().copy()?;
            return self.decide(Path::Fast, Settled { t: self.id.0, deps });
        }
        if votes.majority_everywhere(topology) && votes.fast_lost(topology) {
            return self.slow_down(votes);
        }
        Ok(silent(self.allocator(), Next::Stage(Stage::Votes(tally))))
    }

    /// A store votes.
    pub(crate) fn on_vote(
        &self,
        topology: &Topology,
        store: Actor,
        vote: Stamp,
        deps: &Deps,
    ) -> Result<Step, OutOfMemory>
        ensures { IfOk result (λ step. (to : AnyActor) (id : TxnId) (ballot : AnyBallot) (answers : List Letter) → Keeps topology.now self.now answers →
            Follows topology.now self.now answers step (on_message topology.now (own_of self.now) self.now.id (attempt_in self.now answers) (PreAcceptOk store to id ballot vote deps.now))) }
    {
        match &self.stage {
            Stage::Votes(tally) => match self.counted(topology, tally, store, vote, deps)? {
                Some(tally) => self.after_vote(topology, tally),
                None => Ok(silent(self.allocator(), Next::Same)),
            },
            Stage::Accepts(_, _) | Stage::Commits(_, _) | Stage::Reads(_, _) => {
                Ok(silent(self.allocator(), Next::Same))
            }
        }
    }

    /// The step that gives the fast path up.
    pub(crate) fn slow_step(&self, topology: &Topology) -> Result<Step, SlowError>
        requires { IsTrue (is_voting self.now) }
        ensures ok { IfOk result (λ step. (answers : List Letter) → Keeps topology.now self.now answers →
            SlowStepIs topology.now self.now answers step) }
        ensures no_quorum { IfErr result (λ error. error ≡ Refused.NoQuorum → (answers : List Letter) → Keeps topology.now self.now answers →
            majority_everywhere topology.now self.now.id self.now.body answers ≡ false) }
        ensures no_memory { IfErr result (λ error. error ≡ Refused.OutOfMemory → (answers : List Letter) → Keeps topology.now self.now answers →
            majority_everywhere topology.now self.now.id self.now.body answers ≡ true) }
    {
        match &self.stage {
            Stage::Votes(tally) => {
                let tally = tally.get();
                if !tally.majority_everywhere(topology) {
                    return Err(SlowError::NoQuorum);
                }
                let step = self.slow_down(tally)?;
                Ok(step)
            }
            Stage::Accepts(_, _) | Stage::Commits(_, _) | Stage::Reads(_, _) => unreachable!(),
        }
    }
}
