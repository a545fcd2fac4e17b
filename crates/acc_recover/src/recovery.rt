//! A recovery: the attempt of a node that takes a transaction over.
ghost use Rattle.std.specs.Prelude.{◌≡◌, ◌≤◌, true, false, map, IfOk, OnErr};
ghost use Rattle.acc_stamp.specs.declared.actors.Actor.{Actor};
ghost use Rattle.acc_stamp.specs.declared.stamps.TxnId.{TxnId};
ghost use Rattle.acc_stamp.specs.Actor.{home_of, node_of, shard_of};
ghost use Rattle.acc_topology.specs.Layout.{Layout, IsLayout};
ghost use Rattle.acc_topology.specs.Sets.{members};
ghost use Rattle.acc_message.specs.Shares.{shards_used, is_store_of};
ghost use Rattle.acc_stamp.specs.Stamp.{ballot_eq, zero_ballot};
ghost use Rattle.acc_message.specs.Attempts.{Attempt};
ghost use Rattle.acc_message.specs.Coordinator.{recovering, ask_for_views};
ghost use Rattle.acc_recover.specs.Stands.{StandsFor, Judges, WouldJudge, KeepsUnlessWaits};

use crate::judged::Judged;
use crate::ruling::ruling;
use acc_base::{OutOfMemory, Sequence};
use acc_deps::View;
use acc_message::{Envelope, Message, Messages};
use acc_stamp::{Actor, Ballot, TxnId, home};
use acc_tally::{Tally, is_store, stores};
use acc_topology::{ShardSet, Topology};
use acc_txn::Body;

/// An attempt in its first phase, which asks the stores of a transaction for what they know of it.
#[derive(Debug, Drop)]
pub struct Recovery {
    id: TxnId,
    ballot: Ballot,
    body: Body,
    shards: ShardSet,
    tally: Tally,
    views: Sequence<View>,
}

impl Recovery {
    /// Begins a recovery, and gives the messages that ask the stores. Its ballot is one that was drawn for it.
    pub fn begin(
        topology: &Topology,
        id: TxnId,
        ballot: Ballot,
        body: Body,
    ) -> Result<(Recovery, Messages), OutOfMemory>
        requires is_recovery { ballot_eq ballot zero_ballot ≡ false }
        ensures stands { IfOk result (λ begun. StandsFor topology.now id begun.0 (recovering ballot body)) }
        ensures asks { IfOk result (λ begun. begun.1 ≡ ask_for_views topology.now (home_of id ballot) id ballot body) }
    {
        let alloc = body.parts().lets.allocator();
        let shards = topology.shards_of(body.uses());
        let messages = ask(topology, shards, id, ballot, &body)?;
        let recovery = Recovery {
            id,
            ballot,
            body,
            shards,
            tally: Tally::new(alloc, shards),
            views: Sequence::new(alloc),
        };
        Ok((recovery, messages))
    }

    /// The ballot of the attempt.
    pub fn ballot(&self) -> Ballot
        ensures { (layout : Layout) (x : TxnId) (a : Attempt) → StandsFor layout x self.now a → result ≡ a.ballot }
    {
        self.ballot
    }

    /// The body of the transaction.
    pub fn body(&self) -> &Body
        ensures { (layout : Layout) (x : TxnId) (a : Attempt) → StandsFor layout x self.now a → result.now ≡ a.body }
    {
        &self.body
    }

    /// Takes a message about the transaction. Where the answer is `Wait` the recovery goes on; with each other answer it is over,
    /// and stays as it was. A message of another attempt, and an answer that doesn't count, change nothing. Without memory for
    /// what is to be kept or answered all is as before.
    pub fn on_answer(&mut self, topology: &Topology, m: &Message) -> Result<Judged, OutOfMemory>
        ensures ok { IfOk result (λ judged. (x : TxnId) → (a : Attempt) → StandsFor topology.now x self.old a → Judges topology.now x self.new a m.now judged) }
        ensures kept { IfOk result (λ judged. KeepsUnlessWaits self.old self.new judged) }
        ensures err { OnErr result (self.new ≡ self.old) }
    {
        if m.ballot() != self.ballot {
            return Ok(Judged::Wait);
        }
        match m {
            Message::RecoverOk { from, view, .. } => {
                if is_store(topology, self.shards, *from) {
                    self.on_view(topology, *from, view.view())
                } else {
                    Ok(Judged::Wait)
                }
            }
            Message::Nack { promised, .. } if self.ballot < *promised => {
                Ok(Judged::Ended(*promised))
            }
            _ => Ok(Judged::Wait),
        }
    }

    // Takes what a store of the transaction knows of it.
    fn on_view(
        &mut self,
        topology: &Topology,
        store: Actor,
        view: &View,
    ) -> Result<Judged, OutOfMemory>
        requires valid { IsLayout topology.now }
        requires shard { shard_of store ≤ 15 }
        requires node { node_of store ≤ 15 }
        ensures ok { IfOk result (λ judged. (x y : TxnId) → (a : Attempt) → (to : Actor) → StandsFor topology.now x self.old a
            → is_store_of topology.now self.old.body store ≡ true
            → Judges topology.now x self.new a (Message.RecoverOk store to y self.old.ballot view.now) judged) }
        ensures kept { IfOk result (λ judged. KeepsUnlessWaits self.old self.new judged) }
        ensures err { OnErr result (self.new ≡ self.old) }
    {
        let mut tally = self.tally.copy()?;
        let unchanged = view.vote == self.id.0;
        if !tally.first(store, unchanged, view.vote, &view.vote_deps)? {
            return Ok(Judged::Wait);
        }
        if tally.majority_everywhere(topology) {
            return ruling(topology, self.id, &tally, view, self.views.as_slice());
        }
        self.views.insert(0, view.copy()?)?;
        self.tally = tally;
        Ok(Judged::Wait)
    }

    /// What `on_answer` would answer to a message, without a change.
    pub fn judge(&self, topology: &Topology, m: &Message) -> Result<Judged, OutOfMemory>
        ensures { IfOk result (λ judged. (x : TxnId) → (a : Attempt) → StandsFor topology.now x self.now a → WouldJudge topology.now x a m.now judged) }
    {
        if m.ballot() != self.ballot {
            return Ok(Judged::Wait);
        }
        match m {
            Message::RecoverOk { from, view, .. } => {
                if is_store(topology, self.shards, *from) {
                    self.judge_view(topology, *from, view.view())
                } else {
                    Ok(Judged::Wait)
                }
            }
            Message::Nack { promised, .. } if *promised > self.ballot => {
                Ok(Judged::Ended(*promised))
            }
            _ => Ok(Judged::Wait),
        }
    }

    // What would be answered to a store of the transaction.
    fn judge_view(
        &self,
        topology: &Topology,
        store: Actor,
        view: &View,
    ) -> Result<Judged, OutOfMemory>
        requires valid { IsLayout topology.now }
        requires shard { shard_of store ≤ 15 }
        requires node { node_of store ≤ 15 }
        ensures { IfOk result (λ judged. (x y : TxnId) → (a : Attempt) → (to : Actor) → StandsFor topology.now x self.now a
            → is_store_of topology.now self.now.body store ≡ true
            → WouldJudge topology.now x a (Message.RecoverOk store to y self.now.ballot view.now) judged) }
    {
        let mut tally = self.tally.copy()?;
        let unchanged = view.vote == self.id.0;
        if !tally.first(store, unchanged, view.vote, &view.vote_deps)? {
            return Ok(Judged::Wait);
        }
        if tally.majority_everywhere(topology) {
            return ruling(topology, self.id, &tally, view, self.views.as_slice());
        }
        Ok(Judged::Wait)
    }
}

// The messages that ask the stores of the shards for what they know.
fn ask(
    topology: &Topology,
    shards: ShardSet,
    id: TxnId,
    ballot: Ballot,
    body: &Body,
) -> Result<Messages, OutOfMemory>
    requires { members shards ≡ shards_used topology.now body.now }
    ensures { IfOk result (λ messages. messages ≡ ask_for_views topology.now (home_of id ballot) id ballot body.now) }
{
    let asked = stores(body.parts().lets.allocator(), topology, shards)?;
    ask_all(asked.as_slice(), home(id, ballot), id, ballot, body)
}

fn ask_all(
    stores: &[Actor],
    from: Actor,
    id: TxnId,
    ballot: Ballot,
    body: &Body,
) -> Result<Messages, OutOfMemory>
    ensures { IfOk result (λ messages. messages ≡ map (λ store. Message.Recover from store id ballot body.now) stores.now) }
{
    let mut messages = Messages::new(body.parts().lets.allocator());
    messages.reserve(stores.len())?;
    for to in stores {
        let envelope = Envelope {
            from,
            to: *to,
            id,
            ballot,
        };
        messages.push(envelope.recover(body.copy()?))?;
    }
    Ok(messages)
}
