//! The messages that go to all stores.
ghost use Rattle.std.specs.Prelude.{◌≡◌, [], map, IfOk};
ghost use Rattle.acc_coord.specs.Stands.{own_of};
ghost use Rattle.acc_coord.specs.Rounds.{message_to, question_to, apply_to};

use crate::coord::Coord;
use acc_base::OutOfMemory;
use acc_deps::Settled;
use acc_message::{Message, Messages, SharedOutcome};
use acc_stamp::{Actor, Ballot, home};
use std::alloc::Global;

/// Which message goes to all stores with a timestamp and dependencies.
#[derive(Clone, Copy, Debug, PartialEq, Eq)]
pub(crate) enum Round {
    /// An Accept.
    Propose,
    /// A Commit.
    Fix,
    /// A Stable.
    Decided,
}

impl Coord {
    /// The allocator of what the coordinator makes.
    pub(crate) fn allocator(&self) -> Global {
        self.stores.allocator()
    }

    /// The node that runs the attempt.
    pub(crate) fn own(&self) -> Actor
        ensures { result ≡ own_of self.now }
    {
        home(self.id, self.ballot)
    }

    // A list with room for a message to each store and so many more.
    fn round(&self, more: usize) -> Result<Messages, OutOfMemory>
        ensures { IfOk result (λ out. out ≡ []) }
    {
        let room = self.stores.len().saturating_add(more);
        Ok(Messages::from_vec(Vec::with_capacity(self.allocator(), room)?))
    }

    // How many messages may tell of an outcome besides those to the stores: an Inform, where the attempt took the transaction over.
    fn more_to_finish(&self) -> usize {
        if self.ballot == Ballot::ZERO { 0 } else { 1 }
    }

    fn question(&self, store: Actor) -> Result<Message, OutOfMemory>
        ensures { IfOk result (λ m. m ≡ question_to self.now store) }
    {
        Ok(Message::PreAccept {
            from: self.own(),
            to: store,
            id: self.id,
            ballot: self.ballot,
            body: self.body.copy()?,
        })
    }

    /// A PreAccept to each store.
    pub(crate) fn ask_for_votes(&self) -> Result<Messages, OutOfMemory>
        ensures { IfOk result (λ out. out ≡ map (question_to self.now) self.now.stores) }
    {
        let mut out = self.round(0)?;
        for store in self.stores.as_slice() {
            out.push(self.question(*store)?)?;
        }
        Ok(out)
    }

    // The message of a round to one store.
    fn message(&self, round: Round, settled: &Settled, store: Actor) -> Result<Message, OutOfMemory>
        ensures { IfOk result (λ m. m ≡ message_to self.now round settled.now store) }
    {
        let (from, id, ballot, t) = (self.own(), self.id, self.ballot, settled.t);
        let body = self.body.copy()?;
        let deps = settled.deps.copy()?;
        match round {
            Round::Propose => Ok(Message::Accept {
                from,
                to: store,
                id,
                ballot,
                body,
                t,
                deps,
            }),
            Round::Fix => Ok(Message::Commit {
                from,
                to: store,
                id,
                ballot,
                body,
                t,
                deps,
            }),
            Round::Decided => Ok(Message::Stable {
                from,
                to: store,
                id,
                ballot,
                body,
                t,
                deps,
            }),
        }
    }

    /// The message of a round to each store.
    pub(crate) fn send(&self, round: Round, settled: &Settled) -> Result<Messages, OutOfMemory>
        ensures { IfOk result (λ out. out ≡ map (message_to self.now round settled.now) self.now.stores) }
    {
        let mut out = self.round(0)?;
        for store in self.stores.as_slice() {
            out.push(self.message(round, settled, *store)?)?;
        }
        Ok(out)
    }

    fn apply(
        &self,
        settled: &Settled,
        outcome: &SharedOutcome,
        store: Actor,
    ) -> Result<Message, OutOfMemory>
        ensures { IfOk result (λ m. m ≡ apply_to self.now settled.now outcome.now store) }
    {
        Ok(Message::Apply {
            from: self.own(),
            to: store,
            id: self.id,
            ballot: self.ballot,
            body: self.body.copy()?,
            t: settled.t,
            deps: settled.deps.copy()?,
            outcome: outcome.copy()?,
        })
    }

    /// An Apply to each store.
    pub(crate) fn apply_all(
        &self,
        settled: &Settled,
        outcome: &SharedOutcome,
    ) -> Result<Messages, OutOfMemory>
        ensures { IfOk result (λ out. out ≡ map (apply_to self.now settled.now outcome.now) self.now.stores) }
    {
        let mut out = self.round(self.more_to_finish())?;
        for store in self.stores.as_slice() {
            out.push(self.apply(settled, outcome, *store)?)?;
        }
        Ok(out)
    }
}
