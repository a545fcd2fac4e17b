//! What a store keeps of a transaction, and what it reveals to a recovery.
ghost use Rattle.std.specs.Prelude.{◌≡◌, IfOk};

use crate::deps::Deps;
use acc_base::{Duplicate, OutOfMemory};
use acc_stamp::{Actor, Ballot, Ids, Stamp};
use std::alloc::Global;
use std::marker::Model;
use std::sync::Arc;

/// A timestamp and dependencies that an attempt proposed or committed, with its ballot.
#[derive(Debug, PartialEq, Eq, Drop)]
pub struct Accepted {
    /// The ballot of the attempt.
    pub ballot: Ballot,
    /// The timestamp at which the transaction is to execute.
    pub t: Stamp,
    /// The transactions that are to go before it where their timestamps are smaller.
    pub deps: Deps,
}

impl Accepted {
    /// An equal value, in memory of its own.
    pub fn copy(&self) -> Result<Accepted, OutOfMemory>
        ensures { IfOk result (λ copy. copy ≡ self.now) }
    {
        Ok(Accepted {
            ballot: self.ballot,
            t: self.t,
            deps: self.deps.copy()?,
        })
    }
}

impl Duplicate for Accepted {
    fn copy(&self) -> Result<Accepted, OutOfMemory> {
        Accepted::copy(self)
    }
}

/// What an attempt proposed or committed, in a place that copies share, so that what lacks it stays small. Contracts see what stands there.
#[derive(Debug, Drop)]
pub struct SharedAccepted {
    accepted: Arc<Accepted, Global>,
}

impl Model for SharedAccepted {
    ghost use Rattle.std.specs.Arc.{arc_value};
    ghost use Rattle.acc_deps.specs.declared.records.Accepted.{Accepted as Proposed};

    ghost Value = { Proposed };

    ghost view = { λ s. arc_value s.accepted };
}

impl SharedAccepted {
    /// The same, which may be shared now.
    pub fn new(alloc: Global, accepted: Accepted) -> Result<SharedAccepted, OutOfMemory>
        ensures { IfOk result (λ shared. shared ≡ accepted) }
    {
        Ok(SharedAccepted {
            accepted: Arc::new(alloc, accepted)?,
        })
    }

    /// What stands there.
    pub fn accepted(&self) -> &Accepted
        ensures { result.now ≡ self.now }
    {
        &self.accepted
    }

    /// The same, shared with this one. It takes no memory of its own.
    pub fn copy(&self) -> Result<SharedAccepted, OutOfMemory>
        ensures { IfOk result (λ copy. copy ≡ self.now) }
    {
        Ok(SharedAccepted {
            accepted: Arc::try_clone(&self.accepted)?,
        })
    }
}

impl Duplicate for SharedAccepted {
    fn copy(&self) -> Result<SharedAccepted, OutOfMemory> {
        SharedAccepted::copy(self)
    }
}

/// A timestamp and dependencies without a ballot, as they are once they are decided.
#[derive(Debug, PartialEq, Eq, Drop)]
pub struct Settled {
    /// The timestamp at which the transaction executes.
    pub t: Stamp,
    /// The transactions that go before it where their timestamps are smaller.
    pub deps: Deps,
}

impl Settled {
    /// An equal value, in memory of its own.
    pub fn copy(&self) -> Result<Settled, OutOfMemory>
        ensures { IfOk result (λ copy. copy ≡ self.now) }
    {
        Ok(Settled {
            t: self.t,
            deps: self.deps.copy()?,
        })
    }
}

impl Duplicate for Settled {
    fn copy(&self) -> Result<Settled, OutOfMemory> {
        Settled::copy(self)
    }
}

/// What a store reveals of a transaction to a recovery.
#[derive(Debug, Drop)]
pub struct View {
    /// The store.
    pub store: Actor,
    /// Its vote for the timestamp.
    pub vote: Stamp,
    /// The dependencies that it gave with the vote.
    pub vote_deps: Deps,
    /// What it accepted last.
    pub accepted: Option<SharedAccepted>,
    /// What was committed at it last.
    pub committed: Option<SharedAccepted>,
    /// What is stable at it.
    pub stable: Option<Settled>,
    /// Whether a conflicting transaction was accepted, or is stable, in a way that rules out a fast decision.
    pub superseded: bool,
    /// The conflicting transactions whose outcome a recovery has to wait for, rising.
    pub waits: Ids,
}

impl View {
    /// An equal value, in memory of its own.
    pub fn copy(&self) -> Result<View, OutOfMemory>
        ensures { IfOk result (λ copy. copy ≡ self.now) }
    {
        let vote_deps = self.vote_deps.copy()?;
        let accepted = self.accepted.copy()?;
        let committed = self.committed.copy()?;
        let stable = self.stable.copy()?;
        let waits = self.waits.copy()?;
        Ok(View {
            store: self.store,
            vote: self.vote,
            vote_deps,
            accepted,
            committed,
            stable,
            superseded: self.superseded,
            waits,
        })
    }
}

impl Duplicate for View {
    fn copy(&self) -> Result<View, OutOfMemory> {
        View::copy(self)
    }
}

/// A view whose copies share it. Contracts see the view.
#[derive(Debug, Drop)]
pub struct SharedView {
    view: Arc<View, Global>,
}

impl Model for SharedView {
    ghost use Rattle.std.specs.Arc.{arc_value};
    ghost use Rattle.acc_deps.specs.declared.records.View.{View as Seen};

    ghost Value = { Seen };

    ghost view = { λ s. arc_value s.view };
}

impl SharedView {
    /// The same view, which may be shared now.
    pub fn new(view: View) -> Result<SharedView, OutOfMemory>
        ensures { IfOk result (λ shared. shared ≡ view) }
    {
        let alloc = view.waits.allocator();
        Ok(SharedView {
            view: Arc::new(alloc, view)?,
        })
    }

    /// The view.
    pub fn view(&self) -> &View
        ensures { result.now ≡ self.now }
    {
        &self.view
    }

    /// The same view, shared with this one. It takes no memory of its own.
    pub fn copy(&self) -> Result<SharedView, OutOfMemory>
        ensures { IfOk result (λ copy. copy ≡ self.now) }
    {
        Ok(SharedView {
            view: Arc::try_clone(&self.view)?,
        })
    }
}

/// The value that a recovery adopts from the stores.
#[derive(Debug, PartialEq, Eq, Drop)]
pub enum Choice {
    /// To be proposed again.
    Accept(Settled),
    /// To be committed again.
    Commit(Settled),
    /// Decided already.
    Stable(Settled),
}

impl Choice {
    /// An equal value, in memory of its own.
    pub fn copy(&self) -> Result<Choice, OutOfMemory>
        ensures { IfOk result (λ copy. copy ≡ self.now) }
    {
        match self {
            Choice::Accept(settled) => Ok(Choice::Accept(settled.copy()?)),
            Choice::Commit(settled) => Ok(Choice::Commit(settled.copy()?)),
            Choice::Stable(settled) => Ok(Choice::Stable(settled.copy()?)),
        }
    }
}

impl Duplicate for Choice {
    fn copy(&self) -> Result<Choice, OutOfMemory> {
        Choice::copy(self)
    }
}
