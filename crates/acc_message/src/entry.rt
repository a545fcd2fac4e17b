//! Entries: the steps of actors.
ghost use Rattle.std.specs.Prelude.{◌≡◌, IfOk};

use crate::message::Messages;
use crate::note::Notes;
use acc_base::{Duplicate, OutOfMemory};
use acc_stamp::Actor;

/// What an actor takes in one step. A message is named by its number in the order of sending, from 0 over the whole run.
#[derive(Clone, Copy, Debug, PartialEq, Eq)]
pub enum Event {
    /// A node begins a transaction, which is named by its number.
    Begin { txn: u32 },
    /// A node takes a transaction over.
    Recover { txn: u32 },
    /// The first coordinator gives the fast path up.
    Slow { txn: u32 },
    /// An actor takes a message.
    Message { number: u64 },
    /// An actor comes back from its journal, which kept so many entries whose messages went nowhere.
    Restart { kept: u32 },
}

/// What a step emits: notes in the order of the rules, and messages in the order in which they are sent.
#[derive(Debug, Drop)]
pub struct Emitted {
    pub notes: Notes,
    pub out: Messages,
}

impl Emitted {
    /// An equal value, in memory of its own.
    pub fn copy(&self) -> Result<Emitted, OutOfMemory>
        ensures { IfOk result (λ copy. copy ≡ self.now) }
    {
        Ok(Emitted {
            notes: self.notes.copy()?,
            out: self.out.copy()?,
        })
    }
}

impl Duplicate for Emitted {
    fn copy(&self) -> Result<Emitted, OutOfMemory> {
        Emitted::copy(self)
    }
}

/// One step of one actor.
#[derive(Debug, Drop)]
pub struct Entry {
    /// Who stepped.
    pub actor: Actor,
    /// Whether its messages went nowhere, since the actor went down in the step.
    pub lost: bool,
    /// What it took.
    pub event: Event,
    /// What it noted and sent.
    pub emitted: Emitted,
}

impl Entry {
    /// An equal entry, in memory of its own.
    pub fn copy(&self) -> Result<Entry, OutOfMemory>
        ensures { IfOk result (λ copy. copy ≡ self.now) }
    {
        Ok(Entry {
            actor: self.actor,
            event: self.event,
            emitted: self.emitted.copy()?,
            lost: self.lost,
        })
    }
}

impl Duplicate for Entry {
    fn copy(&self) -> Result<Entry, OutOfMemory> {
        Entry::copy(self)
    }
}
