//! Items: what a run consists of.
ghost use Rattle.std.specs.Prelude.{◌≡◌, IfOk};
ghost use Rattle.acc_message.specs.Items.{sent_in, noted_in};

use crate::entry::Entry;
use crate::message::Message;
use crate::note::Note;
use acc_base::{Duplicate, OutOfMemory};
use acc_stamp::Actor;

/// Why a step of a schedule was passed over.
#[derive(Clone, Copy, Debug, PartialEq, Eq)]
pub enum Skip {
    /// So few messages were sent that none has the number.
    NoMessage { number: u64, sent: u64 },
    /// The actor is down.
    Down { actor: Actor },
    /// The transaction was begun before.
    Begun { txn: u32 },
    /// There is no such transaction to recover, or no attempt at it to slow down.
    Unknown { txn: u32 },
    /// The attempt can't be slowed down, since some shard has no majority of answers.
    NoQuorum { txn: u32 },
}

/// An item of a run.
#[derive(Debug, Drop)]
pub enum Item {
    /// An actor stepped.
    Step(Entry),

    /// A step of the schedule, which is named by its number, was passed over.
    Skipped { step: u32, cause: Skip },

    /// An actor went down.
    Down { actor: Actor },
}

impl Item {
    /// An equal item, in memory of its own.
    pub fn copy(&self) -> Result<Item, OutOfMemory>
        ensures { IfOk result (λ copy. copy ≡ self.now) }
    {
        match self {
            Item::Step(entry) => Ok(Item::Step(entry.copy()?)),
            Item::Skipped { step, cause } => Ok(Item::Skipped {
                step: *step,
                cause: *cause,
            }),
            Item::Down { actor } => Ok(Item::Down { actor: *actor }),
        }
    }
}

impl Duplicate for Item {
    fn copy(&self) -> Result<Item, OutOfMemory> {
        Item::copy(self)
    }
}

/// The messages that an item sent, those of a lost entry too.
pub fn sent_by(item: &Item) -> &[Message]
    ensures { result.now ≡ sent_in item.now }
{
    match item {
        Item::Step(entry) => entry.emitted.out.as_slice(),
        Item::Skipped { .. } | Item::Down { .. } => &[],
    }
}

/// The notes that an item made, those of a lost entry too.
pub fn notes_of(item: &Item) -> &[Note]
    ensures { result.now ≡ noted_in item.now }
{
    match item {
        Item::Step(entry) => entry.emitted.notes.as_slice(),
        Item::Skipped { .. } | Item::Down { .. } => &[],
    }
}
