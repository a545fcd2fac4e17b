//! Items without their notes and messages.
ghost use Rattle.std.specs.Prelude.{◌≡◌, List};
ghost use Rattle.acc_message.specs.declared.message.Message.{Message as AMessage};
ghost use Rattle.acc_message.specs.declared.note.Note.{Note as ANote};
ghost use Rattle.acc_message.specs.declared.item.Item.TheVariants.{Skipped as SkippedItem};
ghost use Rattle.acc_message.specs.Shown.{with_sent};
ghost use Rattle.acc_message.specs.Joined.{item_of, is_step_of};

use crate::entry::Event;
use crate::item::Skip;
use crate::note::Note;
use crate::shown::Shown;
use acc_stamp::Actor;

/// An item without its notes and messages. Each reason to pass a step over is a variant of its own, and the small fields come
/// first, so that none takes more memory than an actor's step.
#[derive(Clone, Copy, Debug)]
pub(crate) enum Bare {
    Step {
        lost: bool,
        actor: Actor,
        event: Event,
    },
    NoMessage {
        step: u32,
        number: u64,
        sent: u64,
    },
    ToDown {
        step: u32,
        actor: Actor,
    },
    Begun {
        step: u32,
        txn: u32,
    },
    Unknown {
        step: u32,
        txn: u32,
    },
    NoQuorum {
        step: u32,
        txn: u32,
    },
    Down {
        actor: Actor,
    },
}

impl Bare {
    /// A step of the schedule that was passed over.
    pub(crate) fn skipped(step: u32, cause: Skip) -> Bare
        ensures { (notes : List ANote) (out : List AMessage) → item_of result notes out ≡ SkippedItem step cause }
    {
        match cause {
            Skip::NoMessage { number, sent } => Bare::NoMessage { step, number, sent },
            Skip::Down { actor } => Bare::ToDown { step, actor },
            Skip::Begun { txn } => Bare::Begun { step, txn },
            Skip::Unknown { txn } => Bare::Unknown { step, txn },
            Skip::NoQuorum { txn } => Bare::NoQuorum { step, txn },
        }
    }

    /// Whether an actor stepped.
    #[inline(always)]
    pub(crate) fn is_step(&self) -> bool
        ensures { result ≡ is_step_of self.now }
    {
        matches!(self, Bare::Step { .. })
    }

    /// What the item with these notes shows.
    pub(crate) fn shown<'a>(&self, notes: &'a [Note]) -> Shown<'a>
        ensures { (out : List AMessage) → with_sent result out ≡ item_of self.now notes.now out }
    {
        match *self {
            Bare::Step { lost, actor, event } => Shown::Step {
                actor,
                lost,
                event,
                notes,
            },
            Bare::NoMessage { step, number, sent } => {
                let cause = Skip::NoMessage { number, sent };
                Shown::Skipped { step, cause }
            }
            Bare::ToDown { step, actor } => {
                let cause = Skip::Down { actor };
                Shown::Skipped { step, cause }
            }
            Bare::Begun { step, txn } => {
                let cause = Skip::Begun { txn };
                Shown::Skipped { step, cause }
            }
            Bare::Unknown { step, txn } => {
                let cause = Skip::Unknown { txn };
                Shown::Skipped { step, cause }
            }
            Bare::NoQuorum { step, txn } => {
                let cause = Skip::NoQuorum { txn };
                Shown::Skipped { step, cause }
            }
            Bare::Down { actor } => Shown::Down { actor },
        }
    }
}
