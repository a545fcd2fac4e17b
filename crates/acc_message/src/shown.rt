//! Items without their messages.
ghost use Rattle.std.specs.Prelude.{◌≡◌};
ghost use Rattle.acc_message.specs.Items.{sent_in};
ghost use Rattle.acc_message.specs.Shown.{with_sent};

use crate::entry::Event;
use crate::item::{Item, Skip};
use crate::note::Note;
use acc_stamp::Actor;

/// An item as a list of items shows it: all but the messages that it sent.
#[derive(Clone, Copy, Debug)]
pub enum Shown<'a> {
    /// An actor stepped.
    Step {
        /// Who stepped.
        actor: Actor,
        /// Whether its messages went nowhere.
        lost: bool,
        /// What it took.
        event: Event,
        /// What it noted.
        notes: &'a [Note],
    },

    /// A step of the schedule, which is named by its number, was passed over.
    Skipped {
        step: u32,
        cause: Skip,
    },

    /// An actor went down.
    Down {
        actor: Actor,
    },
}

impl<'a> Shown<'a> {
    /// What an item shows.
    pub fn of(item: &'a Item) -> Shown<'a>
        ensures { with_sent result (sent_in item.now) ≡ item.now }
    {
        match item {
            Item::Step(entry) => Shown::Step {
                actor: entry.actor,
                lost: entry.lost,
                event: entry.event,
                notes: entry.emitted.notes.as_slice(),
            },
            Item::Skipped { step, cause } => Shown::Skipped {
                step: *step,
                cause: *cause,
            },
            Item::Down { actor } => Shown::Down { actor: *actor },
        }
    }
}
