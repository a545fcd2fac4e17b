//! What a message makes of a coordinator, before it is made.

ghost use Rattle.std.specs.Prelude.{◌≡◌};
ghost use Rattle.acc_message.specs.Coordinator.{silence};

use crate::reads::Reads;
use acc_base::Kept;
use acc_deps::Settled;
use acc_message::{Emitted, Messages, Notes};
use acc_tally::Tally;
use std::alloc::Global;

/// What a coordinator waits for.
#[derive(Debug, Drop)]
pub(crate) enum Stage {
    /// Votes.
    Votes(Kept<Tally>),
    /// Stores that accept the proposal.
    Accepts(Settled, Kept<Tally>),
    /// Stores that have committed.
    Commits(Settled, Kept<Tally>),
    /// The cells that the decided transaction reads.
    Reads(Settled, Reads),
}

/// What becomes of the stage.
#[derive(Debug, Drop)]
pub(crate) enum Next {
    /// All stays.
    Same,
    /// The coordinator goes on with this.
    Stage(Stage),
    /// The attempt ends.
    Ended,
}

/// What a step emits, and what becomes of the stage.
#[derive(Debug, Drop)]
pub(crate) struct Step {
    pub(crate) emitted: Emitted,
    pub(crate) next: Next,
}

/// A step that emits nothing.
pub(crate) fn silent(alloc: Global, next: Next) -> Step
    ensures emitted { result.emitted ≡ silence }
    ensures next { result.next ≡ next }
{
    Step {
        emitted: Emitted {
            notes: Notes::new(alloc),
            out: Messages::new(alloc),
        },
        next,
    }
}
