//! What a fault stopped, and what a restart found of it.
ghost use Rattle.std.specs.Prelude.{◌≡◌, ◌<◌, [], ◌∷◌, ◌++◌, vec_len, vec_capacity};
ghost use Rattle.acc_payloads.specs.Stops.{told as told_of};

use acc_base::{OutOfMemory, Sequence};
use acc_message::{Emitted, Event};
use std::alloc::Global;
use std::mem;

/// A step that didn't go out: it is staged, or a fault of the disk stopped it.
#[derive(Debug, Drop)]
pub struct Unsent {
    /// What the actor took.
    pub event: Event,
    /// What the step gives, or would have given.
    pub emitted: Emitted,
}

/// Such steps, in the order in which the actor took them.
pub type Unsents = Sequence<Unsent>;

/// What a restart leads to.
#[derive(Debug, Drop)]
pub enum Restarted {
    /// The actor is up.
    Up {
        /// The steps that were stopped, where the journal kept them. It keeps all of them or none.
        kept: Unsents,
    },
    /// A call of the disk failed, and the actor is down as before.
    Down,
}

/// What a restart tells, and what is still stopped. `found` says whether the journal has more payloads than were held, and nothing of
/// that where the disk failed.
pub fn told(
    alloc: Global,
    found: Result<Option<bool>, OutOfMemory>,
    stopped: Vec<Unsent>,
) -> (Result<Restarted, OutOfMemory>, Vec<Unsent>)
    ensures { (result.0, result.1.items) ≡ told_of found stopped.items }
{
    match found {
        Ok(Some(true)) => {
            let kept = Unsents::from_vec(stopped);
            (Ok(Restarted::Up { kept }), Vec::new(alloc))
        }
        Ok(Some(false)) => {
            let kept = Unsents::new(alloc);
            (Ok(Restarted::Up { kept }), Vec::new(alloc))
        }
        Ok(None) => (Ok(Restarted::Down), stopped),
        Err(error) => (Err(error), stopped),
    }
}

/// Puts a step after the others. There is room for it.
pub fn put(unsents: &mut Vec<Unsent>, unsent: Unsent)
    requires { vec_len unsents.old < vec_capacity unsents.old }
    ensures { unsents.new.items ≡ unsents.old.items ++ unsent ∷ [] }
{
    match unsents.push(unsent) {
        Ok(()) => {}
        Err(_) => unreachable!(),
    }
}

/// Takes all of them out.
pub fn take_all(alloc: Global, unsents: &mut Vec<Unsent>) -> Unsents
    ensures given { result ≡ unsents.old.items }
    ensures none { unsents.new.items ≡ [] }
{
    Unsents::from_vec(mem::replace(unsents, Vec::new(alloc)))
}
