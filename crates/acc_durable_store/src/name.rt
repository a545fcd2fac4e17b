//! Which store it is.
use acc_stamp::Actor;

/// What a store over a disk is opened as.
#[derive(Clone, Copy, Debug)]
pub struct StoreName {
    /// Its actor.
    pub actor: Actor,
    /// The version of its journal, 1 or 2.
    pub version: u8,
}
