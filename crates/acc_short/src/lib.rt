//! Whether messages fit their format, as a test.
#![tactic(auto)]

mod deps;
mod message;
mod outcome;
mod waits;

pub use message::{are_sendable, is_short};
