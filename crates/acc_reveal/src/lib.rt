//! What a store reveals of a transaction to a recovery.
#![tactic(auto)]

mod evidence;
mod recover;
mod view;

pub use recover::prepare_recover;
