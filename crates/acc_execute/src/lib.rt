//! A store's steps on Stable and Apply, and what these open and apply.
#![tactic(auto)]

mod commit;
pub mod laws;
pub mod opened_laws;
mod own;
mod present;
mod readiness;
mod shown;
mod step;
mod waits;

pub use readiness::ready;
pub use step::{PreparedStep, prepare_apply, prepare_stable, take_apply, take_stable};
