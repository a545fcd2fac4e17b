//! The plan of a step: which transactions a store opens and applies when one becomes stable or gets its outcome, told by its
//! records, and who waits for whom then.
#![tactic(auto)]

pub mod laws;
mod layer;
mod lookup;
mod plan;
mod queue;
mod read;
pub mod read_laws;
mod releasing;
mod scan;
mod touched;
mod turns;

pub use lookup::record_of;
pub use plan::{Known, Plan, planned};
pub use read::{Place, read_here};
pub use releasing::{Released, release};
pub use touched::{Touched, TouchedWaits};
pub use turns::Turn;
