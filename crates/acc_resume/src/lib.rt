//! A cluster that goes on from the journals of an earlier run: each actor is opened from its journal, as after a crash
//! of the whole cluster, and takes the steps of a plan.
#![tactic(auto)]

mod disks;
mod nodes;
mod opening;
mod resuming;
mod steps;
mod stores;

pub use acc_left::{leave, read_left, roll};
pub use resuming::resume;
