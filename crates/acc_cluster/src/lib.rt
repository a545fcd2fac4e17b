//! The cluster over disks: the actors of a plan, each with its disk, and the past that they make together.
//!
//! `Cluster` takes the steps of a schedule one by one. What it enters is what the schedule of the plan enters with the answers that the
//! disks gave; over strict disks the plan alone fixes it.
#![tactic(auto)]

mod asking;
mod begun;
mod cluster;
mod draining;
mod ending;
mod entering;
mod opening;
mod over;
mod restarting;
mod stepping;
mod tested;

pub use cluster::Cluster;
pub use ending::{Disks, Ended, Remains};
pub use over::Slots;
pub use tested::TestedCluster;
