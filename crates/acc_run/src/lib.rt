//! The run of a plan over disks.
#![tactic(auto)]

mod ending;
mod opening;
mod run;
mod steps;

pub use ending::give_back;
pub use opening::opened;
pub use run::run_plan;
pub use steps::take_all;
