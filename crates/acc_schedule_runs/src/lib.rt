//! Runs that obey a schedule: over any disks, over strict disks, and up to a limit.
#![tactic(auto)]

pub mod follow;
pub mod limits;
pub mod strict;
