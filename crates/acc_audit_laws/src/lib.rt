//! What it means that no line of a report breaks a rule, and that no line of this program's own reports does.
#![tactic(auto)]

pub mod laws;
pub mod reports;
pub mod runs;
