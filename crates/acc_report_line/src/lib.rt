//! A line of a report, and how it is written.
#![tactic(auto)]

mod line;

pub use line::{Line, Lines, Names};
