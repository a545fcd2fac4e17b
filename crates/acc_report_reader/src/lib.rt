//! Reads reports that were printed in lines or in summary, whoever printed them.
#![tactic(auto)]

mod cells;
mod counts;
mod error;
mod fields;
pub mod laws;
mod lines;
mod notes;
mod numbers;
mod parts;
mod placed;
mod refusal;
mod report;
mod skips;

pub use error::ReportError;
pub use placed::{PlacedForm, PlacedLine, PlacedLines, PlacedNames};
pub use report::read_report;
