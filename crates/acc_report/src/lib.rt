//! The report of a run: what it says of each item, and its text.
#![tactic(auto)]

mod item_lines;
mod names;
mod notes;
mod numbers;
mod parts;
mod report;
mod skips;
mod summary;

pub use item_lines::line;
pub use names::Directory;
pub use report::text;
