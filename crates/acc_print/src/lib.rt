//! Prints the body of a transaction as its canonical text.
#![tactic(auto)]

mod body;
mod keys;
pub mod laws;
mod numbers;
mod reread;
mod sums;

pub use body::print;
pub use reread::{print_and_parse, print_and_parse_v2};
