//! The first answers of stores to an attempt, and the quorums that they make. The terms are those of CEP-15, after the paper by
//! Elliott Smith, Zhang, Eggleston and Andreas.
#![tactic(auto)]

mod listing;
mod marks;
mod tally;

pub use listing::{is_store, stores};
pub use tally::Tally;
