//! The coordinator of one attempt at a transaction: how it goes from the votes of the stores to a decision and to an outcome.
//! The terms are those of CEP-15, after the paper by Elliott Smith, Zhang, Eggleston and Andreas.
#![tactic(auto)]

mod acks;
mod coord;
mod counted;
mod decided;
mod error;
mod outcome;
mod reads;
mod rounds;
mod step;
mod taken;
mod votes;
mod weigh;

pub use coord::Coord;
pub use error::SlowError;
