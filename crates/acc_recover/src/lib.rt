//! Recovery: what a node that takes a transaction over asks the stores, and how it goes on with what they answer. The terms are
//! those of CEP-15, after the paper by Elliott Smith, Zhang, Eggleston and Andreas.
#![tactic(auto)]

mod adopted;
mod judged;
mod ranking;
mod recovery;
mod ruling;
mod waits;

pub use judged::Judged;
pub use ranking::rank;
pub use recovery::Recovery;
