//! One store: its steps, what a planned step would send, and what it tells of a key without a message.
#![tactic(auto)]

pub mod laws;
mod queries;
mod steps;
mod store;

pub use steps::Prepared;
pub use store::Store;
