//! Writes documents of transactions that are drawn from a seed.
#![tactic(auto)]

mod cluster;
mod document;
mod draws;
pub mod laws;
mod names;
mod schedule;
mod texts;
mod transactions;

pub use document::generate;
