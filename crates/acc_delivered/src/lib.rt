//! What becomes of an attempt at a transaction once all its messages are delivered. It holds of every run.
#![tactic(auto)]

pub mod laws;
