//! What calm runs promise, and how many messages a run has. They speak of lists of items, and of no code of stores and nodes.
#![tactic(auto)]

pub mod laws;
