//! What is promised of a run, and laws of every run. They speak of lists of items, and of no code of stores and nodes.
#![tactic(auto)]

pub mod laws;
