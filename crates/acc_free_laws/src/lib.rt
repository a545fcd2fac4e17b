//! What the items of actors that step freely are, each in its own time, and when they are complete. It speaks of lists of items, and of no
//! code of actors.
#![tactic(auto)]

pub mod laws;
