//! Laws about one actor of the protocol, a store or a node, over its own history. The crates of stores and nodes cite them.
#![tactic(auto)]

pub mod laws;
