//! What a healing is, and that it heals: afterwards each begun transaction is decided, has its outcome, and is applied at each of its
//! stores.
#![tactic(auto)]

pub mod laws;
