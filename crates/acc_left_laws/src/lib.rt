//! What holds of journals that a run left: the run goes on from them, and no rule refuses them.
#![tactic(auto)]

pub mod joining;
pub mod laws;
