//! A store's steps on Accept and Commit.
#![tactic(auto)]

mod step;

pub use step::{prepare_accept, prepare_commit};
