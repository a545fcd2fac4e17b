//! Indexes of the messages that wait for their receivers.
#![tactic(auto)]

mod lanes;
mod least;
mod posting;
mod posts;
mod waiting;

pub use posting::{Post, Posting};
pub use posts::Posts;
pub use waiting::Waiting;
