//! The end of a free run: what actors left undone is done one after another, round and round, over the cluster that they make together.
#![tactic(auto)]

mod command;
mod ending;
mod rest;
mod round;

pub use ending::finish;
pub use rest::{Rest, Rests};
