//! The past of a cluster: its items, and what is asked of them, each in constant or logarithmic time.
#![tactic(auto)]

mod begun;
mod entering;
mod history;
pub mod laws;

pub use history::History;
