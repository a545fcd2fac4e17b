//! Healings: what losses, crashes and blocked recoveries left open is finished.
#![tactic(auto)]

mod applies;
mod begun;
mod healing;
mod lacking;
pub mod laws;
mod numbers;
mod plan;
mod reopening;
mod seen;
mod taking;
mod turns;

pub use healing::heal;
pub use plan::heal_plan;
