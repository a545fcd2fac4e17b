//! Desks: the actors of a plan, each with a seat at one tape, which step whenever they have something to take.
//!
//! A desk is sound as long as its actor stands for what the seat has seen of it. Each turn keeps that, whatever other desks enter
//! meanwhile, since the tape holds a run of the plan at every moment.
#![tactic(auto)]

mod ask;
mod bell;
mod commands;
mod desk;
mod entering;
mod floor;
mod group;
mod hold;
pub mod laws;
mod looking;
mod restarting;
mod rules;
mod serving;
mod taking;
mod turning;

pub use desk::{Desk, Desks, Parts};
pub use floor::Floor;
pub use rules::{PlanRules, PlanTape, Planned};
pub use serving::{Served, serve};
pub use turning::Turned;
