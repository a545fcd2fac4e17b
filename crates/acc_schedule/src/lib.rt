//! Reads cluster documents: a cluster, transactions, and the steps that it takes.
#![tactic(auto)]

mod actors;
mod cast;
mod cluster;
mod document;
mod error;
mod fields;
mod forms;
mod names;
mod nodes;
mod path;
mod plan;
mod schedule;
mod shards;
mod texts;
mod transactions;
mod words;

pub use document::{read, read_json, read_plan, read_value};
pub use error::{PlanError, PlanKind};
pub use plan::{Bodies, Names, Plan, Print, Starts, Step, Steps};
