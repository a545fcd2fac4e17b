//! A node: its clock, the attempts that it runs, and its clients. The terms are those of CEP-15, after the paper by Elliott
//! Smith, Zhang, Eggleston and Andreas.
#![tactic(auto)]

mod clients;
mod error;
mod heard;
mod node;
mod running;
mod step_weight;
mod weigh;

pub use error::NodeError;
pub use node::Node;
