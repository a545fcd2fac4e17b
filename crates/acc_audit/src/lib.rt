//! Judges a report, whoever wrote it: whether its lines keep the rules that the lines of every run keep.
#![tactic(auto)]

mod answers;
mod cases;
mod decisions;
mod ends;
mod error;
mod front;
mod index;
mod judge;
mod judgement;
mod marks;
mod numbers;
mod outcomes;
mod remains;
mod replies;
mod step;
mod steps;
mod users;

pub use cases::{Case, read_case};
pub use error::AuditError;
pub use judge::audit;
pub use judgement::{Judgement, judge_case};
pub use remains::Remains;
