//! The text of a transaction: its grammar, the faults of a text that isn't one, and the parser.
#![tactic(auto)]

mod body;
mod changes;
mod conditions;
mod error;
mod fault;
mod fit;
mod judge;
mod keys;
pub mod laws;
mod lets;
mod lexemes;
mod names;
mod parser;
mod selects;
mod sums;
mod take;

pub use body::{parse, parse_v2};
pub use error::{LangError, LangKind};
