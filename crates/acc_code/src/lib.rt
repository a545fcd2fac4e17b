//! The byte format of transactions' bodies, of cells and of outcomes. Numbers have their highest byte first.
#![tactic(auto)]

mod body;
mod cells;
mod conditions;
mod error;
mod fields;
mod keys;
pub mod laws;
mod lengths;
mod lets;
mod outcome;
mod select;
mod sums;
mod updates;

pub use body::{body_length, put_body, take_body};
pub use cells::{put_cells, take_cells};
pub use error::CodeError;
pub use fields::{out_of_range, take_between};
pub use lengths::{cells_length, outcome_length};
pub use outcome::{put_outcome, take_outcome};
