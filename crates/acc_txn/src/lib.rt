//! The body of a transaction: its parts, what they mean on cells, what they read and write, and its bytes.
#![tactic(auto)]

mod body;
mod error;
mod evaluate;
mod lengths;
mod outcome;
mod parts;
mod rules;
mod uses;
mod words;
mod writing;

pub use acc_base::{Bytes, Duplicate, OutOfMemory, Sequence, Text};
pub use acc_value::{CellList, CellMap, Cells, Footprint, Key, Value, conflicts};
pub use body::Body;
pub use error::BodyError;
pub use lengths::{key_length, text_length};
pub use outcome::{Outcome, Reply, Verdict};
pub use parts::{
    BodyParts, Condition, Conditions, Expr, Let, Lets, Numbers, Operator, Part, Select, Term,
    Update, Updates,
};
pub use words::{is_free_key_text, is_free_text_value, is_free_word};
pub use writing::put_key;
