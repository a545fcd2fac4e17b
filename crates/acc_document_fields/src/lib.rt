//! Readers of the parts that documents have in common: an object with its fields, a list, a number within its limits, a text, the
//! name and the text of a transaction, and where in a document a fault stands.
#![tactic(auto)]

mod fields;
mod guesses;
mod names;
mod path;
mod texts;
mod transactions;

pub use fields::{
    elements, field_elements, field_text, into_elements, is_whole, list, number, number_in, object,
    text,
};
pub use names::NameTable;
pub use path::{Part, detailed, unknown, wrong};
pub use texts::body_in;
pub use transactions::{body, name, version};
