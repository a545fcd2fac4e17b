//! The tokens of the transaction language, one by one from the left.
#![tactic(auto)]

mod cursor;
mod lexeme;
mod scan;

pub use cursor::{Cursor, Shown};
pub use lexeme::{Lexeme, QuotedText};
