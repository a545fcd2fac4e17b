//! The fields of byte formats: numbers with their highest byte first, and short texts.
#![tactic(auto)]

mod error;
mod reader;
mod room;
mod writing;

pub use error::{WireError, WireKind};
pub use reader::Reader;
pub use room::{push_bytes, push_text};
pub use writing::{put_marked_i64, put_text, put_u8, put_u16, put_u32, put_u64};
