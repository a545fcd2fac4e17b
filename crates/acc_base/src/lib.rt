//! What every crate of Accord shares: the error of memory, the trait behind `copy`, the list that contracts see as a plain
//! list, and how numbers are written.
#![tactic(auto)]

mod inline;
mod kept;
mod memory;
mod numbers;
mod sequence;
mod shared;
mod short;
mod short_list;

pub use inline::InlineText;
pub use kept::Kept;
pub use memory::{Duplicate, OutOfMemory};
pub use numbers::{push_number, push_signed_number};
pub use sequence::Sequence;
pub use shared::SharedSequence;
pub use short_list::ShortList;

/// A list of bytes.
pub type Bytes = Sequence<u8>;

/// The bytes of a text, which are UTF-8 where the text came from a program's user.
pub type Text = Sequence<u8>;
