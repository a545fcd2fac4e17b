//! A journal: payloads on a disk, each acknowledged only once no crash can take it away.
#![tactic(auto)]

mod append;
mod durable;
mod error;
mod group;
mod journal;
pub mod laws;
mod reading;
mod records;

use acc_base::{Bytes, Sequence};
pub use error::JournalError;
pub use journal::Journal;
pub use records::{Payload, Records};

/// A list of payloads.
pub type Payloads = Sequence<Bytes>;
