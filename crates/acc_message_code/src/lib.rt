//! The byte format of messages. Numbers have their highest byte first.
#![tactic(auto)]

mod answer;
mod at_hand;
mod deps;
mod envelope;
mod ids;
pub mod laws;
mod lengths;
mod message;
mod message_lengths;
mod records;
mod replies;
mod requests;
mod shared_parts;
mod stamps;
mod view;
mod weight;

pub use acc_code::CodeError;
pub use lengths::deps_length;
pub use message::{decode, encode, put_message};
pub use message_lengths::message_length;
pub use shared_parts::{KnownParts, decode_known};
pub use weight::messages_length;
