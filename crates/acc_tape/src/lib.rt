//! The tape: one list of items that all threads enter, each through a seat of its own.
#![tactic(auto)]

mod board;
mod calls;
mod content;
mod error;
mod first;
mod item;
mod law;
mod laws;
mod posted;
mod rules;
mod seat;
mod seating;
mod tape;
mod view;

pub use acc_message_index::Post;
pub use error::{PlaceError, TapeError};
pub use laws::reserve_at_new_tape;
pub use posted::Posted;
pub use rules::Rules;
pub use seat::{Seat, Seats};
pub use tape::Tape;
