//! The messages of the protocol, the notes, entries and items of a run, and the rules by which stores and nodes step. The
//! terms are those of CEP-15, after the paper by Elliott Smith, Zhang, Eggleston and Andreas.
#![tactic(auto)]

mod answer;
mod bare;
mod entry;
mod envelope;
mod error;
mod growing_items;
mod head;
mod heights;
mod item;
mod items;
mod message;
mod note;
mod roll;
mod shared_outcome;
mod shown;

pub use answer::ReadAnswer;
pub use entry::{Emitted, Entry, Event};
pub use envelope::Envelope;
pub use error::{RunError, Which};
pub use growing_items::GrowingItems;
pub use heights::top;
pub use item::{Item, Skip, notes_of, sent_by};
pub use items::Items;
pub use message::{Message, Messages};
pub use note::{Note, Notes, Path};
pub use roll::Roll;
pub use shared_outcome::SharedOutcome;
pub use shown::Shown;
