//! Journals that an earlier run left: taken from its items, written into its document, and read from there again.
#![tactic(auto)]

mod actors;
mod begins;
mod digits;
mod document;
mod drawn;
mod image;
mod images;
mod leaving;
mod members;
mod nodes;
mod numbers;
mod payloads;
mod places;
mod read;
mod records;
mod refusal;
mod rules;
mod stores;

pub use begins::roll;
pub use document::left_document;
pub use image::{Image, Images};
pub use images::leave;
pub use read::read_left;
