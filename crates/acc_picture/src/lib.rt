//! A run as a picture: the SVG of a plan's items, and a page that shows them a step at a time.
#![tactic(auto)]

mod cast;
mod choice;
mod columns;
mod fields;
mod lanes;
mod legend;
mod marks;
mod messages;
mod pieces;
mod scene;
mod script;
mod sent;
mod stepwise;
mod style;
mod titles;
mod vector;

pub use choice::{Choice, MOST, PictureError};
pub use stepwise::page;
pub use vector::svg;
