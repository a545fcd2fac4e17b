//! What the pasts of actors allow: entering an item, and going slow.
#![tactic(auto)]

pub mod entering;
pub mod slowing;
