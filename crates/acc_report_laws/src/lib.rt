//! What a report promises to those who read it: its lines have forms, so that it is read again as the lines that were told, and
//! the lines of one item alone are those that it has in the report of all.
#![tactic(auto)]

pub mod documents;
pub mod laws;
pub mod runs;
