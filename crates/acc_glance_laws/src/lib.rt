//! Laws of looks at a key without a transaction: what a look reads was the cell of its key at some moment. They hold of
//! every run.
#![tactic(auto)]

pub mod laws;
