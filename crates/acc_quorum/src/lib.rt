//! The counts of quorums over plain answers of stores, for contracts, and their laws. The terms are those of CEP-15, after the
//! paper by Elliott Smith, Zhang, Eggleston and Andreas.
#![tactic(auto)]

pub mod laws;
