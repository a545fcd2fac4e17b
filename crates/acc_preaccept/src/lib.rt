//! A store's step on PreAccept.
#![tactic(auto)]

mod step;

pub use step::prepare_preaccept;
