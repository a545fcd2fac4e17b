//! Stamps, the logical clocks that draw them, and the actors that they name. Stamps are the timestamps of CEP-15, after the
//! paper by Elliott Smith, Zhang, Eggleston and Andreas; that clocks are logical, and what an origin is made of, is our choice.
#![tactic(auto)]

mod actors;
mod clock;
pub mod laws;
mod numbers;
mod stamps;

use acc_base::Sequence;
pub use actors::{Actor, home};
pub use clock::Clock;
pub use numbers::actor;
pub use stamps::{Ballot, Stamp, TxnId};

/// A list of transactions.
pub type Ids = Sequence<TxnId>;

/// A list of attempts.
pub type Ballots = Sequence<Ballot>;
