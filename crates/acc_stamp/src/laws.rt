//! The order of stamps, and what holds of a clock whatever happens to it: for each node and each start, and for each list
//! of draws, of numbers seen and of restarts, with the newest first.
ghost use Rattle.std.specs.Prelude.{◌≡◌, ◌≢◌, ℕ, List};
ghost use Rattle.acc_stamp.specs.declared.actors.Actor.{Actor};
ghost use Rattle.acc_stamp.specs.declared.stamps.Ballot.{Ballot};
ghost use Rattle.acc_stamp.specs.declared.stamps.Stamp.{Stamp};
ghost use Rattle.acc_stamp.specs.declared.stamps.TxnId.{TxnId};
ghost use Rattle.acc_stamp.specs.Actor.{actor_cmp, actor_eq};
ghost use Rattle.acc_stamp.specs.Order.{IsStrictTotalOrder};
ghost use Rattle.acc_stamp.specs.Stamp.{stamp_cmp, stamp_lt, stamp_eq, id_cmp, id_lt, id_eq, ballot_cmp, ballot_lt, ballot_eq, zero_stamp, zero_ballot};
ghost use Rattle.acc_stamp.specs.History.{ClockEvent, DrawsRise, DrawIsNext, DrawPassesSeen, DrawsAreOfNode, DrawsDiffer};

use crate::actors::Actor;
use crate::stamps::{Ballot, Stamp, TxnId};

/// `==`, `<` and `cmp` of stamps compare `h` and then `origin`, and zero is (0, 0).
pub fn stamps_are_ordered()
    ensures cmp { (a b : Stamp) → ⟦<Stamp as Ord>⟧.cmp a b ≡ stamp_cmp a b }
    ensures partial_cmp { (a b : Stamp) → ⟦<Stamp as PartialOrd>⟧.partial_cmp a b ≡ Some (stamp_cmp a b) }
    ensures eq { (a b : Stamp) → ⟦<Stamp as PartialEq>⟧.eq a b ≡ stamp_eq a b }
    ensures zero { Stamp.ZERO ≡ zero_stamp }
{}

/// `==`, `<` and `cmp` of transactions are those of their stamps.
pub fn ids_are_ordered()
    ensures cmp { (a b : TxnId) → ⟦<TxnId as Ord>⟧.cmp a b ≡ id_cmp a b }
    ensures partial_cmp { (a b : TxnId) → ⟦<TxnId as PartialOrd>⟧.partial_cmp a b ≡ Some (id_cmp a b) }
    ensures eq { (a b : TxnId) → ⟦<TxnId as PartialEq>⟧.eq a b ≡ id_eq a b }
{}

/// `==`, `<`, `cmp` and zero of ballots are those of their stamps.
pub fn ballots_are_ordered()
    ensures cmp { (a b : Ballot) → ⟦<Ballot as Ord>⟧.cmp a b ≡ ballot_cmp a b }
    ensures partial_cmp { (a b : Ballot) → ⟦<Ballot as PartialOrd>⟧.partial_cmp a b ≡ Some (ballot_cmp a b) }
    ensures eq { (a b : Ballot) → ⟦<Ballot as PartialEq>⟧.eq a b ≡ ballot_eq a b }
    ensures zero { Ballot.ZERO ≡ zero_ballot }
{}

/// `==`, `<` and `cmp` of actors are those of their numbers.
pub fn actors_are_ordered()
    ensures cmp { (a b : Actor) → ⟦<Actor as Ord>⟧.cmp a b ≡ actor_cmp a b }
    ensures partial_cmp { (a b : Actor) → ⟦<Actor as PartialOrd>⟧.partial_cmp a b ≡ Some (actor_cmp a b) }
    ensures eq { (a b : Actor) → ⟦<Actor as PartialEq>⟧.eq a b ≡ actor_eq a b }
{}

/// Stamps, ids and ballots are in a strict total order each.
pub fn orders_are_total()
    ensures stamps { IsStrictTotalOrder stamp_lt stamp_eq }
    ensures ids { IsStrictTotalOrder id_lt id_eq }
    ensures ballots { IsStrictTotalOrder ballot_lt ballot_eq }
{}

/// The stamps that a clock draws rise, across restarts too.
pub fn draws_rise()
    ensures { (node start : ℕ) (past : List ClockEvent) → DrawsRise node start past }
{}

/// A draw is one above the greatest of the start, of every draw before, and of every `h` seen since the last restart.
pub fn draw_is_next()
    ensures { (node start : ℕ) (past : List ClockEvent) → DrawIsNext node start past }
{}

/// A draw is above every `h` seen since the last restart.
pub fn draw_passes_seen()
    ensures { (node start : ℕ) (past : List ClockEvent) → DrawPassesSeen node start past }
{}

/// The stamps of a node's clock have the node's own origin.
pub fn draws_are_of_node()
    ensures { (node start : ℕ) (past : List ClockEvent) → DrawsAreOfNode node start past }
{}

/// No stamp is drawn at two nodes.
pub fn draws_are_unique()
    ensures { (m n start begin : ℕ) (past others : List ClockEvent) → m ≢ n → DrawsDiffer m start past n begin others }
{}
