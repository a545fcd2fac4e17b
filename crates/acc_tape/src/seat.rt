//! Seats: each actor enters its items through a seat of its own.
use crate::board::Board;
use crate::posted::Posted;
use crate::rules::Rules;
use crate::view::View;
use acc_base::Sequence;
use std::marker::Model;

/// A seat as the tape's table has it.
pub(crate) type Token<E, R> = atomic_table::Seat<Board<E, R>, View<E>>;

/// A seat of a tape. Contracts see its tape, its actor, the list that it has seen, the items that it entered, how many items
/// and bytes are reserved for it, how many were reserved for all seats at its last call, and the visits of all seats and its own
/// up to then. The first seat has actor 0, and is also seen as the actors for which it was split.
#[derive(Drop)]
pub struct Seat<E: Posted, R: Rules<E>> {
    pub(crate) token: Token<E, R>,
}

impl<E: Posted, R: Rules<E>> Model for Seat<E, R> {
    ghost use Rattle.acc_tape.specs.Seats.{SeatView};
    ghost use Rattle.acc_tape.specs.Turn.{seat_view, IsResting};

    ghost Value = { SeatView E };

    ghost view = { λ s. seat_view s.token.table_id s.token.me.0 };

    ghost invariant = { λ s. IsResting s.token.me };
}

/// A list of seats.
pub type Seats<E, R> = Sequence<Seat<E, R>>;
