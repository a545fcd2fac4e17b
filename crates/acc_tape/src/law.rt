//! The rule of a tape's table, and the names of its steps.
ghost use Rattle.std.specs.Prelude.{◌≡◌};
ghost use Rattle.acc_tape.specs.Rule.{Holds, first_view, splitter, newcomer, joiner, spent_view};
ghost use Rattle.acc_tape.specs.Turn.{draws, looks, left};

use crate::board::Board;
use crate::content::Limits;
use crate::posted::Posted;
use crate::rules::Rules;
use crate::view::View;
use atomic_table::{Join, Play, Split, TableRule};
use std::marker::PhantomData;

pub struct Law<E> {
    of: PhantomData<E>,
}

impl<E: Posted, R: Rules<E>> TableRule<Board<E, R>, View<E>, Limits> for Law<E> {
    ghost holds = { λ limits. Holds E.actor_of limits };

    ghost first = { λ limits. first_view limits };
}

/// Draws a ticket.
pub struct Draw;

impl<E: Posted, R: Rules<E>> Play<Board<E, R>, View<E>> for Draw {
    ghost then = { draws };
}

/// Loads the serving number, and takes what stands in the slot where the turn has come.
pub struct Look;

impl<E: Posted, R: Rules<E>> Play<Board<E, R>, View<E>> for Look {
    ghost then = { looks E.actor_of };
}

/// Puts back what is in the slot, and advances the serving number.
pub struct Leave;

impl<E: Posted, R: Rules<E>> Play<Board<E, R>, View<E>> for Leave {
    ghost then = { λ step before found after. after ≡ left E.actor_of before };
}

/// Splits a seat from the first one, for the actor that the slot named.
pub struct Part<E> {
    of: PhantomData<E>,
}

impl<E: Posted> Split<View<E>> for Part<E> {
    ghost left = { splitter };

    ghost right = { newcomer };
}

/// Joins a seat to the first one.
pub struct Gather<E> {
    of: PhantomData<E>,
}

impl<E: Posted> Join<View<E>> for Gather<E> {
    ghost both = { joiner };

    ghost spent = { spent_view };
}
