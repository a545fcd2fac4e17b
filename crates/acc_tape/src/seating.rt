//! How seats are split from the first one, and how a tape is closed once all are there again.
ghost use Rattle.std.specs.Prelude.{◌≡◌, ◌≢◌, ◌++◌, [], ◌∷◌, length, map, All, Any, Contains, IsOk, IfOk};
ghost use mathlib.Core.List.{IsPrefix};
ghost use Rattle.acc_tape.specs.Lists.{items_of};
ghost use Rattle.acc_tape.specs.Rule.{gone_of};
ghost use Rattle.acc_tape.specs.Seats.{Turns, Visited, InOneOrder};
ghost use Rattle.acc_tape.specs.Visits.{plain_visit};
ghost use Rattle.acc_tape.specs.Turn.{IsResting, with_joined, gone_seat};

use crate::law::{Gather, Part};
use crate::posted::Posted;
use crate::rules::Rules;
use crate::seat::{Seat, Seats, Token};
use crate::tape::Tape;
use acc_base::OutOfMemory;
use std::sync::Wait;

impl<E: Posted, R: Rules<E>> Tape<E, R> {
    /// A seat for an actor, which has seen what the first one has. It takes no memory.
    pub fn split<W: Wait>(
        &self,
        rt: &W,
        first: &mut Seat<E, R>,
        actor: u32,
    ) -> Result<Seat<E, R>, OutOfMemory>
        requires tape { first.old.tape ≡ self.now }
        requires first { first.old.actor ≡ 0 }
        requires actor { (actor ≢ 0) × (¬ Contains first.old.made actor) }
        ensures turn { Turns E.actor_of E.bytes R.fits first.old first.new }
        ensures same { (first.new.mine ≡ first.old.mine) × (first.new.held_items ≡ first.old.held_items) × (first.new.held_weight ≡ first.old.held_weight) }
        ensures visit { Visited first.old first.new (plain_visit first.old.actor) }
        ensures made { first.new.made ≡ first.old.made ++ actor ∷ [] }
        ensures seat { IfOk result (λ seat. seat ≡ record first.new { actor = actor; mine = []; held_items = 0; held_weight = 0; own = []; made = [] }) }
        ensures ok { IsOk result }
    {
        self.begin(rt, &mut first.token);
        first.token.slot_mut(&self.table.shared, 0).name(actor);
        self.leave(&mut first.token);
        let token = self.table.shared.split_seat::<Part<E>>(&mut first.token);
        Ok(Seat { token })
    }

    /// Ends the tape. The other seats are all that were split, and hold nothing; so all items come back, each of a seat
    /// that entered it, and all visits were those of the seats. It takes no memory.
    pub fn close(
        self,
        first: Seat<E, R>,
        others: Seats<E, R>,
    ) -> Result<E::List, (Tape<E, R>, Seat<E, R>, Seats<E, R>)>
        requires first { (first.tape ≡ self) × (first.actor ≡ 0) }
        requires others { All (λ seat. (seat.tape ≡ self) × (seat.held_items ≡ 0) × (seat.held_weight ≡ 0)) others }
        requires all { length others ≡ length first.made }
        ensures first { IfOk result (λ list. IsPrefix first.seen (E.in_list list)) }
        ensures seats { IfOk result (λ list. All (λ seat. IsPrefix seat.seen (E.in_list list) × (items_of E.actor_of seat.actor (E.in_list list) ≡ seat.mine) × Contains first.made seat.actor) others) }
        ensures owned { IfOk result (λ list. All (λ item. Any (λ seat. seat.actor ≡ E.actor_of item) others) (E.in_list list)) }
        ensures visits { InOneOrder first others }
        ensures fits { IfOk result (λ list. R.fits (E.in_list list)) }
        ensures ok { IsOk result }
    {
        let Seat { mut token } = first;
        self.gather(&mut token, others);
        let Tape { table } = self;
        let mut closed = table.close_with(token);
        let board = closed.take(0);
        closed.free();
        Ok(board.into_items())
    }

    // Joins seats to the first one.
    fn gather(&self, first: &mut Token<E, R>, others: Seats<E, R>)
        requires tape { first.old.table_id ≡ self.now.table }
        requires first { IsResting first.old.me × (first.old.me.0.actor ≡ 0) }
        requires others { All (λ seat. (seat.tape ≡ self.now) × (seat.held_items ≡ 0) × (seat.held_weight ≡ 0)) others }
        ensures tape { first.new.table_id ≡ first.old.table_id }
        ensures joined { first.new.me ≡ with_joined first.old.me (map gone_seat others) }
    {
        for other in others.into_vec() {
            let Seat { token } = other;
            self.table.shared.join_seat::<Gather<E>>(first, token);
        }
    }
}
