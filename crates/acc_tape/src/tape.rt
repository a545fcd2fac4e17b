//! The tape.
ghost use Rattle.std.specs.Prelude.{◌≡◌, ℕ, true, List, [], ◌∷◌, None, Some, IfOk};
ghost use Rattle.acc_tape.specs.declared.content.Content.{Content};
ghost use Rattle.acc_tape.specs.declared.view.Visit.{Visit};
ghost use Rattle.acc_tape.specs.Turn.{IsResting, HasTurn, CanLeave, Learns, waiting, turning, left};

use crate::board::Board;
use crate::content::Limits;
use crate::law::{Draw, Law, Leave, Look};
use crate::posted::Posted;
use crate::rules::Rules;
use crate::seat::{Seat, Token};
use crate::view::View;
use acc_base::OutOfMemory;
use atomic_table::{Refused, Table};
use std::alloc::Global;
use std::marker::Model;
use std::sync::Wait;
use std::thread::yield_now;

// The words of the table: the next ticket, and the ticket that is served.
const NEXT: usize = 0;

const SERVED: usize = 1;

// A thread that waits with a ticket holds up all that come after it until it runs again. So it draws one at once only
// where no ticket is out, and else looks so many times whether that has come about. Then it draws one in any case.
const PATIENCE: u32 = 64;

// Where so many tickets were drawn, no more are, since the words would wrap at last. A thread that draws then waits.
const MOST_TICKETS: u64 = 1 << 62;

/// One list of items, which grows at its end. Threads take turns with it.
#[derive(Drop)]
pub struct Tape<E: Posted, R: Rules<E>> {
    pub(crate) table: Table<Board<E, R>, View<E>, Limits, Law<E>, Global>,
}

impl<E: Posted, R: Rules<E>> Model for Tape<E, R> {
    ghost use Rattle.std.specs.Prelude.{◌≡◌};
    ghost use Rattle.acc_tape.specs.Seats.{TapeName};

    ghost Value = { TapeName };

    ghost view = { λ t. record { table = t.table.shared.table_id; limits = t.table.shared.key } };

    ghost invariant = { λ t. (t.table.shared.table_id.words ≡ 2) × (t.table.shared.table_id.slots ≡ 1) };
}

impl<E: Posted, R: Rules<E>> Tape<E, R> {
    /// An empty tape that may hold so many items and bytes, and its first seat. The empty list has to fit the rules.
    pub fn new(
        alloc: Global,
        items: u64,
        weight: u64,
    ) -> Result<(Tape<E, R>, Seat<E, R>), OutOfMemory>
        requires { R.fits [] }
        ensures limits { IfOk result (λ made. made.0.limits ≡ record { items = items; weight = weight }) }
        ensures seat { IfOk result (λ made. made.1 ≡ record { tape = made.0; actor = 0; seen = []; mine = []; held_items = 0; held_weight = 0; out_count = 0; out_weight = 0; visits = []; own = []; made = [] }) }
    {
        let limits = Limits { items, weight };
        let board = Board::new(alloc, limits)?;
        let mut slots = Vec::with_capacity(alloc, 1)?;
        slots.push_reserved(board);
        match Table::new(alloc, &[0, 0], slots, &limits) {
            Ok((table, token)) => Ok((Tape { table }, Seat { token })),
            Err(Refused { slots: _ }) => Err(OutOfMemory),
        }
    }

    // Draws a ticket, at once where none is out.
    #[inline(always)]
    fn draw<W: Wait>(&self, rt: &W, token: &mut Token<E, R>) -> u64
        requires tape { (token.old.table_id ≡ self.now.table) × (token.old.me.0.limits ≡ self.now.limits) }
        requires rests { IsResting token.old.me }
        ensures tape { token.new.table_id ≡ token.old.table_id }
        ensures draws { token.new.me ≡ (waiting token.old.me.0 result, []) }
    {
        let shared = &self.table.shared;
        let ticket = shared.peek(NEXT);
        if shared.peek(SERVED) == ticket
            && ticket < MOST_TICKETS
            && shared.compare_exchange::<Draw>(token, NEXT, ticket, ticket + 1) == ticket
        {
            return ticket;
        }
        self.draw_late(rt, token)
    }

    // Draws a ticket, at the latest after some looks.
    #[inline(never)]
    fn draw_late<W: Wait>(&self, rt: &W, token: &mut Token<E, R>) -> u64
        requires tape { (token.old.table_id ≡ self.now.table) × (token.old.me.0.limits ≡ self.now.limits) }
        requires rests { IsResting token.old.me }
        ensures tape { token.new.table_id ≡ token.old.table_id }
        ensures draws { token.new.me ≡ (waiting token.old.me.0 result, []) }
    {
        let shared = &self.table.shared;
        let mut looks = 0;
        for _ in rt.forever() {
            let ticket = shared.peek(NEXT);
            let may_draw = looks == PATIENCE || shared.peek(SERVED) == ticket;
            if may_draw
                && ticket < MOST_TICKETS
                && shared.compare_exchange::<Draw>(token, NEXT, ticket, ticket + 1) == ticket
            {
                return ticket;
            }
            looks = PATIENCE.min(looks + 1);
            yield_now();
        }
        unreachable!()
    }

    // Waits until the ticket is served, and takes what stands in the slot.
    #[inline(always)]
    fn wait<W: Wait>(&self, rt: &W, token: &mut Token<E, R>, ticket: u64)
        requires tape { (token.old.table_id ≡ self.now.table) × (token.old.me.0.limits ≡ self.now.limits) }
        requires ticket { (token.old.me.0.is_live ≡ true) × (token.old.me.0.ticket ≡ Some ticket) × (token.old.me.0.taken ≡ None) × (token.old.me.1 ≡ []) }
        ensures tape { token.new.table_id ≡ token.old.table_id }
        ensures turn { (c : Content E) × (log : List Visit) × (token.new.me ≡ (turning token.old.me.0 c log, (0, c) ∷ [])) × Learns E.actor_of token.old.me.0 c log }
    {
        if self.table.shared.load::<Look>(token, SERVED) != ticket {
            self.wait_long(rt, token, ticket);
        }
    }

    // Waits until the ticket is served, and lets others run between its looks.
    #[inline(never)]
    fn wait_long<W: Wait>(&self, rt: &W, token: &mut Token<E, R>, ticket: u64)
        requires tape { (token.old.table_id ≡ self.now.table) × (token.old.me.0.limits ≡ self.now.limits) }
        requires ticket { (token.old.me.0.is_live ≡ true) × (token.old.me.0.ticket ≡ Some ticket) × (token.old.me.0.taken ≡ None) × (token.old.me.1 ≡ []) }
        ensures tape { token.new.table_id ≡ token.old.table_id }
        ensures turn { (c : Content E) × (log : List Visit) × (token.new.me ≡ (turning token.old.me.0 c log, (0, c) ∷ [])) × Learns E.actor_of token.old.me.0 c log }
    {
        for _ in rt.forever() {
            if self.table.shared.load::<Look>(token, SERVED) == ticket {
                return;
            }
            yield_now();
        }
    }

    // Waits for the turn.
    #[inline(always)]
    pub(crate) fn begin<W: Wait>(&self, rt: &W, token: &mut Token<E, R>)
        requires tape { (token.old.table_id ≡ self.now.table) × (token.old.me.0.limits ≡ self.now.limits) }
        requires rests { IsResting token.old.me }
        ensures tape { token.new.table_id ≡ token.old.table_id }
        ensures turn { HasTurn E.actor_of token.old.me.0 token.new.me }
    {
        let ticket = self.draw(rt, token);
        self.wait(rt, token, ticket);
    }

    // Ends the turn.
    #[inline(always)]
    pub(crate) fn leave(&self, token: &mut Token<E, R>)
        requires tape { token.old.table_id ≡ self.now.table }
        requires turn { CanLeave E.actor_of token.old.me }
        ensures tape { token.new.table_id ≡ token.old.table_id }
        ensures left { token.new.me ≡ left E.actor_of token.old.me }
    {
        self.table.shared.fetch_add::<Leave>(token, SERVED, 1);
    }
}
