//! What a seat does on its tape. Each call takes the turn and gives it back, so that afterwards the seat has seen the whole
//! list of that moment. It is a visit, and the seat then knows all visits so far, of which this one is the last.
ghost use Rattle.std.specs.Prelude.{◌≡◌, ◌≢◌, ℕ, ◌+◌, ◌-◌, ◌<◌, ◌≤◌, [], ◌∷◌, ◌++◌, length, sum_by, All, Some, slice_get, vec_capacity, IfOk, IfErr, OnOk, OnErr, MatchOption};
ghost use Rattle.acc_tape.specs.Kept.{most_notes};
ghost use Rattle.acc_tape.specs.Messages.{HasNone, IsOldest, AreOldest, IsSentBy, behind_all, posts_in};
ghost use Rattle.acc_tape.specs.Refusals.{Refuses};
ghost use Rattle.acc_tape.specs.Seats.{Turns, Visited, FitsBehind, FitAllBehind, ComesLast, ComeLast};
ghost use Rattle.acc_tape.specs.Visits.{plain_visit, reserving, giving_up};

use crate::error::{PlaceError, TapeError};
use crate::posted::Posted;
use crate::rules::Rules;
use crate::seat::Seat;
use crate::tape::Tape;
use acc_base::OutOfMemory;
use acc_message_index::Post;
use std::sync::Wait;

impl<E: Posted, R: Rules<E>> Tape<E, R> {
    /// Reserves so many items and bytes for a seat with an actor, and takes the memory for them, so that entering them can't be
    /// refused. Full tells which limit it is, and its number. Where the items, the notes that they may have, or the messages with
    /// the items and bytes that are reserved, would be 2^32 or more, it is refused as memory is. After a refusal nothing more is
    /// reserved.
    pub fn reserve<W: Wait>(
        &self,
        rt: &W,
        seat: &mut Seat<E, R>,
        items: u64,
        weight: u64,
    ) -> Result<(), TapeError>
        requires tape { seat.old.tape ≡ self.now }
        requires actor { seat.old.actor ≢ 0 }
        ensures turn { Turns E.actor_of E.bytes R.fits seat.old seat.new }
        ensures visit { OnOk result (Visited seat.old seat.new (reserving seat.old.actor items weight)) × OnErr result (Visited seat.old seat.new (plain_visit seat.old.actor)) }
        ensures same { (seat.new.mine ≡ seat.old.mine) × (seat.new.made ≡ seat.old.made) }
        ensures ok { OnOk result ((seat.new.held_items ≡ seat.old.held_items + items) × (seat.new.held_weight ≡ seat.old.held_weight + weight)) }
        ensures err { OnErr result ((seat.new.held_items ≡ seat.old.held_items) × (seat.new.held_weight ≡ seat.old.held_weight)) }
        ensures cause { IfErr result (Refuses self.now.limits (length seat.new.seen + seat.new.out_count) (sum_by E.bytes seat.new.seen + seat.new.out_weight) items weight) }
    {
        self.begin(rt, &mut seat.token);
        let outcome = seat
            .token
            .slot_mut(&self.table.shared, 0)
            .reserve(items, weight);
        self.leave(&mut seat.token);
        outcome
    }

    /// Gives up so much of what is reserved for the seat. It takes no memory and can't be refused.
    pub fn release<W: Wait>(&self, rt: &W, seat: &mut Seat<E, R>, items: u64, weight: u64)
        requires tape { seat.old.tape ≡ self.now }
        requires held { (items ≤ seat.old.held_items) × (weight ≤ seat.old.held_weight) }
        ensures turn { Turns E.actor_of E.bytes R.fits seat.old seat.new }
        ensures visit { Visited seat.old seat.new (giving_up seat.old.actor items weight) }
        ensures same { (seat.new.mine ≡ seat.old.mine) × (seat.new.made ≡ seat.old.made) }
        ensures held { (seat.new.held_items ≡ seat.old.held_items - items) × (seat.new.held_weight ≡ seat.old.held_weight - weight) }
    {
        self.begin(rt, &mut seat.token);
        seat.token
            .slot_mut(&self.table.shared, 0)
            .release(items, weight);
        self.leave(&mut seat.token);
    }

    /// Gives up so much of what is reserved for the seat, and appends an item of its actor that weighs no more and has two notes at
    /// most. It takes no memory and can't be refused.
    pub fn put<W: Wait>(&self, rt: &W, seat: &mut Seat<E, R>, items: u64, weight: u64, item: E)
        requires tape { seat.old.tape ≡ self.now }
        requires held { (1 ≤ items) × (items ≤ seat.old.held_items) × (weight ≤ seat.old.held_weight) }
        requires item { (E.actor_of item ≡ seat.old.actor) × E.weighs item × (E.bytes item ≤ weight) }
        requires notes { E.noted item ≤ most_notes }
        requires fits { FitsBehind E.actor_of R.fits seat.old item }
        ensures turn { Turns E.actor_of E.bytes R.fits seat.old seat.new }
        ensures visit { Visited seat.old seat.new (giving_up seat.old.actor items weight) }
        ensures held { (seat.new.held_items ≡ seat.old.held_items - items) × (seat.new.held_weight ≡ seat.old.held_weight - weight) }
        ensures same { seat.new.made ≡ seat.old.made }
        ensures mine { seat.new.mine ≡ seat.old.mine ++ item ∷ [] }
        ensures behind { ComesLast E.actor_of R.fits seat.old seat.new.seen item }
    {
        let bytes = item.weight();
        self.begin(rt, &mut seat.token);
        seat.token
            .slot_mut(&self.table.shared, 0)
            .put(items, weight, bytes, item);
        self.leave(&mut seat.token);
    }

    /// Gives up so much of what is reserved for the seat, and appends items of its actor one after another, which are no more,
    /// weigh no more, and have two notes each at most. It takes no memory and can't be refused.
    pub fn put_all<W: Wait>(
        &self,
        rt: &W,
        seat: &mut Seat<E, R>,
        items: u64,
        weight: u64,
        entering: Vec<E>,
    )
        requires tape { seat.old.tape ≡ self.now }
        requires held { (length entering.items ≤ items) × (items ≤ seat.old.held_items) × (weight ≤ seat.old.held_weight) }
        requires own { All (λ item. E.actor_of item ≡ seat.old.actor) entering.items }
        requires bytes { All E.weighs entering.items × (sum_by E.bytes entering.items ≤ weight) }
        requires notes { All (λ item. E.noted item ≤ most_notes) entering.items }
        requires fits { FitAllBehind E.actor_of R.fits seat.old entering.items }
        ensures turn { Turns E.actor_of E.bytes R.fits seat.old seat.new }
        ensures visit { Visited seat.old seat.new (giving_up seat.old.actor items weight) }
        ensures held { (seat.new.held_items ≡ seat.old.held_items - items) × (seat.new.held_weight ≡ seat.old.held_weight - weight) }
        ensures same { seat.new.made ≡ seat.old.made }
        ensures mine { seat.new.mine ≡ seat.old.mine ++ entering.items }
        ensures behind { ComeLast E.actor_of R.fits seat.old seat.new.seen entering.items }
    {
        self.begin(rt, &mut seat.token);
        seat.token
            .slot_mut(&self.table.shared, 0)
            .put_all(items, weight, entering);
        self.leave(&mut seat.token);
    }

    /// What is told of the item at a place of the list. It takes no memory.
    pub fn fetch<W: Wait>(
        &self,
        rt: &W,
        seat: &mut Seat<E, R>,
        place: u64,
    ) -> Result<E::Sign, PlaceError>
        requires tape { seat.old.tape ≡ self.now }
        ensures turn { Turns E.actor_of E.bytes R.fits seat.old seat.new }
        ensures visit { Visited seat.old seat.new (plain_visit seat.old.actor) }
        ensures same { (seat.new.mine ≡ seat.old.mine) × (seat.new.held_items ≡ seat.old.held_items) × (seat.new.held_weight ≡ seat.old.held_weight) × (seat.new.made ≡ seat.old.made) }
        ensures ok { IfOk result (λ sign. (item : E) × (slice_get seat.new.seen place ≡ Some item) × (sign ≡ E.sign_of item)) }
        ensures err { OnErr result (length seat.new.seen ≤ place) }
    {
        self.begin(rt, &mut seat.token);
        let fetched = seat.token.slot_mut(&self.table.shared, 0).fetch(place);
        self.leave(&mut seat.token);
        fetched
    }

    /// The oldest message to an actor that isn't lost and that no item took. It takes no memory.
    pub fn next_for<W: Wait>(&self, rt: &W, seat: &mut Seat<E, R>, actor: u32) -> Option<Post>
        requires tape { seat.old.tape ≡ self.now }
        ensures turn { Turns E.actor_of E.bytes R.fits seat.old seat.new }
        ensures visit { Visited seat.old seat.new (plain_visit seat.old.actor) }
        ensures same { (seat.new.mine ≡ seat.old.mine) × (seat.new.held_items ≡ seat.old.held_items) × (seat.new.held_weight ≡ seat.old.held_weight) × (seat.new.made ≡ seat.old.made) }
        ensures next { MatchOption result (HasNone E.took E.sent_to E.is_lost seat.new.seen actor 0) (IsOldest E.took E.sent_to E.is_lost seat.new.seen actor 0) }
    {
        self.begin(rt, &mut seat.token);
        let next = seat.token.slot_mut(&self.table.shared, 0).next_for(actor);
        self.leave(&mut seat.token);
        next
    }

    /// The oldest messages to an actor that aren't lost and that no item took, in one turn, put into an empty list: as many as
    /// it has room for. Without memory for a copy of one of them, those before it.
    pub fn collect<W: Wait>(
        &self,
        rt: &W,
        seat: &mut Seat<E, R>,
        actor: u32,
        found: &mut Vec<(Post, E::Message)>,
    ) -> Result<(), OutOfMemory>
        requires tape { seat.old.tape ≡ self.now }
        requires found { found.old.items ≡ [] }
        ensures turn { Turns E.actor_of E.bytes R.fits seat.old seat.new }
        ensures visit { Visited seat.old seat.new (plain_visit seat.old.actor) }
        ensures same { (seat.new.mine ≡ seat.old.mine) × (seat.new.held_items ≡ seat.old.held_items) × (seat.new.held_weight ≡ seat.old.held_weight) × (seat.new.made ≡ seat.old.made) }
        ensures room { vec_capacity found.new ≡ vec_capacity found.old }
        ensures oldest { AreOldest E.took E.sent_to E.is_lost seat.new.seen actor 0 (posts_in found.new.items) }
        ensures sent { All (IsSentBy E.is_sent seat.new.seen) found.new.items }
        ensures all { OnOk result (length found.new.items < vec_capacity found.new → HasNone E.took E.sent_to E.is_lost seat.new.seen actor (behind_all 0 (posts_in found.new.items))) }
    {
        self.begin(rt, &mut seat.token);
        let outcome = seat
            .token
            .slot_mut(&self.table.shared, 0)
            .collect(actor, found);
        self.leave(&mut seat.token);
        outcome
    }

    /// The oldest message to an actor that has a greater number, isn't lost, and that no item took. It takes no memory.
    pub fn next_after<W: Wait>(
        &self,
        rt: &W,
        seat: &mut Seat<E, R>,
        actor: u32,
        number: u64,
    ) -> Option<Post>
        requires tape { seat.old.tape ≡ self.now }
        ensures turn { Turns E.actor_of E.bytes R.fits seat.old seat.new }
        ensures visit { Visited seat.old seat.new (plain_visit seat.old.actor) }
        ensures same { (seat.new.mine ≡ seat.old.mine) × (seat.new.held_items ≡ seat.old.held_items) × (seat.new.held_weight ≡ seat.old.held_weight) × (seat.new.made ≡ seat.old.made) }
        ensures next { MatchOption result (HasNone E.took E.sent_to E.is_lost seat.new.seen actor (number + 1)) (IsOldest E.took E.sent_to E.is_lost seat.new.seen actor (number + 1)) }
    {
        self.begin(rt, &mut seat.token);
        let next = seat
            .token
            .slot_mut(&self.table.shared, 0)
            .next_after(actor, number);
        self.leave(&mut seat.token);
        next
    }
}
