//! What stands in the slot of a tape: the list, what is reserved, and the index of messages. Its calls are made by the
//! seat that has the turn.
ghost use Rattle.std.specs.Prelude.{◌≡◌, ℕ, ◌+◌, ◌-◌, ◌*◌, ◌^◌, ◌<◌, ◌≤◌, [], ◌∷◌, ◌++◌, length, sum_by, take, All, Some, slice_get, vec_capacity, IfOk, IfErr, OnOk, OnErr, MatchOption};
ghost use Rattle.acc_tape.specs.Messages.{IsOldest, HasNone, AreOldest, IsSentBy, behind_all, behind_last, posts_in, messages_from};
ghost use Rattle.acc_tape.specs.Kept.{most_notes, after_taking, after_messages};
ghost use Rattle.acc_tape.specs.Refusals.{Refuses};
ghost use Rattle.acc_tape.specs.Turn.{IsWithin};

use crate::content::{Content, Limits};
use crate::error::{PlaceError, TapeError};
use crate::first::first_posts;
use crate::posted::Posted;
use crate::rules::Rules;
use acc_base::OutOfMemory;
use acc_message::Which;
use acc_message_index::{Post, Posts};
use std::alloc::Global;
use std::marker::{Model, PhantomData};

// The items of a tape and those that are reserved are at most so many, so that a place has 32 bits.
const MOST_PLACES: u64 = u32::MAX as u64;

// No item has more notes.
const MOST_NOTES: u64 = 2;

#[derive(Drop)]
pub struct Board<E: Posted, R: Rules<E>> {
    items: E::List,
    weight: u64,
    reserved: u64,
    reserved_weight: u64,
    limits: Limits,
    // The actor for which the first seat is split next.
    named: u32,
    posts: Posts,
    rules: PhantomData<R>,
}

impl<E: Posted, R: Rules<E>> Model for Board<E, R> {
    ghost use Rattle.acc_tape.specs.declared.content.Content.{Content};
    ghost use Rattle.std.specs.Prelude.{◌*◌, ◌≤◌};
    ghost use Rattle.acc_tape.specs.Kept.{IsKept, most_notes};

    ghost Value = { Content E };

    ghost view = { λ b. record { items = E.in_list b.items; reserved = b.reserved; reserved_weight = b.reserved_weight; limits = b.limits; named = b.named } };

    ghost invariant = { λ b. IsKept E.took E.sent_to E.is_lost E.bytes R.fits (E.in_list b.items) b.weight b.reserved b.reserved_weight b.limits (E.room b.items) b.posts × (most_notes * b.reserved ≤ E.notes_room b.items) };
}

// Makes room in a list for so many more items and messages, and for so many more notes in all. Without memory for it there is as much room
// as before.
fn make_room<E: Posted>(list: &mut E::List, more: u64, notes: u64) -> Result<(), OutOfMemory>
    ensures items { E.in_list list.new ≡ E.in_list list.old }
    ensures ok { OnOk result ((E.room list.new ≡ E.room list.old + more) × (notes ≤ E.notes_room list.new)) }
    ensures err { OnErr result ((E.room list.new ≡ E.room list.old) × (E.notes_room list.old ≤ E.notes_room list.new)) }
{
    E::reserve(list, more)?;
    if E::reserve_notes(list, notes).is_err() {
        E::release(list, more);
        return Err(OutOfMemory);
    }
    Ok(())
}

impl<E: Posted, R: Rules<E>> Board<E, R> {
    pub fn new(alloc: Global, limits: Limits) -> Result<Board<E, R>, OutOfMemory>
        requires { R.fits [] }
        ensures { IfOk result (λ board. board ≡ record { items = []; reserved = 0; reserved_weight = 0; limits = limits; named = 0 }) }
    {
        Ok(Board {
            items: E::list(alloc),
            weight: 0,
            reserved: 0,
            reserved_weight: 0,
            limits,
            named: 0,
            posts: first_posts(alloc)?,
            rules: PhantomData,
        })
    }

    /// Reserves so many items and bytes, and takes the memory that entering them wants. Otherwise, and where the items, their notes, or
    /// the messages with the items and bytes that are reserved, would be 2^32 or more, all is as before.
    pub fn reserve(&mut self, count: u64, weight: u64) -> Result<(), TapeError>
        ensures ok { OnOk result (self.new ≡ record self.old { reserved = self.old.reserved + count; reserved_weight = self.old.reserved_weight + weight }) }
        ensures err { OnErr result (self.new ≡ self.old) }
        ensures within { IsWithin E.bytes R.fits self.new }
        ensures cause { IfErr result (Refuses self.old.limits (length self.old.items + self.old.reserved) (sum_by E.bytes self.old.items + self.old.reserved_weight) count weight) }
    {
        let Limits {
            items: most_items,
            weight: most_weight,
        } = self.limits;
        let places = E::len(&self.items) + self.reserved;
        if most_items - places < count {
            return Err(TapeError::Full {
                which: Which::Items,
                number: most_items,
            });
        }
        if most_weight - (self.weight + self.reserved_weight) < weight {
            return Err(TapeError::Full {
                which: Which::Bytes,
                number: most_weight,
            });
        }
        if MOST_PLACES - places < count {
            return Err(TapeError::OutOfMemory);
        }
        self.posts.reserve(weight, count)?;
        let notes = MOST_NOTES * (self.reserved + count);
        if make_room::<E>(&mut self.items, count + weight, notes).is_err() {
            self.posts.release(weight, count);
            return Err(TapeError::OutOfMemory);
        }
        self.reserved += count;
        self.reserved_weight += weight;
        Ok(())
    }

    /// Names the actor for which a seat is split next.
    pub fn name(&mut self, actor: u32)
        ensures named { self.new ≡ record self.old { named = actor } }
        ensures within { IsWithin E.bytes R.fits self.new }
    {
        self.named = actor;
    }

    /// Gives up so much of what is reserved.
    pub fn release(&mut self, count: u64, weight: u64)
        requires { (count ≤ self.old.reserved) × (weight ≤ self.old.reserved_weight) }
        ensures released { self.new ≡ record self.old { reserved = self.old.reserved - count; reserved_weight = self.old.reserved_weight - weight } }
        ensures within { IsWithin E.bytes R.fits self.new }
    {
        self.posts.release(weight, count);
        E::release(&mut self.items, count);
        E::release(&mut self.items, weight);
        self.reserved -= count;
        self.reserved_weight -= weight;
    }

    /// Gives up so much of what is reserved, and appends an item. It takes no memory.
    pub fn put(&mut self, count: u64, weight: u64, bytes: u64, item: E)
        requires reserved { (1 ≤ count) × (count ≤ self.old.reserved) × (weight ≤ self.old.reserved_weight) }
        requires bytes { (bytes ≡ E.bytes item) × (bytes ≤ weight) }
        requires notes { E.noted item ≤ most_notes }
        requires fits { R.fits self.old.items → R.fits (self.old.items ++ item ∷ []) }
        ensures put { self.new ≡ record self.old { items = self.old.items ++ item ∷ []; reserved = self.old.reserved - count; reserved_weight = self.old.reserved_weight - weight } }
        ensures within { IsWithin E.bytes R.fits self.new }
        ensures fits { R.fits self.old.items }
    {
        let place = E::len(&self.items);
        let sent = item.sent();
        note_taking(&mut self.posts, &item);
        self.posts.release(weight - sent, count - 1);
        note_messages(&mut self.posts, &item, place as u32);
        E::push(&mut self.items, item);
        E::release(&mut self.items, count - 1);
        E::release(&mut self.items, weight - sent);
        self.weight += bytes;
        self.reserved -= count;
        self.reserved_weight -= weight;
    }

    /// Gives up so much of what is reserved, and appends items one after another. It takes no memory.
    pub fn put_all(&mut self, count: u64, weight: u64, entering: Vec<E>)
        requires reserved { (length entering.items ≤ count) × (count ≤ self.old.reserved) × (weight ≤ self.old.reserved_weight) }
        requires bytes { All E.weighs entering.items × (sum_by E.bytes entering.items ≤ weight) }
        requires notes { All (λ item. E.noted item ≤ most_notes) entering.items }
        requires fits { R.fits self.old.items → (k : ℕ) → R.fits (self.old.items ++ take k entering.items) }
        ensures put { self.new ≡ record self.old { items = self.old.items ++ entering.items; reserved = self.old.reserved - count; reserved_weight = self.old.reserved_weight - weight } }
        ensures within { IsWithin E.bytes R.fits self.new }
        ensures fits { R.fits self.old.items }
    {
        self.confirm();
        let mut items_left = count;
        let mut weight_left = weight;
        for item in entering {
            let bytes = item.weight();
            items_left -= 1;
            weight_left -= bytes;
            self.put(1, bytes, bytes, item);
        }
        self.release(items_left, weight_left);
    }

    // What stands in the slot is within the limits and fits the rules.
    #[inline(always)]
    fn confirm(&self)
        ensures within { IsWithin E.bytes R.fits self.now }
    {
        let _ = &self.items;
    }

    /// What is told of the item at a place.
    pub fn fetch(&self, place: u64) -> Result<E::Sign, PlaceError>
        ensures ok { IfOk result (λ sign. (item : E) × (slice_get self.now.items place ≡ Some item) × (sign ≡ E.sign_of item)) }
        ensures err { OnErr result (length self.now.items ≤ place) }
        ensures within { IsWithin E.bytes R.fits self.now }
    {
        if place >= E::len(&self.items) {
            return Err(PlaceError::NoPlace);
        }
        Ok(E::sign(&self.items, place))
    }

    /// The oldest message that waits for an actor.
    pub fn next_for(&mut self, actor: u32) -> Option<Post>
        ensures same { self.new ≡ self.old }
        ensures within { IsWithin E.bytes R.fits self.new }
        ensures next { MatchOption result (HasNone E.took E.sent_to E.is_lost self.old.items actor 0) (IsOldest E.took E.sent_to E.is_lost self.old.items actor 0) }
    {
        self.posts.next_for(actor)
    }

    /// The oldest message that waits for an actor and has a greater number.
    pub fn next_after(&mut self, actor: u32, number: u64) -> Option<Post>
        ensures same { self.new ≡ self.old }
        ensures within { IsWithin E.bytes R.fits self.new }
        ensures next { MatchOption result (HasNone E.took E.sent_to E.is_lost self.old.items actor (number + 1)) (IsOldest E.took E.sent_to E.is_lost self.old.items actor (number + 1)) }
    {
        self.posts.next_after(actor, number)
    }

    // The oldest message that waits for an actor, after the last one if there is one.
    fn next_behind(&mut self, actor: u32, last: Option<u64>) -> Option<Post>
        ensures same { self.new ≡ self.old }
        ensures next { MatchOption result (HasNone E.took E.sent_to E.is_lost self.old.items actor (behind_last last)) (IsOldest E.took E.sent_to E.is_lost self.old.items actor (behind_last last)) }
    {
        match last {
            None => self.next_for(actor),
            Some(number) => self.next_after(actor, number),
        }
    }

    // A message of an item.
    fn message(&self, post: Post) -> Result<E::Message, OutOfMemory>
        requires { (item : E) × (slice_get self.now.items post.place ≡ Some item) × (post.index < length (E.sent_to item)) }
        ensures message { IfOk result (λ message. IsSentBy E.is_sent self.now.items (post, message)) }
    {
        E::message(&self.items, post.place, post.index)
    }

    /// The oldest messages that wait for an actor, as many as there is room for.
    pub fn collect(
        &mut self,
        actor: u32,
        found: &mut Vec<(Post, E::Message)>,
    ) -> Result<(), OutOfMemory>
        requires { found.old.items ≡ [] }
        ensures same { self.new ≡ self.old }
        ensures within { IsWithin E.bytes R.fits self.new }
        ensures room { vec_capacity found.new ≡ vec_capacity found.old }
        ensures oldest { AreOldest E.took E.sent_to E.is_lost self.old.items actor 0 (posts_in found.new.items) }
        ensures sent { All (IsSentBy E.is_sent self.old.items) found.new.items }
        ensures all { OnOk result (length found.new.items < vec_capacity found.new → HasNone E.took E.sent_to E.is_lost self.old.items actor (behind_all 0 (posts_in found.new.items))) }
    {
        self.confirm();
        let mut last = None;
        for _ in 0..found.capacity() {
            let Some(post) = self.next_behind(actor, last) else {
                return Ok(());
            };
            let message = self.message(post)?;
            found.push_reserved((post, message));
            last = Some(post.number);
        }
        Ok(())
    }

    /// The list of items.
    pub fn into_items(self) -> E::List
        ensures items { E.in_list result ≡ self.items }
        ensures fits { R.fits self.items }
    {
        let Board {
            items,
            weight: _,
            reserved: _,
            reserved_weight: _,
            limits: _,
            named: _,
            posts: _,
            rules: _,
        } = self;
        items
    }
}

// Notes which message an item took. The room for it is given up.
fn note_taking<E: Posted>(posts: &mut Posts, item: &E)
    requires { 0 < posts.old.takings }
    ensures { posts.new ≡ after_taking (E.took item.now) posts.old }
{
    match item.taken() {
        Some(number) => posts.take(number),
        None => posts.release(0, 1),
    }
}

// Notes the messages that the item at a place sent.
fn note_messages<E: Posted>(posts: &mut Posts, item: &E, place: u32)
    requires few { length (E.sent_to item.now) < 2 ^ 32 }
    requires room { length (E.sent_to item.now) ≤ posts.old.room }
    ensures { posts.new ≡ after_messages (messages_from place 0 (E.is_lost item.now) (E.sent_to item.now)) posts.old }
{
    let is_lost = item.lost();
    for index in 0..item.sent() {
        posts.add(item.goes_to(index), place, index as u32, is_lost);
    }
}
