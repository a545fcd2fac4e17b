//! Lists of items that still grow.
ghost use Rattle.std.specs.Prelude.{◌≡◌, ℕ, List, ◌+◌, ◌-◌, ◌<◌, ◌≤◌, [], ◌∷◌, ◌++◌, Some, true, length, map, slice_get, IfOk, OnOk, OnErr, vec_len, vec_capacity};
ghost use Rattle.std.specs.Option.{option_copied};
ghost use Rattle.std.specs.Arc.{arc_value};
ghost use Rattle.acc_message.specs.declared.message.Message.{Message as AMessage};
ghost use Rattle.acc_message.specs.declared.item.Item.{Item as AnItem};
ghost use Rattle.acc_message.specs.Items.{sent_in, noted_in};
ghost use Rattle.acc_message.specs.Shown.{with_sent};
ghost use Rattle.acc_message.specs.Growing.{message_in};

use crate::head::{Head, message_at, put, sent_by_head, shown_at};
use crate::item::{Item, notes_of, sent_by};
use crate::items::Items;
use crate::message::Message;
use crate::note::Note;
use crate::shown::Shown;
use acc_base::{Duplicate, OutOfMemory};
use std::alloc::Global;
use std::marker::Model;
use std::sync::Arc;

/// At most so many messages, and so many notes, stand in one list or have room there, so that a number of 32 bits tells a place
/// among them.
const MOST: usize = u32::MAX as usize;

/// A list of items to which others are added, for which room is made ahead. The first items may be shared with other lists. The
/// others are the list's own, and are kept apart from their notes and messages, which stand in a list each, so that an item takes
/// no memory of its own.
#[derive(Debug, Drop)]
pub struct GrowingItems {
    shared: Vec<Arc<Item>>,
    heads: Vec<Head>,
    notes: Vec<Note>,
    messages: Vec<Message>,
    room: usize,
    notes_room: usize,
}

impl Model for GrowingItems {
    ghost use Rattle.std.specs.Prelude.{◌+◌, ◌≤◌, ◌++◌, length, map};
    ghost use Rattle.std.specs.Vec.{vec_len, vec_capacity};
    ghost use Rattle.std.specs.Arc.{arc_value};
    ghost use Rattle.acc_message.specs.Growing.{Growing};
    ghost use Rattle.acc_message.specs.Joined.{noted_of, until_of, joined, IsStretch};

    ghost Value = { Growing };

    ghost view = { λ l. record { items = map arc_value l.shared.items ++ joined 0 0 l.heads.items l.notes.items l.messages.items; own = length l.heads.items; room = l.room; notes_room = l.notes_room } };

    ghost invariant = { λ l. IsStretch noted_of 0 l.heads.items (length l.notes.items) × IsStretch until_of 0 l.heads.items (length l.messages.items) × (vec_len l.shared + l.room ≤ vec_capacity l.shared) × (vec_len l.heads + l.room ≤ vec_capacity l.heads) × (vec_len l.messages + l.room ≤ vec_capacity l.messages) × (vec_len l.messages + l.room ≤ 4294967295) × (vec_len l.notes + l.notes_room ≤ vec_capacity l.notes) × (vec_len l.notes + l.notes_room ≤ 4294967295) };
}

// Whether there is room for so many more.
#[inline(always)]
fn has_room<T>(list: &Vec<T>, more: usize) -> bool
    ensures { result ≡ true → vec_len list.now + more ≤ vec_capacity list.now }
{
    more <= list.capacity() - list.len()
}

// Makes room for so many more in each list.
#[cold]
#[inline(never)]
fn make_room(
    shared: &mut Vec<Arc<Item>>,
    heads: &mut Vec<Head>,
    messages: &mut Vec<Message>,
    more: usize,
) -> Result<(), OutOfMemory>
    ensures shared { (shared.new.items ≡ shared.old.items) × (vec_len shared.new ≡ vec_len shared.old) × (vec_capacity shared.old ≤ vec_capacity shared.new) }
    ensures heads { (heads.new.items ≡ heads.old.items) × (vec_len heads.new ≡ vec_len heads.old) × (vec_capacity heads.old ≤ vec_capacity heads.new) }
    ensures messages { (messages.new.items ≡ messages.old.items) × (vec_len messages.new ≡ vec_len messages.old) × (vec_capacity messages.old ≤ vec_capacity messages.new) }
    ensures room { OnOk result ((vec_len shared.new + more ≤ vec_capacity shared.new) × (vec_len heads.new + more ≤ vec_capacity heads.new) × (vec_len messages.new + more ≤ vec_capacity messages.new)) }
{
    shared.reserve(more)?;
    heads.reserve(more)?;
    messages.reserve(more)?;
    Ok(())
}

// Makes room for so many more in each list, if it isn't there.
#[inline(always)]
fn ensure_room(
    shared: &mut Vec<Arc<Item>>,
    heads: &mut Vec<Head>,
    messages: &mut Vec<Message>,
    more: usize,
) -> Result<(), OutOfMemory>
    ensures shared { (shared.new.items ≡ shared.old.items) × (vec_len shared.new ≡ vec_len shared.old) × (vec_capacity shared.old ≤ vec_capacity shared.new) }
    ensures heads { (heads.new.items ≡ heads.old.items) × (vec_len heads.new ≡ vec_len heads.old) × (vec_capacity heads.old ≤ vec_capacity heads.new) }
    ensures messages { (messages.new.items ≡ messages.old.items) × (vec_len messages.new ≡ vec_len messages.old) × (vec_capacity messages.old ≤ vec_capacity messages.new) }
    ensures room { OnOk result ((vec_len shared.new + more ≤ vec_capacity shared.new) × (vec_len heads.new + more ≤ vec_capacity heads.new) × (vec_len messages.new + more ≤ vec_capacity messages.new)) }
{
    if has_room(shared, more) && has_room(heads, more) && has_room(messages, more) {
        return Ok(());
    }
    make_room(shared, heads, messages, more)
}

// Makes room for so many more notes.
#[cold]
#[inline(never)]
fn make_notes_room(notes: &mut Vec<Note>, more: usize) -> Result<(), OutOfMemory>
    ensures notes { (notes.new.items ≡ notes.old.items) × (vec_len notes.new ≡ vec_len notes.old) × (vec_capacity notes.old ≤ vec_capacity notes.new) }
    ensures room { OnOk result (vec_len notes.new + more ≤ vec_capacity notes.new) }
{
    notes.reserve(more)?;
    Ok(())
}

// Makes room for so many more notes, if it isn't there.
#[inline(always)]
fn ensure_notes_room(notes: &mut Vec<Note>, more: usize) -> Result<(), OutOfMemory>
    ensures notes { (notes.new.items ≡ notes.old.items) × (vec_len notes.new ≡ vec_len notes.old) × (vec_capacity notes.old ≤ vec_capacity notes.new) }
    ensures room { OnOk result (vec_len notes.new + more ≤ vec_capacity notes.new) }
{
    if has_room(notes, more) {
        return Ok(());
    }
    make_notes_room(notes, more)
}

// A list that shares all items of another.
fn share_all(alloc: Global, items: &[Arc<Item>]) -> Result<Vec<Arc<Item>>, OutOfMemory>
    ensures { IfOk result (λ shared. map arc_value shared.items ≡ map arc_value items.now) }
{
    let mut shared = Vec::with_capacity(alloc, items.len())?;
    for item in items {
        shared.push(Arc::try_clone(item)?)?;
    }
    Ok(shared)
}

impl GrowingItems {
    /// An empty list, which takes no memory yet.
    pub fn new(alloc: Global) -> GrowingItems
        ensures { result ≡ record { items = []; own = 0; room = 0; notes_room = 0 } }
    {
        GrowingItems {
            shared: Vec::new(alloc),
            heads: Vec::new(alloc),
            notes: Vec::new(alloc),
            messages: Vec::new(alloc),
            room: 0,
            notes_room: 0,
        }
    }

    /// Makes room for so many more items and messages in all, beside what there is room for already. Without memory for it, and
    /// where the messages of the list's own items and the room pass 32 bits, the list is as before.
    #[inline(always)]
    pub fn reserve(&mut self, more: usize) -> Result<(), OutOfMemory>
        ensures ok { OnOk result (self.new ≡ record self.old { room = self.old.room + more }) }
        ensures err { OnErr result (self.new ≡ self.old) }
    {
        let room = self.room.checked_add(more).ok_or(OutOfMemory)?;
        if room > MOST - self.messages.len() {
            return Err(OutOfMemory);
        }
        ensure_room(&mut self.shared, &mut self.heads, &mut self.messages, room)?;
        self.room = room;
        Ok(())
    }

    /// Gives room for so many items and messages up. Its memory stays with the list.
    #[inline(always)]
    pub fn release(&mut self, less: usize)
        requires { less ≤ self.old.room }
        ensures { self.new ≡ record self.old { room = self.old.room - less } }
    {
        self.room -= less;
    }

    /// Makes room for so many notes in all, in place of the room that there was for notes.
    /// Without memory for it, and where the notes of the list's own items and the room pass 32 bits, the list is as before.
    #[inline(always)]
    pub fn reserve_notes(&mut self, notes: usize) -> Result<(), OutOfMemory>
        ensures ok { OnOk result (self.new ≡ record self.old { notes_room = notes }) }
        ensures err { OnErr result (self.new ≡ self.old) }
    {
        if notes > MOST - self.notes.len() {
            return Err(OutOfMemory);
        }
        ensure_notes_room(&mut self.notes, notes)?;
        self.notes_room = notes;
        Ok(())
    }

    /// Appends an item for which there is room. It uses up room for itself, for each message that it sent and for each of its notes.
    #[inline(always)]
    pub fn push(&mut self, item: Item)
        requires room { length (sent_in item) < self.old.room }
        requires notes_room { length (noted_in item) ≤ self.old.notes_room }
        ensures { self.new ≡ record { items = self.old.items ++ item ∷ []; own = self.old.own + 1; room = self.old.room - (length (sent_in item) + 1); notes_room = self.old.notes_room - length (noted_in item) } }
    {
        self.room -= sent_by(&item).len() + 1;
        self.notes_room -= notes_of(&item).len();
        put(&mut self.heads, &mut self.notes, &mut self.messages, item);
    }

    /// Appends an item that other lists may have too, where there is room and the list has no own item. It stands where it stood.
    /// It uses up room for itself alone.
    pub fn share(&mut self, item: Arc<Item>)
        requires room { 0 < self.old.room }
        requires own { self.old.own ≡ 0 }
        ensures { self.new ≡ record self.old { items = self.old.items ++ arc_value item ∷ []; room = self.old.room - 1 } }
    {
        self.room -= 1;
        self.shared.push_reserved(item);
    }

    /// How many items there are.
    pub fn len(&self) -> usize
        ensures { result ≡ length self.now.items }
    {
        self.shared.len() + self.heads.len()
    }

    /// How many items, the last ones, no other list has.
    pub fn own_len(&self) -> usize
        ensures { result ≡ self.now.own }
    {
        self.heads.len()
    }

    /// What the item at a place shows.
    pub fn shown(&self, place: usize) -> Shown<'_>
        requires { place < length self.now.items }
        ensures { (out : List AMessage) × (slice_get self.now.items place ≡ Some (with_sent result out)) }
    {
        if place < self.shared.len() {
            return Shown::of(&*self.shared[place]);
        }
        shown_at(
            self.heads.as_slice(),
            self.notes.as_slice(),
            place - self.shared.len(),
        )
    }

    /// The message with this index among those that the item at a place sent, if there are so many items and messages.
    pub fn message(&self, place: usize, index: usize) -> Option<&Message>
        ensures { option_copied result ≡ message_in (slice_get self.now.items place) index }
    {
        if place < self.shared.len() {
            return sent_by(&*self.shared[place]).get(index);
        }
        message_at(
            self.heads.as_slice(),
            self.messages.as_slice(),
            place - self.shared.len(),
            index,
        )
    }

    /// The messages that the item at a place sent, those of a lost entry too.
    pub fn sent(&self, place: usize) -> &[Message]
        requires { place < length self.now.items }
        ensures { (item : AnItem) → slice_get self.now.items place ≡ Some item → result.now ≡ sent_in item }
    {
        if place < self.shared.len() {
            return sent_by(&*self.shared[place]);
        }
        sent_by_head(
            self.heads.as_slice(),
            self.messages.as_slice(),
            place - self.shared.len(),
        )
    }

    /// A list of equal items with room for none. It shares those items with this one that other lists may have too.
    pub(crate) fn copy(&self) -> Result<GrowingItems, OutOfMemory>
        ensures { IfOk result (λ copy. copy ≡ record self.now { room = 0; notes_room = 0 }) }
    {
        let alloc = *self.messages.allocator();
        let shared = share_all(alloc, self.shared.as_slice())?;
        let heads = Vec::from_slice(alloc, self.heads.as_slice())?;
        let notes = Note::copy_all(alloc, self.notes.as_slice())?;
        let messages = Message::copy_all(alloc, self.messages.as_slice())?;
        Ok(GrowingItems {
            shared,
            heads,
            notes,
            messages,
            room: 0,
            notes_room: 0,
        })
    }

    /// The items, to which no others are added.
    pub fn close(self) -> Items
        ensures { result ≡ self.items }
    {
        Items::closed(self)
    }
}
