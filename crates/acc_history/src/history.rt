//! The past of a cluster.
ghost use Rattle.std.specs.Prelude.{◌≡◌, ℕ, ◌+◌, ◌<◌, ◌≤◌, ◌^◌, false, List, [], ◌∷◌, ◌++◌, length, reverse, slice_get, All, IfOk, OnOk, OnErr, MatchOption};
ghost use Rattle.std.specs.Option.{option_copied};
ghost use Rattle.std.specs.Arc.{arc_value};
ghost use Rattle.acc_message.specs.Items.{sent_in, sent_of, message_at, begins_txn, id_begun, is_begun, id_of_txn};
ghost use Rattle.acc_message.specs.Run.{is_down};
ghost use Rattle.acc_message.specs.Shown.{with_sent};
ghost use Rattle.acc_message_code.specs.Short.{IsShortMessage};
ghost use Rattle.acc_message_code.specs.Weight.{weight_of, weight_of_all, weight_of_items};
ghost use Rattle.acc_schedule_runs.specs.Situations.{Situation, opened, whole, NothingWaits, IsOldestWaiting};
ghost use Rattle.acc_schedule_runs.specs.Moves.{with_item};
ghost use Rattle.acc_history.specs.Begun.{begun_in, begun_as, begun_with, known_as};
ghost use Rattle.acc_message.specs.declared.item.Item.{Item as AnItem};
ghost use Rattle.acc_stamp.specs.declared.actors.Actor.{Actor as AnActor};
ghost use Rattle.acc_history.specs.Stands.{StandsFor, IsWeighed, IsNoted, TakesSent, EachMayFollow, situation_of, with_dropped};
ghost use Rattle.acc_history.specs.Entering.{IsAsBefore, IsCovered};

use crate::begun::{Begun, begun_at, known, note_begin};
use crate::entering::{cover_all, enter};
use acc_base::OutOfMemory;
use acc_message::{Entry, GrowingItems, Item, Items, Message, Shown, notes_of, sent_by};
use acc_message_code::messages_length;
use acc_message_index::Waiting;
use acc_stamp::{Actor, TxnId};
use std::alloc::Global;
use std::sync::Arc;

/// The items of a cluster, in the order in which they were entered, and which messages were dropped. Each message stands once,
/// with the items. Messages are numbered from 0.
#[derive(Debug, Drop)]
pub struct History {
    items: GrowingItems,
    waiting: Waiting,
    begun: Begun,
    weight: u64,
}

// Makes room for what an item changes, and notes what it begins. Without memory for it all else is as before.
#[inline(always)]
fn prepare(
    waiting: &mut Waiting,
    begun: &mut Begun,
    shown: Shown<'_>,
    messages: &[Message],
) -> Result<(), OutOfMemory>
    ensures same { IsAsBefore waiting.old waiting.new }
    ensures few { OnOk result (length messages.now < 2 ^ 32) }
    ensures room { OnOk result (length messages.now ≤ waiting.new.room) }
    ensures covered { OnOk result (IsCovered (length waiting.new.downs) (with_sent shown.entry messages.now)) }
    ensures begun { OnOk result ((number : ℕ) → begun_in begun.new.items number ≡ begun_with (begins_txn number (with_sent shown.entry messages.now)) (id_begun number (with_sent shown.entry messages.now)) (begun_in begun.old.items number)) }
    ensures err { OnErr result ((number : ℕ) → begun_in begun.new.items number ≡ begun_in begun.old.items number) }
    ensures err_room { OnErr result (waiting.new.room ≡ waiting.old.room) }
{
    cover_all(waiting, shown, messages)?;
    let sent = messages.len() as u64;
    waiting.reserve(sent)?;
    if note_begin(begun, shown).is_err() {
        waiting.release(sent);
        return Err(OutOfMemory);
    }
    Ok(())
}

// A place among the items. More than 32 bits tell are refused as memory is.
#[inline(always)]
fn place_of(place: usize) -> Result<u32, OutOfMemory>
    ensures { IfOk result (λ told. told ≡ place) }
{
    if place > u32::MAX as usize {
        return Err(OutOfMemory);
    }
    Ok(place as u32)
}

// So many bytes and those of these messages. More than 64 bits tell are refused as memory is.
fn weight_with(weight: u64, messages: &[Message]) -> Result<u64, OutOfMemory>
    requires short { All IsShortMessage messages.now }
    requires fits { weight_of_all messages.now < 2 ^ 64 }
    ensures { IfOk result (λ total. total ≡ weight + weight_of_all messages.now) }
{
    let sent = messages_length(messages);
    let weight = weight.checked_add(sent).ok_or(OutOfMemory)?;
    Ok(weight)
}

// Notes the item at a place behind those before it, and gives the bytes of the messages of them all.
fn note_item(
    waiting: &mut Waiting,
    begun: &mut Begun,
    weight: u64,
    place: usize,
    shown: Shown<'_>,
    messages: &[Message],
) -> Result<u64, OutOfMemory>
    requires short { All IsShortMessage messages.now }
    requires fits { weight_of_all messages.now < 2 ^ 64 }
    ensures { IfOk result (λ total. (before : List AnItem) (item : AnItem) → place ≡ length before → with_sent shown.entry messages.now ≡ item → messages.now ≡ sent_in item
        → TakesSent (situation_of before) item → IsNoted before waiting.old begun.old.items weight → IsNoted (before ++ item ∷ []) waiting.new begun.new.items total) }
{
    let total = weight_with(weight, messages)?;
    let place = place_of(place)?;
    prepare(waiting, begun, shown, messages)?;
    enter(waiting, shown, messages, place);
    Ok(total)
}

// Asks ahead for room for all messages of these items. Without memory for them the room grows with each item.
fn ask_ahead(waiting: &mut Waiting, items: &GrowingItems)
    ensures { waiting.new ≡ waiting.old }
{
    let mut sent: u64 = 0;
    for place in 0..items.len() {
        sent = sent.saturating_add(items.sent(place).len() as u64);
    }
    if waiting.reserve(sent).is_ok() {
        waiting.release(sent);
    }
}

impl History {
    /// The past of a cluster that has done nothing.
    pub fn new(alloc: Global) -> Result<History, OutOfMemory>
        ensures stands { IfOk result (λ history. StandsFor history (opened [])) }
        ensures weighed { IfOk result (λ history. IsWeighed history (opened [])) }
    {
        Ok(History {
            items: GrowingItems::new(alloc),
            waiting: Waiting::new(alloc)?,
            begun: Vec::new(alloc),
            weight: 0,
        })
    }

    /// The past of a cluster that was opened behind an earlier run, in which nobody is down. Each id is that of the transaction with its
    /// number, where the run has begun it.
    pub fn behind(alloc: Global, ids: &[Option<TxnId>]) -> Result<History, OutOfMemory>
        requires { length ids.now < 2 ^ 32 }
        ensures stands { IfOk result (λ history. (earlier : List AnItem) → ((a : AnActor) → is_down a earlier ≡ false)
            → ((txn : ℕ) → known_as (slice_get ids.now txn) ≡ begun_as (is_begun earlier txn) (id_of_txn earlier txn)) → StandsFor history (opened earlier)) }
        ensures weighed { IfOk result (λ history. (earlier : List AnItem) → IsWeighed history (opened earlier)) }
    {
        let waiting = Waiting::new(alloc)?;
        let begun = known(alloc, ids)?;
        let items = GrowingItems::new(alloc);
        Ok(History {
            items,
            waiting,
            begun,
            weight: 0,
        })
    }

    /// The past of a cluster that did these items, which stand in the list in which they stood, behind no earlier run. Each takes only
    /// what was sent before it, its messages have a spelling, and their bytes are fewer than 2^64. More than 2^32 items, 2^32 messages or
    /// more, and more bytes than 64 bits tell are refused as memory is; then the items are gone.
    pub fn over(alloc: Global, items: GrowingItems) -> Result<History, OutOfMemory>
        requires { EachMayFollow items.items }
        ensures stands { IfOk result (λ history. StandsFor history (situation_of items.items)) }
        ensures weighed { IfOk result (λ history. IsWeighed history (situation_of items.items)) }
    {
        let mut waiting = Waiting::new(alloc)?;
        ask_ahead(&mut waiting, &items);
        let mut begun = Vec::new(alloc);
        let mut weight = 0;
        for place in 0..items.len() {
            let shown = items.shown(place);
            let messages = items.sent(place);
            weight = note_item(&mut waiting, &mut begun, weight, place, shown, messages)?;
        }
        Ok(History {
            items,
            waiting,
            begun,
            weight,
        })
    }

    /// The items.
    pub fn items(&self) -> &GrowingItems
        ensures { (s : Situation) → StandsFor self.now s → result.now.items ≡ reverse s.own }
    {
        &self.items
    }

    /// The items, in their own memory.
    pub fn into_items(self) -> Items
        ensures { (s : Situation) → StandsFor self s → result ≡ reverse s.own }
    {
        let History {
            items,
            waiting: _,
            begun: _,
            weight: _,
        } = self;
        items.close()
    }

    /// How many items there are.
    pub fn len(&self) -> usize
        ensures { (s : Situation) → StandsFor self.now s → result ≡ length s.own }
    {
        self.items.len()
    }

    /// How many messages were sent, those of lost entries too.
    pub fn sent(&self) -> u64
        ensures { (s : Situation) → StandsFor self.now s → result ≡ length (sent_of s.own) }
    {
        self.waiting.len()
    }

    /// The bytes of all messages, as they were given with their items.
    pub fn weight(&self) -> u64
        ensures { (s : Situation) → IsWeighed self.now s → result ≡ weight_of_items s.own }
    {
        self.weight
    }

    /// The message with this number, if so many were sent.
    pub fn message(&self, number: u64) -> Option<&Message>
        ensures { (s : Situation) → StandsFor self.now s → option_copied result ≡ message_at s.own number }
    {
        if number >= self.waiting.len() {
            return None;
        }
        let posting = self.waiting.posting(number);
        self.items
            .message(posting.place as usize, posting.index as usize)
    }

    /// Whether the transaction with this number was begun.
    pub fn is_begun(&self, txn: u32) -> bool
        ensures { (s : Situation) → StandsFor self.now s → result ≡ is_begun (whole s) txn }
    {
        begun_at(&self.begun, txn).is_some()
    }

    /// The id that the begin of the transaction with this number drew.
    pub fn id_of(&self, txn: u32) -> Option<TxnId>
        ensures { (s : Situation) → StandsFor self.now s → result ≡ id_of_txn (whole s) txn }
    {
        match begun_at(&self.begun, txn) {
            Some(id) => id,
            None => None,
        }
    }

    /// Whether an actor is down.
    pub fn is_down(&self, actor: Actor) -> bool
        ensures { (s : Situation) → StandsFor self.now s → result ≡ is_down actor (whole s) }
    {
        self.waiting.is_down(actor.0)
    }

    /// The oldest message that waits: it was neither taken, dropped nor lost, and the actor that it goes to is up.
    pub fn oldest_waiting(&self) -> Option<u64>
        ensures { (s : Situation) → StandsFor self.now s → MatchOption result (NothingWaits s) (IsOldestWaiting s) }
    {
        self.waiting.oldest()
    }

    /// Drops the message with this number, if so many were sent: it waits no more, and can still be taken.
    pub fn drop_message(&mut self, number: u64)
        ensures stands { (s : Situation) → StandsFor self.old s → number < length (sent_of s.own) → StandsFor self.new (with_dropped number s) }
        ensures weighed { (s : Situation) → IsWeighed self.old s → IsWeighed self.new (with_dropped number s) }
    {
        if number < self.waiting.len() {
            self.waiting.close(number);
        }
    }

    // Makes so much room in the list for an item and its messages, and for so many notes, notes what it begins, counts the bytes of its
    // messages, and gives its place.
    #[inline(always)]
    fn admit(
        &mut self,
        shown: Shown<'_>,
        messages: &[Message],
        room: usize,
        notes: usize,
        weight: u64,
    ) -> Result<u32, OutOfMemory>
        ensures items { (self.new.items.items ≡ self.old.items.items) × (self.new.items.own ≡ self.old.items.own) }
        ensures room { OnOk result (self.new.items.room ≡ self.old.items.room + room) }
        ensures still_room { OnErr result (self.new.items.room ≡ self.old.items.room) }
        ensures notes_room { OnOk result (self.new.items.notes_room ≡ notes) }
        ensures same { IsAsBefore self.old.waiting self.new.waiting }
        ensures few { OnOk result (length messages.now < 2 ^ 32) }
        ensures waiting_room { OnOk result (length messages.now ≤ self.new.waiting.room) }
        ensures covered { OnOk result (IsCovered (length self.new.waiting.downs) (with_sent shown.entry messages.now)) }
        ensures begun { OnOk result ((number : ℕ) → begun_in self.new.begun.items number ≡ begun_with (begins_txn number (with_sent shown.entry messages.now)) (id_begun number (with_sent shown.entry messages.now)) (begun_in self.old.begun.items number)) }
        ensures still_begun { OnErr result ((number : ℕ) → begun_in self.new.begun.items number ≡ begun_in self.old.begun.items number) }
        ensures place { IfOk result (λ place. place ≡ length self.old.items.items) }
        ensures weight { OnOk result (self.new.weight ≡ self.old.weight + weight) }
        ensures still_weighed { OnErr result (self.new.weight ≡ self.old.weight) }
    {
        let weight = self.weight.checked_add(weight).ok_or(OutOfMemory)?;
        let place = place_of(self.items.len())?;
        self.items.reserve_notes(notes)?;
        self.items.reserve(room)?;
        if prepare(&mut self.waiting, &mut self.begun, shown, messages).is_err() {
            self.items.release(room);
            return Err(OutOfMemory);
        }
        self.weight = weight;
        Ok(place)
    }

    /// Enters an item, whose messages have so many bytes. A message that it takes was sent before. All memory is taken first:
    /// without it, and where the bytes of all messages pass 64 bits or the items or messages 32 bits, the past is as before.
    #[inline(always)]
    pub fn add(&mut self, item: Item, weight: u64) -> Result<(), OutOfMemory>
        ensures stands { OnOk result ((s : Situation) → StandsFor self.old s → TakesSent s item → StandsFor self.new (with_item item s)) }
        ensures weighed { OnOk result ((s : Situation) → IsWeighed self.old s → weight ≡ weight_of item → IsWeighed self.new (with_item item s)) }
        ensures still_stands { OnErr result ((s : Situation) → StandsFor self.old s → StandsFor self.new s) }
        ensures still_weighed { OnErr result ((s : Situation) → IsWeighed self.old s → IsWeighed self.new s) }
    {
        let shown = Shown::of(&item);
        let messages = sent_by(&item);
        let notes = notes_of(&item).len();
        let place = self.admit(shown, messages, messages.len() + 1, notes, weight)?;
        enter(&mut self.waiting, shown, messages, place);
        self.items.push(item);
        Ok(())
    }

    /// The same of an entry.
    #[inline(always)]
    pub fn add_entry(&mut self, entry: Entry, weight: u64) -> Result<(), OutOfMemory>
        ensures stands { OnOk result ((s : Situation) → StandsFor self.old s → TakesSent s (AnItem.Step entry) → StandsFor self.new (with_item (AnItem.Step entry) s)) }
        ensures weighed { OnOk result ((s : Situation) → IsWeighed self.old s → weight ≡ weight_of (AnItem.Step entry) → IsWeighed self.new (with_item (AnItem.Step entry) s)) }
        ensures still_stands { OnErr result ((s : Situation) → StandsFor self.old s → StandsFor self.new s) }
        ensures still_weighed { OnErr result ((s : Situation) → IsWeighed self.old s → IsWeighed self.new s) }
    {
        let shown = Shown::Step {
            actor: entry.actor,
            lost: entry.lost,
            event: entry.event,
            notes: entry.emitted.notes.as_slice(),
        };
        let messages = entry.emitted.out.as_slice();
        let notes = entry.emitted.notes.len();
        let place = self.admit(shown, messages, messages.len() + 1, notes, weight)?;
        enter(&mut self.waiting, shown, messages, place);
        self.items.push(Item::Step(entry));
        Ok(())
    }

    /// The same of an item that others may have too, which stands where it stood unless the past has items of its own.
    pub fn add_shared(&mut self, item: Arc<Item>, weight: u64) -> Result<(), OutOfMemory>
        ensures stands { OnOk result ((s : Situation) → StandsFor self.old s → TakesSent s (arc_value item) → StandsFor self.new (with_item (arc_value item) s)) }
        ensures weighed { OnOk result ((s : Situation) → IsWeighed self.old s → weight ≡ weight_of (arc_value item) → IsWeighed self.new (with_item (arc_value item) s)) }
        ensures still_stands { OnErr result ((s : Situation) → StandsFor self.old s → StandsFor self.new s) }
        ensures still_weighed { OnErr result ((s : Situation) → IsWeighed self.old s → IsWeighed self.new s) }
    {
        if self.items.own_len() > 0 {
            return self.add(item.copy()?, weight);
        }
        let shown = Shown::of(&*item);
        let messages = sent_by(&*item);
        let place = self.admit(shown, messages, 1, 0, weight)?;
        enter(&mut self.waiting, shown, messages, place);
        self.items.share(item);
        Ok(())
    }
}
