//! The items of a run, as a tape holds them.
ghost use Rattle.std.specs.Prelude.{◌≡◌, List};
ghost use Rattle.acc_message.specs.declared.message.Message.{Message as AMessage};
ghost use Rattle.acc_message.specs.Items.{id_drawn};
ghost use Rattle.acc_message.specs.Shown.{with_sent};
ghost use Rattle.acc_tape.specs.ItemViews.{sign_of_item};

use crate::first::FIRST_ROOM;
use crate::posted::Posted;
use acc_base::OutOfMemory;
use acc_message::{Event, GrowingItems, Item, Message, Note, Shown, sent_by};
use acc_message_code::messages_length;
use acc_stamp::TxnId;
use std::alloc::Global;

// The id that a begin drew.
fn drawn(notes: &[Note]) -> Option<TxnId>
    ensures { result ≡ id_drawn notes.now }
{
    for note in notes {
        if let Note::Begin { id } = note {
            return Some(*id);
        }
    }
    None
}

// The transaction that an item begins, and the id that it drew for it.
fn begun(shown: Shown<'_>) -> Option<(u32, Option<TxnId>)>
    ensures begun { (out : List AMessage) → result ≡ sign_of_item (with_sent shown.entry out) }
{
    let Shown::Step { event, notes, .. } = shown else {
        return None;
    };
    match event {
        Event::Begin { txn } => Some((txn, drawn(notes))),
        _ => None,
    }
}

impl Posted for Item {
    ghost use Rattle.std.specs.Prelude.{◌≡◌, ◌≤◌, length, map, All, Some, slice_get};
    ghost use Rattle.acc_message.specs.Items.{sent_in, noted_in};
    ghost use Rattle.acc_message_code.specs.Short.{IsShortMessage};
    ghost use Rattle.acc_tape.specs.ItemViews.{actor_of_item, taken_by_item, is_lost_item, addressee, sign_of_item, weighs_enough};
    ghost use Rattle.acc_message_code.specs.Weight.{weight_of};

    type List = GrowingItems;

    type Message = Message;

    // The transaction that the item begins, and the id that it drew for it.
    type Sign = Option<(u32, Option<TxnId>)>;

    ghost actor_of = { actor_of_item };

    ghost took = { taken_by_item };

    ghost sent_to = { λ item. map addressee (sent_in item) };

    ghost is_lost = { is_lost_item };

    ghost bytes = { weight_of };

    ghost weighs = { λ item. All IsShortMessage (sent_in item) };

    ghost is_sent = { λ item index message. slice_get (sent_in item) index ≡ Some message };

    ghost sign_of = { sign_of_item };

    ghost in_list = { λ list. list.items };

    ghost noted = { λ item. length (noted_in item) };

    ghost room = { λ list. list.room };

    ghost notes_room = { λ list. list.notes_room };

    fn actor(&self) -> u32 {
        match self {
            Item::Step(entry) => entry.actor.0,
            Item::Skipped { .. } => 0,
            Item::Down { actor } => actor.0,
        }
    }

    fn taken(&self) -> Option<u64> {
        let Item::Step(entry) = self else {
            return None;
        };
        match entry.event {
            Event::Message { number } => Some(number),
            _ => None,
        }
    }

    fn sent(&self) -> u64 {
        sent_by(self).len() as u64
    }

    fn goes_to(&self, i: u64) -> u32 {
        sent_by(self)[i as usize].to().0
    }

    fn lost(&self) -> bool {
        match self {
            Item::Step(entry) => entry.lost,
            Item::Skipped { .. } | Item::Down { .. } => false,
        }
    }

    fn weight(&self) -> u64 {
        messages_length(sent_by(self))
    }

    fn list(alloc: Global) -> GrowingItems {
        let mut items = GrowingItems::new(alloc);
        if items.reserve(FIRST_ROOM).is_ok() {
            items.release(FIRST_ROOM);
        }
        let _more = items.reserve_notes(FIRST_ROOM);
        items
    }

    fn len(list: &GrowingItems) -> u64 {
        list.len() as u64
    }

    fn reserve(list: &mut GrowingItems, more: u64) -> Result<(), OutOfMemory> {
        list.reserve(more as usize)
    }

    fn release(list: &mut GrowingItems, less: u64) {
        list.release(less as usize);
    }

    fn reserve_notes(list: &mut GrowingItems, all: u64) -> Result<(), OutOfMemory> {
        list.reserve_notes(all as usize)
    }

    fn push(list: &mut GrowingItems, item: Item) {
        list.push(item);
    }

    fn message(list: &GrowingItems, place: u64, index: u64) -> Result<Message, OutOfMemory> {
        let Some(message) = list.message(place as usize, index as usize) else {
            unreachable!()
        };
        message.copy()
    }

    fn sign(list: &GrowingItems, place: u64) -> Option<(u32, Option<TxnId>)> {
        begun(list.shown(place as usize))
    }

    ghost enough = { weighs_enough };
}
