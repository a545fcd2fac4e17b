//! Lists of items.
ghost use Rattle.std.specs.Prelude.{◌≡◌, List, ◌<◌, [], ◌∷◌, ◌++◌, Some, length, slice_get, IfOk, OnOk, OnErr};
ghost use Rattle.std.specs.Option.{option_copied};
ghost use Rattle.acc_message.specs.declared.message.Message.{Message as AMessage};
ghost use Rattle.acc_message.specs.Shown.{with_sent};
ghost use Rattle.acc_message.specs.Growing.{message_in};

use crate::growing_items::GrowingItems;
use crate::item::{Item, notes_of, sent_by};
use crate::message::Message;
use crate::shown::Shown;
use acc_base::{Duplicate, OutOfMemory};
use std::alloc::Global;
use std::marker::Model;

/// A list of items. Contracts see the items in their order.
#[derive(Debug, Drop)]
pub struct Items {
    list: GrowingItems,
}

impl Model for Items {
    ghost use Rattle.std.specs.Prelude.{List};
    ghost use Rattle.acc_message.specs.declared.item.Item.{Item};

    ghost Value = { List Item };

    ghost view = { λ l. l.list.items };
}

impl Items {
    /// An empty list, which takes no memory yet.
    pub fn new(alloc: Global) -> Items
        ensures { result ≡ [] }
    {
        Items {
            list: GrowingItems::new(alloc),
        }
    }

    /// The items of a list that is to grow no more.
    pub(crate) fn closed(list: GrowingItems) -> Items
        ensures { result ≡ list.items }
    {
        Items { list }
    }

    /// How many items there are.
    pub fn len(&self) -> usize
        ensures { result ≡ length self.now }
    {
        self.list.len()
    }

    /// What the item at a place shows.
    pub fn shown(&self, place: usize) -> Shown<'_>
        requires { place < length self.now }
        ensures { (out : List AMessage) × (slice_get self.now place ≡ Some (with_sent result out)) }
    {
        self.list.shown(place)
    }

    /// The message with this index among those that the item at a place sent, if there are so many items and messages.
    pub fn message(&self, place: usize, index: usize) -> Option<&Message>
        ensures { option_copied result ≡ message_in (slice_get self.now place) index }
    {
        self.list.message(place, index)
    }

    /// Appends an item. Without memory for it the list is as before.
    pub fn push(&mut self, item: Item) -> Result<(), OutOfMemory>
        ensures ok { OnOk result (self.new ≡ self.old ++ item ∷ []) }
        ensures err { OnErr result (self.new ≡ self.old) }
    {
        self.list.reserve_notes(notes_of(&item).len())?;
        self.list.reserve(sent_by(&item).len() + 1)?;
        self.list.push(item);
        Ok(())
    }

    /// An equal list. It shares those items with this one that other lists may have too.
    pub fn copy(&self) -> Result<Items, OutOfMemory>
        ensures { IfOk result (λ copy. copy ≡ self.now) }
    {
        Ok(Items {
            list: self.list.copy()?,
        })
    }
}

impl Duplicate for Items {
    fn copy(&self) -> Result<Items, OutOfMemory> {
        Items::copy(self)
    }
}
