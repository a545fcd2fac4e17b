//! Where the messages of items stand, by their numbers.
ghost use Rattle.std.specs.Prelude.{◌≡◌, ◌<◌, ◌∷◌, ◌++◌, [], List, Some, length, map, option_copied, slice_get, OnOk};
ghost use Rattle.acc_message.specs.declared.item.Item.{Item};
ghost use Rattle.acc_message.specs.Items.{message_at};
ghost use Rattle.acc_left.specs.Kept.{found, placed, sent_at, TellPlaces};

use acc_base::OutOfMemory;
use acc_message::{Items, Message};
use std::alloc::Global;
use std::marker::Model;

/// Where a message stands.
#[derive(Clone, Copy, Debug, PartialEq, Eq)]
pub(crate) struct Place {
    /// The place of the item that sent it.
    pub(crate) item: u32,
    /// Its place among the messages of that item.
    pub(crate) index: u32,
}

/// Where the messages of the first items of a list stand, by their numbers.
#[derive(Drop)]
pub(crate) struct Places {
    places: Vec<Place>,
}

impl Model for Places {
    ghost use Rattle.std.specs.Prelude.{List};
    ghost use Rattle.acc_left.specs.declared.places.Place.{Place as APlace};

    ghost Value = { List APlace };

    ghost view = { λ p. p.places.items };
}

impl Places {
    /// Those of no items.
    pub(crate) fn new(alloc: Global) -> Places
        ensures { (items : List Item) → TellPlaces result items [] }
    {
        Places {
            places: Vec::new(alloc),
        }
    }

    /// Enters the messages of the item at this place. Want of memory comes of 2^32 items or messages of an item too.
    pub(crate) fn enter(&mut self, items: &Items, place: usize) -> Result<(), OutOfMemory>
        requires { place < length items.now }
        ensures { OnOk result ((entered : List Item) (item : Item) → slice_get items.now place ≡ Some item → TellPlaces self.old items.now entered
            → TellPlaces self.new items.now (item ∷ entered)) }
    {
        match u32::try_from(place) {
            Ok(item) => push_places(&mut self.places, items, item),
            Err(_) => Err(OutOfMemory),
        }
    }

    /// The message with this number among those of the items that were entered.
    pub(crate) fn message<'i>(&self, items: &'i Items, number: u64) -> Option<&'i Message>
        ensures { (entered : List Item) → TellPlaces self.now items.now entered → option_copied result ≡ message_at entered number }
    {
        let place = self.places.as_slice().get(number as usize)?;
        items.message(place.item as usize, place.index as usize)
    }
}

// Appends the places of the messages of an item. Want of memory comes of 2^32 of them too.
fn push_places(places: &mut Vec<Place>, items: &Items, item: u32) -> Result<(), OutOfMemory>
    ensures { OnOk result (map (placed items.now) places.new.items ≡ map (placed items.now) places.old.items ++ map found (sent_at items.now item)) }
{
    for index in 0..u32::MAX {
        match items.message(item as usize, index as usize) {
            Some(_) => places.push(Place { item, index })?,
            None => return Ok(()),
        }
    }
    Err(OutOfMemory)
}
