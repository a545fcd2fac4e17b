//! The items of the table.
ghost use Rattle.std.specs.Prelude.{◌≡◌};

use acc_base::OutOfMemory;
use acc_tape::{Posted, Rules};
use std::alloc::Global;

/// An item: whose it is, how many items its actor entered before it, the message that it took, the actors to which its
/// messages go, whether these are lost, and its bytes beside one for each message.
#[derive(Drop)]
pub struct Sample {
    pub actor: u32,
    pub number: u64,
    pub taken: Option<u64>,
    pub to: Vec<u32>,
    pub is_lost: bool,
    pub more: u64,
}

/// Who entered an item, and how many items that actor entered before it.
#[derive(Clone, Copy)]
pub struct Name {
    pub actor: u32,
    pub number: u64,
}

/// A list of items, and for how many more items and messages it has room.
#[derive(Drop)]
pub struct Samples {
    pub items: Vec<Sample>,
    pub room: u64,
}

impl Posted for Sample {
    ghost use Rattle.std.specs.Prelude.{◌≡◌, ◌+◌, ◌-◌, length, vec_len, vec_capacity};
    ghost use Rattle.acc_tape_tables.specs.Samples.{bytes_of, has_enough};

    type List = Samples;

    type Message = Name;

    type Sign = Name;

    ghost actor_of = { λ sample. sample.actor };

    ghost took = { λ sample. sample.taken };

    ghost sent_to = { λ sample. sample.to.items };

    ghost is_lost = { λ sample. sample.is_lost };

    ghost bytes = { bytes_of };

    ghost weighs = { λ _. Unit {0} };

    ghost is_sent = { λ sample index name. (name.actor ≡ sample.actor) × (name.number ≡ sample.number) };

    ghost sign_of = { λ sample. record { actor = sample.actor; number = sample.number } };

    ghost in_list = { λ samples. samples.items.items };

    // An item takes the place of a note in the list.
    ghost noted = { λ _. 1 };

    ghost room = { λ samples. samples.room };

    ghost notes_room = { λ samples. vec_capacity samples.items - vec_len samples.items };

    fn actor(&self) -> u32 {
        self.actor
    }

    fn taken(&self) -> Option<u64> {
        self.taken
    }

    fn sent(&self) -> u64 {
        self.to.len() as u64
    }

    fn goes_to(&self, i: u64) -> u32 {
        self.to[i as usize]
    }

    fn lost(&self) -> bool {
        self.is_lost
    }

    fn weight(&self) -> u64 {
        self.more + self.to.len() as u64
    }

    fn list(alloc: Global) -> Samples {
        Samples {
            items: Vec::new(alloc),
            room: 0,
        }
    }

    fn len(list: &Samples) -> u64 {
        list.items.len() as u64
    }

    fn reserve(list: &mut Samples, more: u64) -> Result<(), OutOfMemory> {
        list.room = list.room.checked_add(more).ok_or(OutOfMemory)?;
        Ok(())
    }

    fn release(list: &mut Samples, less: u64) {
        list.room -= less;
    }

    fn reserve_notes(list: &mut Samples, all: u64) -> Result<(), OutOfMemory> {
        list.items.reserve(all as usize)?;
        Ok(())
    }

    fn push(list: &mut Samples, item: Sample) {
        list.room -= 1 + item.to.len() as u64;
        list.items.push_reserved(item);
    }

    fn message(list: &Samples, place: u64, _index: u64) -> Result<Name, OutOfMemory> {
        Ok(name_of(&list.items[place as usize]))
    }

    fn sign(list: &Samples, place: u64) -> Name {
        name_of(&list.items[place as usize])
    }

    ghost enough = { has_enough };
}

/// The name of an item.
pub fn name_of(sample: &Sample) -> Name
    ensures { result ≡ record { actor = sample.now.actor; number = sample.now.number } }
{
    Name {
        actor: sample.actor,
        number: sample.number,
    }
}

/// The rules of a tape on which every list may stand.
pub struct Anything;

impl Rules<Sample> for Anything {
    ghost fits = { λ _. Unit {0} };
}
