//! An entry that a world has entered.
ghost use Rattle.std.specs.Prelude.{◌≡◌, IfOk};
ghost use Rattle.std.specs.Arc.{arc_value};
ghost use Rattle.acc_message.specs.declared.item.Item.{Item as AnItem};

use acc_base::OutOfMemory;
use acc_message::{Entry, Item};
use std::alloc::Global;
use std::marker::Model;
use std::sync::Arc;

/// An entry that a world has entered. The world's past shares it, so that it isn't copied. Contracts see the entry.
#[derive(Debug, Drop)]
pub struct SharedEntry {
    item: Arc<Item>,
}

impl Model for SharedEntry {
    ghost use Rattle.std.specs.Prelude.{IsTrue};
    ghost use Rattle.std.specs.Arc.{arc_value};
    ghost use Rattle.acc_message.specs.declared.entry.Entry.{Entry as AnEntry};
    ghost use Rattle.acc_world.specs.Shared.{entry_in, is_step};

    ghost Value = { AnEntry };

    ghost view = { λ e. entry_in (arc_value e.item) };

    ghost invariant = { λ e. IsTrue (is_step (arc_value e.item)) };
}

impl SharedEntry {
    /// An entry, in memory that others may share.
    pub(crate) fn of(alloc: Global, entry: Entry) -> Result<SharedEntry, OutOfMemory>
        ensures { IfOk result (λ shared. shared ≡ entry) }
    {
        Ok(SharedEntry {
            item: Arc::new(alloc, Item::Step(entry))?,
        })
    }

    /// The entry.
    pub fn entry(&self) -> &Entry
        ensures { result.now ≡ self.now }
    {
        match &*self.item {
            Item::Step(entry) => entry,
            Item::Skipped { .. } | Item::Down { .. } => unreachable!(),
        }
    }

    /// The entry as an item, which shares its memory.
    pub(crate) fn item(&self) -> Result<Arc<Item>, OutOfMemory>
        ensures { IfOk result (λ item. arc_value item ≡ AnItem.Step self.now) }
    {
        Ok(Arc::try_clone(&self.item)?)
    }
}
