//! The keys that a body reads and writes.
ghost use Rattle.std.specs.Prelude.{◌≡◌, true, false, map, IfOk, OnOk};
ghost use Rattle.acc_txn.specs.Uses.{selected_keys, updated_key, with_keys, footprint_of};

use crate::parts::{BodyParts, Let, Select, Update};
use acc_base::OutOfMemory;
use acc_value::{Footprint, Key};

impl Update {
    /// The key that is written.
    pub fn key(&self) -> &Key
        ensures { result.now ≡ updated_key self.now }
    {
        match self {
            Update::Set { key, .. } => key,
            Update::Delete { key } => key,
        }
    }
}

/// The keys of the LETs and of a select that reads one, as read, and those of the updates, as written.
pub fn footprint(parts: &BodyParts) -> Result<Footprint, OutOfMemory>
    ensures { IfOk result (λ uses. uses ≡ footprint_of parts.now) }
{
    let mut uses = Footprint::new(parts.lets.allocator());
    add_lets(&mut uses, parts.lets.as_slice())?;
    add_select(&mut uses, &parts.select)?;
    add_updates(&mut uses, parts.updates.as_slice())?;
    Ok(uses)
}

fn add_lets(uses: &mut Footprint, lets: &[Let]) -> Result<(), OutOfMemory>
    ensures { OnOk result (uses.new ≡ with_keys false uses.old (map (λ l. l.key) lets.now)) }
{
    for binding in lets {
        uses.add(&binding.key, false)?;
    }
    Ok(())
}

fn add_select(uses: &mut Footprint, select: &Select) -> Result<(), OutOfMemory>
    ensures { OnOk result (uses.new ≡ with_keys false uses.old (selected_keys select.now)) }
{
    if let Select::Get(key) = select {
        uses.add(key, false)?;
    }
    Ok(())
}

fn add_updates(uses: &mut Footprint, updates: &[Update]) -> Result<(), OutOfMemory>
    ensures { OnOk result (uses.new ≡ with_keys true uses.old (map updated_key updates.now)) }
{
    for update in updates {
        uses.add(update.key(), true)?;
    }
    Ok(())
}
