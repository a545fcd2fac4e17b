//! The cells that a body reads.
ghost use Rattle.std.specs.Prelude.{◌≡◌, ◌==◌, [], map, cond, IfOk, OnOk};
ghost use Rattle.acc_topology.specs.Keys.{shard_of_key};
ghost use Rattle.acc_txn.specs.Uses.{selected_keys};
ghost use Rattle.acc_value.specs.Pairs.{put};
ghost use Rattle.acc_message.specs.StoreRules.{read_here};
ghost use Rattle.acc_opening.specs.Layer.{layered, read_more};

use crate::layer::cell;
use acc_base::OutOfMemory;
use acc_record::Cells;
use acc_topology::Topology;
use acc_txn::{BodyParts, Let, Select};
use acc_value::{CellList, Duplicate, Key};

/// Where a body reads.
#[derive(Clone, Copy, Debug)]
pub struct Place<'a> {
    /// Which keys lie in which shard.
    pub topology: &'a Topology,
    /// The shard.
    pub shard: u32,
    /// The cells of the store.
    pub cells: &'a Cells,
}

// Reads a key, where it lies in the shard.
#[inline(always)]
fn add_key(
    place: &Place<'_>,
    writes: &CellList,
    read: &mut CellList,
    key: &Key,
) -> Result<(), OutOfMemory>
    ensures { OnOk result (read.new ≡ cond (shard_of_key place.now.topology.now key.now == place.now.shard) (put read.old key.now (layered place.now.cells.now writes.now key.now)) read.old) }
{
    if place.topology.shard_of(key) == place.shard {
        let cell = match cell(place.cells, writes, key) {
            Some(value) => Some(value.copy()?),
            None => None,
        };
        read.set(key.copy()?, cell)?;
    }
    Ok(())
}

fn add_lets(
    place: &Place<'_>,
    writes: &CellList,
    read: &mut CellList,
    lets: &[Let],
) -> Result<(), OutOfMemory>
    ensures { OnOk result (read.new ≡ read_more place.now.topology.now place.now.shard (layered place.now.cells.now writes.now) read.old (map (λ l. l.key) lets.now)) }
{
    for binding in lets {
        add_key(place, writes, read, &binding.key)?;
    }
    Ok(())
}

fn add_select(
    place: &Place<'_>,
    writes: &CellList,
    read: &mut CellList,
    select: &Select,
) -> Result<(), OutOfMemory>
    ensures { OnOk result (read.new ≡ read_more place.now.topology.now place.now.shard (layered place.now.cells.now writes.now) read.old (selected_keys select.now)) }
{
    if let Select::Get(key) = select {
        add_key(place, writes, read, key)?;
    }
    Ok(())
}

/// The cells of the keys of the shard that a body reads, in the order of the keys, with writes laid over those of the store.
pub fn read_here(
    place: &Place<'_>,
    writes: &CellList,
    body: &BodyParts,
) -> Result<CellList, OutOfMemory>
    ensures { IfOk result (λ read. read ≡ read_here place.now.topology.now place.now.shard body.now (layered place.now.cells.now writes.now)) }
{
    let mut read = CellList::new(writes.allocator());
    add_lets(place, writes, &mut read, body.lets.as_slice())?;
    add_select(place, writes, &mut read, &body.select)?;
    Ok(read)
}
