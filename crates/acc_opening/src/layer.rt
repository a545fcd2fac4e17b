//! The cells of a store with the writes of a step laid over them.
ghost use Rattle.std.specs.Prelude.{◌≡◌, ◌==◌, cond, Some, OnOk, MatchResult};
ghost use Rattle.std.specs.Option.{option_copied};
ghost use Rattle.acc_value.specs.Pairs.{IsRising, HasKeyAt, LacksKeyAt, put};
ghost use Rattle.acc_topology.specs.Keys.{shard_of_key};
ghost use Rattle.acc_message.specs.Opening.{writes_in};
ghost use Rattle.acc_opening.specs.Layer.{layered, WritesOver};

use acc_base::{Duplicate, OutOfMemory};
use acc_record::Cells;
use acc_topology::Topology;
use acc_txn::Outcome;
use acc_value::{CellList, Key, Value};

// Where the pair of a key stands among pairs whose keys rise, or else where it would stand.
fn place_of(pairs: &[(Key, Option<Value>)], key: &Key) -> Result<usize, usize>
    requires { IsRising pairs.now }
    ensures { MatchResult result (HasKeyAt pairs.now key.now) (LacksKeyAt pairs.now key.now) }
{
    pairs.binary_search_by(|pair| pair.0.cmp(key))
}

/// The cell of a key: what is written over it, or else what the store has.
pub(crate) fn cell<'a>(cells: &'a Cells, writes: &'a CellList, key: &Key) -> Option<&'a Value>
    ensures { option_copied result ≡ layered cells.now writes.now key.now }
{
    let pairs = writes.pairs();
    match place_of(pairs, key) {
        Ok(place) => pairs[place].1.as_ref(),
        Err(_) => cells.get(key),
    }
}

/// Lays the writes of an outcome to the keys of a shard over those before.
pub(crate) fn write(
    topology: &Topology,
    shard: u32,
    writes: &mut CellList,
    outcome: &Outcome,
) -> Result<(), OutOfMemory>
    ensures { OnOk result (WritesOver writes.old (writes_in topology.now shard (Some outcome.now)) writes.new) }
{
    let pairs = outcome.writes.pairs();
    for (key, cell) in pairs {
        write_one(topology, shard, writes, key, cell)?;
    }
    Ok(())
}

fn write_one(
    topology: &Topology,
    shard: u32,
    writes: &mut CellList,
    key: &Key,
    cell: &Option<Value>,
) -> Result<(), OutOfMemory>
    ensures { OnOk result (writes.new ≡ cond (shard_of_key topology.now key.now == shard) (put writes.old key.now cell.now) writes.old) }
{
    if topology.shard_of(key) == shard {
        writes.set(key.copy()?, cell.copy()?)?;
    }
    Ok(())
}
