//! The answers of shards to a Stable.
ghost use Rattle.std.specs.Prelude.{◌≡◌, ◌<◌, ◌≤◌, ◌||◌, ◌==◌, ℕ, [], if◌then◌else◌, IfOk};
ghost use Rattle.std.specs.List.{list_all};
ghost use Rattle.acc_topology.specs.Sets.{in_set, members};
ghost use Rattle.acc_topology.specs.Keys.{shard_of_key};
ghost use Rattle.acc_value.specs.declared.key.Key.{Key};
ghost use Rattle.acc_value.specs.Cells.{cell_of};
ghost use Rattle.acc_coord.specs.Cells.{HasCells};

use acc_base::{Duplicate, OutOfMemory};
use acc_topology::sets::{contains, with};
use acc_topology::{ShardSet, Topology};
use acc_value::CellList;
use std::alloc::Global;

/// The shards that have answered, and the cells that they read.
#[derive(Debug, Drop)]
pub(crate) struct Reads {
    pub(crate) heard: ShardSet,
    pub(crate) cells: CellList,
}

impl Reads {
    /// No answer.
    pub(crate) fn new(alloc: Global) -> Reads
        ensures { result ≡ record { heard = 0; cells = [] } }
    {
        Reads {
            heard: 0,
            cells: CellList::new(alloc),
        }
    }

    /// These answers with one more, of a shard that had none: its cells count for the keys of the shard.
    pub(crate) fn with(
        &self,
        topology: &Topology,
        shard: u32,
        cells: &CellList,
    ) -> Result<Reads, OutOfMemory>
        requires { shard < 16 }
        ensures heard { IfOk result (λ reads. (n : ℕ) → in_set reads.heard n ≡ (in_set self.now.heard n || shard == n)) }
        ensures cells { IfOk result (λ reads. HasCells topology.now shard self.now.cells cells.now reads.cells) }
    {
        Ok(Reads {
            heard: with(self.heard, shard),
            cells: joined(topology, shard, &self.cells, cells)?,
        })
    }

    /// Whether all of these shards have answered.
    pub(crate) fn has_all(&self, shards: ShardSet) -> bool
        ensures { result ≡ list_all (in_set self.now.heard) (members shards) }
    {
        for shard in 0..16 {
            if contains(shards, shard) && !contains(self.heard, shard) {
                return false;
            }
        }
        true
    }
}

// Cells, with those of one shard's keys among some others put in.
fn joined(
    topology: &Topology,
    shard: u32,
    before: &CellList,
    cells: &CellList,
) -> Result<CellList, OutOfMemory>
    ensures { IfOk result (λ joined. HasCells topology.now shard before.now cells.now joined) }
{
    let mut joined = before.copy()?;
    for (key, cell) in cells.pairs() {
        if topology.shard_of(key) == shard {
            joined.set(key.copy()?, cell.copy()?)?;
        }
    }
    Ok(joined)
}
