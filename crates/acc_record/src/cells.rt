//! The cells of a store.
ghost use Rattle.std.specs.Prelude.{◌≡◌, [], None, Option, OnOk, MatchResult};
ghost use Rattle.std.specs.Option.{option_copied};
ghost use Rattle.acc_value.specs.declared.key.Key.{Key};
ghost use Rattle.acc_value.specs.Cells.{applied};
ghost use Rattle.acc_value.specs.Pairs.{IsRising, HasKeyAt, LacksKeyAt};
ghost use Rattle.acc_record.specs.Shelf.{cell_at};

use acc_base::OutOfMemory;
use acc_value::{CellList, CellMap, Key, Value};
use std::alloc::Global;

/// The cells of a store: a map, and in front of it the writes of the last step, which have a list of their own. So a step
/// that was prepared takes no memory when it writes; the next one moves them into the map before it begins.
#[derive(Debug, Drop)]
pub struct Cells {
    /// What was written before the last step.
    pub map: CellMap,
    /// What the last step wrote.
    pub pending: CellList,
}

impl Cells {
    /// Cells that are all null, which take no memory yet.
    pub fn new(alloc: Global) -> Cells
        ensures null { (key : Key) → cell_at result key ≡ None }
        ensures pending { result.pending ≡ [] }
    {
        Cells {
            map: CellMap::new(alloc),
            pending: CellList::new(alloc),
        }
    }

    /// The cell of a key. Takes no memory.
    pub fn get(&self, key: &Key) -> Option<&Value>
        ensures { option_copied result ≡ cell_at self.now key.now }
    {
        let pairs = self.pending.pairs();
        match place_of(pairs, key) {
            Ok(place) => pairs[place].1.as_ref(),
            Err(_) => self.map.get(key),
        }
    }

    /// Moves the last step's writes into the map. The cells stay in any case.
    pub fn flush(&mut self) -> Result<(), OutOfMemory>
        ensures same { (key : Key) → cell_at self.new key ≡ cell_at self.old key }
        ensures ok { OnOk result (self.new.pending ≡ []) }
    {
        if !self.pending.is_empty() {
            self.map.apply(&self.pending)?;
            self.pending = CellList::new(self.pending.allocator());
        }
        Ok(())
    }

    /// Sets the cell of each pair, where nothing is left to be moved into the map. Takes no memory.
    pub fn write(&mut self, writes: CellList)
        requires { self.old.pending ≡ [] }
        ensures { (key : Key) → cell_at self.new key ≡ applied (cell_at self.old) writes key }
    {
        self.pending = writes;
    }
}

// Where the pair of a key stands among pairs whose keys rise, or else where it would stand.
fn place_of(pairs: &[(Key, Option<Value>)], key: &Key) -> Result<usize, usize>
    requires { IsRising pairs.now }
    ensures { MatchResult result (HasKeyAt pairs.now key.now) (LacksKeyAt pairs.now key.now) }
{
    pairs.binary_search_by(|pair| pair.0.cmp(key))
}
