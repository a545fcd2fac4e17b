//! Maps from keys to values.
ghost use Rattle.std.specs.Prelude.{◌≡◌, false, ◌||◌, if◌then◌else◌, map, IsTrue, is_none, IfOk, OnOk, OnErr};
ghost use Rattle.std.specs.Option.{option_copied};
ghost use Rattle.acc_value.specs.declared.key.Key.{Key};
ghost use Rattle.acc_value.specs.Key.{key_eq};
ghost use Rattle.acc_value.specs.Pairs.{IsRising};
ghost use Rattle.acc_value.specs.Cells.{cells_of, applied};
ghost use Rattle.acc_value.specs.Entries.{held, has_entry, IsReserved};

use crate::cells::CellList;
use crate::key::Key;
use crate::value::Value;
use acc_base::{Duplicate, OutOfMemory};
use std::alloc::Global;
use std::collections::BTreeMap;
use std::marker::Model;

/// The cells of a store: a finite map from keys to values. A key without a value has the cell null.
#[derive(Debug, Drop)]
pub struct CellMap {
    /// An entry that holds null is no cell; it is reserved for a value that is about to be written.
    entries: BTreeMap<Key, Option<Value>>,
}

impl Model for CellMap {
    ghost use Rattle.std.specs.FinMap as map;
    ghost use Rattle.acc_value.specs.Cells.{Map, map_of};
    ghost use Rattle.acc_value.specs.contracts.key.Key as key;
    ghost use Rattle.acc_value.specs.contracts.value.Value as value;

    ghost Value = { Map };

    ghost coded = { map.code key.the_row.coded value.the_row.coded };

    ghost view = { λ m. map_of m.entries.entries };
}

impl CellMap {
    /// A map without values, which takes no memory yet.
    pub fn new(alloc: Global) -> CellMap
        ensures { (key : Key) → cells_of result key ≡ None }
    {
        CellMap {
            entries: BTreeMap::new(alloc),
        }
    }

    /// The cell of a key. Takes no memory.
    pub fn get(&self, key: &Key) -> Option<&Value>
        ensures { option_copied result ≡ cells_of self.now key.now }
    {
        match self.entries.get(key) {
            Some(cell) => cell.as_ref(),
            None => None,
        }
    }

    /// Sets the cell of each pair; null removes the key. Without memory for the new keys and values the map is as before.
    pub fn apply(&mut self, writes: &CellList) -> Result<(), OutOfMemory>
        ensures ok { OnOk result ((key : Key) → cells_of self.new key ≡ applied (cells_of self.old) writes.now key) }
        ensures err { OnErr result (self.new ≡ self.old) }
    {
        let pairs = writes.pairs();
        if let [(key, cell)] = pairs {
            write_one(&mut self.entries, key, cell)?;
            return Ok(());
        }
        let cells = cells_in(writes.allocator(), pairs)?;
        reserve(&mut self.entries, pairs)?;
        write_cells(&mut self.entries, pairs, cells);
        Ok(())
    }

    /// An equal map, in memory of its own.
    pub fn copy(&self) -> Result<CellMap, OutOfMemory>
        ensures { IfOk result (λ copy. copy ≡ self.now) }
    {
        Ok(CellMap {
            entries: self.entries.clone()?,
        })
    }
}

impl Duplicate for CellMap {
    fn copy(&self) -> Result<CellMap, OutOfMemory> {
        CellMap::copy(self)
    }
}

/// Sets one cell. Without memory for it the cells are as before.
fn write_one(
    entries: &mut BTreeMap<Key, Option<Value>>,
    key: &Key,
    cell: &Option<Value>,
) -> Result<(), OutOfMemory>
    ensures ok { OnOk result ((k : Key) → held entries.new k ≡ (if key_eq key.now k then cell.now else held entries.old k)) }
    ensures err { OnErr result ((k : Key) → held entries.new k ≡ held entries.old k) }
{
    let cell = cell.copy()?;
    if cell.is_some() {
        reserve_entry(entries, key)?;
    }
    set_cell(entries, key, cell);
    Ok(())
}

/// Makes an entry, which holds null, for each key that is to get a number and has none. The cells stay in any case.
fn reserve(
    entries: &mut BTreeMap<Key, Option<Value>>,
    writes: &[(Key, Option<Value>)],
) -> Result<(), OutOfMemory>
    ensures same { (key : Key) → held entries.new key ≡ held entries.old key }
    ensures reserved { OnOk result (IsReserved entries.new writes.now) }
{
    for (key, cell) in writes {
        if cell.is_some() {
            reserve_entry(entries, key)?;
        }
    }
    Ok(())
}

fn reserve_entry(entries: &mut BTreeMap<Key, Option<Value>>, key: &Key) -> Result<(), OutOfMemory>
    ensures same { (k : Key) → held entries.new k ≡ held entries.old k }
    ensures kept { (k : Key) → IsTrue (has_entry entries.old k) → IsTrue (has_entry entries.new k) }
    ensures made { OnOk result (IsTrue (has_entry entries.new key.now)) }
{
    if !entries.contains_key(key) {
        entries.insert(key.copy()?, None)?;
    }
    Ok(())
}

/// Equal cells of the pairs, in memory of their own.
fn cells_in(
    alloc: Global,
    pairs: &[(Key, Option<Value>)],
) -> Result<Vec<Option<Value>>, OutOfMemory>
    ensures { IfOk result (λ cells. cells.items ≡ map (λ p. p.1) pairs.now) }
{
    let mut cells = Vec::with_capacity(alloc, pairs.len())?;
    for (_, cell) in pairs {
        cells.push(cell.copy()?)?;
    }
    Ok(cells)
}

/// Writes the cells, which are those of the pairs, into their entries, and removes the entries of those that are null.
fn write_cells(
    entries: &mut BTreeMap<Key, Option<Value>>,
    writes: &[(Key, Option<Value>)],
    cells: Vec<Option<Value>>,
)
    requires same { cells.items ≡ map (λ p. p.1) writes.now }
    requires rising { IsRising writes.now }
    requires reserved { IsReserved entries.old writes.now }
    ensures { (key : Key) → held entries.new key ≡ applied (held entries.old) writes.now key }
{
    let mut cells = cells;
    for place in 0..writes.len() {
        let cell = cells[place].take();
        set_cell(entries, &writes[place].0, cell);
    }
}

fn set_cell(entries: &mut BTreeMap<Key, Option<Value>>, key: &Key, cell: Option<Value>)
    requires { IsTrue (is_none cell || has_entry entries.old key.now) }
    ensures set { (k : Key) → held entries.new k ≡ (if key_eq key.now k then cell else held entries.old k) }
    ensures kept { (k : Key) → key_eq key.now k ≡ false → has_entry entries.new k ≡ has_entry entries.old k }
{
    if cell.is_none() {
        let _ = entries.remove(key);
    } else if let Some(held) = entries.get_mut(key) {
        *held = cell;
    }
}
