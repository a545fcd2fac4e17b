//! What a body answers on the cells of a map.
ghost use Rattle.std.specs.Prelude.{◌≡◌, true, IfOk, OnOk, if◌then◌else◌};
ghost use Rattle.std.specs.List.{list_any};
ghost use Rattle.std.specs.Option.{option_copied};
ghost use Rattle.acc_value.specs.declared.key.Key.{Key};
ghost use Rattle.acc_value.specs.Key.{key_eq};
ghost use Rattle.acc_value.specs.Cells.{cell_of, cells_of};
ghost use Rattle.acc_txn.specs.Meaning.{outcome_of};
ghost use Rattle.acc_txn.specs.Uses.{is_read, selected_keys};

use acc_base::{Duplicate, OutOfMemory};
use acc_txn::{Body, BodyParts, Let, Outcome, Select};
use acc_value::{CellList, CellMap, Key, Value};
use std::alloc::Global;

/// The outcome of the body on these cells.
pub(crate) fn answer(body: &Body, cells: &CellMap) -> Result<Outcome, OutOfMemory>
    ensures { IfOk result (λ outcome. outcome ≡ outcome_of body.now (cells_of cells.now)) }
{
    let known = cells_read(body.parts(), cells)?;
    body.evaluate(&known)
}

// The cells of the keys that a body reads. Those of keys that it only writes make no difference to its outcome.
fn cells_read(parts: &BodyParts, cells: &CellMap) -> Result<CellList, OutOfMemory>
    ensures { IfOk result (λ known. (key : Key) → is_read parts.now key ≡ true → cell_of known key ≡ cells_of cells.now key) }
{
    let mut known = cells_bound(parts.lets.allocator(), cells, parts.lets.as_slice())?;
    add_selected(&mut known, cells, &parts.select)?;
    Ok(known)
}

// The cells of the keys of LETs.
fn cells_bound(alloc: Global, cells: &CellMap, lets: &[Let]) -> Result<CellList, OutOfMemory>
    ensures { IfOk result (λ known. (key : Key) → list_any (λ l. key_eq key l.key) lets.now ≡ true → cell_of known key ≡ cells_of cells.now key) }
{
    let mut known = CellList::new(alloc);
    for one in lets {
        add(&mut known, cells, &one.key)?;
    }
    Ok(known)
}

// Adds the cell of the key that is selected, if one is.
fn add_selected(known: &mut CellList, cells: &CellMap, select: &Select) -> Result<(), OutOfMemory>
    ensures { OnOk result ((key : Key) → cell_of known.new key ≡ (if list_any (key_eq key) (selected_keys select.now) then cells_of cells.now key else cell_of known.old key)) }
{
    match select {
        Select::Get(key) => {
            add(known, cells, key)?;
            Ok(())
        }
        _ => Ok(()),
    }
}

// Adds the cell of a key.
fn add(known: &mut CellList, cells: &CellMap, key: &Key) -> Result<(), OutOfMemory>
    ensures { OnOk result ((k : Key) → cell_of known.new k ≡ (if key_eq k key.now then cells_of cells.now k else cell_of known.old k)) }
{
    known.set(key.copy()?, copy_of(cells.get(key))?)?;
    Ok(())
}

fn copy_of(cell: Option<&Value>) -> Result<Option<Value>, OutOfMemory>
    ensures { IfOk result (λ copy. copy ≡ option_copied cell.entry) }
{
    match cell {
        Some(value) => Ok(Some(value.copy()?)),
        None => Ok(None),
    }
}
