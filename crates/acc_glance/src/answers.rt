//! What a body answers on the cells of a map.
ghost use Rattle.std.specs.Prelude.{◌≡◌, true, IfOk};
ghost use Rattle.std.specs.List.{list_any};
ghost use Rattle.std.specs.Option.{option_copied};
ghost use Rattle.acc_value.specs.declared.key.Key.{Key};
ghost use Rattle.acc_value.specs.Key.{key_eq};
ghost use Rattle.acc_value.specs.Cells.{cell_of, cells_of};
ghost use Rattle.acc_txn.specs.Meaning.{outcome_of};

use acc_base::{Duplicate, OutOfMemory};
use acc_txn::{Body, Outcome};
use acc_value::{CellList, CellMap, Key, Value};
use std::alloc::Global;

/// The outcome of the body on these cells.
pub(crate) fn answer(body: &Body, cells: &CellMap) -> Result<Outcome, OutOfMemory>
    ensures { IfOk result (λ outcome. outcome ≡ outcome_of body.now (cells_of cells.now)) }
{
    let uses = body.footprint()?;
    let used = cells_at(body.parts().lets.allocator(), cells, uses.pairs())?;
    body.evaluate(&used)
}

// The cells of these keys.
fn cells_at(alloc: Global, cells: &CellMap, uses: &[(Key, bool)]) -> Result<CellList, OutOfMemory>
    ensures { IfOk result (λ used. (key : Key) → list_any (λ other. key_eq key other.0) uses.now ≡ true → cell_of used key ≡ cells_of cells.now key) }
{
    let mut used = CellList::new(alloc);
    for (key, _) in uses {
        used.set(key.copy()?, copy_of(cells.get(key))?)?;
    }
    Ok(used)
}

fn copy_of(cell: Option<&Value>) -> Result<Option<Value>, OutOfMemory>
    ensures { IfOk result (λ copy. copy ≡ option_copied cell.entry) }
{
    match cell {
        Some(value) => Ok(Some(value.copy()?)),
        None => Ok(None),
    }
}
