//! The lists of watches that a step changes.
ghost use Rattle.std.specs.Prelude.{◌≡◌, ◌++◌, [], ◌∷◌, if◌then◌else◌, IfOk, OnOk};
ghost use Rattle.acc_stamp.specs.declared.stamps.TxnId.{TxnId};
ghost use Rattle.acc_record.specs.Shelf.{Waits as AllWaits, watchers};
ghost use Rattle.acc_opening.specs.Touched.{watches_now, is_same};

use acc_base::OutOfMemory;
use acc_record::{Waits, Watch};
use acc_stamp::TxnId;
use std::alloc::Global;
use std::collections::BTreeMap;

/// What a step changes in the list of those that wait for a dependency.
#[derive(Debug, Drop)]
pub struct Touched {
    /// Whether those that waited have been looked at, so that none of them waits here any more.
    pub drained: bool,
    /// What waits for it besides.
    pub added: Vec<Watch>,
}

/// The lists that a step changes, by the dependency.
pub type TouchedWaits = BTreeMap<TxnId, Touched>;

/// Adds a watch of a dependency.
pub(crate) fn add_watch(
    alloc: Global,
    touched: &mut TouchedWaits,
    id: TxnId,
    watch: Watch,
) -> Result<(), OutOfMemory>
    ensures { OnOk result ((waits : AllWaits) (y : TxnId) → watches_now touched.new waits y ≡ (if is_same id y then watches_now touched.old waits y ++ watch ∷ [] else watches_now touched.old waits y)) }
{
    if let Some(there) = touched.get_mut(&id) {
        there.added.push(watch)?;
        return Ok(());
    }
    let mut added = Vec::new(alloc);
    added.push(watch)?;
    touched.insert(
        id,
        Touched {
            drained: false,
            added,
        },
    )?;
    Ok(())
}

/// What waits for a dependency, from which it is taken away.
#[inline(always)]
pub(crate) fn take_watches(
    alloc: Global,
    touched: &mut TouchedWaits,
    waits: &Waits,
    id: TxnId,
) -> Result<Vec<Watch>, OutOfMemory>
    ensures taken { IfOk result (λ taken. taken.items ≡ watches_now touched.old waits.now id) }
    ensures left { OnOk result ((y : TxnId) → watches_now touched.new waits.now y ≡ (if is_same id y then [] else watches_now touched.old waits.now y)) }
{
    let mut taken = Vec::new(alloc);
    if let Some(there) = touched.get_mut(&id) {
        if !there.drained {
            add_watchers(&mut taken, waits, id)?;
        }
        taken.extend_from_slice(&there.added)?;
        there.drained = true;
        there.added.clear();
        return Ok(taken);
    }
    add_watchers(&mut taken, waits, id)?;
    if taken.is_empty() {
        return Ok(taken);
    }
    touched.insert(
        id,
        Touched {
            drained: true,
            added: Vec::new(alloc),
        },
    )?;
    Ok(taken)
}

fn add_watchers(taken: &mut Vec<Watch>, waits: &Waits, id: TxnId) -> Result<(), OutOfMemory>
    ensures { OnOk result (taken.new.items ≡ taken.old.items ++ watchers waits.now id) }
{
    if let Some(watches) = waits.get(&id) {
        taken.extend_from_slice(watches)?;
    }
    Ok(())
}
