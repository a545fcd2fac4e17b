//! The transactions for which a recovery would have to wait.
ghost use Rattle.std.specs.Prelude.{◌≡◌, ◌∷◌, IfOk, OnOk};
ghost use Rattle.std.specs.List.{list_any};
ghost use Rattle.acc_stamp.specs.Rising.{IsRising, ids_with, ids_union};
ghost use Rattle.acc_deps.specs.declared.records.View.{View};
ghost use Rattle.acc_deps.specs.Records.{waits_of};

use acc_base::OutOfMemory;
use acc_deps::View;
use acc_stamp::{Ids, TxnId};
use std::alloc::Global;

/// Whether a view or an earlier one rules out a fast decision.
pub(crate) fn is_superseded(view: &View, earlier: &[View]) -> bool
    ensures { result ≡ list_any (λ (v : View). v.superseded) (view.now ∷ earlier.now) }
{
    view.superseded || is_any_superseded(earlier)
}

fn is_any_superseded(views: &[View]) -> bool
    ensures { result ≡ list_any (λ (v : View). v.superseded) views.now }
{
    match views {
        [] => false,
        [view, earlier @ ..] => view.superseded || is_any_superseded(earlier),
    }
}

/// The transactions for which views wait, each once, rising.
pub(crate) fn waits_of(alloc: Global, views: &[View]) -> Result<Ids, OutOfMemory>
    ensures waits { IfOk result (λ ids. ids ≡ waits_of views.now) }
    ensures rises { IfOk result IsRising }
{
    match views {
        [] => Ok(Ids::new(alloc)),
        [view, earlier @ ..] => with_waits(waits_of(alloc, earlier)?, view),
    }
}

/// The transactions with those for which a view waits.
pub(crate) fn with_waits(mut ids: Ids, view: &View) -> Result<Ids, OutOfMemory>
    requires { IsRising ids }
    ensures waits { IfOk result (λ more. more ≡ ids_union ids view.now.waits) }
    ensures rises { IfOk result IsRising }
{
    add_all(&mut ids, view.waits.as_slice())?;
    Ok(ids)
}

// Adds transactions to rising ones.
fn add_all(ids: &mut Ids, more: &[TxnId]) -> Result<(), OutOfMemory>
    requires { IsRising ids.old }
    ensures all { OnOk result (ids.new ≡ ids_union ids.old more.now) }
    ensures rises { IsRising ids.new }
{
    for place in (0..more.len()).rev() {
        add(ids, more[place])?;
    }
    Ok(())
}

// Adds a transaction to rising ones, where it isn't there.
fn add(ids: &mut Ids, id: TxnId) -> Result<(), OutOfMemory>
    requires { IsRising ids.old }
    ensures ok { OnOk result (ids.new ≡ ids_with id ids.old) }
    ensures rises { IsRising ids.new }
{
    match ids.as_slice().binary_search(&id) {
        Ok(_) => Ok(()),
        Err(place) => ids.insert(place, id),
    }
}
