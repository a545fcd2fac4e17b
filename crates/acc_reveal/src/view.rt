//! The view that a store gives.
ghost use Rattle.std.specs.Prelude.{◌≡◌, ◌<◌, ◌^◌, [], IfOk};
ghost use Rattle.acc_stamp.specs.Rising.{ids_union};
ghost use Rattle.acc_record.specs.Shelf.{record_at};
ghost use Rattle.acc_reveal.specs.Revealed.{accepted_in, committed_in, stable_in, view_at, view_with};

use crate::evidence::{Told, told_by};
use acc_base::{Duplicate, OutOfMemory};
use acc_deps::{Settled, SharedAccepted, View};
use acc_index::Share;
use acc_record::{Shelf, Vote};
use acc_stamp::TxnId;

/// What the store reveals of a transaction that uses these keys here. `top` is the greatest `h` of the message that asks.
pub(crate) fn view(shelf: &Shelf, id: TxnId, share: &Share, top: u64) -> Result<View, OutOfMemory>
    requires greatest { shelf.now.greatest < 2 ^ 62 }
    requires top { top < 2 ^ 62 }
    ensures { IfOk result (λ view. view ≡ view_at shelf.now id share.now top) }
{
    let vote = shelf.vote(id, share, top)?;
    let rivals = shelf.index.conflicting(id, share)?;
    view_of(shelf, id, rivals, vote)
}

// The rivals are in no order.
fn view_of(shelf: &Shelf, id: TxnId, rivals: Vec<TxnId>, vote: Vote) -> Result<View, OutOfMemory>
    ensures { IfOk result (λ view. view ≡ view_with shelf.now id (ids_union [] rivals.items) vote) }
{
    let accepted = accepted(shelf, id)?;
    let committed = committed(shelf, id)?;
    let stable = stable(shelf, id)?;
    let Told { superseded, waits } = told_by(shelf, id, &rivals)?;
    let Vote { stamp, deps } = vote;
    Ok(View {
        store: shelf.actor,
        vote: stamp,
        vote_deps: deps,
        accepted,
        committed,
        stable,
        superseded,
        waits,
    })
}

fn accepted(shelf: &Shelf, id: TxnId) -> Result<Option<SharedAccepted>, OutOfMemory>
    ensures { IfOk result (λ accepted. accepted ≡ accepted_in (record_at shelf.now.records id)) }
{
    match shelf.find(id) {
        Some(record) => record.accepted.copy(),
        None => Ok(None),
    }
}

fn committed(shelf: &Shelf, id: TxnId) -> Result<Option<SharedAccepted>, OutOfMemory>
    ensures { IfOk result (λ committed. committed ≡ committed_in (record_at shelf.now.records id)) }
{
    match shelf.find(id) {
        Some(record) => record.committed.copy(),
        None => Ok(None),
    }
}

fn stable(shelf: &Shelf, id: TxnId) -> Result<Option<Settled>, OutOfMemory>
    ensures { IfOk result (λ stable. stable ≡ stable_in (record_at shelf.now.records id)) }
{
    match shelf.find(id) {
        Some(record) => record.stable.copy(),
        None => Ok(None),
    }
}
