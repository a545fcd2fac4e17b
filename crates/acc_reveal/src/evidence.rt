//! What conflicting transactions tell about one that is recovered.
ghost use Rattle.std.specs.Prelude.{◌≡◌, ◌++◌, [], Some, IfOk, OnOk};
ghost use Rattle.std.specs.Option.{option_copied};
ghost use Rattle.acc_stamp.specs.Actor.{shard_of};
ghost use Rattle.acc_stamp.specs.Rising.{ids_union};
ghost use Rattle.acc_record.specs.Shelf.{record_at};
ghost use Rattle.acc_message.specs.Evidence.{accepted_without, stable_without, accepted_above};
ghost use Rattle.acc_reveal.specs.Revealed.{rules_out, keeps_waiting, superseded_at, awaited_at};

use acc_base::OutOfMemory;
use acc_deps::{Settled, SharedAccepted};
use acc_index::rising;
use acc_record::{Record, Shelf};
use acc_stamp::{Ids, TxnId};

/// What the rivals of a transaction tell about it.
#[derive(Debug, Drop)]
pub(crate) struct Told {
    /// Whether some of them rules out that it was decided at its own timestamp.
    pub superseded: bool,
    /// Those that a recovery of it has to wait for, rising.
    pub waits: Ids,
}

/// What these rivals tell, which come in any order.
#[tactic(auto, using(crate::proofs::Names::any_names, crate::proofs::Names::filter_names))]
pub(crate) fn told_by(shelf: &Shelf, id: TxnId, rivals: &Vec<TxnId>) -> Result<Told, OutOfMemory>
    ensures superseded { IfOk result (λ told. told.superseded ≡ superseded_at shelf.now id (ids_union [] rivals.now.items)) }
    ensures waits { IfOk result (λ told. told.waits ≡ awaited_at shelf.now id (ids_union [] rivals.now.items)) }
{
    let mut awaited = Vec::new(*rivals.allocator());
    let superseded = ask_all(shelf, id, rivals.as_slice(), &mut awaited)?;
    let waits = rising(awaited)?;
    Ok(Told { superseded, waits })
}

// Adds those of the rivals that a recovery waits for, and says whether some rules out the timestamp.
fn ask_all(
    shelf: &Shelf,
    id: TxnId,
    rivals: &[TxnId],
    awaited: &mut Vec<TxnId>,
) -> Result<bool, OutOfMemory>
    ensures superseded { IfOk result (λ superseded. superseded ≡ superseded_at shelf.now id rivals.now) }
    ensures waits { OnOk result (awaited.new.items ≡ awaited.old.items ++ awaited_at shelf.now id rivals.now) }
{
    let shard = shelf.actor.shard();
    let mut superseded = false;
    for rival in rivals {
        let there = shelf.find(*rival);
        superseded = superseded || is_ruled_out(there, shard, id, *rival);
        if is_awaited(there, id, *rival) {
            awaited.push(*rival)?;
        }
    }
    Ok(superseded)
}

fn is_ruled_out(there: Option<&Record>, shard: u32, id: TxnId, rival: TxnId) -> bool
    ensures { result ≡ rules_out shard id rival (option_copied there.entry) }
{
    match there {
        Some(record) => {
            is_accepted_without(&record.accepted, shard, id, rival)
                || is_stable_without(&record.stable, shard, id)
        }
        None => false,
    }
}

fn is_awaited(there: Option<&Record>, id: TxnId, rival: TxnId) -> bool
    ensures { result ≡ keeps_waiting id rival (option_copied there.entry) }
{
    match there {
        Some(record) => {
            record.stable.is_none() && is_accepted_above(&record.accepted, id, rival)
        }
        None => false,
    }
}

fn is_accepted_without(
    accepted: &Option<SharedAccepted>,
    shard: u32,
    id: TxnId,
    rival: TxnId,
) -> bool
    ensures { result ≡ accepted_without shard id rival accepted.now }
{
    match accepted {
        Some(accepted) => id < rival && !accepted.accepted().deps.contains(shard, id),
        None => false,
    }
}

fn is_stable_without(stable: &Option<Settled>, shard: u32, id: TxnId) -> bool
    ensures { result ≡ stable_without shard id stable.now }
{
    match stable {
        Some(stable) => id.0 < stable.t && !stable.deps.contains(shard, id),
        None => false,
    }
}

fn is_accepted_above(accepted: &Option<SharedAccepted>, id: TxnId, rival: TxnId) -> bool
    ensures { result ≡ accepted_above id rival accepted.now }
{
    match accepted {
        Some(accepted) => rival < id && id.0 < accepted.accepted().t,
        None => false,
    }
}
