//! The turns of transactions.
ghost use Rattle.std.specs.Prelude.{◌≡◌, reverse, IfOk, IfErr, OnOk};
ghost use Rattle.acc_schedule.specs.Plan.{IsPlan};
ghost use Rattle.acc_cluster.specs.Steps.{IfLimit};
ghost use Rattle.acc_heal_laws.specs.Stages.{newest_ballot as newest, ballot_in as ballot_of};
ghost use Rattle.acc_heal.specs.Places.{recover_of as step_of, IsFirst, IsOver, IsSecond, IsTurning, IsTurnOf, TookFirst, TookSecond, TookTurn, StandsIn, Leads, EndsWithin};

use crate::begun::begun;
use crate::lacking::is_lacking;
use crate::seen::Seen;
use crate::taking::take;
use acc_cluster::Cluster;
use acc_message::{GrowingItems, Note, RunError, Shown};
use acc_ports::Rig;
use acc_schedule::{Plan, Step};
use acc_stamp::{Ballot, TxnId};
use std::alloc::Global;

/// Gives each begun transaction its turn, in rising order of the ids. A turn is passed over where all stores of its transaction took the
/// outcome; whether it is, is seen when it comes.
pub(crate) fn take_turns<D: Rig + Drop>(
    alloc: Global,
    plan: &Plan,
    cluster: &mut Cluster<D>,
    number: &mut u32,
) -> Result<(), RunError>
    requires is_plan { IsPlan plan.now }
    requires standing { StandsIn D.Disk plan.now cluster.old (IsTurning number.old) }
    ensures ok { OnOk result (Leads D.Disk plan.now cluster.old cluster.new (IsTurning number.old) (λ place now. IsOver plan.now now)) }
    ensures limit { IfErr result (IfLimit (EndsWithin D.Disk plan.now cluster.old (IsTurning number.old))) }
{
    let begun = begun(alloc, cluster.items())?;
    let mut seen = Seen::new(alloc);
    for (id, txn) in &begun {
        seen.look(cluster.items())?;
        if is_lacking(alloc, plan, &seen, *id, *txn)? {
            take_turn(plan, cluster, &mut seen, number, *id, *txn)?;
        }
    }
    Ok(())
}

// Recovers a transaction at the node of its id, and once more where that attempt was ended.
fn take_turn<D: Rig + Drop>(
    plan: &Plan,
    cluster: &mut Cluster<D>,
    seen: &mut Seen,
    number: &mut u32,
    id: TxnId,
    txn: u32,
) -> Result<(), RunError>
    requires is_plan { IsPlan plan.now }
    requires standing { StandsIn D.Disk plan.now cluster.old (IsTurnOf plan.now number.old id txn seen.old) }
    ensures ok { OnOk result (Leads D.Disk plan.now cluster.old cluster.new (IsTurnOf plan.now number.old id txn seen.old) (TookTurn plan.now number.new seen.new)) }
    ensures limit { IfErr result (IfLimit (EndsWithin D.Disk plan.now cluster.old (IsTurnOf plan.now number.old id txn seen.old))) }
{
    let Some(ballot) = take_first(plan, cluster, number, id, txn)? else {
        return Ok(());
    };
    seen.look(cluster.items())?;
    if seen.is_ended(id, ballot) {
        take_second(plan, cluster, number, id, txn)?;
    }
    Ok(())
}

// Takes the first recover of a turn, and a drain, and gives the ballot that it drew, unless it was passed over or stopped.
fn take_first<D: Rig + Drop>(
    plan: &Plan,
    cluster: &mut Cluster<D>,
    number: &mut u32,
    id: TxnId,
    txn: u32,
) -> Result<Option<Ballot>, RunError>
    requires is_plan { IsPlan plan.now }
    requires standing { StandsIn D.Disk plan.now cluster.old (IsFirst plan.now number.old id txn) }
    ensures ok { IfOk result (λ drawn. Leads D.Disk plan.now cluster.old cluster.new (IsFirst plan.now number.old id txn) (TookFirst plan.now number.new drawn)) }
    ensures limit { IfErr result (IfLimit (EndsWithin D.Disk plan.now cluster.old (IsFirst plan.now number.old id txn))) }
{
    take(plan, cluster, number, &recover_of(id, txn))?;
    let drawn = newest_ballot(cluster.items(), id);
    take(plan, cluster, number, &Step::Drain)?;
    Ok(drawn)
}

// Takes the second recover of a turn, and a drain.
fn take_second<D: Rig + Drop>(
    plan: &Plan,
    cluster: &mut Cluster<D>,
    number: &mut u32,
    id: TxnId,
    txn: u32,
) -> Result<(), RunError>
    requires is_plan { IsPlan plan.now }
    requires standing { StandsIn D.Disk plan.now cluster.old (IsSecond number.old id txn) }
    ensures ok { OnOk result (Leads D.Disk plan.now cluster.old cluster.new (IsSecond number.old id txn) (TookSecond number.new)) }
    ensures limit { IfErr result (IfLimit (EndsWithin D.Disk plan.now cluster.old (IsSecond number.old id txn))) }
{
    take(plan, cluster, number, &recover_of(id, txn))?;
    take(plan, cluster, number, &Step::Drain)
}

// The recover of a transaction at the node of its id.
fn recover_of(id: TxnId, txn: u32) -> Step
    ensures { result ≡ step_of id txn }
{
    Step::Recover {
        txn,
        node: id.0.origin / 64,
    }
}

// The ballot with which the newest item recovers the transaction, where it does nothing else.
fn newest_ballot(items: &GrowingItems, id: TxnId) -> Option<Ballot>
    ensures { result ≡ newest id (reverse items.now.items) }
{
    let count = items.len();
    if count == 0 {
        return None;
    }
    match items.shown(count - 1) {
        Shown::Step { notes, .. } => ballot_in(notes, id),
        Shown::Skipped { .. } => None,
        Shown::Down { .. } => None,
    }
}

// The ballot with which these notes recover the transaction, where that is all that they say.
fn ballot_in(notes: &[Note], id: TxnId) -> Option<Ballot>
    ensures { result ≡ ballot_of id notes.now }
{
    match notes {
        [
            Note::Recover {
                id: recovered,
                ballot,
            },
        ] if *recovered == id => Some(*ballot),
        _ => None,
    }
}
