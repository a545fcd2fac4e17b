//! Stores that lack an outcome.
ghost use Rattle.std.specs.Prelude.{◌≡◌, not, List, option_copied, slice_get, IfOk};
ghost use Rattle.std.specs.List.{list_all};
ghost use Rattle.acc_message.specs.declared.item.Item.{Item};
ghost use Rattle.acc_message.specs.Shares.{stores_used};
ghost use Rattle.acc_schedule_runs.specs.Schedules.{cluster_of};
ghost use Rattle.acc_heal_laws.specs.Stages.{all_took_apply};
ghost use Rattle.acc_heal.specs.Seen.{has_taker, Tells};

use crate::seen::Seen;
use acc_base::{OutOfMemory, Sequence};
use acc_schedule::Plan;
use acc_stamp::{Actor, TxnId};
use acc_tally::stores;
use acc_topology::Topology;
use acc_txn::Body;
use std::alloc::Global;

/// Whether some store of the transaction has taken no Apply of it.
pub(crate) fn is_lacking(
    alloc: Global,
    plan: &Plan,
    seen: &Seen,
    id: TxnId,
    txn: u32,
) -> Result<bool, OutOfMemory>
    ensures { IfOk result (λ lacks. (items : List Item) → Tells seen.now items →
        lacks ≡ not (all_took_apply (cluster_of plan.now) items id (slice_get plan.now.bodies txn))) }
{
    let Some(body) = body_of(plan, txn) else {
        return Ok(false);
    };
    let stores = stores_of(alloc, &plan.topology, body)?;
    let listed = stores.as_slice();
    Ok(!all_took(seen, id, listed))
}

// The body of a transaction.
fn body_of(plan: &Plan, txn: u32) -> Option<&Body>
    ensures { option_copied result ≡ slice_get plan.now.bodies txn }
{
    plan.bodies.as_slice().get(txn as usize)
}

// The stores of a transaction.
fn stores_of(
    alloc: Global,
    topology: &Topology,
    body: &Body,
) -> Result<Sequence<Actor>, OutOfMemory>
    ensures { IfOk result (λ stores. stores ≡ stores_used topology.now body.now) }
{
    let shards = topology.shards_of(body.uses());
    stores(alloc, topology, shards)
}

// Whether each of these stores took an Apply of the transaction.
fn all_took(seen: &Seen, id: TxnId, stores: &[Actor]) -> bool
    ensures { result ≡ list_all (has_taker seen.now.taken.keys id) stores.now }
{
    for store in stores {
        if !seen.took_apply(id, *store) {
            return false;
        }
    }
    true
}
