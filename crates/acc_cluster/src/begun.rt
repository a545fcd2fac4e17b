//! What the nodes of a cluster had begun before it was opened.
ghost use Rattle.std.specs.Prelude.{◌≡◌, ℕ, ◌<◌, ◌^◌, length, List, map, IfOk, slice_get};
ghost use Rattle.std.specs.List.{AllByRecursion};
ghost use Rattle.acc_message.specs.declared.item.Item.{Item as AnItem};
ghost use Rattle.acc_message.specs.Items.{is_begun, id_of_txn};
ghost use Rattle.acc_pasts.specs.Stopped.{IsSound};
ghost use Rattle.acc_schedule_runs.specs.Situations.{opened};
ghost use Rattle.acc_schedule_runs.specs.Schedules.{cluster_of};
ghost use Rattle.acc_history.specs.Begun.{begun_as, known_as};
ghost use Rattle.acc_durable_node.specs.declared.node.DurableNode.{DurableNode as ANode};
ghost use Rattle.acc_actors.specs.Opened.{HasDone};
ghost use Rattle.acc_cluster.specs.Opened.{IsNodeOf, TellsOf};

use crate::opening::numbers_of;
use acc_base::OutOfMemory;
use acc_durable_node::DurableNode;
use acc_ports::Rig;
use acc_schedule::Plan;
use acc_stamp::TxnId;
use std::alloc::Global;

/// Of each transaction of the plan, by its number, the id with which its home has begun it.
pub(crate) fn begun_before<D: Rig>(
    alloc: Global,
    plan: &Plan,
    nodes: &[DurableNode<D>],
) -> Result<Vec<Option<TxnId>>, OutOfMemory>
    requires nodes { AllByRecursion (IsNodeOf D.Disk plan.now) nodes.now }
    requires numbers { map (λ (n : ANode D). n.name.number) nodes.now ≡ plan.now.topology.nodes }
    ensures few { IfOk result (λ ids. length ids.items < 2 ^ 32) }
    ensures told { IfOk result (λ ids. (earlier : List AnItem) → IsSound (cluster_of plan.now) (opened earlier) → AllByRecursion (HasDone plan.now earlier) nodes.now
        → (txn : ℕ) → known_as (slice_get ids.items txn) ≡ begun_as (is_begun earlier txn) (id_of_txn earlier txn)) }
{
    let numbers = numbers_of(alloc, plan.topology.nodes())?;
    let mut ids = Vec::new(alloc);
    for txn in 0..plan.homes.len() {
        let id = id_at_home(plan, nodes, numbers.as_slice(), txn as u32);
        ids.push(id)?;
    }
    Ok(ids)
}

// The id of a transaction, where its home has begun it. The nodes have these numbers.
fn id_at_home<D: Rig>(
    plan: &Plan,
    nodes: &[DurableNode<D>],
    numbers: &[u32],
    txn: u32,
) -> Option<TxnId>
    requires nodes { AllByRecursion (IsNodeOf D.Disk plan.now) nodes.now }
    requires numbers { map (λ (n : ANode D). n.name.number) nodes.now ≡ numbers.now }
    requires members { numbers.now ≡ plan.now.topology.nodes }
    requires known { txn < length plan.now.names }
    ensures { TellsOf plan.now nodes.now txn result }
{
    let home = plan.homes.as_slice()[txn as usize];
    for place in 0..numbers.len() {
        if numbers[place] == home {
            return nodes[place].id_of(txn);
        }
    }
    None
}
