//! The stores of a plan, opened from journals.
ghost use Rattle.std.specs.Prelude.{◌≡◌, ◌≤◌, ◌^◌, ◌++◌, false, map, IfOk, OnOk};
ghost use Rattle.std.specs.List.{AllByRecursion};
ghost use Rattle.acc_stamp.specs.Actor.{actor_of};
ghost use Rattle.acc_topology.specs.Layout.{HasShard, shard_at};
ghost use Rattle.acc_durable_store.specs.Store.{actor_in};
ghost use Rattle.acc_message.specs.Run.{is_node};
ghost use Rattle.acc_schedule.specs.Plan.{IsPlan};
ghost use Rattle.acc_left.specs.Rules.{AreLeft};
ghost use Rattle.acc_resume.specs.Opened.{memory, AreOpenedStores, IsOpenedStore};

use crate::disks::disk_of;
use acc_base::OutOfMemory;
use acc_durable_store::DurableStore;
use acc_left::Image;
use acc_left_laws::laws::reopened_actors_stand;
use acc_ports::MemDisk;
use acc_schedule::Plan;
use acc_stamp::{Actor, actor};
use acc_store::Store;
use acc_topology::sets::contains;
use std::alloc::Global;

/// More messages than any memory holds.
const MOST_KEPT: u64 = 1 << 60;

/// The stores of the plan, in the order of the shards, each opened from its journal.
pub(crate) fn stores_of(
    alloc: Global,
    plan: &Plan,
    images: &[Image],
) -> Result<Vec<DurableStore<MemDisk>>, OutOfMemory>
    requires is_plan { IsPlan plan.now }
    requires left { AreLeft plan.now images.now }
    ensures { IfOk result (λ stores. AreOpenedStores memory plan.now images.now stores.items) }
{
    let mut stores = Vec::new(alloc);
    for place in 0..plan.topology.shards() {
        push_stores(alloc, plan, images, place + 1, &mut stores)?;
    }
    Ok(stores)
}

// Puts the stores of a shard after those of others, in rising order of their nodes.
fn push_stores(
    alloc: Global,
    plan: &Plan,
    images: &[Image],
    shard: u32,
    stores: &mut Vec<DurableStore<MemDisk>>,
) -> Result<(), OutOfMemory>
    requires is_plan { IsPlan plan.now }
    requires left { AreLeft plan.now images.now }
    requires shard { HasShard plan.now.topology shard }
    requires opened { AllByRecursion (IsOpenedStore memory plan.now images.now) stores.old.items }
    ensures actors { OnOk result (map actor_in stores.new.items ≡ map actor_in stores.old.items ++ map (λ node. actor_of node shard) (shard_at plan.now.topology shard).replicas) }
    ensures each { OnOk result (AllByRecursion (IsOpenedStore memory plan.now images.now) stores.new.items) }
{
    let replicas = plan.topology.replicas(shard);
    for node in 0..16 {
        if contains(replicas, node) {
            let own = actor(node, shard);
            let store = store_of(alloc, plan, images, own, last_of(stores.as_slice()))?;
            stores.push(store)?;
        }
    }
    Ok(())
}

// The last of these stores.
fn last_of(stores: &[DurableStore<MemDisk>]) -> Option<&Store> {
    match stores.last() {
        Some(store) => Some(store.store()),
        None => None,
    }
}

// The store, unless its journal has more messages than any memory holds.
fn short_of(store: DurableStore<MemDisk>) -> Result<DurableStore<MemDisk>, OutOfMemory>
    ensures same { IfOk result (λ t. t ≡ store) }
    ensures few { IfOk result (λ t. t.kept ≤ 2 ^ 60) }
{
    if store.kept() > MOST_KEPT {
        return Err(OutOfMemory);
    }
    Ok(store)
}

// A store of the plan. It shares the bodies and dependencies that its journal spells and another store, opened before it,
// knows: most are known to all stores of a shard. Journals that break no rule are refused for want of memory alone.
fn store_of(
    alloc: Global,
    plan: &Plan,
    images: &[Image],
    own: Actor,
    other: Option<&Store>,
) -> Result<DurableStore<MemDisk>, OutOfMemory>
    requires is_plan { IsPlan plan.now }
    requires left { AreLeft plan.now images.now }
    requires kind { is_node own ≡ false }
    ensures actor { IfOk result (λ t. actor_in t ≡ own) }
    ensures opened { IfOk result (IsOpenedStore memory plan.now images.now) }
{
    reopened_actors_stand();
    let disk = disk_of(alloc, images, own)?;
    match DurableStore::reopen(alloc, &plan.topology, own, plan.version, disk, other) {
        Ok(store) => short_of(store),
        Err(_) => Err(OutOfMemory),
    }
}
