//! The actors of a plan at the beginning of its run.
ghost use Rattle.std.specs.Prelude.{◌≡◌, ◌≤◌, IsTrue, [], ◌∷◌, ◌++◌, map, IfOk, OnOk, None};
ghost use Rattle.std.specs.List.{AllByRecursion};
ghost use Rattle.acc_stamp.specs.Actor.{actor_of};
ghost use Rattle.acc_topology.specs.Layout.{HasShard, shard_at};
ghost use Rattle.acc_topology.specs.Sets.{is_among};
ghost use Rattle.acc_schedule.specs.Plan.{IsPlan};
ghost use Rattle.acc_schedule_runs.specs.Situations.{opened as opened_behind};
ghost use Rattle.acc_schedule_runs.specs.StrictMoves.{opened_strictly};
ghost use Rattle.acc_durable_store.specs.Store.{actor_in};
ghost use Rattle.acc_cluster.specs.Stands.{StandsFor, StandsStrictly};
ghost use Rattle.acc_actors.specs.Opened.{IsUnarmed};
ghost use Rattle.acc_run.specs.Fresh.{AreFreshNodes, AreFreshStores, IsFreshNode, IsFreshStore};

use acc_actors::name_of;
use acc_base::OutOfMemory;
use acc_cluster::Cluster;
use acc_durable_node::DurableNode;
use acc_durable_store::DurableStore;
use acc_plan_laws::laws::{plans_are_valid, plans_have_few_bodies};
use acc_ports::DiskMaker;
use acc_schedule::Plan;
use acc_stamp::actor;
use acc_topology::sets::contains;
use std::alloc::Global;

/// The cluster of a plan whose actors have done nothing, each over a disk of its own.
pub fn opened<M: DiskMaker>(
    alloc: Global,
    plan: &Plan,
    disks: &mut M,
) -> Result<Cluster<M::D>, OutOfMemory>
where
    M::D: Drop,
    requires is_plan { IsPlan plan.now }
    ensures ok { IfOk result (λ cluster. StandsFor M.D.Disk plan.now cluster (opened_behind [])) }
    ensures strict { IsTrue (M.strict disks.old) → IfOk result (λ cluster.
        StandsStrictly M.D.Disk plan.now cluster (opened_strictly [])) }
    ensures given { M.given disks.new ≡ M.given disks.old }
    ensures kind { M.strict disks.new ≡ M.strict disks.old }
{
    plans_are_valid();
    plans_have_few_bodies();
    let nodes = fresh_nodes(alloc, plan, disks)?;
    let stores = fresh_stores(alloc, plan, disks)?;
    Cluster::of(alloc, plan, nodes, stores)
}

// The nodes of the plan, in rising order.
fn fresh_nodes<M: DiskMaker>(
    alloc: Global,
    plan: &Plan,
    disks: &mut M,
) -> Result<Vec<DurableNode<M::D>>, OutOfMemory>
where
    M::D: Drop,
    requires is_plan { IsPlan plan.now }
    ensures ok { IfOk result (λ nodes. AreFreshNodes M.D.Disk plan.now nodes.items) }
    ensures strict { IsTrue (M.strict disks.old) → IfOk result (λ nodes. AllByRecursion (λ n. IsUnarmed M.D.Disk n.journal.disk) nodes.items) }
    ensures given { M.given disks.new ≡ M.given disks.old }
    ensures kind { M.strict disks.new ≡ M.strict disks.old }
{
    let members = plan.topology.nodes();
    let mut nodes = Vec::new(alloc);
    for number in 0..16 {
        if contains(members, number) {
            let node = fresh_node(alloc, plan, number, disks)?;
            nodes.push(node)?;
        }
    }
    Ok(nodes)
}

// A node of the plan.
fn fresh_node<M: DiskMaker>(
    alloc: Global,
    plan: &Plan,
    number: u32,
    disks: &mut M,
) -> Result<DurableNode<M::D>, OutOfMemory>
where
    M::D: Drop,
    requires is_plan { IsPlan plan.now }
    requires known { IsTrue (is_among plan.now.topology.nodes number) }
    ensures number { IfOk result (λ n. n.name.number ≡ number) }
    ensures fresh { IfOk result (IsFreshNode M.D.Disk plan.now) }
    ensures strict { IsTrue (M.strict disks.old) → IfOk result (λ n. IsUnarmed M.D.Disk n.journal.disk) }
    ensures given { M.given disks.new ≡ M.given disks.old }
    ensures kind { M.strict disks.new ≡ M.strict disks.old }
{
    let name = name_of(plan, number);
    let disk = disks.make(number * 64)?;
    Ok(DurableNode::fresh(alloc, name, disk))
}

// The stores of the plan, in the order of the shards.
fn fresh_stores<M: DiskMaker>(
    alloc: Global,
    plan: &Plan,
    disks: &mut M,
) -> Result<Vec<DurableStore<M::D>>, OutOfMemory>
where
    M::D: Drop,
    ensures ok { IfOk result (λ stores. AreFreshStores M.D.Disk plan.now stores.items) }
    ensures strict { IsTrue (M.strict disks.old) → IfOk result (λ stores. AllByRecursion (λ t. IsUnarmed M.D.Disk t.journal.disk) stores.items) }
    ensures given { M.given disks.new ≡ M.given disks.old }
    ensures kind { M.strict disks.new ≡ M.strict disks.old }
{
    let mut stores = Vec::new(alloc);
    for place in 0..plan.topology.shards() {
        fresh_stores_of(alloc, plan, place + 1, disks, &mut stores)?;
    }
    Ok(stores)
}

// Puts the stores of a shard after those of others, in rising order of their nodes.
fn fresh_stores_of<M: DiskMaker>(
    alloc: Global,
    plan: &Plan,
    shard: u32,
    disks: &mut M,
    stores: &mut Vec<DurableStore<M::D>>,
) -> Result<(), OutOfMemory>
where
    M::D: Drop,
    requires shard { HasShard plan.now.topology shard }
    requires fresh { AllByRecursion (IsFreshStore M.D.Disk plan.now) stores.old.items }
    ensures actors { OnOk result (map actor_in stores.new.items ≡ map actor_in stores.old.items ++ map (λ node. actor_of node shard) (shard_at plan.now.topology shard).replicas) }
    ensures each { OnOk result (AllByRecursion (IsFreshStore M.D.Disk plan.now) stores.new.items) }
    ensures strict { IsTrue (M.strict disks.old) → AllByRecursion (λ t. IsUnarmed M.D.Disk t.journal.disk) stores.old.items
        → OnOk result (AllByRecursion (λ t. IsUnarmed M.D.Disk t.journal.disk) stores.new.items) }
    ensures given { M.given disks.new ≡ M.given disks.old }
    ensures kind { M.strict disks.new ≡ M.strict disks.old }
{
    let replicas = plan.topology.replicas(shard);
    for node in 0..16 {
        if contains(replicas, node) {
            let store = fresh_store(alloc, plan, node, shard, disks)?;
            stores.push(store)?;
        }
    }
    Ok(())
}

// The store of a shard at a node.
fn fresh_store<M: DiskMaker>(
    alloc: Global,
    plan: &Plan,
    node: u32,
    shard: u32,
    disks: &mut M,
) -> Result<DurableStore<M::D>, OutOfMemory>
where
    M::D: Drop,
    requires node { node ≤ 15 }
    requires shard { (1 ≤ shard) × (shard ≤ 15) }
    ensures actor { IfOk result (λ t. actor_in t ≡ actor_of node shard) }
    ensures fresh { IfOk result (IsFreshStore M.D.Disk plan.now) }
    ensures strict { IsTrue (M.strict disks.old) → IfOk result (λ t. IsUnarmed M.D.Disk t.journal.disk) }
    ensures given { M.given disks.new ≡ M.given disks.old }
    ensures kind { M.strict disks.new ≡ M.strict disks.old }
{
    let actor = actor(node, shard);
    let disk = disks.make(actor.0)?;
    Ok(DurableStore::fresh(alloc, actor, plan.version, disk))
}
