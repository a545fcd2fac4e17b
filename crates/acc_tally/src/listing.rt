//! The stores of shards.
ghost use Rattle.std.specs.Prelude.{◌≡◌, ◌≤◌, ◌++◌, [], map, IsTrue, IfOk, OnOk};
ghost use Rattle.acc_stamp.specs.Actor.{actor_of, node_of, shard_of};
ghost use Rattle.acc_topology.specs.Sets.{in_set, members};
ghost use Rattle.acc_topology.specs.Layout.{IsLayout, HasShard};
ghost use Rattle.acc_txn.specs.declared.parts.BodyParts.{BodyParts};
ghost use Rattle.acc_message.specs.Shares.{shards_used, stores_of_shard, stores_used, is_store_of};

use acc_base::{OutOfMemory, Sequence};
use acc_stamp::{Actor, actor};
use acc_topology::sets::contains;
use acc_topology::{NodeSet, ShardSet, Topology};
use std::alloc::Global;

/// One more than the greatest number of a shard or of a node.
const NUMBERS: u32 = 16;

/// The stores of the shards of a set, shard by shard and in a shard node by node.
pub fn stores(
    alloc: Global,
    topology: &Topology,
    shards: ShardSet,
) -> Result<Sequence<Actor>, OutOfMemory>
    ensures { (body : BodyParts) → members shards ≡ shards_used topology.now body → IfOk result (λ stores. stores ≡ stores_used topology.now body) }
{
    let mut stores = Sequence::new(alloc);
    for shard in 0..NUMBERS {
        if is_shard(topology, shards, shard) {
            push_stores(&mut stores, shard, topology.replicas(shard))?;
        }
    }
    Ok(stores)
}

// Appends the stores of a shard at these nodes.
fn push_stores(stores: &mut Sequence<Actor>, shard: u32, nodes: NodeSet) -> Result<(), OutOfMemory>
    requires { shard ≤ 15 }
    ensures { OnOk result (stores.new ≡ stores.old ++ map (λ node. actor_of node shard) (members nodes)) }
{
    for node in 0..NUMBERS {
        if contains(nodes, node) {
            stores.push(actor(node, shard))?;
        }
    }
    Ok(())
}

/// Whether an actor is a store of one of the shards of a set.
pub fn is_store(topology: &Topology, shards: ShardSet, actor: Actor) -> bool
    ensures valid { IsLayout topology.now }
    ensures shard { IsTrue result → shard_of actor ≤ 15 }
    ensures node { IsTrue result → node_of actor ≤ 15 }
    ensures value { (body : BodyParts) → members shards ≡ shards_used topology.now body → result ≡ is_store_of topology.now body actor }
{
    let shard = actor.shard();
    is_shard(topology, shards, shard) && contains(topology.replicas(shard), actor.node())
}

// Whether a shard is in a set and in the topology.
fn is_shard(topology: &Topology, shards: ShardSet, shard: u32) -> bool
    ensures valid { IsLayout topology.now }
    ensures exists { IsTrue result → HasShard topology.now shard }
    ensures few { IsTrue result → shard ≤ 15 }
    ensures value { (body : BodyParts) → members shards ≡ shards_used topology.now body → result ≡ in_set shards shard }
{
    let greatest = topology.shards();
    if shard < 1 || greatest < shard {
        return false;
    }
    contains(shards, shard)
}
