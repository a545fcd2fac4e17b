//! The actors of a cluster, and how they print.
ghost use Rattle.std.specs.Prelude.{◌≡◌, ◌≤◌, ◌++◌, string_bytes, IfOk, OnOk};
ghost use Rattle.acc_schedule.specs.Actors.{actor_text as text_of};
ghost use Rattle.acc_left.specs.Leaves.{actors_rising, stores_at};

use acc_base::{OutOfMemory, Sequence};
use acc_stamp::{Actor, actor};
use acc_topology::Topology;
use acc_topology::sets::contains;
use std::alloc::Global;

/// The actors of a cluster, rising: each node, and after it its stores.
pub(crate) fn actors_of(alloc: Global, topology: &Topology) -> Result<Sequence<Actor>, OutOfMemory>
    ensures { IfOk result (λ actors. actors ≡ actors_rising topology.now) }
{
    let nodes = topology.nodes();
    let mut actors = Sequence::new(alloc);
    for node in 0..16 {
        if contains(nodes, node) {
            actors.push(actor(node, 0))?;
            push_stores(&mut actors, topology, node)?;
        }
    }
    Ok(actors)
}

// Appends the stores of a node, in the order of their shards.
fn push_stores(
    actors: &mut Sequence<Actor>,
    topology: &Topology,
    node: u32,
) -> Result<(), OutOfMemory>
    requires { node ≤ 15 }
    ensures { OnOk result (actors.new ≡ actors.old ++ stores_at topology.now node) }
{
    for place in 0..topology.shards() {
        let shard = place + 1;
        if contains(topology.replicas(shard), node) {
            actors.push(actor(node, shard))?;
        }
    }
    Ok(())
}

/// How an actor prints.
pub(crate) fn actor_text(alloc: Global, actor: Actor) -> Result<String, OutOfMemory>
    ensures { IfOk result (λ text. string_bytes text ≡ text_of actor) }
{
    let node = actor.node();
    let shard = actor.shard();
    if shard == 0 {
        Ok(format!(in alloc; "{node}")?)
    } else {
        Ok(format!(in alloc; "{node}.{shard}")?)
    }
}
