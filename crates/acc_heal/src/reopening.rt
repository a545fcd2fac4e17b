//! The reopening: each actor comes back, and no disk is armed for a call that it comes to.
ghost use Rattle.std.specs.Prelude.{◌≡◌, ◌≤◌, ◌||◌, ◌++◌, List, map, IfOk, OnOk};
ghost use Rattle.acc_stamp.specs.Actor.{actor_of};
ghost use Rattle.acc_stamp.specs.declared.actors.Actor.{Actor as AnActor};
ghost use Rattle.acc_message.specs.Items.{same_actor};
ghost use Rattle.acc_topology.specs.Sets.{members};
ghost use Rattle.acc_schedule.specs.Actors.{actors};
ghost use Rattle.acc_schedule.specs.Content.{Content};
ghost use Rattle.acc_schedule_runs.specs.Situations.{Situation, whole};
ghost use Rattle.acc_cluster.specs.Stands.{StandsFor};
ghost use Rattle.acc_heal_laws.specs.Stages.{actors_rising, fails, is_armed, reopening as due_reopening, reopening_step as due_step, step_of_armed as due_of_armed};
ghost use Rattle.acc_heal.specs.Actors.{has_actor};

use acc_base::OutOfMemory;
use acc_cluster::Cluster;
use acc_ports::Rig;
use acc_schedule::{Plan, Step};
use acc_stamp::{Actor, actor};
use acc_topology::sets::contains;
use acc_topology::{NodeSet, Topology};
use std::alloc::Global;
use std::collections::BTreeSet;

/// The calls that a disk is armed with to let those of a healing pass: a node makes four for each of its recovers, so 80,000 at most.
const CALLS_LET_PASS: u64 = 1_000_000;

/// One more than the greatest number of a node.
const NUMBERS: u32 = 16;

/// The steps of the reopening, in rising order of the actors.
pub(crate) fn reopening<D: Rig + Drop>(
    alloc: Global,
    plan: &Plan,
    cluster: &Cluster<D>,
) -> Result<Vec<Step>, OutOfMemory>
    ensures { IfOk result (λ steps. (s : Situation) → StandsFor D.Disk plan.now cluster.now s → steps.items ≡ due_reopening plan.now (whole s)) }
{
    let armed = armed(alloc, plan.steps.as_slice())?;
    let actors = rising(alloc, &plan.topology)?;
    let mut steps = Vec::new(alloc);
    for actor in &actors {
        if let Some(step) = reopening_step(cluster, &armed, *actor) {
            steps.push(step)?;
        }
    }
    Ok(steps)
}

// What reopens an actor, if anything does.
fn reopening_step<D: Rig + Drop>(
    cluster: &Cluster<D>,
    armed: &BTreeSet<Actor>,
    actor: Actor,
) -> Option<Step>
    ensures { (plan : Content) (s : Situation) → StandsFor D.Disk plan cluster.now s → has_actor armed.now.keys actor ≡ is_armed plan.steps actor
        → result ≡ due_step plan.steps (whole s) actor }
{
    if cluster.is_down(actor) {
        return Some(Step::Restart { actor, choice: 0 });
    }
    if armed.contains(&actor) {
        return Some(step_of_armed(actor));
    }
    None
}

// A restart of a node closes its clients, so the disk of one that is up is armed anew.
fn step_of_armed(actor: Actor) -> Step
    ensures { result ≡ due_of_armed actor }
{
    if actor.shard() == 0 {
        Step::Fail {
            actor,
            calls: CALLS_LET_PASS,
        }
    } else {
        Step::Restart { actor, choice: 0 }
    }
}

// The actors whose disks these steps arm.
fn armed(alloc: Global, steps: &[Step]) -> Result<BTreeSet<Actor>, OutOfMemory>
    ensures { IfOk result (λ armed. (a : AnActor) → has_actor armed.keys a ≡ is_armed steps.now a) }
{
    let mut armed = BTreeSet::new(alloc);
    for step in steps {
        enter_armed(&mut armed, step)?;
    }
    Ok(armed)
}

// Enters the actor whose disk a step arms, if it arms one.
fn enter_armed(armed: &mut BTreeSet<Actor>, step: &Step) -> Result<(), OutOfMemory>
    ensures { OnOk result ((a : AnActor) → has_actor armed.new.keys a ≡ (has_actor armed.old.keys a || fails a step.now)) }
{
    if let Step::Fail { actor, .. } = step {
        insert_actor(armed, *actor)?;
    }
    Ok(())
}

// Enters an actor.
fn insert_actor(actors: &mut BTreeSet<Actor>, actor: Actor) -> Result<(), OutOfMemory>
    ensures { OnOk result ((a : AnActor) → has_actor actors.new.keys a ≡ (has_actor actors.old.keys a || same_actor actor a)) }
{
    actors.insert(actor)?;
    Ok(())
}

// The actors of a topology, in rising order.
fn rising(alloc: Global, topology: &Topology) -> Result<BTreeSet<Actor>, OutOfMemory>
    ensures { IfOk result (λ rising. rising.keys ≡ actors_rising topology.now) }
{
    let listed = listed(alloc, topology)?;
    let mut rising = BTreeSet::new(alloc);
    for actor in listed.as_slice() {
        rising.insert(*actor)?;
    }
    Ok(rising)
}

// The actors of a topology, shard by shard after the nodes.
fn listed(alloc: Global, topology: &Topology) -> Result<Vec<Actor>, OutOfMemory>
    ensures { IfOk result (λ listed. listed.items ≡ actors topology.now) }
{
    let mut listed = Vec::new(alloc);
    push_actors(&mut listed, 0, topology.nodes())?;
    for place in 0..topology.shards() {
        push_actors(&mut listed, place + 1, topology.replicas(place + 1))?;
    }
    Ok(listed)
}

// Appends the actors of a shard at these nodes, or for shard 0 the nodes themselves.
fn push_actors(listed: &mut Vec<Actor>, shard: u32, nodes: NodeSet) -> Result<(), OutOfMemory>
    requires { shard ≤ 15 }
    ensures { OnOk result (listed.new.items ≡ listed.old.items ++ map (λ node. actor_of node shard) (members nodes)) }
{
    for node in 0..NUMBERS {
        if contains(nodes, node) {
            listed.push(actor(node, shard))?;
        }
    }
    Ok(())
}
