//! Actors of a plan that have done nothing.
ghost use Rattle.std.specs.Prelude.{◌≡◌, ◌∷◌, [], IsTrue, false};
ghost use Rattle.acc_stamp.specs.Actor.{actor_of};
ghost use Rattle.acc_topology.specs.Sets.{is_among};
ghost use Rattle.acc_message.specs.Run.{clock_start, is_node};
ghost use Rattle.acc_schedule_runs.specs.Situations.{opened};
ghost use Rattle.acc_schedule_runs.specs.Disks.{fresh_disks};
ghost use Rattle.acc_durable_node.specs.Names.{IsNodeName};
ghost use Rattle.acc_actors.specs.Slots.{node_name};
ghost use Rattle.acc_actors.specs.Opened.{IsUnarmed};

use crate::slot::Slot;
use acc_durable_node::{DurableNode, NodeActor, NodeName};
use acc_durable_store::{DurableStore, StoreActor, StoreName};
use acc_ports::Rig;
use acc_schedule::Plan;
use acc_stamp::Actor;
use acc_topology::NodeSpec;
use std::alloc::Global;

impl<D: Rig + Drop> Slot<D> {
    ghost use Rattle.acc_ports.specs.Disk.{IsAtRest};
    ghost use Rattle.acc_actors.specs.Slots.{SlotStands, IsStrictSlot};

    /// A node of the plan over a disk of its own, which holds the bytes 1 and 0, synced.
    pub fn fresh_node(alloc: Global, plan: &Plan, number: u32, disk: D) -> Slot<D>
        requires known { IsTrue (is_among plan.now.topology.nodes number) }
        requires content { (D.state disk).content ≡ 1 ∷ 0 ∷ [] }
        requires rest { IsAtRest (D.state disk) (D.is_image disk) }
        ensures stands { SlotStands D.Disk plan.now (opened []) (actor_of number 0) result }
        ensures strict { IsUnarmed D.Disk disk
            → IsStrictSlot D.Disk plan.now (opened []) fresh_disks (actor_of number 0) result }
    {
        let name = name_of(plan, number);
        let node = DurableNode::fresh(alloc, name, disk);
        Slot::Node(NodeActor::opened(alloc, node))
    }

    /// A store over a disk of its own, which holds the bytes 1 and 0, synced.
    pub fn fresh_store(alloc: Global, plan: &Plan, actor: Actor, disk: D) -> Slot<D>
        requires kind { is_node actor ≡ false }
        requires content { (D.state disk).content ≡ 1 ∷ 0 ∷ [] }
        requires rest { IsAtRest (D.state disk) (D.is_image disk) }
        ensures stands { SlotStands D.Disk plan.now (opened []) actor result }
        ensures strict { IsUnarmed D.Disk disk
            → IsStrictSlot D.Disk plan.now (opened []) fresh_disks actor result }
    {
        let store = DurableStore::fresh(alloc, actor, plan.version, disk);
        let version = plan.version;
        Slot::Store(StoreActor::opened(alloc, StoreName { actor, version }, store))
    }
}

/// What a plan opens a node as.
pub fn name_of(plan: &Plan, number: u32) -> NodeName
    requires { IsTrue (is_among plan.now.topology.nodes number) }
    ensures name { result ≡ node_name plan.now number }
    ensures range { IsNodeName result }
{
    let start = start_of(plan.starts.as_slice(), number);
    NodeName {
        number,
        start,
        version: plan.version,
    }
}

/// Where the clock of a node starts.
fn start_of(starts: &[NodeSpec], node: u32) -> u64
    ensures { result ≡ clock_start starts.now node }
{
    for spec in starts {
        if spec.id == node {
            return spec.clock;
        }
    }
    0
}
