//! The beginning of a cluster.
ghost use Rattle.std.specs.Prelude.{ℕ, ◌≡◌, ◌==◌, ◌<◌, ◌++◌, cond, length, List, [], ◌∷◌, map, IfOk, OnOk, IsTrue, slice_index_or};
ghost use Rattle.std.specs.List.{AllByRecursion};
ghost use Rattle.acc_topology.specs.Sets.{in_set, is_among, members};
ghost use Rattle.acc_message.specs.declared.item.Item.{Item as AnItem};
ghost use Rattle.acc_schedule_runs.specs.Situations.{opened};
ghost use Rattle.acc_schedule_runs.specs.StrictMoves.{opened_strictly};
ghost use Rattle.acc_durable_node.specs.declared.node.DurableNode.{DurableNode as ANode};
ghost use Rattle.acc_durable_store.specs.declared.store.DurableStore.{DurableStore as AStore};
ghost use Rattle.acc_actors.specs.declared.slot.Slot.TheVariants.{Empty};
ghost use Rattle.acc_cluster.specs.Opened.{IsNodeOf, IsStoreOf, IsStoreNumber, AreActorsOf, IsEarlier, AreUnarmed, AreFilled, AreFilledStrictly};

use crate::begun::begun_before;
use crate::cluster::Cluster;
use acc_actors::Slot;
use acc_base::OutOfMemory;
use acc_durable_node::{DurableNode, NodeActor};
use acc_durable_store::{DurableStore, StoreActor, StoreName};
use acc_history::History;
use acc_ports::Rig;
use acc_schedule::Plan;
use acc_stamp::actor;
use acc_topology::sets::{NodeSet, contains};
use std::alloc::Global;

impl<D: Rig + Drop> Cluster<D> {
    ghost use Rattle.acc_cluster.specs.Stands.{StandsFor, StandsStrictly};
    ghost use Rattle.acc_cluster.specs.Tested.{IsTested, HaveLowPasts};

    /// The cluster of the actors of a plan, after any run that stood before, in which nobody is down and for which these actors stand. Of fresh
    /// actors that run has no items. The nodes stand in rising order, and the stores in any order.
    pub fn of(
        alloc: Global,
        plan: &Plan,
        nodes: Vec<DurableNode<D>>,
        stores: Vec<DurableStore<D>>,
    ) -> Result<Cluster<D>, OutOfMemory>
        requires nodes { AllByRecursion (IsNodeOf D.Disk plan.now) nodes.items }
        requires stores { AllByRecursion (IsStoreOf D.Disk plan.now) stores.items }
        requires actors { AreActorsOf plan.now nodes.items stores.items }
        ensures ok { IfOk result (λ cluster. (earlier : List AnItem) → IsEarlier plan.now nodes.items stores.items earlier
            → StandsFor D.Disk plan.now cluster (opened earlier)) }
        ensures strict { IfOk result (λ cluster. (earlier : List AnItem) → IsEarlier plan.now nodes.items stores.items earlier
            → AreUnarmed D.Disk nodes.items stores.items
            → StandsStrictly D.Disk plan.now cluster (opened_strictly earlier)) }
        ensures tested { IfOk result (λ cluster. HaveLowPasts plan.now nodes.items stores.items → IsTested D.Disk plan.now cluster) }
    {
        let begun = begun_before(alloc, plan, nodes.as_slice())?;
        let history = History::behind(alloc, begun.as_slice())?;
        let placed = node_slots(alloc, plan, nodes)?;
        let slots = with_stores(alloc, plan, placed, stores)?;
        Ok(Cluster {
            alloc,
            history,
            slots,
        })
    }
}

// The nodes in their slots.
fn node_slots<D: Rig + Drop>(
    alloc: Global,
    plan: &Plan,
    nodes: Vec<DurableNode<D>>,
) -> Result<Vec<Slot<D>>, OutOfMemory>
    requires nodes { AllByRecursion (IsNodeOf D.Disk plan.now) nodes.items }
    requires numbers { map (λ (n : ANode D). n.name.number) nodes.items ≡ plan.now.topology.nodes }
    ensures filled { IfOk result (λ slots. AreFilled D.Disk plan.now nodes.items [] slots.items) }
    ensures strictly { IfOk result (λ slots. AreFilledStrictly D.Disk plan.now nodes.items [] slots.items) }
{
    let numbers = numbers_of(alloc, plan.topology.nodes())?;
    let mut slots = Vec::new(alloc);
    let mut place = 0;
    for node in nodes {
        if place >= numbers.len() {
            return Err(OutOfMemory);
        }
        put_node(alloc, plan, &mut slots, numbers[place], node)?;
        place += 1;
    }
    Ok(slots)
}

// The stores in their slots, beside the nodes.
fn with_stores<D: Rig + Drop>(
    alloc: Global,
    plan: &Plan,
    slots: Vec<Slot<D>>,
    stores: Vec<DurableStore<D>>,
) -> Result<Vec<Slot<D>>, OutOfMemory>
    requires stores { AllByRecursion (IsStoreOf D.Disk plan.now) stores.items }
    requires numbers { AllByRecursion (IsStoreNumber plan.now) stores.items }
    ensures filled { IfOk result (λ full. (nodes : List (ANode D)) → AreFilled D.Disk plan.now nodes [] slots.items
        → AreFilled D.Disk plan.now nodes stores.items full.items) }
    ensures strictly { IfOk result (λ full. (nodes : List (ANode D)) → AreFilledStrictly D.Disk plan.now nodes [] slots.items
        → AreFilledStrictly D.Disk plan.now nodes stores.items full.items) }
{
    let mut full = slots;
    for store in stores {
        put_store(alloc, plan, &mut full, store)?;
    }
    Ok(full)
}

// Puts the actor of a node into its slot.
fn put_node<D: Rig + Drop>(
    alloc: Global,
    plan: &Plan,
    slots: &mut Vec<Slot<D>>,
    number: u32,
    node: DurableNode<D>,
) -> Result<(), OutOfMemory>
    requires node { IsNodeOf D.Disk plan.now node }
    requires number { node.name.number ≡ number }
    requires known { IsTrue (is_among plan.now.topology.nodes number) }
    ensures filled { OnOk result ((nodes : List (ANode D)) (stores : List (AStore D)) → AreFilled D.Disk plan.now nodes stores slots.old.items
        → AreFilled D.Disk plan.now (nodes ++ node ∷ []) stores slots.new.items) }
    ensures strictly { OnOk result ((nodes : List (ANode D)) (stores : List (AStore D))
        → AreFilledStrictly D.Disk plan.now nodes stores slots.old.items
        → AreFilledStrictly D.Disk plan.now (nodes ++ node ∷ []) stores slots.new.items) }
{
    let _plan = plan.version;
    let place = actor(number, 0).0;
    let opened = NodeActor::opened(alloc, node);
    put(slots, place, Slot::Node(opened))
}

// Puts the actor of a store into its slot.
fn put_store<D: Rig + Drop>(
    alloc: Global,
    plan: &Plan,
    slots: &mut Vec<Slot<D>>,
    store: DurableStore<D>,
) -> Result<(), OutOfMemory>
    requires store { IsStoreOf D.Disk plan.now store }
    requires number { IsStoreNumber plan.now store }
    ensures filled { OnOk result ((nodes : List (ANode D)) (stores : List (AStore D)) → AreFilled D.Disk plan.now nodes stores slots.old.items
        → AreFilled D.Disk plan.now nodes (stores ++ store ∷ []) slots.new.items) }
    ensures strictly { OnOk result ((nodes : List (ANode D)) (stores : List (AStore D))
        → AreFilledStrictly D.Disk plan.now nodes stores slots.old.items
        → AreFilledStrictly D.Disk plan.now nodes (stores ++ store ∷ []) slots.new.items) }
{
    let own = store.store().actor();
    let name = StoreName {
        actor: own,
        version: plan.version,
    };
    let opened = StoreActor::opened(alloc, name, store);
    put(slots, own.0, Slot::Store(opened))
}

/// Puts an actor into the slot with this number.
pub(crate) fn put<D: Rig + Drop>(
    slots: &mut Vec<Slot<D>>,
    number: u32,
    slot: Slot<D>,
) -> Result<(), OutOfMemory>
    ensures { OnOk result ((k : ℕ) → slice_index_or slots.new.items k Empty ≡ cond (k == number) slot (slice_index_or slots.old.items k Empty)) }
{
    let place = number as usize;
    make_room(slots, place)?;
    slots[place] = slot;
    Ok(())
}

// Makes a slot with this number, in which nobody stands.
fn make_room<D: Rig + Drop>(slots: &mut Vec<Slot<D>>, place: usize) -> Result<(), OutOfMemory>
    ensures same { OnOk result ((k : ℕ) → slice_index_or slots.new.items k Empty ≡ slice_index_or slots.old.items k Empty) }
    ensures room { OnOk result (place < length slots.new.items) }
{
    'room: while slots.len() <= place {
        slots.push(Slot::Empty)?;
    }
    Ok(())
}

/// The numbers of a set, rising.
pub(crate) fn numbers_of(alloc: Global, set: NodeSet) -> Result<Vec<u32>, OutOfMemory>
    ensures { IfOk result (λ numbers. numbers.items ≡ members set) }
{
    let mut numbers = Vec::new(alloc);
    for number in 0..16 {
        put_member(&mut numbers, set, number)?;
    }
    Ok(numbers)
}

// Puts a number behind the others if it is in the set.
fn put_member(numbers: &mut Vec<u32>, set: NodeSet, number: u32) -> Result<(), OutOfMemory>
    ensures { OnOk result (numbers.new.items ≡ numbers.old.items ++ cond (in_set set number) (number ∷ []) []) }
{
    if contains(set, number) {
        numbers.push(number)?;
    }
    Ok(())
}
