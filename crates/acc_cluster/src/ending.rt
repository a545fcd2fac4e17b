//! The end of a cluster.
ghost use Rattle.std.specs.Prelude.{◌≡◌, ℕ, ◌+◌, ◌++◌, List, IfOk, OnOk};
ghost use Rattle.acc_message.specs.declared.item.Item.{Item};
ghost use Rattle.acc_schedule.specs.Content.{Content};
ghost use Rattle.acc_schedule_runs.specs.Situations.{Situation};

use crate::cluster::Cluster;
use acc_actors::Slot;
use acc_base::OutOfMemory;
use acc_message::Items;
use acc_node::Node;
use acc_ports::Rig;
use acc_stamp::Actor;
use acc_store::Store;
use std::alloc::Global;

/// Disks with their actors.
pub type Disks<D> = Vec<(Actor, D)>;

/// What the actors of ended clusters knew, and need no longer. To free it piece by piece takes long, so it is handed to whoever ends a
/// cluster: a program that is done may leave it to the system instead.
#[derive(Debug, Drop)]
pub struct Remains {
    nodes: Vec<Node>,
    stores: Vec<Store>,
}

impl Remains {
    /// Nothing.
    pub fn new(alloc: Global) -> Remains {
        Remains {
            nodes: Vec::new(alloc),
            stores: Vec::new(alloc),
        }
    }

    // Takes a node, or frees it where there is no memory for its place.
    fn keep_node(&mut self, node: Option<Node>) {
        if let Some(node) = node {
            let _kept = self.nodes.push(node);
        }
    }

    // Takes a store, or frees it where there is no memory for its place.
    fn keep_store(&mut self, store: Option<Store>) {
        if let Some(store) = store {
            let _kept = self.stores.push(store);
        }
    }
}

/// What is left of a cluster.
#[derive(Debug, Drop)]
pub struct Ended<D: Rig> {
    /// The items since the cluster was opened, in the order in which they were entered.
    pub items: Items,
    /// The disks, in rising order of the actors.
    pub disks: Disks<D>,
}

impl<D: Rig + Drop> Cluster<D> {
    ghost use Rattle.acc_cluster.specs.Stands.{StandsFor};
    ghost use Rattle.acc_cluster.specs.Limits.{StopsAt};
    ghost use Rattle.acc_cluster.specs.Ends.{IsEndOf};

    /// Gives the items and the disks back, and what its actors knew to `remains`. After a limit too: then a disk may hold a
    /// step that the limit kept out.
    pub fn finish(self, remains: &mut Remains) -> Result<Ended<D>, OutOfMemory>
        ensures ok { IfOk result (λ ended. (plan : Content) (s : Situation) → StandsFor D.Disk plan self s → IsEndOf D.Disk plan s.own s ended) }
        ensures limited { IfOk result (λ ended. (plan : Content) (items : List Item) (s : Situation) → StopsAt D.Disk plan self items s
            → IsEndOf D.Disk plan items s ended) }
    {
        let Cluster {
            alloc,
            history,
            slots,
        } = self;
        Ok(Ended {
            items: history.into_items(),
            disks: disks_of(alloc, slots, remains)?,
        })
    }
}

ghost use Rattle.acc_cluster.specs.Ends.{disks_from, entry_of};

// The disks of the slots, each with its number.
fn disks_of<D: Rig + Drop>(
    alloc: Global,
    slots: Vec<Slot<D>>,
    remains: &mut Remains,
) -> Result<Disks<D>, OutOfMemory>
    ensures disks { IfOk result (λ disks. disks.items ≡ disks_from 0 slots.items) }
{
    let mut disks = Vec::new(alloc);
    let mut number = 0;
    for slot in slots {
        put_disk(&mut disks, number, slot, remains)?;
        number = next_number(number)?;
    }
    Ok(disks)
}

// Slots that can't be numbered with 32 bits are more than memory holds.
fn next_number(number: u32) -> Result<u32, OutOfMemory>
    ensures { IfOk result (λ next. next ≡ number + 1) }
{
    number.checked_add(1).ok_or(OutOfMemory)
}

// Puts the disk of a slot, if an actor stands there, behind the others.
fn put_disk<D: Rig + Drop>(
    disks: &mut Disks<D>,
    number: u32,
    slot: Slot<D>,
    remains: &mut Remains,
) -> Result<(), OutOfMemory>
    ensures disks { OnOk result (disks.new.items ≡ disks.old.items ++ entry_of number slot) }
{
    match slot {
        Slot::Empty => {}
        Slot::Node(node) => {
            let (disk, node) = node.into_parts();
            disks.push((Actor(number), disk))?;
            remains.keep_node(node);
        }
        Slot::Store(store) => {
            let (disk, store) = store.into_parts();
            disks.push((Actor(number), disk))?;
            remains.keep_store(store);
        }
    }
    Ok(())
}
