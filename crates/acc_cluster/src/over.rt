//! A cluster over actors that stand already.
ghost use Rattle.std.specs.Prelude.{◌≡◌, List, reverse, IfOk};
ghost use Rattle.acc_run_laws.specs.Sends.{AreFew, HasFewBodies};
ghost use Rattle.acc_safety.specs.Valid.{IsStanding};
ghost use Rattle.acc_schedule_runs.specs.Situations.{Stopped};
ghost use Rattle.acc_schedule_runs.specs.Schedules.{cluster_of};
ghost use Rattle.acc_schedule_runs.specs.Disks.{Disks};
ghost use Rattle.acc_cluster.specs.Over.{behind_items, ArePlaced, IsHistoryOver};

use crate::cluster::Cluster;
use crate::opening::put;
use acc_actors::Slot;
use acc_base::OutOfMemory;
use acc_history::History;
use acc_history::laws::stopped_steps_are_apart;
use acc_message::GrowingItems;
use acc_ports::Rig;
use acc_schedule::Plan;
use acc_stamp::Actor;
use std::alloc::Global;

/// Slots with their actors.
pub type Slots<D> = Vec<(Actor, Slot<D>)>;

impl<D: Rig + Drop> Cluster<D> {
    ghost use Rattle.acc_cluster.specs.Stands.{StandsFor, StandsStrictly};
    ghost use Rattle.acc_cluster.specs.Over.{AreSlotsOf, IsOver, AreStrictSlots};

    /// The cluster of the actors of a plan that took part in these items, which stand in the order in which they were entered, and
    /// stay in their list. No run stood before them, and no message was dropped.
    pub fn over(
        alloc: Global,
        plan: &Plan,
        slots: Slots<D>,
        items: GrowingItems,
    ) -> Result<Cluster<D>, OutOfMemory>
        requires standing { (stopped : List Stopped) × IsOver D.Disk plan.now slots.items items.items stopped }
        requires actors { AreSlotsOf plan.now slots.items }
        ensures ok { IfOk result (λ cluster. (stopped : List Stopped) → IsOver D.Disk plan.now slots.items items.items stopped
            → StandsFor D.Disk plan.now cluster (behind_items items.items stopped)) }
        ensures strict { IfOk result (λ cluster. (stopped : List Stopped) (disks : Disks) → IsOver D.Disk plan.now slots.items items.items stopped
            → AreStrictSlots D.Disk plan.now (behind_items items.items stopped) disks slots.items
            → StandsStrictly D.Disk plan.now cluster (record { found = behind_items items.items stopped; disks = disks })) }
    {
        let history = history_over(alloc, plan, items)?;
        let slots = placed(alloc, slots)?;
        Ok(Cluster {
            alloc,
            history,
            slots,
        })
    }
}

// The slots at the numbers of their actors.
fn placed<D: Rig + Drop>(alloc: Global, slots: Slots<D>) -> Result<Vec<Slot<D>>, OutOfMemory>
    ensures { IfOk result (λ placed. ArePlaced slots.items placed.items) }
{
    let mut placed = Vec::new(alloc);
    for (actor, slot) in slots {
        put(&mut placed, actor.0, slot)?;
    }
    Ok(placed)
}

// The past of these items.
fn history_over(alloc: Global, plan: &Plan, items: GrowingItems) -> Result<History, OutOfMemory>
    requires { IsStanding (cluster_of plan.now) (reverse items.items) × HasFewBodies (cluster_of plan.now) × AreFew (reverse items.items) }
    ensures { IfOk result (λ history. (stopped : List Stopped) → IsHistoryOver items.items stopped history) }
{
    stopped_steps_are_apart();
    let history = History::over(alloc, items)?;
    Ok(history)
}
