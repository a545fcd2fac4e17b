//! The end of free items.
ghost use Rattle.std.specs.Prelude.{◌≡◌, true, false, None, List, reverse, map, IfOk, IfErr, OnOk};
ghost use Rattle.acc_stamp.specs.declared.actors.Actor.{Actor};
ghost use Rattle.acc_schedule.specs.Plan.{IsPlan};
ghost use Rattle.acc_schedule_runs.specs.Situations.{Stopped};
ghost use Rattle.acc_schedule_runs.specs.Laws.{NobodyIsDown};
ghost use Rattle.acc_schedule_runs.specs.Disks.{Disks as StrictDisks};
ghost use Rattle.acc_schedule_runs.specs.Limits.{EndsAt};
ghost use Rattle.acc_cluster.specs.Steps.{IfLimit};
ghost use Rattle.acc_cluster.specs.Over.{behind_items, AreStrictSlots};
ghost use Rattle.acc_free_ending.specs.Queues.{placed_in, rest_actor, AreAllActors};
ghost use Rattle.acc_free_ending.specs.Moves.{IsFreeFront};
ghost use Rattle.acc_free_ending.specs.Finish.{AreResting, HasFinished, HasStopped};

use crate::rest::{Rests, parted};
use crate::round::rounds;
use acc_base::OutOfMemory;
use acc_cluster::{Cluster, Ended, Remains};
use acc_free_laws::laws::served_at_the_end;
use acc_message::{GrowingItems, RunError};
use acc_ports::Rig;
use acc_schedule::Plan;
use std::alloc::Global;

/// Brings what actors entered by themselves, in the order in which it was entered, to its end, one step after another: each actor in turn
/// takes the commands that are left, as long as they can be taken, and then all messages are delivered; so it goes round until no command
/// goes by any more. A begin of a begun transaction is passed over, and so is anything but a restart at an actor that is down; a recover
/// waits until its transaction is begun. What the actors knew goes to `remains` at the end. A limit ends the rounds early, and the items up
/// to there come back with it. The disks come back then too, and after want of memory in a round, when nothing is said of them.
pub fn finish<D: Rig + Drop>(
    alloc: Global,
    plan: &Plan,
    rests: Rests<D>,
    entered: GrowingItems,
    remains: &mut Remains,
) -> Result<(Ended<D>, Result<(), RunError>), OutOfMemory>
    requires is_plan { IsPlan plan.now }
    requires actors { AreAllActors plan.now (map rest_actor rests.items) }
    requires standing { (stopped : List Stopped) × AreResting D.Disk plan.now rests.items entered.items stopped }
    ensures ok { IfOk result (λ done. OnOk done.1 (HasFinished D.Disk plan.now entered.items done.0)) }
    ensures limit { IfOk result (λ done. IfErr done.1 (IfLimit (λ which most.
        EndsAt (IsFreeFront false plan.now (reverse entered.items)) (reverse done.0.items) which most × HasStopped D.Disk plan.now entered.items done.0))) }
    ensures strict_limit { (stopped : List Stopped) (disks : StrictDisks) → AreResting D.Disk plan.now rests.items entered.items stopped
        → AreStrictSlots D.Disk plan.now (behind_items entered.items stopped) disks (map placed_in rests.items)
        → ((a : Actor) → disks.armed a ≡ None) → NobodyIsDown (reverse entered.items)
        → IfOk result (λ done. IfErr done.1 (IfLimit (EndsAt (IsFreeFront true plan.now (reverse entered.items)) (reverse done.0.items)))) }
    ensures strict { (stopped : List Stopped) (disks : StrictDisks) → AreResting D.Disk plan.now rests.items entered.items stopped
        → AreStrictSlots D.Disk plan.now (behind_items entered.items stopped) disks (map placed_in rests.items)
        → ((a : Actor) → disks.armed a ≡ None) → NobodyIsDown (reverse entered.items) → IfOk result (λ done. OnOk done.1 (NobodyIsDown (reverse done.0.items))) }
{
    served_at_the_end();
    let (slots, queues) = parted(alloc, rests)?;
    let mut queues = queues;
    let mut cluster = Cluster::over(alloc, plan, slots, entered)?;
    let gone = rounds(&mut cluster, plan, &mut queues);
    let ended = cluster.finish(remains)?;
    Ok((ended, gone))
}
