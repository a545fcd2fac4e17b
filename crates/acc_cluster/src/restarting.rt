//! Restarts.
ghost use Rattle.std.specs.Prelude.{◌≡◌, ℕ, ◌+◌, ◌≤◌, [], ◌∷◌, length, IsTrue, IfOk, IfErr, OnOk, Contains, true, false};
ghost use Rattle.std.specs.List.{AllByRecursion};
ghost use Rattle.acc_message.specs.declared.entry.Event.{Event as AnEvent};
ghost use Rattle.acc_message.specs.Run.{Cluster as RunCluster};
ghost use Rattle.acc_run_laws.specs.Sends.{AreSendable};
ghost use Rattle.acc_schedule.specs.Actors.{actors};
ghost use Rattle.acc_pasts.specs.Stopped.{IsSound};
ghost use Rattle.acc_schedule_runs.specs.Situations.{Situation};
ghost use Rattle.acc_schedule_runs.specs.Moves.{with_item, entered};
ghost use Rattle.acc_history.specs.Stands.{EventTakesSent};
ghost use Rattle.acc_schedule_runs.specs.Limits.{EndsAt};
ghost use Rattle.acc_actors.specs.Asked.{AreKeptSteps};
ghost use Rattle.acc_cluster.specs.Steps.{change, hit, IfLimit, LimitLeaves};
ghost use Rattle.acc_cluster.specs.Entering.{HasPlace, IsPastOf, HasGrown};
ghost use Rattle.acc_cluster.specs.Restarting.{lost_item, with_lost, AreSendableBehind, CanComeBack, CanBeEntered, EndsInLost, EndsInRestart};
ghost use Rattle.acc_cluster.specs.Restarting.{come_up as behind_restart, takes_below as is_below};

use crate::asking;
use crate::asking::can_be_sent;
use crate::cluster::Cluster;
use crate::entering::{check_place, enter_down, enter_entry};
use acc_actors::Slot;
use acc_base::OutOfMemory;
use acc_history::History;
use acc_message::{Emitted, Event, Messages, Notes, RunError};
use acc_payloads::{Restarted, Unsent, Unsents};
use acc_ports::Rig;
use acc_schedule::Plan;
use acc_stamp::Actor;
use std::alloc::Global;
use std::mem;

// Enters a restart whose journal kept so many entries.
fn enter_restart(
    history: &mut History,
    alloc: Global,
    actor: Actor,
    count: u32,
) -> Result<(), RunError>
    ensures ok { OnOk result ((cluster : RunCluster) (s : Situation) → IsPastOf history.old s → HasPlace s → IsPastOf history.new (entered cluster s actor (AnEvent.Restart count) false)) }
    ensures limit { IfErr result (IfLimit (λ which most. (cluster : RunCluster) (s : Situation) → IsPastOf history.old s → HasPlace s
        → EndsAt (λ front. front ≡ (entered cluster s actor (AnEvent.Restart count) false).own) s.own which most)) }
    ensures as_before { IfErr result (IfLimit (λ which most. history.new ≡ history.old)) }
{
    let silence = Emitted {
        notes: Notes::new(alloc),
        out: Messages::new(alloc),
    };
    enter_entry(
        history,
        actor,
        Event::Restart { kept: count },
        silence,
        false,
    )
}

// Enters an entry that is lost, and leaves a place after it.
fn enter_lost(history: &mut History, actor: Actor, unsent: Unsent) -> Result<(), RunError>
    requires sendable { AreSendable unsent.emitted.out }
    ensures ok { OnOk result ((s : Situation) → IsPastOf history.old s → HasPlace s → EventTakesSent s unsent.event
        → IsPastOf history.new (with_item (lost_item actor unsent) s) × HasPlace (with_item (lost_item actor unsent) s)) }
    ensures limit { IfErr result (IfLimit (λ which most. (s : Situation) → IsPastOf history.old s → HasPlace s → EventTakesSent s unsent.event
        → EndsInLost history.new s actor (unsent ∷ []) which most)) }
{
    let Unsent { event, emitted } = unsent;
    enter_entry(history, actor, event, emitted, true)?;
    check_place(history)
}

// Enters what was kept as lost, the oldest first, and leaves a place after it.
fn enter_kept(history: &mut History, actor: Actor, kept: Unsents) -> Result<(), RunError>
    requires back { (s : Situation) × CanComeBack history.old actor kept s × AreSendableBehind actor kept s }
    ensures ok { OnOk result ((s : Situation) → CanComeBack history.old actor kept s
        → IsPastOf history.new (with_lost actor kept s) × HasPlace (with_lost actor kept s)) }
    ensures limit { IfErr result (IfLimit (λ which most. (s : Situation) → CanComeBack history.old actor kept s → EndsInLost history.new s actor kept which most)) }
{
    for unsent in kept.into_vec() {
        enter_lost(history, actor, unsent)?;
    }
    Ok(())
}

// How many were kept. More than 32 bits count are more than memory holds.
fn count_of(kept: &Unsents) -> Result<u32, OutOfMemory>
    ensures { IfOk result (λ count. count ≡ length kept.now) }
{
    u32::try_from(kept.len()).map_err(|_| OutOfMemory)
}

// Whether an event takes one of the first messages, if any. There are so many.
fn takes_below(sent: u64, event: Event) -> bool
    ensures { result ≡ is_below sent event }
{
    match event {
        Event::Message { number } => number < sent,
        Event::Begin { .. } | Event::Recover { .. } | Event::Slow { .. } | Event::Restart { .. } =>
            { true }
    }
}

// Whether a step that was kept can be entered.
fn can_be_entered(history: &History, unsent: &Unsent) -> bool
    ensures { IsTrue result → CanBeEntered history.now unsent.now }
{
    if !takes_below(history.sent(), unsent.event) {
        return false;
    }
    can_be_sent(&unsent.emitted)
}

// What was kept can be entered: where the cluster tests, that is tested.
fn check_kept(tests: bool, history: &History, kept: &Unsents) -> Result<(), OutOfMemory>
    ensures { tests ≡ true → OnOk result (AllByRecursion (CanBeEntered history.now) kept.now) }
{
    if !tests {
        return Ok(());
    }
    for unsent in kept.as_slice() {
        if !can_be_entered(history, unsent) {
            return Err(OutOfMemory);
        }
    }
    Ok(())
}

// Enters what was kept, if anything, and the restart.
fn come_up(
    history: &mut History,
    alloc: Global,
    actor: Actor,
    kept: Unsents,
) -> Result<(), RunError>
    requires back { (s : Situation) × CanComeBack history.old actor kept s × AreSendableBehind actor kept s }
    ensures ok { OnOk result ((cluster : RunCluster) (s : Situation) → IsSound cluster s → IsPastOf history.old s → HasPlace s → AreKeptSteps cluster s actor kept
        → IsPastOf history.new (behind_restart cluster s actor kept)) }
    ensures limit { IfErr result (IfLimit (λ which most. (cluster : RunCluster) (s : Situation) → IsSound cluster s → IsPastOf history.old s → HasPlace s → AreKeptSteps cluster s actor kept
        → EndsInRestart history.new cluster s actor kept which most)) }
    ensures grown { OnOk result ((cluster : RunCluster) (s : Situation) → CanComeBack history.old actor kept s → HasGrown history.new s) }
{
    let count = count_of(&kept)?;
    enter_kept(history, actor, kept)?;
    enter_restart(history, alloc, actor, count)
}

impl<D: Rig + Drop> Cluster<D> {
    ghost use Rattle.acc_cluster.specs.Stands.{StandsFor};
    ghost use Rattle.acc_cluster.specs.Restarting.{HasReopened};
    ghost use Rattle.acc_cluster.specs.Tried.{HasRestarted, HitsLimitInRestart};
    ghost use Rattle.acc_cluster.specs.Safe.{most_opened};
    ghost use Rattle.acc_cluster.specs.Tested.{AreSafe, IsTested};

    /// An actor's disk crashes, in the way of the choice, and the actor opens it again. The steps that were stopped, if it kept them, are
    /// entered as lost, the oldest first, and then the restart.
    pub(crate) fn restart(
        &mut self,
        tests: bool,
        plan: &Plan,
        actor: Actor,
        choice: u8,
    ) -> Result<(), RunError>
        requires standing { tests ≡ false → (s : Situation) × StandsFor D.Disk plan.now self.old s }
        requires tested { tests ≡ true → IsTested D.Disk plan.now self.old }
        requires known { Contains (actors plan.now.topology) actor }
        ensures ok { OnOk result ((s : Situation) → StandsFor D.Disk plan.now self.old s
            → HasRestarted D.Disk plan.now actor choice self.old self.new s) }
        ensures limit { IfErr result (IfLimit (λ which most. (s : Situation) → StandsFor D.Disk plan.now self.old s
            → (hits : HitsLimitInRestart D.Disk plan.now actor choice self.old s (hit which most))
            × LimitLeaves D.Disk plan.now self.old self.new s hits.items hits.reached)) }
        ensures tested { tests ≡ true → OnOk result (IsTested D.Disk plan.now self.new) }
    {
        check_place(&self.history)?;
        match self.reopen(plan, actor, choice)? {
            Restarted::Down => enter_down(&mut self.history, actor),
            Restarted::Up { kept } => {
                check_kept(tests, &self.history, &kept)?;
                come_up(&mut self.history, self.alloc, actor, kept)
            }
        }
    }

    // Restarts the actor in its slot.
    fn reopen(&mut self, plan: &Plan, actor: Actor, choice: u8) -> Result<Restarted, OutOfMemory>
        requires known { Contains (actors plan.now.topology) actor }
        ensures history { self.new.history ≡ self.old.history }
        ensures ok { IfOk result (λ found. (s : Situation) → StandsFor D.Disk plan.now self.old s → HasPlace s
            → HasReopened D.Disk plan.now actor choice (change self.old.slots.items self.new.slots.items) found s) }
        ensures safe { OnOk result ((most : ℕ) → most_opened ≤ most → AreSafe D.Disk plan.now most self.old.slots.items
            → AreSafe D.Disk plan.now (most + 1) self.new.slots.items) }
    {
        let place = actor.0 as usize;
        if place >= self.slots.len() {
            return Err(OutOfMemory);
        }
        let slot = mem::replace(&mut self.slots[place], Slot::Empty);
        let (slot, found) = asking::restart(slot, plan, actor, choice);
        self.slots[place] = slot;
        found
    }
}
