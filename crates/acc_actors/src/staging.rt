//! Groups of messages that a store takes with one append.
ghost use Rattle.std.specs.Prelude.{◌≡◌, List, [], ◌∷◌, ◌++◌, IfOk, OnOk, OnErr};
ghost use Rattle.acc_message.specs.declared.entry.Event.{Event as AnEvent};
ghost use Rattle.acc_message.specs.NodeRules.{Takes};
ghost use Rattle.acc_schedule_runs.specs.Situations.{Situation};
ghost use Rattle.acc_schedule_runs.specs.Disks.{Disks};

use crate::slot::Slot;
use acc_base::OutOfMemory;
use acc_message::Message;
use acc_payloads::Unsents;
use acc_ports::Rig;
use acc_run_laws::numbers_alone::messages_have_numbers_alone;
use acc_schedule::Plan;
use acc_stamp::Actor;
use acc_store::Prepared;

impl<D: Rig> Slot<D> {
    ghost use Rattle.acc_actors.specs.Slots.{SlotStages, IsStrictSlot, IsPreparedIn, faults_in};
    ghost use Rattle.acc_actors.specs.Asked.{step_by, IsAskedBehind, MayAskBehind, WeighsBehind, IsStaged, HasAnsweredAll};

    /// Plans the step of the store that takes the message with this number, after those that are staged, and tells how many bytes of
    /// encoded messages it sends. It can be staged as long as the store takes no other. It makes no call of a disk.
    pub fn prepare(
        &self,
        plan: &Plan,
        actor: Actor,
        number: u64,
        m: &Message,
    ) -> Result<(u64, Prepared), OutOfMemory>
        requires { MayAskBehind D.Disk plan.now (step_by actor (AnEvent.Message number) (Takes m.now)) self.now }
        ensures weight { IfOk result (λ found. WeighsBehind D.Disk plan.now (step_by actor (AnEvent.Message number) (Takes m.now)) self.now found.0) }
        ensures prepared { IfOk result (λ found. IsPreparedIn plan.now self.now m.now found.1) }
    {
        messages_have_numbers_alone();
        match self {
            Slot::Empty => unreachable!(),
            Slot::Node(_) => Err(OutOfMemory),
            Slot::Store(store) => {
                let prepared = store.prepare(&plan.topology, m)?;
                let weight = store.weigh(&plan.topology, m, &prepared)?;
                Ok((weight, prepared))
            }
        }
    }

    /// The store takes the message with this number as it was planned, after those that are staged. It is in no image of the disk before
    /// `settle`, which gives what the store sends for it. After an error all is as before. It makes no call of the disk.
    pub fn stage(
        &mut self,
        plan: &Plan,
        actor: Actor,
        number: u64,
        m: &Message,
        prepared: Prepared,
    ) -> Result<(), OutOfMemory>
        requires may { MayAskBehind D.Disk plan.now (step_by actor (AnEvent.Message number) (Takes m.now)) self.old }
        requires prepared { IsPreparedIn plan.now self.old m.now prepared }
        ensures ok { OnOk result ((s : Situation) (staged : List AnEvent) → IsAskedBehind D.Disk plan.now s staged (step_by actor (AnEvent.Message number) (Takes m.now)) self.old
            → SlotStages D.Disk plan.now s actor (staged ++ AnEvent.Message number ∷ []) self.new) }
        ensures err { OnErr result ((s : Situation) (staged : List AnEvent) → SlotStages D.Disk plan.now s actor staged self.old
            → SlotStages D.Disk plan.now s actor staged self.new) }
        ensures strict { (s : Situation) (disks : Disks) → IsStrictSlot D.Disk plan.now s disks actor self.old
            → IsStrictSlot D.Disk plan.now s disks actor self.new }
        ensures faults { faults_in D.Disk self.new ≡ faults_in D.Disk self.old }
    {
        messages_have_numbers_alone();
        match self {
            Slot::Empty => unreachable!(),
            Slot::Node(_) => Err(OutOfMemory),
            Slot::Store(store) => store.stage(&plan.topology, number, m, prepared),
        }
    }

    /// Appends all that is staged with one append, and gives it: it may be entered now. `None` where its disk failed, which takes the actor
    /// down; a restart then finds all of it or nothing.
    pub fn settle(&mut self, plan: &Plan, actor: Actor) -> Result<Option<Unsents>, OutOfMemory>
        requires { (s : Situation) × (staged : List AnEvent) × IsStaged D.Disk plan.now s actor staged self.old }
        ensures { HasAnsweredAll D.Disk plan.now actor self.old self.new result }
    {
        match self {
            Slot::Empty => unreachable!(),
            Slot::Node(_) => Err(OutOfMemory),
            Slot::Store(store) => store.settle(),
        }
    }
}
