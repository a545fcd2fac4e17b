//! Where actors are kept, and what they are asked for there.
ghost use Rattle.std.specs.Prelude.{◌≡◌, false, Contains, IfOk, IfSome, Ok, None};
ghost use Rattle.acc_stamp.specs.declared.actors.Actor.{Actor as AnActor};
ghost use Rattle.acc_ports.specs.Faults.{CountsFaults};
ghost use Rattle.acc_message.specs.declared.entry.Event.{Event as AnEvent};
ghost use Rattle.acc_message.specs.NodeRules.{Begins, Recovers, Takes};
ghost use Rattle.acc_message.specs.Run.{is_node, is_down};
ghost use Rattle.acc_schedule.specs.Actors.{actors};
ghost use Rattle.acc_schedule.specs.Content.{Content};
ghost use Rattle.acc_pasts.specs.Stopped.{IsSound};
ghost use Rattle.acc_schedule_runs.specs.Situations.{Situation, whole};
ghost use Rattle.acc_schedule_runs.specs.Schedules.{cluster_of};
ghost use Rattle.acc_schedule_runs.specs.Disks.{Disks};

use acc_base::OutOfMemory;
use acc_durable_node::NodeActor;
use acc_durable_store::StoreActor;
use acc_message::{Emitted, Message};
use acc_payloads::Restarted;
use acc_ports::Rig;
use acc_run_laws::numbers_alone::messages_have_numbers_alone;
use acc_schedule::Plan;
use acc_stamp::{Actor, TxnId};
use acc_store::Store;
use acc_txn::Body;

/// An actor of a plan over its disk, in the slot that is kept for it.
#[derive(Debug, Drop)]
pub enum Slot<D: Rig> {
    /// No actor stands here, or it is being restarted.
    Empty,
    /// A node.
    Node(NodeActor<D>),
    /// A store.
    Store(StoreActor<D>),
}

impl<D: Rig> Slot<D> {
    ghost use Rattle.acc_actors.specs.Slots.{SlotStands, IsStrictSlot, IsTaken, faults_in, is_down_in};
    ghost use Rattle.acc_actors.specs.Stores.{IsStoreOf};
    ghost use Rattle.acc_actors.specs.Asked.{step_by, over_disks, IsFew, MayAsk, HasAnswered, HasRestartedAt, HasRestartedStrictlyAt};

    /// The node begins a transaction. `None` where its disk failed, which takes it down.
    pub fn begin(
        &mut self,
        plan: &Plan,
        actor: Actor,
        txn: u32,
        body: &Body,
    ) -> Result<Option<Emitted>, OutOfMemory>
        requires { MayAsk D.Disk plan.now (step_by actor (AnEvent.Begin txn) (Begins txn body.now)) self.old }
        ensures { HasAnswered D.Disk plan.now (step_by actor (AnEvent.Begin txn) (Begins txn body.now)) self.old self.new result }
    {
        match self {
            Slot::Node(node) => node.begin(&plan.topology, txn, body),
            Slot::Empty | Slot::Store(_) => unreachable!(),
        }
    }

    /// The node recovers a transaction. `None` where its disk failed, which takes it down.
    pub fn recover(
        &mut self,
        plan: &Plan,
        actor: Actor,
        txn: u32,
        id: TxnId,
        body: &Body,
    ) -> Result<Option<Emitted>, OutOfMemory>
        requires { MayAsk D.Disk plan.now (step_by actor (AnEvent.Recover txn) (Recovers id body.now)) self.old }
        ensures { HasAnswered D.Disk plan.now (step_by actor (AnEvent.Recover txn) (Recovers id body.now)) self.old self.new result }
    {
        match self {
            Slot::Node(node) => node.recover(&plan.topology, txn, id, body),
            Slot::Empty | Slot::Store(_) => unreachable!(),
        }
    }

    /// The actor takes the message with this number. `None` where its disk failed, which takes it down.
    #[inline(always)]
    pub fn take(
        &mut self,
        plan: &Plan,
        actor: Actor,
        number: u64,
        m: &Message,
    ) -> Result<Option<Emitted>, OutOfMemory>
        requires { MayAsk D.Disk plan.now (step_by actor (AnEvent.Message number) (Takes m.now)) self.old }
        ensures { HasAnswered D.Disk plan.now (step_by actor (AnEvent.Message number) (Takes m.now)) self.old self.new result }
    {
        messages_have_numbers_alone();
        match self {
            Slot::Empty => unreachable!(),
            Slot::Node(node) => Ok(Some(node.take(&plan.topology, m)?)),
            Slot::Store(store) => store.take(&plan.topology, number, m),
        }
    }

    /// Whether an actor stands here that is down.
    pub fn is_down(&self) -> bool
        ensures value { result ≡ is_down_in self.now }
        ensures stands { (plan : Content) (s : Situation) (a : AnActor) → SlotStands D.Disk plan s a self.now → result ≡ is_down a (whole s) }
    {
        match self {
            Slot::Empty => false,
            Slot::Node(node) => node.is_down(),
            Slot::Store(store) => store.is_down(),
        }
    }

    /// The store, where one is up.
    pub fn store(&self) -> Option<&Store>
        ensures taken { IfSome result (λ store. IsTaken self.now) }
        ensures some { IfSome result (λ store. (plan : Content) (s : Situation) (a : AnActor) → IsSound (cluster_of plan) s → SlotStands D.Disk plan s a self.now
            → (is_node a ≡ false) × (is_down a (whole s) ≡ false) × IsStoreOf plan s a store.now) }
        ensures none { result ≡ None → (plan : Content) (s : Situation) (a : AnActor) → SlotStands D.Disk plan s a self.now
            → is_node a ≡ false → is_down a (whole s) ≡ false → ⊥ }
    {
        match self {
            Slot::Store(store) => store.store(),
            Slot::Empty | Slot::Node(_) => None,
        }
    }

    /// Crashes the actor's disk, in the way of the choice, and opens the actor again.
    pub fn restart(
        self,
        plan: &Plan,
        actor: Actor,
        choice: u8,
    ) -> (Slot<D>, Result<Restarted, OutOfMemory>)
        requires { (s : Situation) × SlotStands D.Disk plan.now s actor self × Contains (actors plan.now.topology) actor }
        ensures ok { IfOk result.1 (λ found. (s : Situation) → IsSound (cluster_of plan.now) s → IsFew s → SlotStands D.Disk plan.now s actor self
            → HasRestartedAt D.Disk plan.now s actor found result.0) }
        ensures strict { IfOk result.1 (λ found. (s : Situation) (disks : Disks) → IsSound (cluster_of plan.now) s → SlotStands D.Disk plan.now s actor self
            → IsStrictSlot D.Disk plan.now s disks actor self
            → HasRestartedStrictlyAt D.Disk plan.now (over_disks s disks) actor choice found result.0) }
        ensures faults { CountsFaults (result.1 ≡ Ok Restarted.Down) (faults_in D.Disk self) (faults_in D.Disk result.0) }
    {
        match self {
            Slot::Empty => (Slot::Empty, Err(OutOfMemory)),
            Slot::Node(node) => {
                let (node, found) = node.restart(choice);
                (Slot::Node(node), found)
            }
            Slot::Store(store) => {
                let (store, found) = store.restart(&plan.topology, choice);
                (Slot::Store(store), found)
            }
        }
    }
}
