//! How much an actor in its slot would send. Nothing here makes a call of a disk.
ghost use Rattle.std.specs.Prelude.{IfOk};
ghost use Rattle.acc_message.specs.declared.entry.Event.{Event as AnEvent};
ghost use Rattle.acc_message.specs.NodeRules.{Begins, Recovers, Takes};

use crate::slot::Slot;
use acc_base::OutOfMemory;
use acc_message::Message;
use acc_ports::Rig;
use acc_run_laws::numbers_alone::messages_have_numbers_alone;
use acc_schedule::Plan;
use acc_stamp::{Actor, TxnId};
use acc_txn::Body;

impl<D: Rig> Slot<D> {
    ghost use Rattle.acc_actors.specs.Asked.{step_by, MayAsk, Weighs, MayAskBehind, WeighsBehind};

    /// How many bytes of encoded messages the node would send now if it began a transaction.
    pub fn weigh_begin(
        &self,
        plan: &Plan,
        actor: Actor,
        txn: u32,
        body: &Body,
    ) -> Result<u64, OutOfMemory>
        requires { MayAsk D.Disk plan.now (step_by actor (AnEvent.Begin txn) (Begins txn body.now)) self.now }
        ensures { IfOk result (Weighs D.Disk plan.now (step_by actor (AnEvent.Begin txn) (Begins txn body.now)) self.now) }
    {
        match self {
            Slot::Node(node) => node.weigh_begin(&plan.topology, txn, body),
            Slot::Empty | Slot::Store(_) => unreachable!(),
        }
    }

    /// The same of a recover.
    pub fn weigh_recover(
        &self,
        plan: &Plan,
        actor: Actor,
        txn: u32,
        id: TxnId,
        body: &Body,
    ) -> Result<u64, OutOfMemory>
        requires { MayAsk D.Disk plan.now (step_by actor (AnEvent.Recover txn) (Recovers id body.now)) self.now }
        ensures { IfOk result (Weighs D.Disk plan.now (step_by actor (AnEvent.Recover txn) (Recovers id body.now)) self.now) }
    {
        match self {
            Slot::Node(node) => node.weigh_recover(&plan.topology, id, body),
            Slot::Empty | Slot::Store(_) => unreachable!(),
        }
    }

    /// The same of the message with this number, after those that are staged.
    pub fn weigh_take(
        &self,
        plan: &Plan,
        actor: Actor,
        number: u64,
        m: &Message,
    ) -> Result<u64, OutOfMemory>
        requires { MayAskBehind D.Disk plan.now (step_by actor (AnEvent.Message number) (Takes m.now)) self.now }
        ensures { IfOk result (WeighsBehind D.Disk plan.now (step_by actor (AnEvent.Message number) (Takes m.now)) self.now) }
    {
        messages_have_numbers_alone();
        match self {
            Slot::Empty => unreachable!(),
            Slot::Node(node) => node.weigh_take(&plan.topology, m),
            Slot::Store(store) => {
                let prepared = store.prepare(&plan.topology, m)?;
                store.weigh(&plan.topology, m, &prepared)
            }
        }
    }
}
