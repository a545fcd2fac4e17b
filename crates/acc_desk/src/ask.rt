//! What an actor in its slot is asked for, and what it would send.
ghost use Rattle.std.specs.Prelude.{◌≡◌, IfOk};
ghost use Rattle.acc_actors.specs.Asked.{step_by, MayAsk, Weighs, HasAnswered};
ghost use Rattle.acc_desk.specs.Asks.{event_of, act_of_ask};

use acc_actors::Slot;
use acc_base::OutOfMemory;
use acc_message::{Emitted, Event, Message};
use acc_ports::Rig;
use acc_schedule::Plan;
use acc_stamp::{Actor, TxnId};
use acc_txn::Body;

/// A step of an actor that is up.
#[derive(Clone, Copy)]
pub(crate) enum Ask<'a> {
    /// It begins a transaction.
    Begin { txn: u32, body: &'a Body },
    /// It takes a transaction over, which has this id.
    Recover { txn: u32, id: TxnId, body: &'a Body },
    /// It takes the message with this number.
    Message { number: u64, message: &'a Message },
}

impl<'a> Ask<'a> {
    /// The event that the step enters.
    pub(crate) fn event(self) -> Event
        ensures { result ≡ event_of self.entry }
    {
        match self {
            Ask::Begin { txn, body: _ } => Event::Begin { txn },
            Ask::Recover {
                txn,
                id: _,
                body: _,
            } => Event::Recover { txn },
            Ask::Message { number, message: _ } => Event::Message { number },
        }
    }
}

/// How many bytes of messages the actor would send.
pub(crate) fn weigh<D: Rig>(
    slot: &Slot<D>,
    plan: &Plan,
    actor: Actor,
    ask: Ask,
) -> Result<u64, OutOfMemory>
    requires { MayAsk D.Disk plan.now (step_by actor (event_of ask) (act_of_ask ask)) slot.now }
    ensures { IfOk result (Weighs D.Disk plan.now (step_by actor (event_of ask.entry) (act_of_ask ask.entry)) slot.now) }
{
    match ask {
        Ask::Begin { txn, body } => slot.weigh_begin(plan, actor, txn, body),
        Ask::Recover { txn, id, body } => slot.weigh_recover(plan, actor, txn, id, body),
        Ask::Message { number, message } => slot.weigh_take(plan, actor, number, message),
    }
}

/// The actor steps. `None` where its disk failed, which takes it down.
pub(crate) fn step<D: Rig>(
    slot: &mut Slot<D>,
    plan: &Plan,
    actor: Actor,
    ask: Ask,
) -> Result<Option<Emitted>, OutOfMemory>
    requires { MayAsk D.Disk plan.now (step_by actor (event_of ask) (act_of_ask ask)) slot.old }
    ensures { HasAnswered D.Disk plan.now (step_by actor (event_of ask.entry) (act_of_ask ask.entry)) slot.old slot.new result }
{
    match ask {
        Ask::Begin { txn, body } => slot.begin(plan, actor, txn, body),
        Ask::Recover { txn, id, body } => slot.recover(plan, actor, txn, id, body),
        Ask::Message { number, message } => slot.take(plan, actor, number, message),
    }
}
