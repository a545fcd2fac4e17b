//! The actors that a world keeps, and what they are asked for.
ghost use Rattle.std.specs.Prelude.{◌≡◌, ℕ, List, ◌∷◌, IfOk, IfErr, OnErr, OnOk};
ghost use Rattle.acc_stamp.specs.declared.actors.Actor.{Actor as AnActor};
ghost use Rattle.acc_message.specs.declared.entry.Event.{Event as AnEvent};
ghost use Rattle.acc_message.specs.declared.item.Item.{Item};
ghost use Rattle.acc_message.specs.NodeRules.{Act, Deed};
ghost use Rattle.acc_message.specs.Coordinator.{silence};
ghost use Rattle.acc_message.specs.Run.{Cluster};
ghost use Rattle.acc_world.specs.Held.{moment, cluster_of, HeldStands, MayAsk, IsAsked, HasTaken, IsRefused, restarted};

use crate::setup::Setup;
use acc_history::History;
use acc_message::{Emitted, Event, Messages, Notes};
use acc_node::{Node, NodeError};
use acc_stamp::Actor;
use acc_store::Store;
use std::alloc::Global;

/// An actor.
#[derive(Debug, Drop)]
pub enum Held {
    /// A node.
    Node(Node),
    /// A store.
    Store(Store),
}

/// What a step gives that notes and sends nothing. It takes no memory.
pub(crate) fn nothing(alloc: Global) -> Emitted
    ensures { result ≡ silence }
{
    Emitted {
        notes: Notes::new(alloc),
        out: Messages::new(alloc),
    }
}

impl Held {
    /// Takes an event. A slow is refused for the cause for which it is passed over; any other error is want of memory. After an error the actor
    /// stands for what it stood for.
    pub(crate) fn act(
        &mut self,
        setup: &Setup,
        history: &History,
        actor: Actor,
        event: Event,
    ) -> Result<Emitted, NodeError>
        requires { MayAsk setup.now history.now actor event self.old }
        ensures ok { IfOk result (λ emitted. (items earlier : List Item) (act : Act) → IsAsked setup.now history.now actor event self.old (moment items earlier) act
            → HasTaken (cluster_of setup.now) earlier actor event act emitted self.new) }
        ensures refused { IfErr result (λ error. (items earlier : List Item) (act : Act) → IsAsked setup.now history.now actor event self.old (moment items earlier) act
            → IsRefused (cluster_of setup.now) earlier event error) }
        ensures err { OnErr result ((a : AnActor) (deeds : List Deed) → HeldStands (cluster_of setup.now) a deeds self.old → HeldStands (cluster_of setup.now) a deeds self.new) }
    {
        match event {
            Event::Begin { txn } => self.begin(setup, history, actor, txn),
            Event::Recover { txn } => self.recover(setup, history, actor, txn),
            Event::Slow { txn } => self.slow(setup, history, actor, txn),
            Event::Message { number } => self.take(setup, history, actor, number),
            Event::Restart { .. } => {
                self.restart();
                Ok(nothing(setup.allocator()))
            }
        }
    }

    // The node begins a transaction.
    fn begin(
        &mut self,
        setup: &Setup,
        history: &History,
        actor: Actor,
        txn: u32,
    ) -> Result<Emitted, NodeError>
        requires { MayAsk setup.now history.now actor (AnEvent.Begin txn) self.old }
        ensures ok { IfOk result (λ emitted. (items earlier : List Item) (act : Act) → IsAsked setup.now history.now actor (AnEvent.Begin txn) self.old (moment items earlier) act
            → HasTaken (cluster_of setup.now) earlier actor (AnEvent.Begin txn) act emitted self.new) }
        ensures err { OnErr result ((a : AnActor) (deeds : List Deed) → HeldStands (cluster_of setup.now) a deeds self.old → HeldStands (cluster_of setup.now) a deeds self.new) }
    {
        let Some(body) = setup.bodies.as_slice().get(txn as usize) else {
            return Err(NodeError::OutOfMemory);
        };
        match self {
            Held::Node(node) => node.begin(&setup.topology, txn, body),
            Held::Store(_) => Err(NodeError::OutOfMemory),
        }
    }

    // The node takes a transaction over.
    fn recover(
        &mut self,
        setup: &Setup,
        history: &History,
        actor: Actor,
        txn: u32,
    ) -> Result<Emitted, NodeError>
        requires { MayAsk setup.now history.now actor (AnEvent.Recover txn) self.old }
        ensures ok { IfOk result (λ emitted. (items earlier : List Item) (act : Act) → IsAsked setup.now history.now actor (AnEvent.Recover txn) self.old (moment items earlier) act
            → HasTaken (cluster_of setup.now) earlier actor (AnEvent.Recover txn) act emitted self.new) }
        ensures err { OnErr result ((a : AnActor) (deeds : List Deed) → HeldStands (cluster_of setup.now) a deeds self.old → HeldStands (cluster_of setup.now) a deeds self.new) }
    {
        let Some(id) = history.id_of(txn) else {
            return Err(NodeError::OutOfMemory);
        };
        let Some(body) = setup.bodies.as_slice().get(txn as usize) else {
            return Err(NodeError::OutOfMemory);
        };
        match self {
            Held::Node(node) => Ok(node.recover(&setup.topology, id, body)?),
            Held::Store(_) => Err(NodeError::OutOfMemory),
        }
    }

    // The node gives the fast path of a transaction up.
    fn slow(
        &mut self,
        setup: &Setup,
        history: &History,
        actor: Actor,
        txn: u32,
    ) -> Result<Emitted, NodeError>
        requires { MayAsk setup.now history.now actor (AnEvent.Slow txn) self.old }
        ensures ok { IfOk result (λ emitted. (items earlier : List Item) (act : Act) → IsAsked setup.now history.now actor (AnEvent.Slow txn) self.old (moment items earlier) act
            → HasTaken (cluster_of setup.now) earlier actor (AnEvent.Slow txn) act emitted self.new) }
        ensures refused { IfErr result (λ error. (items earlier : List Item) (act : Act) → IsAsked setup.now history.now actor (AnEvent.Slow txn) self.old (moment items earlier) act
            → IsRefused (cluster_of setup.now) earlier (AnEvent.Slow txn) error) }
        ensures err { OnErr result ((a : AnActor) (deeds : List Deed) → HeldStands (cluster_of setup.now) a deeds self.old → HeldStands (cluster_of setup.now) a deeds self.new) }
    {
        match self {
            Held::Node(node) => node.slow(&setup.topology, txn),
            Held::Store(_) => Err(NodeError::OutOfMemory),
        }
    }

    // The actor takes the message with this number.
    fn take(
        &mut self,
        setup: &Setup,
        history: &History,
        actor: Actor,
        number: u64,
    ) -> Result<Emitted, NodeError>
        requires { MayAsk setup.now history.now actor (AnEvent.Message number) self.old }
        ensures ok { IfOk result (λ emitted. (items earlier : List Item) (act : Act) → IsAsked setup.now history.now actor (AnEvent.Message number) self.old (moment items earlier) act
            → HasTaken (cluster_of setup.now) earlier actor (AnEvent.Message number) act emitted self.new) }
        ensures err { OnErr result ((a : AnActor) (deeds : List Deed) → HeldStands (cluster_of setup.now) a deeds self.old → HeldStands (cluster_of setup.now) a deeds self.new) }
    {
        let Some(m) = history.message(number) else {
            return Err(NodeError::OutOfMemory);
        };
        match self {
            Held::Node(node) => Ok(node.step(&setup.topology, m)?),
            Held::Store(store) => {
                let out = store.step(&setup.topology, m)?;
                Ok(Emitted {
                    notes: Notes::new(out.allocator()),
                    out,
                })
            }
        }
    }

    /// Comes back from a journal. It takes no memory.
    pub(crate) fn restart(&mut self)
        ensures { (cluster : Cluster) (a : AnActor) (deeds : List Deed) → HeldStands cluster a deeds self.old → HeldStands cluster a (restarted ∷ deeds) self.new }
    {
        match self {
            Held::Node(node) => node.restart(),
            Held::Store(_) => {}
        }
    }
}
