//! A node with its disk.
ghost use Rattle.std.specs.Prelude.{◌≡◌, ◌^◌, ◌<◌, IsTrue, vec_len, vec_capacity, false, not, List, [], ℕ, Option as Maybe, None, Some, Ok, IfOk, OnErr};
ghost use Rattle.acc_topology.specs.Layout.{Layout};
ghost use Rattle.acc_ports.specs.Faults.{CountsFaults};
ghost use Rattle.acc_message.specs.Fields.{top_of};
ghost use Rattle.acc_message.specs.NodeRules.{Act, Takes as TakesMessage};
ghost use Rattle.acc_payloads.specs.Stops.{Past, count_of};
ghost use Rattle.acc_durable_node.specs.declared.name.NodeName.{NodeName};

use crate::name::Named;
use crate::state::{NodeState, reopened};
use crate::{DurableError, DurableNode};
use acc_base::OutOfMemory;
use acc_message::{Emitted, Event, Message};
use acc_node::{Node, NodeError};
use acc_payloads::stops::{put, told};
use acc_payloads::{Restarted, Unsent};
use acc_ports::Rig;
use acc_stamp::TxnId;
use acc_topology::Topology;
use acc_txn::Body;
use std::alloc::Global;

/// A node that is up, or that is down since its disk failed. Where memory was refused and it is down, nothing is known of it but its disk.
#[derive(Debug, Drop)]
pub struct NodeActor<D: Rig> {
    alloc: Global,
    named: Named,
    pub(crate) state: NodeState<D>,
    /// The step that was stopped, where the node is down by one. There is never a second one.
    stopped: Vec<Unsent>,
    /// How many draws the journal has besides, where the node is down.
    kept: u64,
}

impl<D: Rig> NodeActor<D> {
    ghost use Rattle.acc_payloads.specs.Items.{without_marks};
    ghost use Rattle.acc_payloads.specs.Stops.{is_up, KeepsByChoice, HoldsPayloads};
    ghost use Rattle.acc_durable_node.specs.Names.{IsNodeName, IsSlowAnswer, id_begun};
    ghost use Rattle.acc_durable_node.specs.Node.{StandsFor as Durable};
    ghost use Rattle.acc_durable_node.specs.Actor.{faults_of, StandsFor, OfEachPast, IsAsBefore, IsStrictAt, IsAsStrict, MayBegin, MayRecover, HasStepped, Takes, HasSlowed, KeptIn, begin_stop, recover_stop, past_after, node_in, disk_of, is_down};

    /// The actor of a durable node.
    pub fn opened(alloc: Global, node: DurableNode<D>) -> NodeActor<D>
        requires named { IsNodeName node.name }
        requires sound { node.journal.broken ≡ false }
        ensures stands { (layout : Layout) (acts : List Act) → Durable layout node acts
            → StandsFor D.Disk layout node.name (record { acts = acts; held = without_marks node.journal.payloads; stopped = [] }) result }
        ensures up { is_down result ≡ false }
        ensures disk { disk_of result ≡ node.journal.disk }
        ensures strict { IsTrue (D.state node.journal.disk).strict → (layout : Layout) (passed : Maybe ℕ) (past : Past Act)
            → IsStrictAt D.Disk layout node.name (D.state node.journal.disk).armed passed past result }
    {
        let _sound = node.is_broken();
        NodeActor {
            alloc,
            named: Named { name: node.name },
            state: NodeState::Open(node),
            stopped: Vec::new(alloc),
            kept: 0,
        }
    }

    /// Begins a transaction that the node hasn't begun. `None` says that its disk failed, and it is down. After an error it is down where
    /// its journal broke, and else as before.
    pub fn begin(
        &mut self,
        topology: &Topology,
        txn: u32,
        body: &Body,
    ) -> Result<Option<Emitted>, OutOfMemory>
        requires up { is_down self.old ≡ false }
        requires may { MayBegin D.Disk topology.now self.old txn }
        ensures { HasStepped D.Disk topology.now self.old self.new (begin_stop topology.now txn body.now) result }
    {
        self.stopped.reserve(1)?;
        let NodeState::Open(node) = &mut self.state else {
            unreachable!()
        };
        let kept = node.kept();
        let given = node.begin(topology, txn, body);
        self.settle(Event::Begin { txn }, kept, given)
    }

    /// Takes a transaction over. `None` says that its disk failed, and it is down. After an error it is down where its journal broke, and
    /// else as before.
    pub fn recover(
        &mut self,
        topology: &Topology,
        txn: u32,
        id: TxnId,
        body: &Body,
    ) -> Result<Option<Emitted>, OutOfMemory>
        requires up { is_down self.old ≡ false }
        requires may { MayRecover D.Disk topology.now self.old }
        ensures { HasStepped D.Disk topology.now self.old self.new (recover_stop topology.now txn id body.now) result }
    {
        self.stopped.reserve(1)?;
        let NodeState::Open(node) = &mut self.state else {
            unreachable!()
        };
        let kept = node.kept();
        let given = node.recover(topology, txn, id, body);
        self.settle(Event::Recover { txn }, kept, given)
    }

    /// Gives the fast path of a transaction's first attempt up, as `DurableNode::slow`.
    pub fn slow(&mut self, topology: &Topology, txn: u32) -> Result<Emitted, NodeError>
        requires up { is_down self.old ≡ false }

        ensures ok { IfOk result (λ emitted. OfEachPast D.Disk topology.now self.old (λ name past. HasSlowed D.Disk topology.now name past txn self.new emitted)) }
        ensures refused { OfEachPast D.Disk topology.now self.old (λ name past. IsSlowAnswer topology.now name past.acts txn result) }
        ensures err { OnErr result (IsAsBefore D.Disk topology.now self.old self.new) }

        ensures up { is_down self.new ≡ false }
        ensures disk { disk_of self.new ≡ disk_of self.old }
        ensures strict { IsAsStrict D.Disk topology.now self.old self.new }
    {
        let NodeState::Open(node) = &mut self.state else {
            unreachable!()
        };
        node.slow(topology, txn)
    }

    /// Takes a message. It makes no call of the disk.
    pub fn take(&mut self, topology: &Topology, m: &Message) -> Result<Emitted, OutOfMemory>
        requires up { is_down self.old ≡ false }
        requires top_in_range { top_of m.now < 2 ^ 62 }

        ensures ok { IfOk result (λ emitted. OfEachPast D.Disk topology.now self.old (λ name past. Takes D.Disk topology.now name past (TakesMessage m.now) self.new emitted)) }
        ensures err { OnErr result (IsAsBefore D.Disk topology.now self.old self.new) }

        ensures up { is_down self.new ≡ false }
        ensures disk { disk_of self.new ≡ disk_of self.old }
        ensures strict { IsAsStrict D.Disk topology.now self.old self.new }
    {
        let NodeState::Open(node) = &mut self.state else {
            unreachable!()
        };
        node.step(topology, m)
    }

    /// Crashes the disk, so that one of its images is left, and reopens the node from it. An honest journal is refused only by the disk.
    pub fn restart(self, choice: u8) -> (NodeActor<D>, Result<Restarted, OutOfMemory>)
        ensures ok { IfOk result.1 (λ found. (layout : Layout) → OfEachPast D.Disk layout self (λ name past.
            KeptIn layout name past found × StandsFor D.Disk layout name (past_after found past) result.0)) }
        ensures up { IfOk result.1 (λ found. is_down result.0 ≡ not (is_up found)) }
        ensures faults { CountsFaults (result.1 ≡ Ok Restarted.Down) (faults_of D.Disk self) (faults_of D.Disk result.0) }

        ensures strict { (layout : Layout) (name : NodeName) (armed passed : Maybe ℕ) (past : Past Act) → StandsFor D.Disk layout name past self
            → IsStrictAt D.Disk layout name armed passed past self
            → IfOk result.1 (λ found. KeepsByChoice passed choice past.stopped found
            × IsStrictAt D.Disk layout name None None (past_after found past) result.0) }
    {
        let kept = self.held();
        let NodeActor {
            alloc,
            named,
            state,
            stopped,
            kept: _,
        } = self;
        let (state, found) = reopened(alloc, named, kept, choice, state.into_disk());
        let (found, stopped) = told(alloc, found, stopped);
        let actor = NodeActor {
            alloc,
            named,
            state,
            stopped,
            kept,
        };
        (actor, found)
    }

    /// Arms a call of the disk: where that is strict, so many more pass and the next one fails.
    pub fn arm(&mut self, calls: u64)
        ensures stands { (layout : Layout) → IsAsBefore D.Disk layout self.old self.new }
        ensures down { is_down self.new ≡ is_down self.old }
        ensures faults { faults_of D.Disk self.new ≡ faults_of D.Disk self.old }
        ensures strict { (layout : Layout) (name : NodeName) (armed passed : Maybe ℕ) (past : Past Act)
            → IsStrictAt D.Disk layout name armed passed past self.old
            → IsStrictAt D.Disk layout name (Some calls) passed past self.new }
    {
        match &mut self.state {
            NodeState::Open(node) => node.arm(calls),
            NodeState::Shut(disk) => disk.arm(calls),
        }
    }

    /// The id of the transaction with this number, where the node has begun it. It takes no memory and makes no call of the disk.
    pub fn id_of(&self, txn: u32) -> Option<TxnId>
        requires up { is_down self.now ≡ false }
        ensures { (layout : Layout) → OfEachPast D.Disk layout self.now (λ name past. result ≡ id_begun layout name txn past.acts) }
    {
        let NodeState::Open(node) = &self.state else {
            unreachable!()
        };
        node.id_of(txn)
    }

    /// Whether it is down.
    pub fn is_down(&self) -> bool
        ensures { result ≡ is_down self.now }
    {
        match &self.state {
            NodeState::Open(node) => node.is_broken(),
            NodeState::Shut(_) => true,
        }
    }

    /// Its disk, and the node over it where it isn't shut: also one that its disk's fault took down. Each image of the disk holds
    /// the payloads of the past, and breaks no rule on marks.
    pub fn into_parts(self) -> (D, Option<Node>)
        ensures disk { result.0 ≡ disk_of self }
        ensures node { result.1 ≡ node_in self.state }
        ensures holds { (layout : Layout) → OfEachPast D.Disk layout self (λ name past. (image : List ℕ) → D.is_image result.0 image → HoldsPayloads name.version past image) }
    {
        let NodeActor {
            alloc: _,
            named: _,
            state,
            stopped: _,
            kept: _,
        } = self;
        state.into_parts()
    }
}

impl<D: Rig> NodeActor<D> {
    ghost use Rattle.acc_durable_node.specs.Actor.{OfEachPast, IsSettled};

    // What the durable node answered, as a step of the actor. The journal had so many draws before it. There is room for a step that was
    // stopped.
    fn settle(
        &mut self,
        event: Event,
        kept: u64,
        given: Result<Emitted, DurableError>,
    ) -> Result<Option<Emitted>, OutOfMemory>
        requires { vec_len self.old.stopped < vec_capacity self.old.stopped }
        ensures { IsSettled event kept given self.old self.new result }
    {
        match given {
            Ok(emitted) => Ok(Some(emitted)),
            Err(DurableError::DiskFault { unsent }) => {
                let emitted = unsent;
                put(&mut self.stopped, Unsent { event, emitted });
                self.kept = kept;
                Ok(None)
            }
            Err(_) => Err(OutOfMemory),
        }
    }

    // How many draws the journal has, without the one of a step that was stopped.
    fn held(&self) -> u64
        ensures { (layout : Layout) → OfEachPast D.Disk layout self.now (λ name past. result ≡ count_of past) }
    {
        match &self.state {
            NodeState::Open(node) if !node.is_broken() => node.kept(),
            _ => self.kept,
        }
    }
}
