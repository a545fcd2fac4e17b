//! A node over a journal.
ghost use Rattle.std.specs.Prelude.{◌≡◌, ◌≢◌, ◌^◌, ◌<◌, ◌≤◌, true, false, List, [], ◌∷◌, ◌++◌, ℕ, length, Ok, Err, IfOk, IfErr, OnOk, OnErr, IsSome, ◌↔◌, if◌then◌else◌};
ghost use Rattle.acc_topology.specs.Layout.{Layout};
ghost use Rattle.acc_ports.specs.Disk.{IsAtRest};
ghost use Rattle.acc_ports.specs.Moments.{Arms};
ghost use Rattle.acc_message.specs.Fields.{top_of};
ghost use Rattle.acc_message.specs.NodeRules.{Act, Begins, Recovers, Takes as TakesMessage, Restarts};
ghost use Rattle.acc_payloads.specs.declared.draw.Purpose.{Purpose as For};
ghost use Rattle.acc_payloads.specs.declared.node.NodePayload.{NodePayload as Payload};
ghost use Rattle.acc_payloads.specs.Node.{IsNodeJournal};

use crate::{DurableError, NodeName};
use acc_base::OutOfMemory;
use acc_journal::{Journal, JournalError, Payloads};
use acc_message::{Emitted, Message};
use acc_node::{Node, NodeError};
use acc_payloads::{Draw, Purpose, put_payload, read_node_journal};
use acc_ports::{Disk, Rig};
use acc_stamp::TxnId;
use acc_topology::Topology;
use acc_txn::Body;
use std::alloc::Global;

/// How much room a mark and a draw take in a journal.
const ROOM: u64 = 20;

/// A node whose disk keeps its draws. It is broken once a call of its disk failed or found no memory; then it takes nothing any
/// more, and only its disk is of use.
#[derive(Debug, Drop)]
pub struct DurableNode<D: Disk> {
    alloc: Global,
    pub(crate) node: Node,
    pub(crate) name: NodeName,
    journal: Journal<D>,
    marked: bool,
    kept: u64,
}

impl<D: Disk> DurableNode<D> {
    ghost use Rattle.acc_journal.specs.Layout.{Reads};
    ghost use Rattle.acc_journal.specs.Errors.{port_error};
    ghost use Rattle.acc_journal.specs.Journal.{IsOfTheDisk};
    ghost use Rattle.acc_journal.specs.Calls.{ReadsDisk};
    ghost use Rattle.acc_durable_node.specs.Names.{IsNodeName, IsSlowAnswer, id_begun};
    ghost use Rattle.acc_durable_node.specs.Node.{OfEachJournal, draw_answer, StandsFor, OfActs, TakesOn, HasSlowed, IsAsBefore, IsLow, IsJournalAfter, IsReopened, IsRefusedBy, Refuses, AppendsDraw, draw_group};

    /// A node that has done nothing, on a disk that holds the bytes 1 and 0, synced. It makes no call of the disk and takes no memory.
    pub fn fresh(alloc: Global, name: NodeName, disk: D) -> DurableNode<D>
        requires named { IsNodeName name }
        requires content { (D.state disk).content ≡ 1 ∷ 0 ∷ [] }
        requires rest { IsAtRest (D.state disk) (D.is_image disk) }
        ensures stands { (layout : Layout) → StandsFor layout result [] }
        ensures named { result.name ≡ name }
        ensures journal { (result.journal.disk ≡ disk) × (result.journal.payloads ≡ []) }
    {
        DurableNode {
            alloc,
            node: Node::new(alloc, name.number, name.start),
            name,
            journal: Journal::fresh(alloc, disk),
            marked: false,
            kept: 0,
        }
    }

    /// Opens the node from the disk that a crash left. It has the draws and the begun transactions of the journal, and nothing else.
    /// Every error hands the disk back. Besides the refusals of `Journal::reopen`, `BadRecord` comes exactly where a payload is none
    /// of a node, is a mark that may not stand there, draws an `h` that isn't above the start and every one before it or is above
    /// 2^62, or begins a transaction for the second time, with the place of its gate.
    pub fn reopen(
        alloc: Global,
        name: NodeName,
        disk: D,
    ) -> Result<DurableNode<D>, (JournalError, D)>
        requires named { IsNodeName name }
        requires rest { IsAtRest (D.state disk) (D.is_image disk) }

        ensures ok { IfOk result IsReopened }
        ensures reads { IfOk result (λ n. Reads (D.state disk).content n.journal.payloads) }
        ensures restarts { OfEachJournal (D.state disk).content name (λ layout acts. IfOk result (λ n. StandsFor layout n (Restarts ∷ acts))) }
        ensures named { IfOk result (λ n. n.name ≡ name) }
        ensures disk { IfOk result (λ n. ReadsDisk D.Disk disk n.journal.disk (Ok tt)) }
        ensures err_disk { IfErr result (λ e. ReadsDisk D.Disk disk e.1 (Err (port_error e.0))) }
        ensures err_rest { IfErr result (λ e. e.0 ≢ JournalError.OutOfMemory → IsAtRest (D.state e.1) (D.is_image e.1)) }
        ensures refused { IfErr result (λ e. IsRefusedBy (D.state disk).content name e.0) }
        ensures never { (payloads : List (List ℕ)) (items : List Payload) → Reads (D.state disk).content payloads → IsNodeJournal name.version name.start payloads items → IfErr result (λ e. IsOfTheDisk e.0) }
    {
        let (journal, payloads) = match Journal::reopen(alloc, disk) {
            Ok(opened) => opened,
            Err(refused) => return Err(refused),
        };
        match read_node_journal(
            alloc,
            name.number,
            name.version,
            name.start,
            payloads.as_slice(),
        ) {
            Ok(told) => Ok(DurableNode {
                alloc,
                node: Node::reopened(alloc, name.number, name.start, told.drawn, told.begun),
                name,
                journal,
                marked: told.marked,
                kept: payloads.len() as u64 - marks(told.marked),
            }),
            Err(error) => Err((error, journal.into_disk())),
        }
    }

    /// Begins a transaction. Its draw is on the disk, synced, before what is sent is given. `Begun` comes exactly where the journal or
    /// this node has begun it, and leaves the node as before. `unsent` is what the step would have given.
    pub fn begin(
        &mut self,
        topology: &Topology,
        txn: u32,
        body: &Body,
    ) -> Result<Emitted, DurableError>
        requires sound { self.old.journal.broken ≡ false }
        requires low { IsLow self.old.node.clock }

        ensures ok { IfOk result (TakesOn topology.now self.old self.new (Begins txn body.now)) }
        ensures begun { OfActs topology.now self.old (λ acts. (result ≡ Err DurableError.Begun) ↔ IsSome (id_begun topology.now self.old.name txn acts)) }
        ensures err { IfErr result (Refuses topology.now self.old self.new (Begins txn body.now)) }

        ensures appended { OnOk result (self.new.journal.payloads ≡ self.old.journal.payloads ++ draw_group self.old For.Begin txn) }
        ensures appends { AppendsDraw D.Disk self.old self.new For.Begin txn (draw_answer result) }
        ensures named { self.new.name ≡ self.old.name }
    {
        let _sound = self.journal.is_broken();
        if self.node.id_of(txn).is_some() {
            return Err(DurableError::Begun);
        }
        let group = self.group(Purpose::Begin, txn)?;
        match self.node.begin(topology, txn, body) {
            Ok(emitted) => self.put_down(&group, emitted),
            Err(NodeError::Begun) => Err(DurableError::Begun),
            Err(NodeError::OutOfMemory) => Err(DurableError::OutOfMemory),
            Err(_) => unreachable!(),
        }
    }

    /// Takes a transaction over. The draw is on the disk, synced, before what is sent is given. `unsent` is what the step would have
    /// given. `Begun` never comes.
    pub fn recover(
        &mut self,
        topology: &Topology,
        txn: u32,
        id: TxnId,
        body: &Body,
    ) -> Result<Emitted, DurableError>
        requires sound { self.old.journal.broken ≡ false }
        requires low { IsLow self.old.node.clock }

        ensures ok { IfOk result (TakesOn topology.now self.old self.new (Recovers id body.now)) }
        ensures not_begun { IfErr result (λ e. e ≢ DurableError.Begun) }
        ensures err { IfErr result (Refuses topology.now self.old self.new (Recovers id body.now)) }

        ensures appended { OnOk result (self.new.journal.payloads ≡ self.old.journal.payloads ++ draw_group self.old For.Recover txn) }
        ensures appends { AppendsDraw D.Disk self.old self.new For.Recover txn (draw_answer result) }
        ensures named { self.new.name ≡ self.old.name }
    {
        let _sound = self.journal.is_broken();
        let group = self.group(Purpose::Recover, txn)?;
        let emitted = self.node.recover(topology, id, body)?;
        self.put_down(&group, emitted)
    }

    /// Gives the fast path of a transaction's first attempt up, as `Node::slow`. It makes no call of the disk.
    pub fn slow(&mut self, topology: &Topology, txn: u32) -> Result<Emitted, NodeError>
        ensures ok { IfOk result (λ emitted. OfActs topology.now self.old (λ acts. HasSlowed topology.now self.old self.new acts txn emitted)) }
        ensures refused { OfActs topology.now self.old (λ acts. IsSlowAnswer topology.now self.old.name acts txn result) }
        ensures err { OnErr result (IsAsBefore topology.now self.old self.new) }
        ensures same { self.new ≡ record self.old { node = self.new.node } }
    {
        self.node.slow(topology, txn)
    }

    /// Takes a message, as `Node::step`. It makes no call of the disk.
    pub fn step(&mut self, topology: &Topology, m: &Message) -> Result<Emitted, OutOfMemory>
        requires top_in_range { top_of m.now < 2 ^ 62 }
        ensures ok { IfOk result (TakesOn topology.now self.old self.new (TakesMessage m.now)) }
        ensures err { OnErr result (IsAsBefore topology.now self.old self.new) }
        ensures same { self.new ≡ record self.old { node = self.new.node } }
    {
        self.node.step(topology, m)
    }

    /// The id of the transaction with this number, where the journal or this node has begun it. Takes no memory.
    pub fn id_of(&self, txn: u32) -> Option<TxnId>
        ensures { (layout : Layout) → OfActs layout self.now (λ acts. result ≡ id_begun layout self.now.name txn acts) }
    {
        self.node.id_of(txn)
    }

    /// How many draws the journal has. A mark isn't counted.
    pub fn kept(&self) -> u64
        ensures { result ≡ self.now.kept }
    {
        self.kept
    }

    /// Whether a call of the disk failed or found no memory. Otherwise each image of the disk reads as what was journalled.
    pub fn is_broken(&self) -> bool
        ensures value { result ≡ self.now.journal.broken }
        ensures sound { self.now.journal.broken ≡ false → (image : List ℕ) → D.is_image self.now.journal.disk image → Reads image self.now.journal.payloads }
    {
        self.journal.is_broken()
    }

    /// The disk under the journal.
    pub fn into_disk(self) -> D
        ensures { result ≡ self.journal.disk }
    {
        let (disk, _node) = self.into_parts();
        disk
    }

    /// The disk under the journal, and the node over it.
    pub fn into_parts(self) -> (D, Node)
        ensures disk { result.0 ≡ self.journal.disk }
        ensures node { result.1 ≡ self.node }
    {
        let DurableNode {
            alloc: _,
            node,
            name: _,
            journal,
            marked: _,
            kept: _,
        } = self;
        (journal.into_disk(), node)
    }
}

impl<D: Disk> DurableNode<D> {
    ghost use Rattle.acc_journal.specs.Layout.{AreShort};
    ghost use Rattle.acc_journal.specs.Journal.{group_room};
    ghost use Rattle.acc_journal.specs.Calls.{Appends};
    ghost use Rattle.acc_durable_node.specs.Node.{IsLow, draw_answer, draw_group, with_spare, with_parts, Drew, FailsToAppend};

    // What the next draw appends to the journal, which then has room for it.
    #[tactic(auto, using(acc_payloads::proofs::Groups::group_takes, acc_payloads::proofs::Groups::group_is_short, acc_payloads::proofs::Groups::group_has_some))]
    fn group(&mut self, purpose: Purpose, txn: u32) -> Result<Payloads, OutOfMemory>
        requires low { IsLow self.old.node.clock }
        ensures group { IfOk result (λ group. group ≡ draw_group self.old purpose txn) }
        ensures some { IfOk result (λ group. 0 < length group) }
        ensures short { IfOk result AreShort }
        ensures room { IfOk result (λ group. group_room group ≤ self.new.journal.spare) }
        ensures same { self.new ≡ with_spare self.old self.new.journal.spare }
    {
        let draw = Draw {
            purpose,
            txn,
            h: self.node.next_draw().h,
        };
        let mut group = Payloads::new(self.alloc);
        put_payload(
            &mut group,
            self.name.version,
            self.marked,
            draw.to_bytes(self.alloc)?,
        )?;
        self.journal.reserve(ROOM)?;
        Ok(group)
    }

    // Appends the draw of a step that emits this, and gives it once the draw lasts.
    fn put_down(&mut self, group: &Payloads, emitted: Emitted) -> Result<Emitted, DurableError>
        requires sound { self.old.journal.broken ≡ false }
        requires some { 0 < length group.now }
        requires short { AreShort group.now }
        requires room { group_room group.now ≤ self.old.journal.spare }

        ensures ok { IfOk result (λ sent. sent ≡ emitted) }
        ensures drew { OnOk result (Drew self.old self.new.journal self.new.marked self.new.kept group.now) }
        ensures same { self.new ≡ with_parts self.old self.old.node self.new.journal self.new.marked self.new.kept }
        ensures err { IfErr result (FailsToAppend emitted self.new.journal.broken) }
        ensures appends { Appends D.Disk self.old.journal.disk self.new.journal.disk self.old.journal.payloads group.now (draw_answer result) }
    {
        match self.journal.append_group(group) {
            Ok(()) => {
                self.kept = self.kept.saturating_add(1);
                self.marked = self.marked || self.name.version == 2;
                Ok(emitted)
            }
            Err(JournalError::DiskFault) => Err(DurableError::DiskFault { unsent: emitted }),
            Err(JournalError::OutOfMemory) => Err(DurableError::OutOfMemory),
            Err(_) => unreachable!(),
        }
    }
}

impl<D: Rig> DurableNode<D> {
    ghost use Rattle.acc_durable_node.specs.Node.{IsAsBefore};

    /// Arms a call of the disk: where that is strict, so many more pass and the next one fails. It makes no call of the disk and takes no
    /// memory.
    pub fn arm(&mut self, calls: u64)
        ensures arms { Arms D.Disk calls self.old.journal.disk self.new.journal.disk }
        ensures stands { (layout : Layout) → IsAsBefore layout self.old self.new }
        ensures same { self.new ≡ record self.old { journal = record self.old.journal { disk = self.new.journal.disk } } }
    {
        self.journal.arm(calls);
    }
}

// How many marks a journal has.
fn marks(marked: bool) -> u64
    ensures { result ≡ (if marked then 1 else 0) }
{
    if marked { 1 } else { 0 }
}
