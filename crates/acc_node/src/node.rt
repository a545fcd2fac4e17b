//! A node of the cluster.
ghost use Rattle.std.specs.Prelude.{◌≡◌, ◌≢◌, ◌≤◌, ◌<◌, ◌^◌, ◌↔◌, ℕ, List, [], ◌∷◌, Option, None, Err, true, false, IsSome, IfOk, IfErr, OnOk, OnErr};
ghost use Rattle.std.specs.Ordering.{nat_cmp};
ghost use Rattle.std.specs.BTreeMap.{get};
ghost use Rattle.acc_stamp.specs.Clock.{next_stamp};
ghost use Rattle.acc_stamp.specs.Stamp.{id_cmp};
ghost use Rattle.acc_message.specs.Attempts.{Attempt};
ghost use Rattle.acc_topology.specs.Layout.{Layout};
ghost use Rattle.acc_message.specs.Fields.{top_of};
ghost use Rattle.acc_message.specs.NodeRules.{Act, Begins, Recovers, Takes as TakesMessage, Restarts, next_draw, begun_id, node_replay};
ghost use Rattle.acc_node.specs.declared.error.NodeError.{NodeError as Refused};
ghost use Rattle.acc_message_code.specs.Weight.{weight_of_all};
ghost use Rattle.acc_node.specs.Weighing.{SendsShort, node_sends, is_inform};
ghost use Rattle.acc_node.specs.Stands.{StandsFor, Takes, Runs, IsSame, Enters, Opens, Refuses, SlowsBegun, HasSlowed, TakesIt, DecidesAtOnce, Drops, Closes, HasInformed, HasHeard, HearsAt, is_voting_at, has_majority, may_slow, is_answered};

use crate::clients::{one_note, reply_note};
use crate::error::NodeError;
use crate::heard::{Heard, silent};
use crate::running::Running;
use acc_base::{Kept, OutOfMemory, Sequence};
use acc_coord::Coord;
use acc_message::{Emitted, Message, Messages, Note, Notes, top};
use acc_recover::Recovery;
use acc_stamp::{Ballot, Clock, Stamp, TxnId};
use acc_topology::Topology;
use acc_txn::{Body, Reply};
use std::alloc::Global;
use std::collections::BTreeMap;

/// A node: its clock, the transactions that it began, by their numbers, the attempts that it runs, by their transactions, and the
/// transactions whose clients wait for a reply.
#[derive(Debug, Drop)]
pub struct Node {
    alloc: Global,
    pub(crate) clock: Clock,
    begun: BTreeMap<u32, TxnId>,
    attempts: BTreeMap<TxnId, Kept<Running>>,
    clients: BTreeMap<TxnId, ()>,
}

impl Node {
    /// A node that has done nothing. Its clock draws above `start`.
    pub fn new(alloc: Global, number: u32, start: u64) -> Node
        requires number_from { 1 ≤ number }
        requires number_to { number ≤ 15 }
        requires start_in_range { start ≤ 10 ^ 12 }
        ensures { (layout : Layout) → StandsFor layout number start result [] }
    {
        Node {
            alloc,
            clock: Clock::new(number, start),
            begun: BTreeMap::new(alloc),
            attempts: BTreeMap::new(alloc),
            clients: BTreeMap::new(alloc),
        }
    }

    /// A node as its journal gives it back, which tells the greatest `h` that it drew, or the start, and the ids of the transactions
    /// that it began. It runs no attempt, and no client waits.
    pub fn reopened(
        alloc: Global,
        number: u32,
        start: u64,
        drawn: u64,
        begun: BTreeMap<u32, TxnId>,
    ) -> Node
        requires number_from { 1 ≤ number }
        requires number_to { number ≤ 15 }
        requires start_in_range { start ≤ 10 ^ 12 }
        requires above { start ≤ drawn }
        requires most { drawn ≤ 2 ^ 62 }
        ensures clock { result.clock ≡ record { node = number; start = start; drawn = drawn; seen = drawn } }
        ensures begun { (txn : ℕ) → get nat_cmp result.begun txn ≡ get nat_cmp begun txn }
        ensures attempts { (x : TxnId) → get id_cmp result.attempts x ≡ None }
        ensures clients { (x : TxnId) → get id_cmp result.clients x ≡ None }
    {
        let mut clock = Clock::new(number, start);
        if start < drawn {
            clock.saw(drawn - 1);
            clock.draw();
            clock.restart();
        }
        Node {
            alloc,
            clock,
            begun,
            attempts: BTreeMap::new(alloc),
            clients: BTreeMap::new(alloc),
        }
    }

    /// The stamp that the next begin or recover draws, unless a greater `h` is seen before.
    pub fn next_draw(&self) -> Stamp
        requires drawn_in_range { self.now.clock.drawn < 2 ^ 62 }
        requires seen_in_range { self.now.clock.seen < 2 ^ 62 }
        ensures stamp { result ≡ next_stamp self.now.clock }
        ensures rule { (layout : Layout) (number start : ℕ) (acts : List Act) → StandsFor layout number start self.now acts →
            result ≡ next_draw number start (node_replay layout number start acts) }
    {
        self.clock.peek()
    }

    /// The id of the transaction with this number, where the node has begun it.
    pub fn id_of(&self, txn: u32) -> Option<TxnId>
        ensures { (layout : Layout) (number start : ℕ) (acts : List Act) → StandsFor layout number start self.now acts →
            result ≡ begun_id number start txn (node_replay layout number start acts) }
    {
        self.begun.get(&txn).copied()
    }

    /// Begins a transaction: draws its id, opens its client and asks the stores for their votes. A number is begun once. After an
    /// error the node stands for what it stood for.
    pub fn begin(
        &mut self,
        topology: &Topology,
        txn: u32,
        body: &Body,
    ) -> Result<Emitted, NodeError>
        requires drawn_in_range { self.old.clock.drawn < 2 ^ 62 }
        requires seen_in_range { self.old.clock.seen < 2 ^ 62 }
        ensures ok { IfOk result (λ emitted. (number start : ℕ) (acts : List Act) → StandsFor topology.now number start self.old acts →
            Takes topology.now number start self.new acts (Begins txn body.now) emitted) }
        ensures begun { (number start : ℕ) (acts : List Act) → StandsFor topology.now number start self.old acts →
            (result ≡ Err Refused.Begun) ↔ IsSome (begun_id number start txn (node_replay topology.now number start acts)) }
        ensures not_unknown { IfErr result (λ error. error ≢ Refused.Unknown) }
        ensures has_quorum { IfErr result (λ error. error ≢ Refused.NoQuorum) }
        ensures err { OnErr result ((number start : ℕ) (acts : List Act) → StandsFor topology.now number start self.old acts →
            StandsFor topology.now number start self.new acts) }
    {
        if self.begun.contains_key(&txn) {
            return Err(NodeError::Begun);
        }
        let id = TxnId(self.clock.peek());
        let (coord, out) = Coord::begin(topology, id, body)?;
        let notes = one_note(out.allocator(), Note::Begin { id })?;
        let running = Kept::new(self.alloc, Running::Coordinating(coord))?;
        self.enter(txn, id, running)?;
        self.clock.draw();
        Ok(Emitted { notes, out })
    }

    /// Takes a transaction over: draws the ballot of the attempt, which replaces an attempt at the transaction that the node runs,
    /// and asks the stores what they know. Without memory the node stands for what it stood for.
    pub fn recover(
        &mut self,
        topology: &Topology,
        id: TxnId,
        body: &Body,
    ) -> Result<Emitted, OutOfMemory>
        requires drawn_in_range { self.old.clock.drawn < 2 ^ 62 }
        requires seen_in_range { self.old.clock.seen < 2 ^ 62 }
        ensures ok { IfOk result (λ emitted. (number start : ℕ) (acts : List Act) → StandsFor topology.now number start self.old acts →
            Takes topology.now number start self.new acts (Recovers id body.now) emitted) }
        ensures err { OnErr result ((number start : ℕ) (acts : List Act) → StandsFor topology.now number start self.old acts →
            StandsFor topology.now number start self.new acts) }
    {
        let ballot = Ballot(self.clock.peek());
        let (recovery, out) = Recovery::begin(topology, id, ballot, body.copy()?)?;
        let notes = one_note(out.allocator(), Note::Recover { id, ballot })?;
        let kept = Kept::new(self.alloc, recovery)?;
        let running = Kept::new(self.alloc, Running::Recovering(kept))?;
        self.attempts.insert(id, running)?;
        self.clock.draw();
        Ok(Emitted { notes, out })
    }

    /// Gives the fast path of a transaction's first attempt up, and proposes the greatest vote. Unknown comes exactly where this
    /// attempt doesn't wait for votes, or there is none, and NoQuorum exactly where it waits and some shard lacks a majority of
    /// answers, so only want of memory is left with a majority. After an error the node stands for what it stood for.
    pub fn slow(&mut self, topology: &Topology, txn: u32) -> Result<Emitted, NodeError>
        ensures ok { IfOk result (λ emitted. (number start : ℕ) (acts : List Act) → StandsFor topology.now number start self.old acts →
            SlowsBegun topology.now number start self.new acts txn emitted) }
        ensures unknown { (number start : ℕ) (acts : List Act) → StandsFor topology.now number start self.old acts →
            (result ≡ Err Refused.Unknown) ↔ (may_slow topology.now number start txn (node_replay topology.now number start acts) ≡ false) }
        ensures no_quorum { (number start : ℕ) (acts : List Act) → StandsFor topology.now number start self.old acts →
            (result ≡ Err Refused.NoQuorum) ↔ ((may_slow topology.now number start txn (node_replay topology.now number start acts) ≡ true)
            × (is_answered topology.now number start txn (node_replay topology.now number start acts) ≡ false)) }
        ensures not_begun { IfErr result (λ error. (number start : ℕ) (acts : List Act) → StandsFor topology.now number start self.old acts → error ≢ Refused.Begun) }
        ensures err { OnErr result ((number start : ℕ) (acts : List Act) → StandsFor topology.now number start self.old acts →
            StandsFor topology.now number start self.new acts) }
    {
        let Some(id) = self.id_of(txn) else {
            return Err(NodeError::Unknown);
        };
        let out = self.go_slow(topology, id)?;
        Ok(Emitted {
            notes: Notes::new(out.allocator()),
            out,
        })
    }

    /// Takes a message. **A fast quorum decides at once**: where the answers to a transaction's first attempt, with this one, are
    /// votes of a fast quorum for its own timestamp in every shard, the step decides that timestamp and sends the decision to all
    /// stores. Without memory the node is as before.
    pub fn step(&mut self, topology: &Topology, m: &Message) -> Result<Emitted, OutOfMemory>
        requires top_in_range { top_of m.now < 2 ^ 62 }
        ensures ok { IfOk result (λ emitted. (number start : ℕ) (acts : List Act) → StandsFor topology.now number start self.old acts →
            Takes topology.now number start self.new acts (TakesMessage m.now) emitted) }
        ensures fast_quorum_decides_at_once { IfOk result (λ emitted. (number start : ℕ) (acts : List Act) → StandsFor topology.now number start self.old acts →
            DecidesAtOnce topology.now number start acts m.now emitted) }
        ensures err { OnErr result ((number start : ℕ) (acts : List Act) → StandsFor topology.now number start self.old acts →
            StandsFor topology.now number start self.new acts) }
    {
        let emitted = self.take(topology, m)?;
        self.clock.saw(top(m));
        Ok(emitted)
    }

    /// The sum of the lengths of what `encode` makes of each message that `step` would send now. Nothing changes.
    pub fn weigh_step(&self, topology: &Topology, m: &Message) -> Result<u64, OutOfMemory>
        requires { SendsShort topology.now self.now (TakesMessage m.now) }
        ensures { IfOk result (λ weight. (number start : ℕ) (acts : List Act) → StandsFor topology.now number start self.now acts →
            weight ≡ weight_of_all (node_sends topology.now number start acts (TakesMessage m.now))) }
    {
        match m {
            Message::Inform { .. } => Ok(0),
            _ => self.weigh_attempt(topology, m),
        }
    }

    // The same of a message that is for the attempt at its transaction.
    fn weigh_attempt(&self, topology: &Topology, m: &Message) -> Result<u64, OutOfMemory>
        requires other { is_inform m.now ≡ false }
        requires short { SendsShort topology.now self.now (TakesMessage m.now) }
        ensures { IfOk result (λ weight. (number start : ℕ) (acts : List Act) → StandsFor topology.now number start self.now acts →
            weight ≡ weight_of_all (node_sends topology.now number start acts (TakesMessage m.now))) }
    {
        let id = m.id();
        match self.attempts.get(&id) {
            Some(running) => running.get().weigh(topology, id, m),
            None => Ok(0),
        }
    }

    /// Comes back from a journal: the clock keeps what it drew, the begun transactions stay, and the attempts and the clients are
    /// gone. It takes no memory.
    pub fn restart(&mut self)
        ensures { (layout : Layout) (number start : ℕ) (acts : List Act) → StandsFor layout number start self.old acts →
            StandsFor layout number start self.new (Restarts ∷ acts) }
    {
        self.clock.restart();
        self.attempts.clear();
        self.clients.clear();
    }

    // What a message makes of the node before its clock sees it.
    fn take(&mut self, topology: &Topology, m: &Message) -> Result<Emitted, OutOfMemory>
        ensures ok { IfOk result (λ emitted. TakesIt topology.now self.old self.new m.now emitted) }
        ensures err { OnErr result (IsSame self.old self.new) }
    {
        match m {
            Message::Inform { id, outcome, .. } => self.inform(*id, &outcome.outcome().reply),
            _ => self.hear(topology, m),
        }
    }

    // Answers the client of a transaction, where it waits, and closes it.
    fn inform(&mut self, id: TxnId, reply: &Reply) -> Result<Emitted, OutOfMemory>
        ensures ok { IfOk result (λ emitted. HasInformed self.old self.new id reply.now emitted) }
        ensures err { OnErr result (self.new ≡ self.old) }
    {
        let is_open = self.clients.contains_key(&id);
        let notes = reply_note(self.alloc, id, reply, is_open)?;
        self.close_client(id, is_open);
        let out = Messages::new(self.alloc);
        Ok(Emitted { notes, out })
    }

    // Gives a message to the attempt at its transaction. An attempt that ends is dropped, and a client that has its reply is
    // closed.
    fn hear(&mut self, topology: &Topology, m: &Message) -> Result<Emitted, OutOfMemory>
        ensures ok { IfOk result (λ emitted. HasHeard topology.now self.old self.new m.now emitted) }
        ensures err { OnErr result (IsSame self.old self.new) }
    {
        let id = m.id();
        let is_open = self.clients.contains_key(&id);
        let heard = self.hear_at(topology, id, is_open, m)?;
        self.end_attempt(id, heard.has_ended);
        self.close_client(id, heard.has_replied);
        Ok(heard.emitted)
    }

    // Drops the attempt at a transaction, where it has ended.
    fn end_attempt(&mut self, id: TxnId, has_ended: bool)
        ensures { Drops self.old self.new id has_ended }
    {
        if !has_ended {
            return;
        }
        self.attempts.remove(&id);
    }

    // Closes the client of a transaction, where it has its reply.
    fn close_client(&mut self, id: TxnId, has_replied: bool)
        ensures { Closes self.old self.new id has_replied }
    {
        if !has_replied {
            return;
        }
        self.clients.remove(&id);
    }

    // What the attempt at a transaction makes of a message. An attempt that ends stays for now.
    fn hear_at(
        &mut self,
        topology: &Topology,
        id: TxnId,
        is_open: bool,
        m: &Message,
    ) -> Result<Heard, OutOfMemory>
        ensures ok { IfOk result (λ heard. HearsAt topology.now self.old self.new id is_open m.now heard) }
        ensures err { OnErr result (IsSame self.old self.new) }
    {
        match self.attempts.get_mut(&id) {
            Some(running) => running.get_mut().hear(topology, id, is_open, m),
            None => Ok(silent(self.alloc)),
        }
    }

    // Gives the fast path of the attempt at a transaction up.
    fn go_slow(&mut self, topology: &Topology, id: TxnId) -> Result<Messages, NodeError>
        ensures ok { IfOk result (λ out. HasSlowed topology.now self.old self.new id out) }
        ensures refused { IfErr result (λ error. (a : Option Attempt) → Runs topology.now id (get id_cmp self.old.attempts id) a →
            Refuses (is_voting_at a) (has_majority topology.now id a) error) }
        ensures err { OnErr result (IsSame self.old self.new) }
    {
        match self.attempts.get_mut(&id) {
            Some(running) => running.get_mut().go_slow(topology),
            None => Err(NodeError::Unknown),
        }
    }

    // Enters a begun transaction with its first attempt, and opens its client. After an error the node is as before.
    fn enter(&mut self, txn: u32, id: TxnId, running: Kept<Running>) -> Result<(), OutOfMemory>
        requires { get nat_cmp self.old.begun txn ≡ None }
        ensures ok { OnOk result (Enters self.old self.new txn id running) }
        ensures err { OnErr result (IsSame self.old self.new) }
    {
        self.begun.insert(txn, id)?;
        let opened = self.open_first(id, running);
        if opened.is_err() {
            self.begun.remove(&txn);
        }
        opened
    }

    // Opens the client of a transaction and enters its first attempt. After an error the node is as before.
    fn open_first(&mut self, id: TxnId, running: Kept<Running>) -> Result<(), OutOfMemory>
        ensures ok { OnOk result (Opens self.old self.new id running) }
        ensures err { OnErr result (IsSame self.old self.new) }
        ensures begun { self.new.begun ≡ self.old.begun }
    {
        let was_open = self.clients.insert(id, ())?.is_some();
        match self.attempts.insert(id, running) {
            Ok(_) => Ok(()),
            Err(_) if was_open => Err(OutOfMemory),
            Err(_) => {
                self.clients.remove(&id);
                Err(OutOfMemory)
            }
        }
    }
}
