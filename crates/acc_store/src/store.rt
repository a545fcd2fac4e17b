//! A store.
ghost use Rattle.std.specs.Prelude.{◌≡◌, ◌+◌, ◌<◌, ◌≤◌, ◌^◌, max, [], List, All, IfOk, OnOk, OnErr};
ghost use Rattle.std.specs.Option.{option_map, option_copied};
ghost use Rattle.acc_stamp.specs.Actor.{shard_of};
ghost use Rattle.acc_stamp.specs.Rising.{IsRising};
ghost use Rattle.acc_topology.specs.Layout.{Layout};
ghost use Rattle.acc_message.specs.declared.message.Message.{Message};
ghost use Rattle.acc_message.specs.Fields.{top_of};
ghost use Rattle.acc_message.specs.BallotRules.{stable_of};
ghost use Rattle.acc_message.specs.StoreRules.{store_answer, replay};
ghost use Rattle.acc_message.specs.Taken.{body_known};
ghost use Rattle.acc_message_code.specs.Short.{IsShortMessage};
ghost use Rattle.acc_message_code.specs.Weight.{weight_of_all};
ghost use Rattle.acc_record.specs.Stands.{IsFor};

use crate::queries::{are_applied, body_in, stable_in, unapplied};
use crate::steps::{Prepared, prepare, take};
use acc_base::OutOfMemory;
use acc_deps::Settled;
use acc_message::{Message, Messages};
use acc_message_code::messages_length;
use acc_record::Shelf;
use acc_stamp::{Actor, Ids, TxnId};
use acc_topology::Topology;
use acc_txn::Body;
use acc_value::{Key, Value};
use std::alloc::Global;

/// One store. Its calls are told by the messages that it took: whatever messages it stands for, it sends and tells what the
/// rules give after these.
#[derive(Debug, Drop)]
pub struct Store {
    shelf: Shelf,
}

impl Store {
    ghost use Rattle.acc_store.specs.Queries.{known_writers, cell_if_applied, unapplied};
    ghost use Rattle.acc_store.specs.Stands.{actor_of, greatest_in, StandsFor, IsStanding, Answers, IsAsBefore};
    ghost use Rattle.acc_store.specs.Weighing.{SendsShort};
    ghost use Rattle.acc_store.specs.Prepared.{IsPrepared};

    /// A store that has taken no message. It takes no memory yet.
    pub fn new(alloc: Global, actor: Actor) -> Store
        ensures actor { actor_of result ≡ actor }
        ensures stands { (layout : Layout) → StandsFor layout result [] }
    {
        Store {
            shelf: Shelf::new(alloc, actor),
        }
    }

    /// The store's number.
    pub fn actor(&self) -> Actor
        ensures { result ≡ actor_of self.now }
    {
        self.shelf.actor
    }

    /// The greatest `h` of the messages that it took and of the stamps that it drew. A store takes a message only as long as
    /// this is below 2^62.
    pub fn greatest(&self) -> u64
        ensures { result ≡ greatest_in self.now }
    {
        self.shelf.greatest
    }

    /// Takes a message: what it sends. Without memory for it the store is as before.
    pub fn step(&mut self, topology: &Topology, m: &Message) -> Result<Messages, OutOfMemory>
        requires store { IsFor (actor_of self.old) m.now }
        requires top { top_of m.now < 2 ^ 62 }
        requires greatest { greatest_in self.old < 2 ^ 62 }
        requires stands { IsStanding topology.now self.old }
        ensures ok { IfOk result (λ sent. Answers topology.now self.old self.new m.now sent) }
        // What it draws is at most one above all that it met.
        ensures low { OnOk result (greatest_in self.new ≤ 1 + max (top_of m.now) (greatest_in self.old)) }
        ensures err { OnErr result (IsAsBefore self.old self.new) }
    {
        let prepared = self.prepare(topology, m)?;
        self.take(topology, m, prepared)
    }

    /// Plans the step that takes a message. It can be weighed and taken as long as the store takes no other.
    pub fn prepare(&self, topology: &Topology, m: &Message) -> Result<Prepared, OutOfMemory>
        requires store { IsFor (actor_of self.now) m.now }
        requires top { top_of m.now < 2 ^ 62 }
        requires greatest { greatest_in self.now < 2 ^ 62 }
        requires stands { IsStanding topology.now self.now }
        ensures { IfOk result (IsPrepared topology.now self.now m.now) }
    {
        prepare(&self.shelf, topology, m)
    }

    /// Takes a message as it was planned: what it sends. Without memory for it the store is as before.
    #[inline(always)]
    pub fn take(
        &mut self,
        topology: &Topology,
        m: &Message,
        prepared: Prepared,
    ) -> Result<Messages, OutOfMemory>
        requires store { IsFor (actor_of self.old) m.now }
        requires top { top_of m.now < 2 ^ 62 }
        requires greatest { greatest_in self.old < 2 ^ 62 }
        requires stands { IsStanding topology.now self.old }
        requires prepared { IsPrepared topology.now self.old m.now prepared }
        ensures ok { IfOk result (λ sent. Answers topology.now self.old self.new m.now sent) }
        ensures low { OnOk result (greatest_in self.new ≤ 1 + max (top_of m.now) (greatest_in self.old)) }
        ensures err { OnErr result (IsAsBefore self.old self.new) }
    {
        take(&mut self.shelf, topology, m, prepared)
    }

    /// How many bytes of encoded messages the step that was planned would send.
    pub fn weigh(
        &self,
        topology: &Topology,
        m: &Message,
        prepared: &Prepared,
    ) -> Result<u64, OutOfMemory>
        requires store { IsFor (actor_of self.now) m.now }
        requires top { top_of m.now < 2 ^ 62 }
        requires greatest { greatest_in self.now < 2 ^ 62 }
        requires short { SendsShort topology.now self.now m.now }
        requires prepared { IsPrepared topology.now self.now m.now prepared.now }
        ensures { IfOk result (λ weight. (messages : List Message) → StandsFor topology.now self.now (replay topology.now (actor_of self.now) messages) → weight ≡ weight_of_all (store_answer topology.now (actor_of self.now) (replay topology.now (actor_of self.now) messages) m.now)) }
    {
        Ok(length_of(prepared.sent()))
    }

    /// The transactions that the store knows and that write a key of its shard, rising.
    pub fn known_writers(&self, key: &Key) -> Result<Ids, OutOfMemory>
        ensures ids { IfOk result (λ ids. (layout : Layout) (messages : List Message) → StandsFor layout self.now (replay layout (actor_of self.now) messages) → ids ≡ known_writers layout (shard_of (actor_of self.now)) (replay layout (actor_of self.now) messages) key.now) }
        ensures rises { IfOk result IsRising }
    {
        self.shelf.index.writers(key)
    }

    /// The body of a transaction, as the store heard it first. `None` exactly where the store doesn't know the transaction. Takes
    /// no memory.
    pub fn body_of(&self, id: TxnId) -> Option<&Body>
        ensures { (layout : Layout) (messages : List Message) → StandsFor layout self.now (replay layout (actor_of self.now) messages) → option_copied result ≡ body_known (replay layout (actor_of self.now) messages) id }
    {
        body_in(self.shelf.find(id))
    }

    /// The timestamp and dependencies by which a transaction is stable here. `None` exactly where it isn't stable. Takes no memory.
    pub fn stable_of(&self, id: TxnId) -> Option<&Settled>
        ensures { (layout : Layout) (messages : List Message) → StandsFor layout self.now (replay layout (actor_of self.now) messages) → option_copied result ≡ stable_of (replay layout (actor_of self.now) messages) id }
    {
        stable_in(self.shelf.find(id))
    }

    /// The transactions that the store knows and hasn't applied, rising. It looks at each known transaction.
    pub fn unapplied(&self) -> Result<Ids, OutOfMemory>
        ensures ids { IfOk result (λ ids. (layout : Layout) (messages : List Message) → StandsFor layout self.now (replay layout (actor_of self.now) messages) → ids ≡ unapplied (shard_of (actor_of self.now)) (replay layout (actor_of self.now) messages)) }
        ensures rises { IfOk result IsRising }
    {
        unapplied(&self.shelf)
    }

    /// The cell of a key, where each of these transactions is applied here. `None` exactly where one of them isn't. Takes no
    /// memory.
    pub fn read_if_applied(&self, key: &Key, ids: &Ids) -> Option<Option<&Value>>
        ensures { (layout : Layout) (messages : List Message) → StandsFor layout self.now (replay layout (actor_of self.now) messages) → option_map option_copied result ≡ cell_if_applied layout (shard_of (actor_of self.now)) (replay layout (actor_of self.now) messages) ids.now key.now }
    {
        if !are_applied(&self.shelf, ids.as_slice()) {
            return None;
        }
        Some(self.shelf.cells.get(key))
    }
}

// How many bytes these messages are.
fn length_of(sent: &Messages) -> u64
    requires short { All IsShortMessage sent.now }
    requires fits { weight_of_all sent.now < 2 ^ 64 }
    ensures { result ≡ weight_of_all sent.now }
{
    messages_length(sent.as_slice())
}
