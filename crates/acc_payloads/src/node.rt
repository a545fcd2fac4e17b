//! The journal of a node.
ghost use Rattle.std.specs.Prelude.{◌≡◌, ◌≤◌, ◌^◌, ◌&&◌, nat_lt, nat_le, ℕ, List, [], ◌∷◌, ◌++◌, true, OnOk, IfOk, IfErr, IfSome, IfNone, if◌then◌else◌};
ghost use Rattle.std.specs.List.{list_any};
ghost use Rattle.std.specs.Ordering.{nat_cmp};
ghost use Rattle.std.specs.BTreeMap.{get};
ghost use Rattle.acc_payloads.specs.declared.node.NodePayload.{NodePayload as Payload};
ghost use Rattle.acc_payloads.specs.Journals.{IsRefusedAs};
ghost use Rattle.acc_payloads.specs.Node.{node_bytes, FitsNode, is_begin, begins, draws_in, id_drawn_by, may_draw as may_stand, node_may, NodeMay, AreTold, IsReadAs};

use crate::draw::{Draw, Purpose, read_draw};
use crate::mark::{is_mark, may_mark};
use acc_base::{Bytes, OutOfMemory};
use acc_journal::JournalError;
use acc_stamp::{Stamp, TxnId};
use std::alloc::Global;
use std::collections::BTreeMap;

/// The greatest `h` that a node draws.
const GREATEST: u64 = 1 << 62;

/// A payload of a node.
#[derive(Clone, Copy, Debug, PartialEq, Eq)]
pub enum NodePayload {
    /// From here on the journal was written by version 2.
    Mark,
    /// The node has drawn a stamp.
    Draws(Draw),
}

/// What the journal of a node tells.
#[derive(Debug, Drop)]
pub struct NodeTold {
    /// Whether it has a mark.
    pub marked: bool,
    /// The greatest `h` that was drawn, or the start of the node's clock.
    pub drawn: u64,
    /// The ids of the transactions that the node has begun, by their numbers.
    pub begun: BTreeMap<u32, TxnId>,
}

/// The payload of some bytes, all of them; `None` exactly where they are the payload of nothing.
pub fn read_node_payload(bytes: &[u8]) -> Option<NodePayload>
    ensures found { IfSome result (λ p. bytes.now ≡ node_bytes p) }
    ensures fits { IfSome result FitsNode }
    ensures none { IfNone result ((p : Payload) → FitsNode p → bytes.now ≡ node_bytes p → ⊥) }
{
    if is_mark(bytes) {
        return Some(NodePayload::Mark);
    }
    match read_draw(bytes) {
        Ok(draw) => Some(NodePayload::Draws(draw)),
        Err(_) => None,
    }
}

impl NodeTold {
    /// What an empty journal tells.
    fn new(alloc: Global, start: u64) -> NodeTold
        ensures { (node : ℕ) → AreTold node start [] result }
    {
        NodeTold {
            marked: false,
            drawn: start,
            begun: BTreeMap::new(alloc),
        }
    }

    /// Whether a draw begins a transaction that is begun.
    #[tactic(auto, using(crate::proofs::Nodes::is_begun))]
    fn begins_again(&self, draw: &Draw) -> bool
        ensures { (node start : ℕ) (items : List Payload) → AreTold node start items self.now
            → result ≡ (is_begin draw.now.purpose && list_any (begins draw.now.txn) (draws_in items)) }
    {
        match draw.purpose {
            Purpose::Begin => self.begun.contains_key(&draw.txn),
            Purpose::Recover => false,
        }
    }

    /// Whether a draw is above the others and not too high.
    fn is_in_range(&self, draw: &Draw) -> bool
        ensures { result ≡ (nat_lt self.now.drawn draw.now.h && nat_le draw.now.h (2 ^ 62)) }
    {
        draw.h > self.drawn && draw.h <= GREATEST
    }

    /// Whether a draw may stand after the payloads that told this.
    fn may_draw(&self, draw: &Draw) -> bool
        ensures { (node start : ℕ) (items : List Payload) → AreTold node start items self.now → result ≡ may_stand start (draws_in items) draw.now }
    {
        let begins_again = self.begins_again(draw);
        self.is_in_range(draw) && !begins_again
    }

    /// Whether a payload may stand after those that told this.
    fn may_follow(&self, version: u8, payload: &NodePayload) -> bool
        ensures { (node start : ℕ) (items : List Payload) → AreTold node start items self.now → result ≡ node_may version start items payload.now }
    {
        match payload {
            NodePayload::Mark => may_mark(version, self.marked),
            NodePayload::Draws(draw) => self.may_draw(draw),
        }
    }

    /// Enters the id of a transaction that a draw begins.
    fn enter_id(&mut self, node: u32, draw: &Draw) -> Result<(), OutOfMemory>
        requires { node ≤ 15 }
        ensures begun { OnOk result ((txn : ℕ) → get nat_cmp self.new.begun txn
            ≡ (if begins txn draw.now then Some (id_drawn_by node draw.now) else get nat_cmp self.old.begun txn)) }
        ensures others { OnOk result ((self.new.marked ≡ self.old.marked) × (self.new.drawn ≡ self.old.drawn)) }
    {
        if draw.purpose == Purpose::Begin {
            let id = TxnId(Stamp {
                h: draw.h,
                origin: node * 64,
            });
            self.begun.insert(draw.txn, id)?;
        }
        Ok(())
    }

    /// Enters a payload that may stand after the others.
    fn enter(&mut self, node: u32, payload: &NodePayload) -> Result<(), OutOfMemory>
        requires { node ≤ 15 }
        ensures { OnOk result ((version start : ℕ) (items : List Payload) → AreTold node start items self.old → node_may version start items payload.now ≡ true
            → AreTold node start (items ++ payload.now ∷ []) self.new) }
    {
        match payload {
            NodePayload::Mark => self.marked = true,
            NodePayload::Draws(draw) => {
                self.enter_id(node, draw)?;
                self.drawn = draw.h;
            }
        }
        Ok(())
    }
}

/// Reads the payloads of a node's journal. `BadRecord` comes exactly where a payload is none of a node, is a mark that may not
/// stand there, draws an `h` that isn't above the start and every one before it or is above 2^62, or begins a transaction for
/// the second time; the place is that of the gate in front of the first such payload.
pub fn read_node_journal(
    alloc: Global,
    node: u32,
    version: u8,
    start: u64,
    payloads: &[Bytes],
) -> Result<NodeTold, JournalError>
    requires { node ≤ 15 }
    ensures ok { IfOk result (IsReadAs node version start payloads.now) }
    ensures refused { IfErr result (IsRefusedAs node_bytes (NodeMay version start) payloads.now) }
{
    let mut told = NodeTold::new(alloc, start);
    let mut gate: u64 = 1;
    for payload in payloads {
        let Some(read) = read_node_payload(payload.as_slice()) else {
            return Err(JournalError::BadRecord { place: gate });
        };
        if !told.may_follow(version, &read) {
            return Err(JournalError::BadRecord { place: gate });
        }
        told.enter(node, &read)?;
        let Some(next) = gate.checked_add(5 + payload.len() as u64) else {
            return Err(JournalError::OutOfMemory);
        };
        gate = next;
    }
    Ok(told)
}
