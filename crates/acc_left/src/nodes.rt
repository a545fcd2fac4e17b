//! The rules on the journal of a node.
ghost use Rattle.std.specs.Prelude.{◌≡◌, ◌&&◌, ◌++◌, ◌∷◌, [], ℕ, List, not, nat_lt, IfOk, OnOk};
ghost use Rattle.std.specs.List.{list_any};
ghost use Rattle.acc_message.specs.Run.{clock_start};
ghost use Rattle.acc_payloads.specs.declared.node.NodePayload.{NodePayload as Payload};
ghost use Rattle.acc_payloads.specs.Node.{begins, draws_in, greatest_drawn, is_begin};
ghost use Rattle.acc_left.specs.Nodes.{follows, TellNode};
ghost use Rattle.acc_left.specs.Told.{bytes_in, AddsDraws, FindsInNode};
ghost use Rattle.acc_left.specs.Rules.{is_draw_of as is_drawn_of};

use crate::drawn::Drawn;
use acc_base::OutOfMemory;
use acc_payloads::{Draw, NodePayload, Purpose, may_mark, read_node_payload};
use acc_schedule::Plan;
use acc_topology::NodeSpec;
use std::alloc::Global;
use std::collections::BTreeSet;

/// The greatest `h` that a run within the limits names.
pub(crate) const GREATEST_HEIGHT: u64 = 2_000_000_000_000;

/// What the payloads of a node before some place tell.
#[derive(Drop)]
struct Told {
    marked: bool,
    /// The greatest `h` that was drawn, or the start of the node's clock.
    greatest: u64,
    /// The transactions that were begun.
    begun: BTreeSet<u32>,
}

impl Told {
    // What no payloads tell.
    fn new(alloc: Global, start: u64) -> Told
        ensures { TellNode start [] result }
    {
        Told {
            marked: false,
            greatest: start,
            begun: BTreeSet::new(alloc),
        }
    }

    // Whether a payload may stand after those that told this.
    fn may_follow(&self, plan: &Plan, node: u32, payload: &NodePayload) -> bool
        ensures { (start : ℕ) (items : List Payload) → TellNode start items self.now → result ≡ follows plan.now start node items payload.now }
    {
        match payload {
            NodePayload::Mark => may_mark(plan.version, self.marked),
            NodePayload::Draws(draw) => self.may_draw(draw) && is_draw_of(plan, node, draw),
        }
    }

    // Whether a draw is above those before it, and begins nothing that is begun.
    fn may_draw(&self, draw: &Draw) -> bool
        ensures { (start : ℕ) (items : List Payload) → TellNode start items self.now
            → result ≡ (nat_lt (greatest_drawn start (draws_in items)) draw.now.h && not (is_begin draw.now.purpose && list_any (begins draw.now.txn) (draws_in items))) }
    {
        let begins_again = draw.purpose == Purpose::Begin && self.begun.contains(&draw.txn);
        draw.h > self.greatest && !begins_again
    }

    // Enters a payload.
    fn enter(&mut self, payload: &NodePayload) -> Result<(), OutOfMemory>
        ensures { OnOk result ((start : ℕ) (items : List Payload) → TellNode start items self.old → TellNode start (items ++ payload.now ∷ []) self.new) }
    {
        match payload {
            NodePayload::Mark => self.marked = true,
            NodePayload::Draws(draw) => {
                if draw.purpose == Purpose::Begin {
                    self.begun.insert(draw.txn)?;
                }
                self.greatest = self.greatest.max(draw.h);
            }
        }
        Ok(())
    }
}

// Whether a draw is of a transaction of the plan, which its home alone begins, and isn't too high.
fn is_draw_of(plan: &Plan, node: u32, draw: &Draw) -> bool
    ensures { result ≡ is_drawn_of plan.now node draw.now }
{
    let Some(home) = plan.homes.as_slice().get(draw.txn as usize) else {
        return false;
    };
    let may_be_drawn = match draw.purpose {
        Purpose::Begin => *home == node,
        Purpose::Recover => true,
    };
    may_be_drawn && draw.h <= GREATEST_HEIGHT
}

/// Enters the draws of a node's journal. Where a payload may not stand where it does, the answer is the place of the
/// gate in front of the first such payload.
pub(crate) fn enter_node(
    alloc: Global,
    plan: &Plan,
    node: u32,
    payloads: &[&[u8]],
    drawn: &mut Drawn,
) -> Result<Option<u64>, OutOfMemory>
    ensures { IfOk result (FindsInNode plan.now node (bytes_in payloads.now) drawn.old.draws drawn.new.draws) }
{
    let mut told = Told::new(alloc, start_of(plan.starts.as_slice(), node));
    let mut gate: u64 = 1;
    for payload in payloads {
        let Some(read) = read_node_payload(*payload) else {
            return Ok(Some(gate));
        };
        if !told.may_follow(plan, node, &read) {
            return Ok(Some(gate));
        }
        told.enter(&read)?;
        enter_draw(drawn, node, &read)?;
        let Some(next) = gate.checked_add(5 + payload.len() as u64) else {
            return Err(OutOfMemory);
        };
        gate = next;
    }
    Ok(None)
}

// Where the clock of a node starts.
fn start_of(starts: &[NodeSpec], node: u32) -> u64
    ensures { result ≡ clock_start starts.now node }
{
    for spec in starts {
        if spec.id == node {
            return spec.clock;
        }
    }
    0
}

// Enters a payload's draw, where it is one.
fn enter_draw(drawn: &mut Drawn, node: u32, payload: &NodePayload) -> Result<(), OutOfMemory>
    ensures { OnOk result (AddsDraws drawn.old.draws drawn.new.draws node (payload.now ∷ [])) }
{
    match payload {
        NodePayload::Mark => Ok(()),
        NodePayload::Draws(draw) => drawn.enter(node, *draw),
    }
}
