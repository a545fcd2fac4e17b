//! The rules on the journal of a store.
ghost use Rattle.std.specs.Prelude.{◌≡◌, ◌↔◌, ◌||◌, true, List, Some, is_some, option_copied, IfOk};
ghost use Rattle.std.specs.List.{list_all};
ghost use Rattle.acc_stamp.specs.declared.stamps.TxnId.{TxnId as AnId};
ghost use Rattle.acc_message.specs.Taken.{body_in};
ghost use Rattle.acc_payloads.specs.declared.store.StorePayload.{StorePayload as Payload};
ghost use Rattle.acc_payloads.specs.Store.{has_mark, is_mark, FitsStore};
ghost use Rattle.acc_left.specs.declared.image.Image.{Image as AnImage};
ghost use Rattle.acc_left.specs.Rules.{deps_brought, IsMessageOf, StoreMayLeave};
ghost use Rattle.acc_left.specs.Told.{are_begun as are_all_begun, bytes_in, comes_of, is_from_attempt as comes_from_attempt, number_begun, FindsInStore, TellDraws};

use crate::nodes::GREATEST_HEIGHT;
use crate::numbers::Numbers;
use acc_base::OutOfMemory;
use acc_deps::{Deps, Settled};
use acc_message::{Message, top};
use acc_message_code::KnownParts;
use acc_payloads::{StorePayload, may_follow, read_store_payload};
use acc_schedule::Plan;
use acc_stamp::{Actor, Ballot, TxnId, home};
use acc_tally::is_store;
use acc_txn::Body;
use std::alloc::Global;

/// The bodies of the transactions that journals begin.
#[derive(Drop)]
struct Planned<'a> {
    bodies: &'a [Body],
    drawn: &'a Numbers,
}

impl<'a> KnownParts for Planned<'a> {
    fn body_of(&self, id: TxnId) -> Option<&Body> {
        match self.drawn.begun(id) {
            Some(txn) => self.bodies.get(txn as usize),
            None => None,
        }
    }

    fn stable_of(&self, _id: TxnId) -> Option<&Settled> {
        None
    }
}

/// The place of the gate in front of the first payload of a store's journal that may not stand where it does, by what
/// the journals of nodes tell.
pub(crate) fn store_fault(
    alloc: Global,
    plan: &Plan,
    own: Actor,
    payloads: &[&[u8]],
    drawn: &Numbers,
) -> Result<Option<u64>, OutOfMemory>
    ensures { (images : List AnImage) → TellDraws plan.now drawn.now.drawn.draws images → IfOk result (FindsInStore plan.now images own (bytes_in payloads.now)) }
{
    let bodies = plan.bodies.as_slice();
    let known = Planned { bodies, drawn };
    let mut marked = false;
    let mut gate: u64 = 1;
    for payload in payloads {
        let Some(read) = read_store_payload(alloc, *payload, &known)? else {
            return Ok(Some(gate));
        };
        if !may_leave(plan, drawn, own, marked, &read) {
            return Ok(Some(gate));
        }
        marked = is_marked(marked, &read);
        let Some(next) = gate.checked_add(5 + payload.len() as u64) else {
            return Err(OutOfMemory);
        };
        gate = next;
    }
    Ok(None)
}

// Whether a mark stands before what is after a payload, where `marked` tells whether one stands before it.
fn is_marked(marked: bool, payload: &StorePayload) -> bool
    ensures { result ≡ (marked || is_mark payload.now) }
{
    match payload {
        StorePayload::Mark => true,
        StorePayload::Takes(_) => marked,
    }
}

// Whether a payload may stand in the journal of a store, where `marked` tells whether a mark stands before it.
fn may_leave(plan: &Plan, drawn: &Numbers, own: Actor, marked: bool, payload: &StorePayload) -> bool
    ensures { (images : List AnImage) → TellDraws plan.now drawn.now.drawn.draws images → (before : List Payload) → has_mark before ≡ marked → FitsStore payload.now
        → (result ≡ true) ↔ StoreMayLeave plan.now images own before payload.now }
{
    if !may_follow(own, plan.version, marked, payload) {
        return false;
    }
    match payload {
        StorePayload::Mark => true,
        StorePayload::Takes(m) => is_message_of(plan, drawn, own, m),
    }
}

// Whether a message to a store is about a transaction that was begun, as this is in the plan.
fn is_message_of(plan: &Plan, drawn: &Numbers, own: Actor, m: &Message) -> bool
    ensures { (images : List AnImage) → TellDraws plan.now drawn.now.drawn.draws images → (result ≡ true) ↔ IsMessageOf plan.now images own m.now }
{
    let Some(txn) = drawn.begun(m.id()) else {
        return false;
    };
    let Some(body) = plan.bodies.as_slice().get(txn as usize) else {
        return false;
    };
    brings(m, body) && comes(plan, drawn, own, m, txn, body)
}

// Whether all but the body of a message is as the plan and the draws of nodes want it.
fn comes(plan: &Plan, drawn: &Numbers, own: Actor, m: &Message, txn: u32, body: &Body) -> bool
    ensures { result ≡ comes_of plan.now drawn.now.drawn.draws own m.now txn body.now }
{
    is_store(&plan.topology, plan.topology.shards_of(body.uses()), own)
        && is_from_attempt(drawn, m, txn)
        && are_begun(drawn, m)
        && top(m) <= GREATEST_HEIGHT
}

// Whether a message comes from the node of its attempt, which drew its ballot for this transaction.
fn is_from_attempt(drawn: &Numbers, m: &Message, txn: u32) -> bool
    ensures { result ≡ comes_from_attempt drawn.now.drawn.draws m.now txn }
{
    let ballot = m.ballot();
    m.from() == home(m.id(), ballot) && (ballot == Ballot::ZERO || drawn.recovers(ballot, txn))
}

// Whether a message brings this body.
fn brings(m: &Message, body: &Body) -> bool
    ensures { (result ≡ true) ↔ (body_in m.now ≡ Some body.now) }
{
    match brought(m) {
        Some(other) => are_same(other, body),
        None => false,
    }
}

// The body that a message brings.
fn brought(m: &Message) -> Option<&Body>
    ensures { option_copied result ≡ body_in m.now }
{
    match m {
        Message::PreAccept { body, .. }
        | Message::Accept { body, .. }
        | Message::Commit { body, .. }
        | Message::Stable { body, .. }
        | Message::Apply { body, .. }
        | Message::Recover { body, .. } => Some(body),
        _ => None,
    }
}

fn are_same(one: &Body, other: &Body) -> bool
    ensures { (result ≡ true) ↔ (one.now ≡ other.now) }
{
    one.code() == other.code()
}

// Whether each transaction on which a message makes its own depend is begun.
fn are_begun(drawn: &Numbers, m: &Message) -> bool
    ensures { result ≡ are_all_begun drawn.now.drawn.draws (deps_brought m.now) }
{
    match m {
        Message::Accept { deps, .. }
        | Message::Commit { deps, .. }
        | Message::Stable { deps, .. }
        | Message::Apply { deps, .. } => all_begun(drawn, deps),
        _ => true,
    }
}

// Whether each of these transactions is begun.
fn all_begun(drawn: &Numbers, deps: &Deps) -> bool
    ensures { result ≡ are_all_begun drawn.now.drawn.draws deps.now }
{
    deps.by_shard()
        .iter()
        .all(|shard| ids_begun(drawn, shard.ids.as_slice()))
}

fn ids_begun(drawn: &Numbers, ids: &[TxnId]) -> bool
    ensures { result ≡ list_all (λ (id : AnId). is_some (number_begun drawn.now.drawn.draws id)) ids.now }
{
    ids.iter().all(|id| drawn.begun(*id).is_some())
}
