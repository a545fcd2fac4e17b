//! Steps that are planned, and that are taken as planned.
ghost use Rattle.std.specs.Prelude.{◌≡◌, [], List, ◌++◌, Some, is_some, IsTrue, IfOk, OnOk, OnErr};
ghost use Rattle.std.specs.Option.{option_copied};
ghost use Rattle.acc_stamp.specs.Actor.{shard_of};
ghost use Rattle.acc_message.specs.declared.message.Message.{Message};
ghost use Rattle.acc_message.specs.StoreRules.{store_answer, replay};
ghost use Rattle.acc_record.specs.Shelf.{IsSame, record_at};
ghost use Rattle.acc_record.specs.Stands.{StandsFor, AnswersByRules};
ghost use Rattle.acc_record.specs.Learning.{known_or_fresh, share_at};
ghost use Rattle.acc_opening.specs.Known.{IsKnown};
ghost use Rattle.acc_execute.specs.Owned.{is_stable, is_apply, with_settled, with_waiter, with_outcome};
ghost use Rattle.acc_execute.specs.Executed.{AllFit, shows, Stands, IsReadyBehind, IsReady, IsLearntWithRoom, IsCommitted, IsExecuted};

use crate::commit::{keep, take_other_turns, take_own_turns};
use crate::own::{begun, decide, settle, wait};
use crate::present::at_once;
use crate::shown::{is_shown, is_stable};
use crate::waits::{change_lists, make_room};
use acc_base::OutOfMemory;
use acc_deps::Deps;
use acc_message::{Message, Messages, SharedOutcome, top};
use acc_opening::{Known, Plan, Released, planned, release};
use acc_record::{KeptRecord, Record, Shelf};
use acc_stamp::{Ballot, Stamp, TxnId};
use acc_topology::Topology;
use acc_txn::Body;
use acc_value::CellList;
use std::alloc::Global;

/// A step on a Stable or an Apply that is planned. Nothing is changed yet. Its parts have a place of their own, since it is handed
/// on from layer to layer.
#[derive(Debug, Drop)]
pub struct PreparedStep {
    parts: Box<StepParts>,
}

/// The parts of a planned step.
#[derive(Debug, Drop)]
pub struct StepParts {
    /// The record of its transaction, with what the message brings.
    own: KeptRecord,
    /// Whether the record shows the timestamp before the step, so that it was noted.
    noted: bool,
    /// What is opened and applied, and who waits for whom then.
    plan: Plan,
    /// What it sends.
    sent: Messages,
    /// The cells that it writes.
    writes: CellList,
}

impl PreparedStep {
    fn new(alloc: Global, made: StepParts) -> Result<PreparedStep, OutOfMemory>
        ensures { IfOk result (λ step. step.parts.value ≡ made) }
    {
        let parts = Box::new(alloc, made)?;
        Ok(PreparedStep { parts })
    }

    fn into_parts(self) -> StepParts
        ensures { result ≡ self.parts.value }
    {
        Box::into_inner(self.parts)
    }

    /// What the step sends.
    pub fn sent(&self) -> &Messages
        ensures { result.now ≡ self.now.parts.value.sent }
    {
        &self.parts.sent
    }
}

/// What a step learns of its transaction.
#[derive(Clone, Copy, Debug)]
pub(crate) struct News<'a> {
    /// The body that the message brings.
    pub body: &'a Body,
    /// Its timestamp.
    pub t: Stamp,
    /// The greatest `h` of the message.
    pub top: u64,
}

/// Plans the step of a store that takes a Stable. Nothing changes yet.
pub fn prepare_stable(
    shelf: &Shelf,
    topology: &Topology,
    m: &Message,
) -> Result<PreparedStep, OutOfMemory>
    requires stable { IsTrue (is_stable m.now) }
    requires stands { Stands topology.now shelf.now }
    ensures ready { IfOk result (λ step. IsReady topology.now shelf.now m.now step.parts.value) }
    ensures answers { IfOk result (λ step. (messages : List Message) → StandsFor topology.now shelf.now (replay topology.now shelf.now.actor messages) → step.parts.value.sent ≡ store_answer topology.now shelf.now.actor (replay topology.now shelf.now.actor messages) m.now) }
{
    match m {
        Message::Stable {
            id,
            ballot,
            body,
            t,
            deps,
            ..
        } => {
            let there = shelf.find(*id);
            let first = at_once(shelf, topology, there, *id, *ballot)?;
            let own = own_of_stable(there, *id, *ballot, body, *t, deps)?;
            prepare(shelf, topology, there, own, *t, first)
        }
        _ => unreachable!(),
    }
}

/// Plans the step of a store that takes an Apply. Nothing changes yet.
pub fn prepare_apply(
    shelf: &Shelf,
    topology: &Topology,
    m: &Message,
) -> Result<PreparedStep, OutOfMemory>
    requires apply { IsTrue (is_apply m.now) }
    requires stands { Stands topology.now shelf.now }
    ensures ready { IfOk result (λ step. IsReady topology.now shelf.now m.now step.parts.value) }
    ensures answers { IfOk result (λ step. (messages : List Message) → StandsFor topology.now shelf.now (replay topology.now shelf.now.actor messages) → step.parts.value.sent ≡ store_answer topology.now shelf.now.actor (replay topology.now shelf.now.actor messages) m.now) }
{
    match m {
        Message::Apply {
            id,
            body,
            t,
            deps,
            outcome,
            ..
        } => {
            let there = shelf.find(*id);
            let own = own_of_apply(there, *id, body, *t, deps, outcome)?;
            let first = Messages::new(own.get().waiters.allocator());
            prepare(shelf, topology, there, own, *t, first)
        }
        _ => unreachable!(),
    }
}

/// The step of a store that takes a Stable, which was planned: what it sends, at once and to those whose wait is over. Without
/// memory for it the shelf is as before.
pub fn take_stable(
    shelf: &mut Shelf,
    topology: &Topology,
    m: &Message,
    step: PreparedStep,
) -> Result<Messages, OutOfMemory>
    requires stable { IsTrue (is_stable m.now) }
    requires ready { IsReady topology.now shelf.old m.now step.parts.value }
    ensures ok { IfOk result (λ sent. AnswersByRules topology.now shelf.old shelf.new m.now sent) }
    ensures err { OnErr result (IsSame shelf.old shelf.new) }
{
    match m {
        Message::Stable { body, t, .. } => {
            let news = News {
                body,
                t: *t,
                top: top(m),
            };
            execute(shelf, topology, step.into_parts(), &news)
        }
        _ => unreachable!(),
    }
}

/// The step of a store that takes an Apply, which was planned: what it sends to those whose wait is over. Without memory for it
/// the shelf is as before.
pub fn take_apply(
    shelf: &mut Shelf,
    topology: &Topology,
    m: &Message,
    step: PreparedStep,
) -> Result<Messages, OutOfMemory>
    requires apply { IsTrue (is_apply m.now) }
    requires ready { IsReady topology.now shelf.old m.now step.parts.value }
    ensures ok { IfOk result (λ sent. AnswersByRules topology.now shelf.old shelf.new m.now sent) }
    ensures err { OnErr result (IsSame shelf.old shelf.new) }
{
    match m {
        Message::Apply { body, t, .. } => {
            let news = News {
                body,
                t: *t,
                top: top(m),
            };
            execute(shelf, topology, step.into_parts(), &news)
        }
        _ => unreachable!(),
    }
}

fn own_of_stable(
    there: Option<&Record>,
    id: TxnId,
    ballot: Ballot,
    body: &Body,
    t: Stamp,
    deps: &Deps,
) -> Result<KeptRecord, OutOfMemory>
    ensures { IfOk result (λ own. own ≡ with_waiter ballot (with_settled (record { t = t; deps = deps.now }) (known_or_fresh (option_copied there.entry) id body.now))) }
{
    let mut own = begun(there, id, body)?;
    settle(own.get_mut(), t, deps)?;
    wait(own.get_mut(), ballot)?;
    Ok(own)
}

fn own_of_apply(
    there: Option<&Record>,
    id: TxnId,
    body: &Body,
    t: Stamp,
    deps: &Deps,
    outcome: &SharedOutcome,
) -> Result<KeptRecord, OutOfMemory>
    ensures { IfOk result (λ own. own ≡ with_outcome outcome.now (with_settled (record { t = t; deps = deps.now }) (known_or_fresh (option_copied there.entry) id body.now))) }
{
    let mut own = begun(there, id, body)?;
    settle(own.get_mut(), t, deps)?;
    decide(own.get_mut(), outcome)?;
    Ok(own)
}

// Plans the step of a transaction that had the one record and has the other now, where these messages come first.
fn prepare(
    shelf: &Shelf,
    topology: &Topology,
    there: Option<&Record>,
    own: KeptRecord,
    t: Stamp,
    first: Messages,
) -> Result<PreparedStep, OutOfMemory>
    requires known { IsKnown (shard_of shelf.now.actor) shelf.now.records own shelf.now.waits }
    requires there { option_copied there ≡ record_at shelf.now.records own.id }
    ensures own { IfOk result (λ step. step.parts.value.own ≡ own) }
    ensures noted { IfOk result (λ step. step.parts.value.noted ≡ shows (record_at shelf.now.records own.id) t) }
    ensures ready { IfOk result (λ step. IsReadyBehind topology.now shelf.now first step.parts.value) }
{
    let known = Known {
        records: &shelf.records,
        own: own.get(),
        waits: &shelf.waits,
        shard: shelf.actor.shard(),
    };
    let alloc = own.get().waiters.allocator();
    let plan = planned(alloc, &known, is_stable(there))?;
    let released = release(
        alloc,
        topology,
        shelf.actor,
        &shelf.cells,
        &known,
        plan.done.as_slice(),
    )?;
    let Released { sent, writes } = released;
    let sent = join(first, sent)?;
    let made = StepParts {
        own,
        noted: is_shown(there, t),
        plan,
        sent,
        writes,
    };
    let step = PreparedStep::new(alloc, made)?;
    Ok(step)
}

fn join(first: Messages, rest: Messages) -> Result<Messages, OutOfMemory>
    ensures { IfOk result (λ all. all ≡ first ++ rest) }
{
    if first.is_empty() {
        return Ok(rest);
    }
    let mut first = first.into_vec();
    let mut rest = rest.into_vec();
    let room = first.len().saturating_add(rest.len());
    let mut all = Vec::with_capacity(*first.allocator(), room)?;
    all.append(&mut first)?;
    all.append(&mut rest)?;
    Ok(Messages::from_vec(all))
}

// Takes a step that was planned. Before it changes anything the writes of the last one are moved into the map.
fn execute(
    shelf: &mut Shelf,
    topology: &Topology,
    step: StepParts,
    news: &News<'_>,
) -> Result<Messages, OutOfMemory>
    requires { IsTrue step.noted → IsTrue (shows (record_at shelf.old.records step.own.id) news.now.t) }
    ensures ok { IfOk result (λ sent. (first : List Message) → IsReadyBehind topology.now shelf.old first step
        → IsExecuted topology.now shelf.old shelf.new step.own (record { body = news.now.body.now; t = news.now.t; top = news.now.top }) first sent) }
    ensures err { OnErr result (IsSame shelf.old shelf.new) }
{
    let StepParts {
        own,
        noted,
        plan,
        sent,
        writes,
    } = step;
    shelf.cells.flush()?;
    learn_with_room(shelf, topology, own.get().id, noted, &plan, news)?;
    commit(shelf, own, plan, writes);
    Ok(sent)
}

// Takes the last memory that the step needs.
fn learn_with_room(
    shelf: &mut Shelf,
    topology: &Topology,
    id: TxnId,
    noted: bool,
    plan: &Plan,
    news: &News<'_>,
) -> Result<(), OutOfMemory>
    requires { IsTrue noted → IsTrue (shows (record_at shelf.old.records id) news.now.t) }
    ensures ok { OnOk result (IsLearntWithRoom shelf.old shelf.new id plan.now (share_at topology.now shelf.old id news.now.body.now) (record { body = news.now.body.now; t = news.now.t; top = news.now.top })) }
    ensures err { OnErr result (IsSame shelf.old shelf.new) }
{
    make_room(&mut shelf.waits, &plan.touched)?;
    if noted {
        shelf.greatest = shelf.greatest.max(news.top);
        return Ok(());
    }
    shelf.learn_body(topology, id, news.body, Some(news.t), news.top)
}

// Changes the shelf as planned. Takes no memory.
fn commit(shelf: &mut Shelf, own: KeptRecord, plan: Plan, writes: CellList)
    requires known { IsTrue (is_some (record_at shelf.old.records own.id)) }
    requires room { AllFit plan.touched shelf.old.waits }
    requires written { shelf.old.cells.pending ≡ [] }
    ensures { IsCommitted shelf.old shelf.new own plan writes }
{
    let Plan { done, touched } = plan;
    let mut own = own;
    let id = own.get().id;
    let turns = done.as_slice();
    take_own_turns(&mut own, id, turns);
    keep(&mut shelf.records, id, own);
    take_other_turns(&mut shelf.records, id, turns);
    change_lists(&mut shelf.waits, touched);
    shelf.cells.write(writes);
}
