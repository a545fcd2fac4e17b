//! The steps, as they are planned.
ghost use Rattle.std.specs.Prelude.{◌≡◌, [], ◌∷◌, Some, IsTrue, IfOk};
ghost use Rattle.acc_record.specs.declared.change.Change.TheVariants.{Accepts, Commits};
ghost use Rattle.acc_record.specs.Learning.{deps_below, share_at};
ghost use Rattle.acc_record.specs.Planned.{IsPlannedAs, IsPlanned};
ghost use Rattle.acc_record.specs.Refusal.{refusal_or};
ghost use Rattle.acc_accept.specs.Accepting.{is_accept, is_commit, refusal_at, accept_ok, commit_ok, unless_refused};

use acc_base::OutOfMemory;
use acc_deps::laws::dependencies_are_sets;
use acc_deps::{Accepted, Deps, SharedAccepted};
use acc_index::Share;
use acc_message::{Message, top};
use acc_record::{Change, QuietPlan, Record, Shelf, answering, note_of, refusal};
use acc_stamp::TxnId;
use acc_topology::Topology;
use acc_txn::Body;
use std::alloc::Global;

/// Plans the step of a store that takes an Accept. Nothing changes yet.
pub fn prepare_accept(
    shelf: &Shelf,
    topology: &Topology,
    m: &Message,
) -> Result<QuietPlan, OutOfMemory>
    requires accept { IsTrue (is_accept m.now) }
    ensures { IfOk result (IsPlanned topology.now shelf.now m.now) }
{
    match m {
        Message::Accept {
            id,
            ballot,
            body,
            t,
            deps,
            ..
        } => {
            let share = shelf.share(topology, *id, body)?;
            let proposed = Accepted {
                ballot: *ballot,
                t: *t,
                deps: deps.copy()?,
            };
            accept(shelf, *id, body, share, proposed, top(m))
        }
        _ => unreachable!(),
    }
}

/// Plans the step of a store that takes a Commit. Nothing changes yet.
pub fn prepare_commit(
    shelf: &Shelf,
    topology: &Topology,
    m: &Message,
) -> Result<QuietPlan, OutOfMemory>
    requires commit { IsTrue (is_commit m.now) }
    ensures { IfOk result (IsPlanned topology.now shelf.now m.now) }
{
    match m {
        Message::Commit {
            id,
            ballot,
            body,
            t,
            deps,
            ..
        } => {
            let fixed = Accepted {
                ballot: *ballot,
                t: *t,
                deps: deps.copy()?,
            };
            commit(shelf, topology, *id, body, fixed, top(m))
        }
        _ => unreachable!(),
    }
}

fn accept(
    shelf: &Shelf,
    id: TxnId,
    body: &Body,
    share: Share,
    proposed: Accepted,
    top: u64,
) -> Result<QuietPlan, OutOfMemory>
    ensures plans { IfOk result (IsPlannedAs shelf.now id body.now share (Some proposed.t) top) }
    ensures changes { IfOk result (λ plan. plan.change ≡ unless_refused (refusal_at shelf.now id proposed.ballot) (Accepts proposed)) }
    ensures sends { IfOk result (λ plan. plan.sent ≡ refusal_or (refusal_at shelf.now id proposed.ballot) (accept_ok shelf.now id proposed.ballot share proposed.t) ∷ []) }
{
    let ballot = proposed.ballot;
    let t = proposed.t;
    let there = shelf.find(id);
    if let Some(refused) = refusal(shelf, there, id, ballot, ballot)? {
        let note = note_of(there, id, share, Some(t));
        return QuietPlan::new(there, id, body, note, top, Change::Stays, refused);
    }
    let deps = deps_told(shelf, there, id, &share, &proposed)?;
    let answer = answering(shelf, id, ballot).accept_ok(deps);
    let note = note_of(there, id, share, Some(t));
    let accepted = SharedAccepted::new(body.parts().lets.allocator(), proposed)?;
    let change = Change::Accepts(accepted);
    QuietPlan::new(there, id, body, note, top, change, answer)
}

// The known rivals below the proposed timestamp. Where these are the dependencies of the vote or of the proposal, one list serves
// both, since answers are kept as long as the run.
fn deps_told(
    shelf: &Shelf,
    there: Option<&Record>,
    id: TxnId,
    share: &Share,
    proposed: &Accepted,
) -> Result<Deps, OutOfMemory>
    ensures { IfOk result (λ deps. deps ≡ deps_below shelf.now id share.now proposed.now.t) }
{
    let deps = shelf.deps_below(id, share, proposed.t)?;
    match there {
        Some(record) => {
            let deps = at_hand(deps, &record.vote_deps)?;
            at_hand(deps, &proposed.deps)
        }
        None => at_hand(deps, &proposed.deps),
    }
}

// These dependencies, which share the list of others that are the same.
fn at_hand(deps: Deps, others: &Deps) -> Result<Deps, OutOfMemory>
    ensures { IfOk result (λ same. same ≡ deps) }
{
    dependencies_are_sets();
    if deps == *others {
        return others.copy();
    }
    Ok(deps)
}

fn commit(
    shelf: &Shelf,
    topology: &Topology,
    id: TxnId,
    body: &Body,
    fixed: Accepted,
    top: u64,
) -> Result<QuietPlan, OutOfMemory>
    ensures plans { IfOk result (IsPlannedAs shelf.now id body.now (share_at topology.now shelf.now id body.now) (Some fixed.t) top) }
    ensures changes { IfOk result (λ plan. plan.change ≡ unless_refused (refusal_at shelf.now id fixed.ballot) (Commits fixed)) }
    ensures sends { IfOk result (λ plan. plan.sent ≡ refusal_or (refusal_at shelf.now id fixed.ballot) (commit_ok shelf.now id fixed.ballot) ∷ []) }
{
    let ballot = fixed.ballot;
    let there = shelf.find(id);
    let note = shelf.note_of_body(topology, there, id, body, Some(fixed.t))?;
    if let Some(refused) = refusal(shelf, there, id, ballot, ballot)? {
        return QuietPlan::new(there, id, body, note, top, Change::Stays, refused);
    }
    let answer = answering(shelf, id, ballot).commit_ok();
    let committed = committed(there, body.parts().lets.allocator(), fixed)?;
    let change = Change::Commits(committed);
    QuietPlan::new(there, id, body, note, top, change, answer)
}

// What is committed. Where the record has accepted the same last, one place serves both.
fn committed(
    there: Option<&Record>,
    alloc: Global,
    fixed: Accepted,
) -> Result<SharedAccepted, OutOfMemory>
    ensures { IfOk result (λ committed. committed ≡ fixed) }
{
    if let Some(
        Record {
            accepted: Some(accepted),
            ..
        },
    ) = there
    {
        if is_same(accepted.accepted(), &fixed) {
            return accepted.copy();
        }
    }
    SharedAccepted::new(alloc, fixed)
}

// Whether two proposals are the same.
#[tactic(auto, using(crate::proofs::Same::same_accepted))]
fn is_same(accepted: &Accepted, fixed: &Accepted) -> bool
    ensures { IsTrue result → accepted.now ≡ fixed.now }
{
    dependencies_are_sets();
    accepted.ballot == fixed.ballot && accepted.t == fixed.t && accepted.deps == fixed.deps
}
