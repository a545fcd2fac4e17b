//! The step, as it is planned.
ghost use Rattle.std.specs.Prelude.{◌≡◌, ◌<◌, ◌^◌, [], ◌∷◌, IsTrue, IfOk};
ghost use Rattle.acc_message.specs.Fields.{top_of};
ghost use Rattle.acc_record.specs.Learning.{vote_at};
ghost use Rattle.acc_record.specs.Planned.{IsPlannedAs, IsPlanned};
ghost use Rattle.acc_preaccept.specs.PreAccepting.{is_preaccept, refusal_at, answer_at, stamp_then, top_then, change_then};

use acc_base::OutOfMemory;
use acc_index::Share;
use acc_message::{Message, top};
use acc_record::{Change, QuietPlan, Shelf, answering, drawn, note_of, refusal};
use acc_stamp::{Ballot, TxnId};
use acc_topology::Topology;
use acc_txn::Body;

/// Plans the step of a store that takes a PreAccept. Nothing changes yet.
pub fn prepare_preaccept(
    shelf: &Shelf,
    topology: &Topology,
    m: &Message,
) -> Result<QuietPlan, OutOfMemory>
    requires preaccept { IsTrue (is_preaccept m.now) }
    requires top { top_of m.now < 2 ^ 62 }
    requires greatest { shelf.now.greatest < 2 ^ 62 }
    ensures { IfOk result (IsPlanned topology.now shelf.now m.now) }
{
    match m {
        Message::PreAccept {
            id,
            ballot,
            body,
            ..
        } => {
            let share = shelf.share(topology, *id, body)?;
            prepare(shelf, *id, *ballot, body, share, top(m))
        }
        _ => unreachable!(),
    }
}

fn prepare(
    shelf: &Shelf,
    id: TxnId,
    ballot: Ballot,
    body: &Body,
    share: Share,
    top: u64,
) -> Result<QuietPlan, OutOfMemory>
    requires greatest { shelf.now.greatest < 2 ^ 62 }
    requires top { top < 2 ^ 62 }
    ensures plans { IfOk result (IsPlannedAs shelf.now id body.now share (stamp_then (refusal_at shelf.now id ballot) (vote_at shelf.now id share top)) (top_then (refusal_at shelf.now id ballot) shelf.now.actor (vote_at shelf.now id share top) top)) }
    ensures changes { IfOk result (λ plan. plan.change ≡ change_then (refusal_at shelf.now id ballot) (vote_at shelf.now id share top)) }
    ensures sends { IfOk result (λ plan. plan.sent ≡ answer_at shelf.now id ballot share top ∷ []) }
{
    let there = shelf.find(id);
    if let Some(refused) = refusal(shelf, there, id, ballot, Ballot::ZERO)? {
        let note = note_of(there, id, share, None);
        return QuietPlan::new(there, id, body, note, top, Change::Stays, refused);
    }
    let vote = shelf.vote_by(there, id, &share, top)?;
    let deps = vote.deps.copy()?;
    let answer = answering(shelf, id, ballot).pre_accept_ok(vote.stamp, deps);
    let note = note_of(there, id, share, Some(vote.stamp));
    let top = top.max(drawn(shelf.actor, vote.stamp));
    QuietPlan::new(there, id, body, note, top, Change::Votes(vote), answer)
}
