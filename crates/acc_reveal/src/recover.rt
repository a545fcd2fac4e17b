//! A store's step on Recover, as it is planned.
ghost use Rattle.std.specs.Prelude.{◌≡◌, ◌<◌, ◌^◌, ◌∷◌, [], IsTrue, IfOk};
ghost use Rattle.std.specs.Option.{option_copied};
ghost use Rattle.acc_message.specs.Fields.{top_of};
ghost use Rattle.acc_record.specs.Planned.{IsPlannedAs, IsPlanned};
ghost use Rattle.acc_reveal.specs.Revealed.{promised_in, is_allowed, is_recover, answer_at, view_at, stamp_if, top_if, change_if};

use crate::view::view;
use acc_base::OutOfMemory;
use acc_deps::SharedView;
use acc_index::Share;
use acc_message::{Message, top};
use acc_record::{Change, QuietPlan, Record, Shelf, Vote, answering, drawn, note_of};
use acc_stamp::{Ballot, TxnId};
use acc_topology::Topology;
use acc_txn::Body;

/// Plans the step of a store that takes a Recover. Nothing changes yet.
pub fn prepare_recover(
    shelf: &Shelf,
    topology: &Topology,
    m: &Message,
) -> Result<QuietPlan, OutOfMemory>
    requires recover { IsTrue (is_recover m.now) }
    requires top { top_of m.now < 2 ^ 62 }
    requires greatest { shelf.now.greatest < 2 ^ 62 }
    ensures { IfOk result (IsPlanned topology.now shelf.now m.now) }
{
    match m {
        Message::Recover {
            id,
            ballot,
            body,
            ..
        } => {
            let share = shelf.share(topology, *id, body)?;
            prepare(shelf, *id, *ballot, body, share, top(m))
        }
        _ => unreachable!(),
    }
}

fn prepare(
    shelf: &Shelf,
    id: TxnId,
    ballot: Ballot,
    body: &Body,
    share: Share,
    top: u64,
) -> Result<QuietPlan, OutOfMemory>
    requires greatest { shelf.now.greatest < 2 ^ 62 }
    requires top { top < 2 ^ 62 }
    ensures plans { IfOk result (IsPlannedAs shelf.now id body.now share (stamp_if (is_allowed shelf.now id ballot) (view_at shelf.now id share top)) (top_if (is_allowed shelf.now id ballot) shelf.now top (view_at shelf.now id share top))) }
    ensures changes { IfOk result (λ plan. plan.change ≡ change_if (is_allowed shelf.now id ballot) ballot (view_at shelf.now id share top)) }
    ensures sends { IfOk result (λ plan. plan.sent ≡ answer_at shelf.now id ballot share top ∷ []) }
{
    let there = shelf.find(id);
    let promised = promised(there);
    if promised < ballot {
        let view = view(shelf, id, &share, top)?;
        let deps = view.vote_deps.copy()?;
        let stamp = view.vote;
        let answer = answering(shelf, id, ballot).recover_ok(SharedView::new(view)?);
        let note = note_of(there, id, share, Some(stamp));
        let top = top.max(drawn(shelf.actor, stamp));
        let vote = Vote { stamp, deps };
        let change = Change::Grants { ballot, vote };
        QuietPlan::new(there, id, body, note, top, change, answer)
    } else {
        let answer = answering(shelf, id, ballot).nack(promised);
        let note = note_of(there, id, share, None);
        QuietPlan::new(there, id, body, note, top, Change::Stays, answer)
    }
}

// The ballot that a record promises.
fn promised(there: Option<&Record>) -> Ballot
    ensures { result ≡ promised_in (option_copied there.entry) }
{
    match there {
        Some(record) => record.promised,
        None => Ballot::ZERO,
    }
}
