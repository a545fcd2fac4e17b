//! The greatest `h` of a message.
ghost use Rattle.std.specs.Prelude.{◌≡◌};
ghost use Rattle.acc_message.specs.Fields.{top_of, top_of_view, top_of_accepted, top_of_settled, top_of_own};

use crate::message::Message;
use acc_deps::{Settled, SharedAccepted, View};

/// The greatest `h` that a message names: that of its id, ballot, timestamp, vote or promise, and those of a view's vote,
/// timestamps and ballots. Dependencies and waits don't count.
pub fn top(m: &Message) -> u64
    ensures { result ≡ top_of m.now }
{
    let envelope = m.envelope();
    envelope
        .id
        .0
        .h
        .max(envelope.ballot.0.h)
        .max(top_of_fields(m))
}

fn top_of_fields(m: &Message) -> u64
    ensures { result ≡ top_of_own m.now }
{
    match m {
        Message::PreAccept { .. }
        | Message::AcceptOk { .. }
        | Message::CommitOk { .. }
        | Message::ReadOk { .. }
        | Message::Recover { .. }
        | Message::Inform { .. } => 0,
        Message::PreAcceptOk { vote, .. } => vote.h,
        Message::Accept { t, .. }
        | Message::Commit { t, .. }
        | Message::Stable { t, .. }
        | Message::Apply { t, .. }
        | Message::Decided { t, .. } => t.h,
        Message::RecoverOk { view, .. } => top_of_a_view(view.view()),
        Message::Nack { promised, .. } => promised.0.h,
    }
}

fn top_of_a_view(view: &View) -> u64
    ensures { result ≡ top_of_view view.now }
{
    let accepted = top_of_record(&view.accepted);
    let committed = top_of_record(&view.committed);
    let stable = top_of_stable(&view.stable);
    view.vote.h.max(accepted.max(committed.max(stable)))
}

fn top_of_record(kept: &Option<SharedAccepted>) -> u64
    ensures { result ≡ top_of_accepted kept.now }
{
    match kept {
        Some(shared) => {
            let accepted = shared.accepted();
            accepted.ballot.0.h.max(accepted.t.h)
        }
        None => 0,
    }
}

fn top_of_stable(stable: &Option<Settled>) -> u64
    ensures { result ≡ top_of_settled stable.now }
{
    match stable {
        Some(settled) => settled.t.h,
        None => 0,
    }
}
