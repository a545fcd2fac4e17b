//! How many bytes a message takes.
ghost use Rattle.std.specs.Prelude.{◌≡◌, ◌<◌, ◌+◌, ◌^◌, length};
ghost use Rattle.acc_txn.specs.BodySpelling.{body_bytes};
ghost use Rattle.acc_message_code.specs.Spelling.{deps_bytes};
ghost use Rattle.acc_message_code.specs.Short.{AreShortDeps, IsShortAnswer, HasShortContent, IsShortMessage};
ghost use Rattle.acc_message_code.specs.MessageSpelling.{answer_bytes, content_bytes, message_bytes};

use crate::envelope::HEAD;
use crate::lengths::{dated_length, deps_length, view_length};
use crate::stamps::STAMP;
use acc_code::{body_length, cells_length, outcome_length};
use acc_deps::Deps;
use acc_message::{Message, ReadAnswer};
use acc_txn::Body;

#[tactic(auto, unfolding(crate::specs::MessageSpelling::answer_bytes))]
fn answer_length(answer: &ReadAnswer) -> u64
    requires { IsShortAnswer answer.now }
    ensures exact { result ≡ length (answer_bytes answer.now) }
    ensures most { result < 2 ^ 20 }
{
    match answer {
        ReadAnswer::Values(cells) => 1 + cells_length(cells),
        ReadAnswer::Known(outcome) => 1 + outcome_length(outcome),
    }
}

fn proposal_length(body: &Body, deps: &Deps) -> u64
    requires { AreShortDeps deps.now }
    ensures exact { result ≡ length (body_bytes body.now) + (12 + length (deps_bytes deps.now)) }
    ensures most { result < 2 ^ 28 }
{
    body_length(body) + dated_length(deps)
}

#[tactic(auto, using(crate::proofs::ByteCounts::dated_takes, crate::proofs::ByteCounts::proposal_takes, crate::proofs::ByteCounts::apply_takes, crate::proofs::ByteCounts::stamp_takes), unfolding(crate::specs::MessageSpelling::content_bytes))]
fn content_length(m: &Message) -> u64
    requires { HasShortContent m.now }
    ensures exact { result ≡ length (content_bytes m.now) }
    ensures most { result < 2 ^ 30 }
{
    match m {
        Message::PreAccept { body, .. } | Message::Recover { body, .. } => body_length(body),
        Message::PreAcceptOk { deps, .. } | Message::Decided { deps, .. } => dated_length(deps),
        Message::Accept { body, deps, .. }
        | Message::Commit { body, deps, .. }
        | Message::Stable { body, deps, .. } => proposal_length(body, deps),
        Message::AcceptOk { deps, .. } => deps_length(deps),
        Message::CommitOk { .. } => 0,
        Message::ReadOk { answer, .. } => answer_length(answer),
        Message::Apply {
            body,
            deps,
            outcome,
            ..
        } => proposal_length(body, deps) + outcome_length(outcome.outcome()),
        Message::RecoverOk { view, .. } => view_length(view.view()),
        Message::Nack { .. } => STAMP,
        Message::Inform { outcome, .. } => outcome_length(outcome.outcome()),
    }
}

/// How many bytes `encode` makes of a message, without making them.
#[tactic(auto, using(crate::proofs::ByteCounts::message_takes))]
#[inline(always)]
pub fn message_length(m: &Message) -> u64
    requires { IsShortMessage m.now }
    ensures exact { result ≡ length (message_bytes m.now) }
    ensures most { result < 2 ^ 31 }
{
    HEAD + content_length(m)
}
