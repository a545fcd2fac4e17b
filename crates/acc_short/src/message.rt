//! Whether messages fit their format.
ghost use Rattle.std.specs.Prelude.{◌≡◌, ◌<◌, ◌^◌, IsTrue, All};
ghost use Rattle.std.specs.List.{list_all};
ghost use Rattle.acc_message_code.specs.Short.{IsShortMessage};
ghost use Rattle.acc_message_code.specs.Weight.{weight_of_all};
ghost use Rattle.acc_short.specs.Tests.{is_short_answer, has_short_content, is_short_message};

use crate::deps::{deps_are_short, view_is_short};
use crate::outcome::{cells_are_short, outcome_is_short};
use acc_message::{Message, ReadAnswer};
use acc_message_code::message_length;

fn answer_is_short(answer: &ReadAnswer) -> bool
    ensures { result ≡ is_short_answer answer.now }
{
    match answer {
        ReadAnswer::Values(cells) => cells_are_short(cells),
        ReadAnswer::Known(outcome) => outcome_is_short(outcome),
    }
}

fn content_is_short(m: &Message) -> bool
    ensures { result ≡ has_short_content m.now }
{
    match m {
        Message::PreAccept { .. }
        | Message::CommitOk { .. }
        | Message::Recover { .. }
        | Message::Nack { .. } => true,
        Message::PreAcceptOk { deps, .. }
        | Message::Accept { deps, .. }
        | Message::AcceptOk { deps, .. }
        | Message::Commit { deps, .. }
        | Message::Stable { deps, .. }
        | Message::Decided { deps, .. } => deps_are_short(deps),
        Message::ReadOk { answer, .. } => answer_is_short(answer),
        Message::Apply { deps, outcome, .. } => {
            deps_are_short(deps) && outcome_is_short(outcome.outcome())
        }
        Message::RecoverOk { view, .. } => view_is_short(view.view()),
        Message::Inform { outcome, .. } => outcome_is_short(outcome.outcome()),
    }
}

fn message_is_short(m: &Message) -> bool
    ensures { result ≡ is_short_message m.now }
{
    m.from().0 < 65536 && (m.to().0 < 65536 && content_is_short(m))
}

fn each_is_short(messages: &[Message]) -> bool
    ensures { result ≡ list_all is_short_message messages.now }
{
    messages.iter().all(|m| message_is_short(m))
}

/// Whether a message fits the format of messages.
pub fn is_short(m: &Message) -> bool
    ensures test { result ≡ is_short_message m.now }
    ensures short { IsTrue result → IsShortMessage m.now }
{
    message_is_short(m)
}

// Whether the bytes of these messages are fewer than 2^62, and some more where one more goes beyond.
fn are_light(messages: &[Message]) -> bool
    requires { All IsShortMessage messages.now }
    ensures { IsTrue result → weight_of_all messages.now < 2 ^ 63 }
{
    let mut weight: u64 = 0;
    for message in messages {
        if weight >= 1 << 62 {
            return false;
        }
        weight += message_length(message);
    }
    true
}

/// Whether each message fits the format of messages, and their bytes together are counted in 63 bits. More than 2^62 bytes may be
/// refused.
pub fn are_sendable(messages: &[Message]) -> bool
    ensures short { IsTrue result → All IsShortMessage messages.now }
    ensures weight { IsTrue result → weight_of_all messages.now < 2 ^ 63 }
{
    if !each_is_short(messages) {
        return false;
    }
    are_light(messages)
}
