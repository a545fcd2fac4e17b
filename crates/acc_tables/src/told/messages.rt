//! Messages: the variant's name, and its fields in their order, each after a space.
use super::cells::push_pairs;
use super::outcomes::push_outcome;
use super::push;
use super::records::{push_actor, push_deps, push_settled, push_stamp, push_view};
use acc_base::OutOfMemory;
use acc_deps::Deps;
use acc_message::{Message, ReadAnswer};
use acc_print::print;
use acc_stamp::Stamp;
use acc_txn::{Body, Outcome};
use std::alloc::Global;

/// A message.
pub fn told_message(alloc: Global, message: &Message) -> Result<Vec<u8>, OutOfMemory> {
    let mut text = Vec::new(alloc);
    push(&mut text, name(message))?;
    push_envelope(&mut text, message)?;
    push_fields(&mut text, alloc, message)?;
    Ok(text)
}

fn name(message: &Message) -> &'static str {
    match message {
        Message::PreAccept { .. } => "PreAccept",
        Message::PreAcceptOk { .. } => "PreAcceptOk",
        Message::Accept { .. } => "Accept",
        Message::AcceptOk { .. } => "AcceptOk",
        Message::Commit { .. } => "Commit",
        Message::CommitOk { .. } => "CommitOk",
        Message::Stable { .. } => "Stable",
        Message::ReadOk { .. } => "ReadOk",
        Message::Apply { .. } => "Apply",
        Message::Recover { .. } => "Recover",
        Message::RecoverOk { .. } => "RecoverOk",
        Message::Nack { .. } => "Nack",
        Message::Decided { .. } => "Decided",
        Message::Inform { .. } => "Inform",
    }
}

fn push_envelope(text: &mut Vec<u8>, message: &Message) -> Result<(), OutOfMemory> {
    let envelope = message.envelope();
    push_actor(text, envelope.from)?;
    push_actor(text, envelope.to)?;
    push_stamp(text, envelope.id.0)?;
    push_stamp(text, envelope.ballot.0)
}

fn push_fields(text: &mut Vec<u8>, alloc: Global, message: &Message) -> Result<(), OutOfMemory> {
    match message {
        Message::PreAccept { body, .. } | Message::Recover { body, .. } => push_body(
            text, alloc, body,
        ),
        Message::Accept { body, t, deps, .. }
        | Message::Commit { body, t, deps, .. }
        | Message::Stable { body, t, deps, .. } => push_proposal(text, alloc, body, *t, deps),
        Message::Apply {
            body,
            t,
            deps,
            outcome,
            ..
        } => {
            push_proposal(text, alloc, body, *t, deps)?;
            push_enclosed(text, outcome.outcome())
        }
        _ => push_answer(text, message),
    }
}

/// The fields of the messages that have no body.
fn push_answer(text: &mut Vec<u8>, message: &Message) -> Result<(), OutOfMemory> {
    match message {
        Message::PreAcceptOk { vote, deps, .. } => push_settled(text, *vote, deps),
        Message::Decided { t, deps, .. } => push_settled(text, *t, deps),
        Message::AcceptOk { deps, .. } => push_deps(text, deps),
        Message::ReadOk { answer, .. } => push_read(text, answer),
        Message::RecoverOk { view, .. } => push_view(text, view.view()),
        Message::Nack { promised, .. } => push_stamp(text, promised.0),
        Message::Inform { outcome, .. } => push_enclosed(text, outcome.outcome()),
        _ => Ok(()),
    }
}

fn push_proposal(
    text: &mut Vec<u8>,
    alloc: Global,
    body: &Body,
    t: Stamp,
    deps: &Deps,
) -> Result<(), OutOfMemory> {
    push_body(text, alloc, body)?;
    push_settled(text, t, deps)
}

/// The canonical text in square brackets.
fn push_body(text: &mut Vec<u8>, alloc: Global, body: &Body) -> Result<(), OutOfMemory> {
    let canonical = print(alloc, body)?;
    push(text, " [")?;
    text.extend_from_slice(canonical.as_slice())?;
    push(text, "]")
}

/// An outcome in round brackets.
fn push_enclosed(text: &mut Vec<u8>, outcome: &Outcome) -> Result<(), OutOfMemory> {
    push(text, " (")?;
    push_outcome(text, outcome)?;
    push(text, ")")
}

/// `values` and the keys with their cells, or `known` and the outcome.
fn push_read(text: &mut Vec<u8>, answer: &ReadAnswer) -> Result<(), OutOfMemory> {
    match answer {
        ReadAnswer::Values(cells) => {
            push(text, " values")?;
            push_pairs(text, " ", cells.pairs())
        }
        ReadAnswer::Known(outcome) => {
            push(text, " known")?;
            push_enclosed(text, outcome)
        }
    }
}
