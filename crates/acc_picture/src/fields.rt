//! What a message says, line by line.
use crate::cast::Cast;
use crate::pieces::{Piece, put};
use acc_base::OutOfMemory;
use acc_deps::{Deps, Settled, SharedAccepted, View};
use acc_message::{Message, ReadAnswer};
use acc_stamp::{Stamp, TxnId};
use acc_txn::{Outcome, Reply, Verdict};
use acc_value::{Key, Value};

/// The kind of a message.
pub(crate) fn kind_of(message: &Message) -> &'static str {
    match message {
        Message::PreAccept { .. } => "PreAccept",
        Message::PreAcceptOk { .. } => "PreAcceptOk",
        Message::Accept { .. } => "Accept",
        Message::AcceptOk { .. } => "AcceptOk",
        Message::Commit { .. } => "Commit",
        Message::CommitOk { .. } => "CommitOk",
        Message::Stable { .. } => "Stable",
        Message::ReadOk { .. } => "ReadOk",
        Message::Apply { .. } => "Apply",
        Message::Recover { .. } => "Recover",
        Message::RecoverOk { .. } => "RecoverOk",
        Message::Nack { .. } => "Nack",
        Message::Decided { .. } => "Decided",
        Message::Inform { .. } => "Inform",
    }
}

/// Appends a message with all its fields but the body, each on a line of its own.
pub(crate) fn push_message(
    text: &mut Vec<u8>,
    cast: &Cast<'_>,
    number: u64,
    message: &Message,
) -> Result<(), OutOfMemory> {
    let envelope = message.envelope();
    put(
        text,
        &[
            Piece::Raw("message "),
            Piece::Number(number),
            Piece::Raw(": "),
            Piece::Raw(kind_of(message)),
            Piece::Raw(" of "),
            Piece::Escaped(cast.name(envelope.id)),
            Piece::Raw("\nfrom "),
            Piece::Actor(envelope.from),
            Piece::Raw(" to "),
            Piece::Actor(envelope.to),
            Piece::Raw("\nballot "),
            Piece::Stamp(envelope.ballot.0),
        ],
    )?;
    push_content(text, cast, message)
}

// What a message says beyond its envelope.
fn push_content(text: &mut Vec<u8>, cast: &Cast<'_>, message: &Message) -> Result<(), OutOfMemory> {
    match message {
        Message::PreAcceptOk { vote, deps, .. } => push_proposal(text, cast, "vote", *vote, deps),
        Message::Accept { t, deps, .. }
        | Message::Commit { t, deps, .. }
        | Message::Stable { t, deps, .. }
        | Message::Decided { t, deps, .. } => push_proposal(text, cast, "timestamp", *t, deps),
        Message::AcceptOk { deps, .. } => push_deps(text, cast, deps),
        Message::ReadOk { answer, .. } => push_answer(text, answer),
        Message::Apply {
            t,
            deps,
            outcome,
            ..
        } => {
            push_proposal(text, cast, "timestamp", *t, deps)?;
            push_outcome(text, outcome.outcome())
        }
        Message::RecoverOk { view, .. } => push_view(text, cast, view.view()),
        Message::Nack { promised, .. } => push_stamp(text, "promised", promised.0),
        Message::Inform { outcome, .. } => push_outcome(text, outcome.outcome()),
        Message::PreAccept { .. } | Message::CommitOk { .. } | Message::Recover { .. } => Ok(()),
    }
}

fn push_stamp(text: &mut Vec<u8>, name: &str, stamp: Stamp) -> Result<(), OutOfMemory> {
    put(
        text,
        &[
            Piece::Raw("\n"),
            Piece::Raw(name),
            Piece::Raw(" "),
            Piece::Stamp(stamp),
        ],
    )
}

fn push_proposal(
    text: &mut Vec<u8>,
    cast: &Cast<'_>,
    name: &str,
    stamp: Stamp,
    deps: &Deps,
) -> Result<(), OutOfMemory> {
    push_stamp(text, name, stamp)?;
    push_deps(text, cast, deps)
}

fn push_deps(text: &mut Vec<u8>, cast: &Cast<'_>, deps: &Deps) -> Result<(), OutOfMemory> {
    let shards = deps.by_shard();
    if shards.is_empty() {
        return put(text, &[Piece::Raw("\ndependencies -")]);
    }
    for shard in shards {
        put(
            text,
            &[
                Piece::Raw("\ndependencies in shard "),
                Piece::Number(u64::from(shard.shard)),
                Piece::Raw(":"),
            ],
        )?;
        push_names(text, cast, shard.ids.as_slice())?;
    }
    Ok(())
}

fn push_names(text: &mut Vec<u8>, cast: &Cast<'_>, ids: &[TxnId]) -> Result<(), OutOfMemory> {
    for id in ids {
        put(text, &[Piece::Raw(" "), Piece::Escaped(cast.name(*id))])?;
    }
    Ok(())
}

fn push_answer(text: &mut Vec<u8>, answer: &ReadAnswer) -> Result<(), OutOfMemory> {
    match answer {
        ReadAnswer::Values(cells) => push_cells(text, "\nreads ", cells.pairs()),
        ReadAnswer::Known(outcome) => push_outcome(text, outcome),
    }
}

fn push_outcome(text: &mut Vec<u8>, outcome: &Outcome) -> Result<(), OutOfMemory> {
    push_reply(text, &outcome.reply)?;
    push_cells(text, "\nwrites ", outcome.writes.pairs())
}

fn push_reply(text: &mut Vec<u8>, reply: &Reply) -> Result<(), OutOfMemory> {
    let verdict = match reply.verdict {
        Verdict::Ok => "\noutcome ok",
        Verdict::Skipped => "\noutcome skipped",
        Verdict::Overflow => "\noutcome overflow",
    };
    put(text, &[Piece::Raw(verdict)])?;
    for value in reply.values.as_slice() {
        put(text, &[Piece::Raw(" ")])?;
        push_cell(text, value)?;
    }
    Ok(())
}

fn push_cells<'x>(
    text: &mut Vec<u8>,
    word: &'x str,
    pairs: &'x [(Key, Option<Value>)],
) -> Result<(), OutOfMemory> {
    for (key, cell) in pairs {
        put(
            text,
            &[
                Piece::Raw(word),
                Piece::Escaped(key.table.as_slice()),
                Piece::Raw("."),
                Piece::Escaped(key.key.as_slice()),
                Piece::Raw(" = "),
            ],
        )?;
        push_cell(text, cell)?;
    }
    Ok(())
}

fn push_cell(text: &mut Vec<u8>, cell: &Option<Value>) -> Result<(), OutOfMemory> {
    match cell {
        Some(Value::Number(number)) => acc_base::push_signed_number(text, *number),
        Some(Value::Text(value)) => put(text, &[Piece::Escaped(value.as_slice())]),
        None => put(text, &[Piece::Raw("null")]),
    }
}

fn push_view(text: &mut Vec<u8>, cast: &Cast<'_>, view: &View) -> Result<(), OutOfMemory> {
    push_proposal(text, cast, "vote", view.vote, &view.vote_deps)?;
    push_accepted(text, "\naccepted ", &view.accepted)?;
    push_accepted(text, "\ncommitted ", &view.committed)?;
    push_stable(text, &view.stable)?;
    if view.superseded {
        put(text, &[Piece::Raw("\nsuperseded")])?;
    }
    if !view.waits.is_empty() {
        put(text, &[Piece::Raw("\nwaits for")])?;
    }
    push_names(text, cast, view.waits.as_slice())
}

fn push_accepted(
    text: &mut Vec<u8>,
    word: &str,
    accepted: &Option<SharedAccepted>,
) -> Result<(), OutOfMemory> {
    match accepted {
        Some(shared) => {
            let accepted = shared.accepted();
            put(
                text,
                &[
                    Piece::Raw(word),
                    Piece::Stamp(accepted.t),
                    Piece::Raw(" by ballot "),
                    Piece::Stamp(accepted.ballot.0),
                ],
            )
        }
        None => Ok(()),
    }
}

fn push_stable(text: &mut Vec<u8>, stable: &Option<Settled>) -> Result<(), OutOfMemory> {
    match stable {
        Some(settled) => push_stamp(text, "stable", settled.t),
        None => Ok(()),
    }
}
