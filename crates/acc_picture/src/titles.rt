//! What a pointer on a mark is told.
use crate::columns::Column;
use crate::fields::push_message;
use crate::pieces::{Piece, put};
use crate::scene::Scene;
use acc_base::OutOfMemory;
use acc_message::{Event, Shown};
use acc_stamp::Actor;

/// Appends all that is to say of an item, in a tag of its own.
pub(crate) fn push_title(
    text: &mut Vec<u8>,
    scene: &Scene<'_>,
    place: u64,
    column: Column,
    item: Shown<'_>,
) -> Result<(), OutOfMemory> {
    put(
        text,
        &[
            Piece::Raw("<title>item "),
            Piece::Number(place),
            Piece::Raw(": "),
        ],
    )?;
    push_item(text, scene, item)?;
    push_lines(text, scene, column)?;
    put(text, &[Piece::Raw("</title>")])
}

fn push_item(text: &mut Vec<u8>, scene: &Scene<'_>, item: Shown<'_>) -> Result<(), OutOfMemory> {
    match item {
        Shown::Step {
            actor,
            lost,
            event,
            ..
        } => {
            push_actor(text, actor)?;
            push_event(text, scene, event)?;
            push_lost(text, lost)
        }
        Shown::Skipped { step, .. } => put(
            text,
            &[
                Piece::Raw("step "),
                Piece::Number(u64::from(step)),
                Piece::Raw(" of the schedule was passed over"),
            ],
        ),
        Shown::Down { actor } => {
            push_actor(text, actor)?;
            put(text, &[Piece::Raw(" goes down")])
        }
    }
}

/// Appends what an actor is, and its number.
pub(crate) fn push_actor(text: &mut Vec<u8>, actor: Actor) -> Result<(), OutOfMemory> {
    let word = if actor.shard() == 0 {
        "node "
    } else {
        "store "
    };
    put(text, &[Piece::Raw(word), Piece::Actor(actor)])
}

fn push_event(text: &mut Vec<u8>, scene: &Scene<'_>, event: Event) -> Result<(), OutOfMemory> {
    match event {
        Event::Begin { txn } => push_named(text, scene, " begins ", txn),
        Event::Recover { txn } => push_named(text, scene, " takes over ", txn),
        Event::Slow { txn } => push_named(text, scene, " gives up the fast path of ", txn),
        Event::Message { number } => push_taken(text, scene, number),
        Event::Restart { kept } => put(
            text,
            &[
                Piece::Raw(" comes back; stopped steps in its journal: "),
                Piece::Number(u64::from(kept)),
            ],
        ),
    }
}

fn push_named(
    text: &mut Vec<u8>,
    scene: &Scene<'_>,
    word: &str,
    txn: u32,
) -> Result<(), OutOfMemory> {
    put(
        text,
        &[Piece::Raw(word), Piece::Escaped(scene.cast.name_of(txn))],
    )
}

fn push_taken(text: &mut Vec<u8>, scene: &Scene<'_>, number: u64) -> Result<(), OutOfMemory> {
    put(text, &[Piece::Raw(" takes ")])?;
    if let Some(sent) = scene.sent.get(number as usize) {
        if let Some(message) = sent.message(scene.items) {
            push_message(text, &scene.cast, number, message)?;
        }
    }
    Ok(())
}

fn push_lost(text: &mut Vec<u8>, lost: bool) -> Result<(), OutOfMemory> {
    if lost {
        put(
            text,
            &[Piece::Raw("\nits disk failed in this step, and what it sent is lost")],
        )?;
    }
    Ok(())
}

fn push_lines(text: &mut Vec<u8>, scene: &Scene<'_>, column: Column) -> Result<(), OutOfMemory> {
    for at in column.first..column.first.saturating_add(column.lines) {
        if let Some(line) = scene.lines.get(at) {
            put(text, &[Piece::Raw("\n"), Piece::Escaped(line.as_slice())])?;
        }
    }
    Ok(())
}
