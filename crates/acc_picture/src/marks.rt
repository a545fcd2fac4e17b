//! Marks: what stands on the lanes.
use crate::columns::{Column, SHOWN};
use crate::lanes::y_of;
use crate::legend::{colour, shape};
use crate::pieces::{Piece, put};
use crate::scene::Scene;
use crate::titles::push_title;
use acc_base::OutOfMemory;
use acc_message::{Event, Shown};

/// Appends the mark of an item with its lines and all that is to say of it.
pub(crate) fn push_mark(
    text: &mut Vec<u8>,
    scene: &Scene<'_>,
    place: usize,
    column: Column,
    item: Shown<'_>,
) -> Result<(), OutOfMemory> {
    let y = height(scene, item);
    push_head(text, scene, column, item)?;
    push_shape(text, scene, column, item, y)?;
    push_sign(text, sign(item), column.x, y)?;
    push_label(text, scene, column, item, y)?;
    push_lines(text, scene, column, y)?;
    push_title(text, scene, place as u64, column, item)?;
    put(text, &[Piece::Raw("</g>\n")])
}

// How far below the top the mark of an item stands.
fn height(scene: &Scene<'_>, item: Shown<'_>) -> u64 {
    match item {
        Shown::Step { actor, .. } | Shown::Down { actor } => { y_of(scene.lanes.as_slice(), actor) }
        Shown::Skipped { .. } => scene.top,
    }
}

fn push_head(
    text: &mut Vec<u8>,
    scene: &Scene<'_>,
    column: Column,
    item: Shown<'_>,
) -> Result<(), OutOfMemory> {
    let word = match item {
        Shown::Step { lost: true, .. } => "e torn",
        Shown::Step { .. } => "e",
        Shown::Skipped { .. } => "skip",
        Shown::Down { .. } => "down",
    };
    put(
        text,
        &[
            Piece::Raw("<g class='"),
            Piece::Raw(word),
            Piece::Raw(" t"),
            Piece::Number(colour(scene.txn(item).unwrap_or(0))),
            Piece::Raw("' data-at='"),
            Piece::Number(column.at),
            Piece::Raw("'>"),
        ],
    )
}

// Appends the shape of the transaction that an item is of, if it is of one.
fn push_shape(
    text: &mut Vec<u8>,
    scene: &Scene<'_>,
    column: Column,
    item: Shown<'_>,
    y: u64,
) -> Result<(), OutOfMemory> {
    let Some(txn) = scene.txn(item) else {
        return Ok(());
    };
    put(
        text,
        &[
            Piece::Raw("<use href='#k"),
            Piece::Number(shape(txn)),
            Piece::Raw("' x='"),
            Piece::Number(column.x),
            Piece::Raw("' y='"),
            Piece::Number(y),
            Piece::Raw("'/>"),
        ],
    )
}

// The sign beside the shape, which tells what is done.
fn sign(item: Shown<'_>) -> &'static str {
    match item {
        Shown::Step { event, .. } => match event {
            Event::Begin { .. } => "begin",
            Event::Recover { .. } => "recover",
            Event::Slow { .. } => "slow",
            Event::Restart { .. } => "restart",
            Event::Message { .. } => "",
        },
        Shown::Skipped { .. } => "passed",
        Shown::Down { .. } => "dead",
    }
}

fn push_sign(text: &mut Vec<u8>, sign: &str, x: u64, y: u64) -> Result<(), OutOfMemory> {
    if sign.is_empty() {
        return Ok(());
    }
    put(
        text,
        &[
            Piece::Raw("<use class='sign' href='#"),
            Piece::Raw(sign),
            Piece::Raw("' x='"),
            Piece::Number(x),
            Piece::Raw("' y='"),
            Piece::Number(y),
            Piece::Raw("'/>"),
        ],
    )
}

// Appends the name of the transaction that a step is of below its shape, or the word of a step that the report has no line for.
fn push_label(
    text: &mut Vec<u8>,
    scene: &Scene<'_>,
    column: Column,
    item: Shown<'_>,
    y: u64,
) -> Result<(), OutOfMemory> {
    let Shown::Step { event, .. } = item else {
        return Ok(());
    };
    let Some(txn) = scene.txn(item) else {
        return Ok(());
    };
    push_at(text, "name", column.x, y.saturating_add(15))?;
    if let Event::Slow { .. } = event {
        put(text, &[Piece::Raw("slow ")])?;
    }
    let name = scene.cast.name_of(txn);
    push_cut(text, name, 6)?;
    put(text, &[Piece::Raw("</text>")])
}

fn push_at(text: &mut Vec<u8>, class: &str, x: u64, y: u64) -> Result<(), OutOfMemory> {
    put(
        text,
        &[
            Piece::Raw("<text class='"),
            Piece::Raw(class),
            Piece::Raw("' x='"),
            Piece::Number(x),
            Piece::Raw("' y='"),
            Piece::Number(y),
            Piece::Raw("'>"),
        ],
    )
}

// Appends the lines of the report above the mark, the first one on top.
fn push_lines(
    text: &mut Vec<u8>,
    scene: &Scene<'_>,
    column: Column,
    y: u64,
) -> Result<(), OutOfMemory> {
    let count = column.lines as u64;
    let mut up = count.saturating_mul(11).saturating_add(2);
    for at in column.first..column.first.saturating_add(column.lines) {
        if let Some(line) = scene.lines.get(at) {
            push_at(
                text,
                "line",
                column.x.saturating_sub(5),
                y.saturating_sub(up),
            )?;
            push_cut(text, line.as_slice(), SHOWN)?;
            put(text, &[Piece::Raw("</text>")])?;
        }
        up = up.saturating_sub(11);
    }
    Ok(())
}

// Appends the first bytes of a text, as many as there is room for, and what tells that more of them come.
fn push_cut(text: &mut Vec<u8>, line: &[u8], most: usize) -> Result<(), OutOfMemory> {
    let mut count = 0;
    for byte in line {
        if count >= most && *byte & 0xc0 != 0x80 {
            break;
        }
        count = count.saturating_add(1);
    }
    match line.get(..count) {
        Some(front) => put(text, &[Piece::Escaped(front)])?,
        None => put(text, &[Piece::Escaped(line)])?,
    }
    if count < line.len() {
        put(text, &[Piece::Raw("\u{2026}")])?;
    }
    Ok(())
}
