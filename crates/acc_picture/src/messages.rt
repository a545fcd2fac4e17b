//! Messages: a line from the item that sent one to each item that took it, and a stub for one that no item of the picture took.
use crate::columns::{Column, LEFT};
use crate::fields::push_message;
use crate::lanes::{is_down, y_of};
use crate::legend::colour;
use crate::pieces::{Piece, put};
use crate::scene::Scene;
use crate::sent::{MANY, Sent, taken_by};
use acc_base::OutOfMemory;
use acc_message::{Message, Shown};

/// The two ends of a line.
#[derive(Clone, Copy, Debug)]
struct Ends {
    x1: u64,
    y1: u64,
    x2: u64,
    y2: u64,
}

/// How a message is drawn: what became of it, the columns of the items that sent and took it, and its ends.
#[derive(Clone, Copy, Debug)]
struct Way {
    word: &'static str,
    by: u64,
    at: u64,
    ends: Ends,
}

/// Appends the line of the message that an item took, if it took one.
pub(crate) fn push_taken(
    text: &mut Vec<u8>,
    scene: &Scene<'_>,
    place: usize,
    column: Column,
    item: Shown<'_>,
) -> Result<(), OutOfMemory> {
    let Some(number) = taken_by(item) else {
        return Ok(());
    };
    if let Some(sent) = scene.sent.get(number as usize) {
        if let Some(message) = sent.message(scene.items) {
            let (by, ends) = taken_ends(scene, sent, message, column);
            let way = Way {
                word: again(sent, place),
                by,
                at: column.at,
                ends,
            };
            push_line(text, scene, number, message, way)?;
        }
    }
    Ok(())
}

// Whether an item took a message first or once more.
fn again(sent: &Sent, place: usize) -> &'static str {
    match sent.taker {
        Some(taker) if taker == place => "m",
        _ => "again",
    }
}

// From where to where a message went that an item took. One whose sender isn't drawn comes from close by.
fn taken_ends(scene: &Scene<'_>, sent: &Sent, message: &Message, column: Column) -> (u64, Ends) {
    let y1 = y_of(scene.lanes.as_slice(), message.from());
    let y2 = y_of(scene.lanes.as_slice(), message.to());
    let x2 = column.x;
    match scene.columns.get(sent.place) {
        Some(from) if from.drawn => (
            from.at,
            Ends {
                x1: from.x,
                y1,
                x2,
                y2,
            },
        ),
        _ => (
            column.at,
            Ends {
                x1: x2.saturating_sub(18).max(LEFT / 2),
                y1: near(y2, y1),
                x2,
                y2,
            },
        ),
    }
}

// A height close to one, on the way to another.
fn near(y1: u64, y2: u64) -> u64 {
    y1.saturating_mul(4).saturating_add(y2) / 5
}

/// Appends a stub for each message of an item that no item of the picture took.
pub(crate) fn push_stubs(
    text: &mut Vec<u8>,
    scene: &Scene<'_>,
    column: Column,
    place: usize,
    lost: bool,
) -> Result<(), OutOfMemory> {
    let mut number = column.sent;
    for index in 0..MANY {
        let Some(message) = scene.items.message(place, index) else {
            return Ok(());
        };
        push_stub(text, scene, column, number, message, lost)?;
        number = number.saturating_add(1);
    }
    Ok(())
}

fn push_stub(
    text: &mut Vec<u8>,
    scene: &Scene<'_>,
    column: Column,
    number: u64,
    message: &Message,
    lost: bool,
) -> Result<(), OutOfMemory> {
    if let Some(sent) = scene.sent.get(number as usize) {
        if !sent.drawn {
            let way = Way {
                word: fate(scene, sent, message, lost),
                by: column.at,
                at: column.at,
                ends: stub_ends(scene, message, column),
            };
            push_line(text, scene, number, message, way)?;
        }
    }
    Ok(())
}

// From where to where a stub goes.
fn stub_ends(scene: &Scene<'_>, message: &Message, column: Column) -> Ends {
    let y1 = y_of(scene.lanes.as_slice(), message.from());
    Ends {
        x1: column.x,
        y1,
        x2: column.x.saturating_add(22),
        y2: near(y1, y_of(scene.lanes.as_slice(), message.to())),
    }
}

// What became of a message that no item of the picture took.
fn fate(scene: &Scene<'_>, sent: &Sent, message: &Message, lost: bool) -> &'static str {
    if sent.taker.is_some() {
        "away"
    } else if lost {
        "lost"
    } else if sent.dropped {
        "dropped"
    } else if is_down(scene.lanes.as_slice(), message.to()) {
        "toward"
    } else {
        "waits"
    }
}

// What a word says of a message.
fn meaning(word: &str) -> &'static str {
    match word {
        "away" => "\ntaken by an item that isn't drawn",
        "lost" => "\nlost: its sender's disk failed in this step",
        "dropped" => "\ndropped: no item took it",
        "toward" => "\nno item took it: its receiver is down",
        "waits" => "\nno item took it",
        "again" => "\ntaken once more",
        _ => "",
    }
}

// Appends the line of a message.
fn push_line(
    text: &mut Vec<u8>,
    scene: &Scene<'_>,
    number: u64,
    message: &Message,
    way: Way,
) -> Result<(), OutOfMemory> {
    let kind = colour(scene.cast.number(message.id()).unwrap_or(0));
    push_head(text, kind, number, way)?;
    push_ends(text, "<line class='hit'", way.ends)?;
    push_ends(text, "<line", way.ends)?;
    push_end(text, way.word, way.ends)?;
    push_number(text, number, way.ends)?;
    put(text, &[Piece::Raw("<title>")])?;
    push_message(text, &scene.cast, number, message)?;
    put(
        text,
        &[Piece::Raw(meaning(way.word)), Piece::Raw("</title></g>\n")],
    )
}

fn push_head(text: &mut Vec<u8>, kind: u64, number: u64, way: Way) -> Result<(), OutOfMemory> {
    put(
        text,
        &[
            Piece::Raw("<g class='"),
            Piece::Raw(way.word),
            Piece::Raw(" t"),
            Piece::Number(kind),
            Piece::Raw("' data-by='"),
            Piece::Number(way.by),
            Piece::Raw("' data-at='"),
            Piece::Number(way.at),
            Piece::Raw("' data-n='"),
            Piece::Number(number),
            Piece::Raw("'>"),
        ],
    )
}

fn push_ends(text: &mut Vec<u8>, tag: &str, ends: Ends) -> Result<(), OutOfMemory> {
    put(
        text,
        &[
            Piece::Raw(tag),
            Piece::Raw(" x1='"),
            Piece::Number(ends.x1),
            Piece::Raw("' y1='"),
            Piece::Number(ends.y1),
            Piece::Raw("' x2='"),
            Piece::Number(ends.x2),
            Piece::Raw("' y2='"),
            Piece::Number(ends.y2),
            Piece::Raw("'/>"),
        ],
    )
}

// Appends the sign at the end of a stub.
fn push_end(text: &mut Vec<u8>, word: &str, ends: Ends) -> Result<(), OutOfMemory> {
    if word == "m" || word == "again" {
        return Ok(());
    }
    put(
        text,
        &[
            Piece::Raw("<use href='#"),
            Piece::Raw(word),
            Piece::Raw("' x='"),
            Piece::Number(ends.x2),
            Piece::Raw("' y='"),
            Piece::Number(ends.y2),
            Piece::Raw("'/>"),
        ],
    )
}

// Appends the number of a message, near the end of its line.
fn push_number(text: &mut Vec<u8>, number: u64, ends: Ends) -> Result<(), OutOfMemory> {
    put(
        text,
        &[
            Piece::Raw("<text class='n' x='"),
            Piece::Number(ends.x1.saturating_add(ends.x2.saturating_mul(3)) / 4),
            Piece::Raw("' y='"),
            Piece::Number(ends.y1.saturating_add(ends.y2.saturating_mul(3)) / 4),
            Piece::Raw("'>"),
            Piece::Number(number),
            Piece::Raw("</text>"),
        ],
    )
}
