//! The picture.
use crate::choice::{Choice, PictureError};
use crate::columns::LEFT;
use crate::lanes::{Lane, Stretch};
use crate::legend::{drawn_txns, height, push_legend};
use crate::marks::push_mark;
use crate::messages::{push_stubs, push_taken};
use crate::pieces::{Piece, put};
use crate::scene::Scene;
use crate::style::{SHAPES, SIGNS, STYLE};
use crate::titles::push_actor;
use acc_base::{Bytes, OutOfMemory};
use acc_message::{Items, Shown};
use acc_schedule::Plan;
use std::alloc::Global;

/// The picture of the items that the run of a plan gave, as one SVG. An item is counted by its place among them.
pub fn svg(
    alloc: Global,
    plan: &Plan,
    items: &Items,
    choice: &Choice,
) -> Result<Bytes, PictureError> {
    let scene = Scene::of(alloc, plan, items, choice)?;
    let mut text = Vec::new(alloc);
    put(
        &mut text,
        &[Piece::Raw("<?xml version='1.0' encoding='UTF-8'?>\n")],
    )?;
    push_svg(&mut text, alloc, &scene)?;
    Ok(Bytes::from_vec(text))
}

/// Appends the picture of a scene.
pub(crate) fn push_svg(
    text: &mut Vec<u8>,
    alloc: Global,
    scene: &Scene<'_>,
) -> Result<(), OutOfMemory> {
    let txns = drawn_txns(alloc, scene)?;
    let down = height(txns.len());
    push_open(text, scene, down)?;
    push_legend(text, alloc, scene.plan, txns.as_slice())?;
    put(
        text,
        &[
            Piece::Raw("<g transform='translate(0 "),
            Piece::Number(down),
            Piece::Raw(")'>\n"),
        ],
    )?;
    push_lanes(text, scene)?;
    push_messages(text, scene)?;
    push_marks(text, scene)?;
    put(text, &[Piece::Raw("</g>\n</svg>\n")])
}

// Appends the head of the picture, its style and its shapes.
fn push_open(text: &mut Vec<u8>, scene: &Scene<'_>, down: u64) -> Result<(), OutOfMemory> {
    let bottom = scene.bottom().saturating_add(down);
    put(
        text,
        &[
            Piece::Raw("<svg xmlns='http://www.w3.org/2000/svg' role='img' width='"),
            Piece::Number(scene.right),
            Piece::Raw("' height='"),
            Piece::Number(bottom),
            Piece::Raw("' viewBox='0 0 "),
            Piece::Number(scene.right),
            Piece::Raw(" "),
            Piece::Number(bottom),
            Piece::Raw("'>\n<title>A run of "),
            Piece::Number(scene.items.len() as u64),
            Piece::Raw(" items</title>\n<style>\n"),
            Piece::Raw(STYLE),
            Piece::Raw("</style>\n<defs>\n"),
            Piece::Raw(SHAPES),
            Piece::Raw(SIGNS),
            Piece::Raw("</defs>\n<rect class='paper' width='100%' height='100%'/>\n"),
        ],
    )
}

// Appends the lanes, and on which stretches their actors are down.
fn push_lanes(text: &mut Vec<u8>, scene: &Scene<'_>) -> Result<(), OutOfMemory> {
    put(text, &[Piece::Raw("<g class='lanes'>\n")])?;
    push_lane_line(text, scene.top, scene.right)?;
    push_lane_name(text, "steps", scene.top)?;
    put(
        text,
        &[Piece::Raw("<title>steps of the schedule that were passed over</title></text>\n")],
    )?;
    for lane in scene.lanes.as_slice() {
        push_lane(text, scene, *lane)?;
    }
    for stretch in scene.stretches.as_slice() {
        push_stretch(text, *stretch)?;
    }
    put(text, &[Piece::Raw("</g>\n")])
}

fn push_lane(text: &mut Vec<u8>, scene: &Scene<'_>, lane: Lane) -> Result<(), OutOfMemory> {
    push_lane_line(text, lane.y, scene.right)?;
    let word = if lane.actor.shard() == 0 {
        "node "
    } else {
        "store "
    };
    push_lane_name(text, word, lane.y)?;
    put(text, &[Piece::Actor(lane.actor), Piece::Raw("<title>")])?;
    push_actor(text, lane.actor)?;
    put(text, &[Piece::Raw("</title></text>\n")])?;
    match lane.since {
        Some(from) => push_stretch(
            text,
            Stretch {
                y: lane.y,
                from,
                to: scene.right,
            },
        ),
        None => Ok(()),
    }
}

fn push_lane_line(text: &mut Vec<u8>, y: u64, right: u64) -> Result<(), OutOfMemory> {
    put(
        text,
        &[
            Piece::Raw("<line x1='"),
            Piece::Number(LEFT.saturating_sub(24)),
            Piece::Raw("' y1='"),
            Piece::Number(y),
            Piece::Raw("' x2='"),
            Piece::Number(right),
            Piece::Raw("' y2='"),
            Piece::Number(y),
            Piece::Raw("'/>\n"),
        ],
    )
}

// Appends the beginning of a lane's name.
fn push_lane_name(text: &mut Vec<u8>, word: &str, y: u64) -> Result<(), OutOfMemory> {
    put(
        text,
        &[
            Piece::Raw("<text x='8' y='"),
            Piece::Number(y.saturating_add(4)),
            Piece::Raw("'>"),
            Piece::Raw(word),
        ],
    )
}

fn push_stretch(text: &mut Vec<u8>, stretch: Stretch) -> Result<(), OutOfMemory> {
    put(
        text,
        &[
            Piece::Raw("<line class='out' x1='"),
            Piece::Number(stretch.from),
            Piece::Raw("' y1='"),
            Piece::Number(stretch.y),
            Piece::Raw("' x2='"),
            Piece::Number(stretch.to),
            Piece::Raw("' y2='"),
            Piece::Number(stretch.y),
            Piece::Raw("'><title>down</title></line>\n"),
        ],
    )
}

// Appends the messages of the items that are drawn.
fn push_messages(text: &mut Vec<u8>, scene: &Scene<'_>) -> Result<(), OutOfMemory> {
    put(text, &[Piece::Raw("<g class='messages'>\n")])?;
    for place in 0..scene.items.len() {
        push_messages_at(text, scene, place, scene.items.shown(place))?;
    }
    put(text, &[Piece::Raw("</g>\n")])
}

fn push_messages_at(
    text: &mut Vec<u8>,
    scene: &Scene<'_>,
    place: usize,
    item: Shown<'_>,
) -> Result<(), OutOfMemory> {
    match scene.columns.get(place) {
        Some(column) if column.drawn => {
            push_taken(text, scene, place, *column, item)?;
            push_stubs(text, scene, *column, place, is_lost(item))
        }
        _ => Ok(()),
    }
}

fn is_lost(item: Shown<'_>) -> bool {
    match item {
        Shown::Step { lost, .. } => lost,
        Shown::Skipped { .. } | Shown::Down { .. } => false,
    }
}

// Appends the marks of the items that are drawn.
fn push_marks(text: &mut Vec<u8>, scene: &Scene<'_>) -> Result<(), OutOfMemory> {
    put(text, &[Piece::Raw("<g class='marks'>\n")])?;
    for place in 0..scene.items.len() {
        push_mark_at(text, scene, place, scene.items.shown(place))?;
    }
    put(text, &[Piece::Raw("</g>\n")])
}

fn push_mark_at(
    text: &mut Vec<u8>,
    scene: &Scene<'_>,
    place: usize,
    item: Shown<'_>,
) -> Result<(), OutOfMemory> {
    match scene.columns.get(place) {
        Some(column) if column.drawn => push_mark(text, scene, place, *column, item),
        _ => Ok(()),
    }
}
