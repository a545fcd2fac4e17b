//! A page that shows a run a step at a time.
use crate::choice::{Choice, PictureError};
use crate::columns::Column;
use crate::pieces::{Piece, put};
use crate::scene::Scene;
use crate::script::{PAGE_STYLE, SCRIPT};
use crate::vector::push_svg;
use acc_base::{Bytes, OutOfMemory};
use acc_message::Items;
use acc_schedule::Plan;
use std::alloc::Global;

/// A page with the picture of the items that the run of a plan gave, and the lines of those that are drawn. Buttons, keys and a
/// slider go through the items one by one. It loads nothing.
pub fn page(
    alloc: Global,
    plan: &Plan,
    items: &Items,
    choice: &Choice,
) -> Result<Bytes, PictureError> {
    let scene = Scene::of(alloc, plan, items, choice)?;
    let mut text = Vec::new(alloc);
    push_front(&mut text, scene.drawn)?;
    push_svg(&mut text, alloc, &scene)?;
    put(
        &mut text,
        &[Piece::Raw(
            "</div>\n<div class='side'>\n<pre id='fields' aria-live='polite'></pre>\n<ol id='report'>\n",
        )],
    )?;
    for column in scene.columns.as_slice() {
        if column.drawn {
            push_lines(&mut text, &scene, *column)?;
        }
    }
    put(
        &mut text,
        &[
            Piece::Raw("</ol>\n</div>\n</main>\n<script>\n"),
            Piece::Raw(SCRIPT),
            Piece::Raw("</script>\n</body>\n</html>\n"),
        ],
    )?;
    Ok(Bytes::from_vec(text))
}

// Appends what stands above the picture, for so many items.
fn push_front(text: &mut Vec<u8>, drawn: u64) -> Result<(), OutOfMemory> {
    put(
        text,
        &[
            Piece::Raw("<!DOCTYPE html>\n<html lang='en'>\n<head>\n<meta charset='utf-8'>\n"),
            Piece::Raw("<meta name='viewport' content='width=device-width,initial-scale=1'>\n"),
            Piece::Raw("<title>A run, step by step</title>\n<style>\n"),
            Piece::Raw(PAGE_STYLE),
            Piece::Raw("</style>\n</head>\n<body>\n<header>\n"),
            Piece::Raw("<button id='first' title='Home'>first</button>\n"),
            Piece::Raw("<button id='back' title='arrow left'>back</button>\n"),
            Piece::Raw("<button id='next' title='arrow right'>next</button>\n"),
            Piece::Raw("<button id='last' title='End'>last</button>\n"),
            Piece::Raw("<input id='at' type='range' aria-label='item' min='0' value='0' max='"),
            Piece::Number(drawn),
            Piece::Raw("'>\n<output id='count'></output>\n</header>\n<main>\n"),
            Piece::Raw("<div class='picture' tabindex='0'>\n"),
        ],
    )
}

fn push_lines(text: &mut Vec<u8>, scene: &Scene<'_>, column: Column) -> Result<(), OutOfMemory> {
    for at in column.first..column.first.saturating_add(column.lines) {
        if let Some(line) = scene.lines.get(at) {
            put(
                text,
                &[
                    Piece::Raw("<li data-at='"),
                    Piece::Number(column.at),
                    Piece::Raw("'>"),
                    Piece::Escaped(line.as_slice()),
                    Piece::Raw("</li>\n"),
                ],
            )?;
        }
    }
    Ok(())
}
