//! A line of the table.
use crate::{
    answers, counts, document, field, group, index, journal, judgement, message, outcome, report,
    text,
};
use anyhow::{Context, Result};
use serde_json::Value;
use std::alloc::Global;

/// What a line of the table is.
#[derive(Clone, Copy)]
enum Line<'l> {
    /// A kind, a text, and the answer that is wanted.
    Text(&'l str, &'l str, &'l str),
    /// The text of a transaction, the cells before it, and the answer that is wanted.
    Outcome(&'l str, &'l [Value], &'l str),
    /// The heading of the lines below it.
    Heading,
}

/// Whether the answer that a line asks for is the wanted one. None for a heading.
pub fn agrees(alloc: Global, line: &Value) -> Result<Option<bool>> {
    match parts(line) {
        Some(Line::Text(kind, text, wanted)) => {
            Ok(Some(answer(alloc, kind, text)?.as_str() == wanted))
        }
        Some(Line::Outcome(text, cells, wanted)) => {
            Ok(Some(outcome::answer(alloc, text, cells)?.as_str() == wanted))
        }
        Some(Line::Heading) => Ok(None),
        None => None.context("a line of another form"),
    }
}

fn parts(line: &Value) -> Option<Line<'_>> {
    match line.as_array()?.as_slice() {
        [kind, _] => heading(kind),
        [kind, text, wanted] => text_line(kind, text, wanted),
        [kind, text, cells, wanted] => outcome_line(kind, text, cells, wanted),
        _ => None,
    }
}

fn heading(kind: &Value) -> Option<Line<'_>> {
    match kind.as_str() {
        Some("part") => Some(Line::Heading),
        _ => None,
    }
}

/// A line that asks about one text.
fn text_line<'l>(kind: &'l Value, text: &'l Value, wanted: &'l Value) -> Option<Line<'l>> {
    match (kind.as_str(), text.as_str(), wanted.as_str()) {
        (Some(kind), Some(text), Some(wanted)) => Some(Line::Text(kind, text, wanted)),
        _ => None,
    }
}

/// A line that asks about a text and the cells before it.
fn outcome_line<'l>(
    kind: &Value,
    text: &'l Value,
    cells: &'l Value,
    wanted: &'l Value,
) -> Option<Line<'l>> {
    match (
        kind.as_str(),
        text.as_str(),
        cells.as_array(),
        wanted.as_str(),
    ) {
        (Some("outcome"), Some(text), Some(cells), Some(wanted)) => {
            Some(Line::Outcome(text, cells.as_slice(), wanted))
        }
        _ => None,
    }
}

/// What a crate answers to a text.
fn answer(alloc: Global, kind: &str, text: &str) -> Result<String> {
    match kind {
        "text" => text::answer(alloc, text),
        "text_v2" => text::answer_v2(alloc, text),
        "document" => document::answer(alloc, text),
        "counts" => counts::answer(alloc, text),
        "index" => index::answer(alloc, text),
        "answers" => answers::answer(alloc, text),
        "group" => group::answer(alloc, text),
        "report" => report::answer(alloc, text.as_bytes()),
        "audit" => judgement::answer(alloc, text),
        _ => of_bytes(alloc, kind, hex::decode(alloc, text)?.as_slice()),
    }
}

/// What a crate answers to bytes.
fn of_bytes(alloc: Global, kind: &str, bytes: &[u8]) -> Result<String> {
    match kind {
        "message" => message::answer(alloc, bytes),
        "field" => field::answer(alloc, bytes),
        "journal" => journal::answer(alloc, bytes),
        "bytes" => report::answer(alloc, bytes),
        _ => None.context("no such kind"),
    }
}
