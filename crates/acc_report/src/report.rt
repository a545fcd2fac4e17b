//! The text of a report.
ghost use Rattle.std.specs.Prelude.{◌≡◌, ◌+◌, List, [], ◌∷◌, ◌++◌, length, reverse, IfOk, OnOk};
ghost use Rattle.acc_message.specs.declared.message.Message.{Message};
ghost use Rattle.acc_message.specs.Items.{notes_of};
ghost use Rattle.acc_message.specs.Shown.{with_sent};
ghost use Rattle.acc_report.specs.Counts.{last_line_of};
ghost use Rattle.acc_report.specs.Numbers.{name_in};
ghost use Rattle.acc_report.specs.Report.{name_at, last_line, lines_in, lines_from, lines_report, summary_report, report_text};
ghost use Rattle.acc_report_line.specs.Texts.{lines_text};

use crate::names::Directory;
use crate::notes::push_notes;
use crate::skips::{push_down, push_event, push_skip};
use crate::summary::{Counts, push_decided, push_last};
use acc_base::{Bytes, OutOfMemory};
use acc_message::{Items, Roll, Shown};
use acc_report_line::Names;
use acc_schedule::Print;
use std::alloc::Global;

/// The report of items: in lines those of each item, and in summary how many decisions each path made; then the last line. A
/// transaction is called by the name of the number that the roll gives its id, or else the first begin of it among the items,
/// and by nothing where there is none.
pub fn text(items: &Items, roll: &Roll, names: &Names, print: Print) -> Result<Bytes, OutOfMemory>
    ensures { IfOk result (λ text. text ≡ report_text print names.now roll.now (reverse items.now)) }
{
    match print {
        Print::Lines => text_in_lines(items, roll, names),
        Print::Summary => text_in_summary(items, names),
    }
}

fn text_in_lines(items: &Items, roll: &Roll, names: &Names) -> Result<Bytes, OutOfMemory>
    ensures { IfOk result (λ text. text ≡ lines_text (lines_report names.now roll.now (reverse items.now))) }
{
    let alloc = names.allocator();
    let directory = Directory::of_items(names, roll, items)?;
    let counts = Counts::of(items)?;
    let room = length_in_lines(alloc, items, &directory, &counts)?;
    let mut text = Vec::with_capacity(alloc, room)?;
    for place in 0..items.len() {
        push_item(&mut text, &directory, items.shown(place))?;
    }
    push_last(&mut text, &counts)?;
    Ok(Bytes::from_vec(text))
}

/// How many bytes the text in lines has. Its lines are printed one item after another, into memory that is used again, so that
/// the text itself takes its memory at once.
fn length_in_lines(
    alloc: Global,
    items: &Items,
    directory: &Directory<'_>,
    counts: &Counts,
) -> Result<usize, OutOfMemory>
    requires { last_line_of counts.now ≡ last_line (notes_of (reverse items.now)) }
    ensures { IfOk result (λ count. count
        ≡ length (lines_text (lines_from (name_in directory.now) (name_at directory.now.names.now) (reverse items.now) ++ last_line (notes_of (reverse items.now)) ∷ []))) }
{
    let mut count = 0;
    let mut part = Vec::new(alloc);
    for place in 0..items.len() {
        part.clear();
        push_item(&mut part, directory, items.shown(place))?;
        count = sum(count, part.len())?;
    }
    part.clear();
    push_last(&mut part, counts)?;
    sum(count, part.len())
}

/// The sum of two lengths. One that no memory has is refused as memory is.
fn sum(one: usize, other: usize) -> Result<usize, OutOfMemory>
    ensures { IfOk result (λ sum. sum ≡ one + other) }
{
    match one.checked_add(other) {
        Some(sum) => Ok(sum),
        None => Err(OutOfMemory),
    }
}

fn text_in_summary(items: &Items, names: &Names) -> Result<Bytes, OutOfMemory>
    ensures { IfOk result (λ text. text ≡ lines_text (summary_report (reverse items.now))) }
{
    let counts = Counts::of(items)?;
    let mut text = Vec::new(names.allocator());
    push_decided(&mut text, &counts)?;
    push_last(&mut text, &counts)?;
    Ok(Bytes::from_vec(text))
}

/// Appends the lines of an item.
fn push_item(
    text: &mut Vec<u8>,
    directory: &Directory<'_>,
    item: Shown<'_>,
) -> Result<(), OutOfMemory>
    ensures { OnOk result ((out : List Message) → text.new.items
        ≡ text.old.items ++ lines_text (lines_in (name_in directory.now) (name_at directory.now.names.now) (with_sent item.entry out))) }
{
    match item {
        Shown::Step {
            actor,
            lost: _,
            event,
            notes,
        } => {
            push_event(text, actor, event)?;
            push_notes(text, directory, notes)
        }
        Shown::Skipped { step, cause } => push_skip(text, directory.names, step, cause),
        Shown::Down { actor } => push_down(text, actor),
    }
}
