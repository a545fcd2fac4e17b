//! The lines of one item.
ghost use Rattle.std.specs.Prelude.{◌≡◌, ℕ, ◌++◌, List, [], ◌∷◌, map, IfOk, OnOk};
ghost use Rattle.acc_stamp.specs.declared.stamps.TxnId.{TxnId};
ghost use Rattle.acc_message.specs.declared.item.Item.{Item};
ghost use Rattle.acc_deps.specs.Deps.{all_ids};
ghost use Rattle.acc_report.specs.Numbers.{name_in, IsOf};
ghost use Rattle.acc_report.specs.Report.{name_of, name_at, note_line, skip_line, event_lines, lines_in, lines_of};

use crate::names::{Directory, name_of_number};
use acc_base::{OutOfMemory, Text};
use acc_message::{Event, Item, Note, Roll, Skip};
use acc_report_line::{Line, Lines, Names};
use acc_stamp::{Actor, TxnId};

/// The lines of one item, as they stand in the report of a run where the roll has the ids of the transactions that earlier
/// items began. A transaction is called as in the text of a report. The roll is entered into a directory each time: for the
/// lines of many items, make that once and ask it for the lines of each.
pub fn line(item: &Item, roll: &Roll, names: &Names) -> Result<Lines, OutOfMemory>
    ensures { IfOk result (λ lines. lines ≡ lines_of names.now roll.now (item.now ∷ [])) }
{
    let known = Directory::new(names, roll)?;
    let directory = known.with(item)?;
    directory.lines(item)
}

impl Directory<'_> {
    /// The lines of one item, with the names of this directory.
    pub fn lines(&self, item: &Item) -> Result<Lines, OutOfMemory>
        ensures { IfOk result (λ lines. (names : List (List ℕ)) (roll : List (TxnId × ℕ)) (items : List Item) →
            IsOf self.now names roll items → lines ≡ lines_in (name_of names roll items) (name_at names) item.now) }
    {
        let mut lines = Lines::new(self.names.allocator());
        add_item(&mut lines, self, item)?;
        Ok(lines)
    }
}

fn add_item(lines: &mut Lines, directory: &Directory<'_>, item: &Item) -> Result<(), OutOfMemory>
    ensures { OnOk result (lines.new
        ≡ lines.old ++ lines_in (name_in directory.now) (name_at directory.now.names.now) item.now) }
{
    match item {
        Item::Step(entry) => {
            add_event(lines, entry.actor, entry.event)?;
            add_notes(lines, directory, entry.emitted.notes.as_slice())
        }
        Item::Skipped { step, cause } => lines.push(skip(directory.names, *step, *cause)?),
        Item::Down { actor } => lines.push(Line::Down { actor: *actor }),
    }
}

fn add_event(lines: &mut Lines, actor: Actor, event: Event) -> Result<(), OutOfMemory>
    ensures { OnOk result (lines.new ≡ lines.old ++ event_lines actor event) }
{
    if let Event::Restart { kept } = event {
        lines.push(Line::Restart {
            actor,
            kept: u64::from(kept),
        })?;
    }
    Ok(())
}

fn add_notes(
    lines: &mut Lines,
    directory: &Directory<'_>,
    notes: &[Note],
) -> Result<(), OutOfMemory>
    ensures { OnOk result (lines.new ≡ lines.old ++ map (note_line (name_in directory.now)) notes.now) }
{
    for note in notes {
        lines.push(said(directory, note)?)?;
    }
    Ok(())
}

/// A step that was passed over.
fn skip(names: &Names, step: u32, cause: Skip) -> Result<Line, OutOfMemory>
    ensures { IfOk result (λ line. line ≡ skip_line (name_at names.now) step cause) }
{
    let step = u64::from(step);
    match cause {
        Skip::NoMessage { number, sent } => Ok(Line::SkipNoMessage { step, number, sent }),
        Skip::Down { actor } => Ok(Line::SkipDown { step, actor }),
        Skip::Begun { txn } => Ok(Line::SkipBegun {
            step,
            name: called(names, txn)?,
        }),
        Skip::Unknown { txn } => Ok(Line::SkipUnknown {
            step,
            name: called(names, txn)?,
        }),
        Skip::NoQuorum { txn } => Ok(Line::SkipNoQuorum {
            step,
            name: called(names, txn)?,
        }),
    }
}

/// The name of the transaction with this number.
fn called(names: &Names, txn: u32) -> Result<Text, OutOfMemory>
    ensures { IfOk result (λ name. name ≡ name_at names.now txn) }
{
    Text::from_slice(names.allocator(), name_of_number(names, txn))
}

/// The name of the transaction with this id.
fn name(directory: &Directory<'_>, id: TxnId) -> Result<Text, OutOfMemory>
    ensures { IfOk result (λ name. name ≡ name_in directory.now id) }
{
    Text::from_slice(directory.names.allocator(), directory.name_of(id))
}

/// The names of transactions.
fn named(directory: &Directory<'_>, ids: &[TxnId]) -> Result<Names, OutOfMemory>
    ensures { IfOk result (λ names. names ≡ map (name_in directory.now) ids.now) }
{
    let mut names = Names::new(directory.names.allocator());
    names.reserve(ids.len())?;
    for id in ids {
        names.push(name(directory, *id)?)?;
    }
    Ok(names)
}

/// What a note says.
fn said(directory: &Directory<'_>, note: &Note) -> Result<Line, OutOfMemory>
    ensures { IfOk result (λ line. line ≡ note_line (name_in directory.now) note.now) }
{
    match note {
        Note::Begin { id } => Ok(Line::Begin {
            name: name(directory, *id)?,
            id: id.0,
        }),
        Note::Recover { id, ballot } => Ok(Line::Recover {
            name: name(directory, *id)?,
            ballot: ballot.0,
        }),
        Note::Blocked { id, ballot, by } => Ok(Line::Blocked {
            name: name(directory, *id)?,
            ballot: ballot.0,
            by: named(directory, by.as_slice())?,
        }),
        Note::Ended { id, ballot, by } => Ok(Line::Ended {
            name: name(directory, *id)?,
            ballot: ballot.0,
            by: by.0,
        }),
        Note::Decide { id, t, path, deps } => Ok(Line::Decide {
            name: name(directory, *id)?,
            t: *t,
            path: *path,
            deps: named(directory, deps.all()?.as_slice())?,
        }),
        Note::Outcome { id, reply } => Ok(Line::Outcome {
            name: name(directory, *id)?,
            reply: reply.copy()?,
        }),
        Note::Reply { id, reply } => Ok(Line::Reply {
            name: name(directory, *id)?,
            reply: reply.copy()?,
        }),
    }
}
