//! The lines of notes, as they are printed.
ghost use Rattle.std.specs.Prelude.{◌≡◌, ◌++◌, codes, map, OnOk};
ghost use Rattle.acc_deps.specs.Deps.{all_ids};
ghost use Rattle.acc_report.specs.Numbers.{name_in};
ghost use Rattle.acc_report.specs.Report.{note_line};
ghost use Rattle.acc_report_line.specs.Texts.{full_text, lines_text, names_text, stamp_text, reply_text};

use crate::names::Directory;
use crate::parts::{path_word, push_names, push_reply, push_stamp};
use acc_base::OutOfMemory;
use acc_deps::Deps;
use acc_message::{Note, Path};
use acc_stamp::{Ballot, Ids, Stamp, TxnId};
use acc_txn::Reply;

/// Appends the lines of notes in their order.
pub(crate) fn push_notes(
    text: &mut Vec<u8>,
    directory: &Directory<'_>,
    notes: &[Note],
) -> Result<(), OutOfMemory>
    ensures { OnOk result (text.new.items ≡ text.old.items ++ lines_text (map (note_line (name_in directory.now)) notes.now)) }
{
    for note in notes {
        push_note(text, directory, note)?;
    }
    Ok(())
}

fn push_note(text: &mut Vec<u8>, directory: &Directory<'_>, note: &Note) -> Result<(), OutOfMemory>
    ensures { OnOk result (text.new.items ≡ text.old.items ++ full_text (note_line (name_in directory.now) note.now)) }
{
    match note {
        Note::Begin { id } => push_stamped(text, b"begin ", directory, *id, id.0),
        Note::Recover { id, ballot } => push_stamped(text, b"recover ", directory, *id, ballot.0),
        Note::Blocked { id, ballot, by } => push_blocked(text, directory, *id, *ballot, by),
        Note::Ended { id, ballot, by } => push_ended(text, directory, *id, *ballot, *by),
        Note::Decide { id, t, path, deps } => push_decide(text, directory, *id, *t, *path, deps),
        Note::Outcome { id, reply } => push_replied(text, b"outcome ", directory, *id, reply),
        Note::Reply { id, reply } => push_replied(text, b"reply ", directory, *id, reply),
    }
}

/// The word that a line begins with, and the name of its transaction, with a space after it.
fn push_head(
    text: &mut Vec<u8>,
    word: &[u8],
    directory: &Directory<'_>,
    id: TxnId,
) -> Result<(), OutOfMemory>
    ensures { OnOk result (text.new.items ≡ text.old.items ++ (word.now ++ name_in directory.now id ++ codes " ")) }
{
    text.extend_from_slice(word)?;
    text.extend_from_slice(directory.name_of(id))?;
    text.push(b' ')?;
    Ok(())
}

/// A line of a name and a timestamp.
fn push_stamped(
    text: &mut Vec<u8>,
    word: &[u8],
    directory: &Directory<'_>,
    id: TxnId,
    stamp: Stamp,
) -> Result<(), OutOfMemory>
    ensures { OnOk result (text.new.items
        ≡ text.old.items ++ (word.now ++ name_in directory.now id ++ codes " " ++ stamp_text stamp ++ codes "\n")) }
{
    push_head(text, word, directory, id)?;
    push_stamp(text, stamp)?;
    text.push(b'\n')?;
    Ok(())
}

/// A line of a name and a reply.
fn push_replied(
    text: &mut Vec<u8>,
    word: &[u8],
    directory: &Directory<'_>,
    id: TxnId,
    reply: &Reply,
) -> Result<(), OutOfMemory>
    ensures { OnOk result (text.new.items
        ≡ text.old.items ++ (word.now ++ name_in directory.now id ++ codes " " ++ reply_text reply.now ++ codes "\n")) }
{
    push_head(text, word, directory, id)?;
    push_reply(text, reply)?;
    text.push(b'\n')?;
    Ok(())
}

fn push_blocked(
    text: &mut Vec<u8>,
    directory: &Directory<'_>,
    id: TxnId,
    ballot: Ballot,
    by: &Ids,
) -> Result<(), OutOfMemory>
    ensures { OnOk result (text.new.items ≡ text.old.items ++ full_text (note_line (name_in directory.now) (Note.Blocked id ballot by.now))) }
{
    push_head(text, b"blocked ", directory, id)?;
    push_stamp(text, ballot.0)?;
    text.extend_from_slice(b" by ")?;
    push_names(text, directory, by.as_slice())?;
    text.push(b'\n')?;
    Ok(())
}

fn push_ended(
    text: &mut Vec<u8>,
    directory: &Directory<'_>,
    id: TxnId,
    ballot: Ballot,
    by: Ballot,
) -> Result<(), OutOfMemory>
    ensures { OnOk result (text.new.items ≡ text.old.items ++ full_text (note_line (name_in directory.now) (Note.Ended id ballot by))) }
{
    push_head(text, b"ended ", directory, id)?;
    push_stamp(text, ballot.0)?;
    text.extend_from_slice(b" by ")?;
    push_stamp(text, by.0)?;
    text.push(b'\n')?;
    Ok(())
}

fn push_decide(
    text: &mut Vec<u8>,
    directory: &Directory<'_>,
    id: TxnId,
    t: Stamp,
    path: Path,
    deps: &Deps,
) -> Result<(), OutOfMemory>
    ensures { OnOk result (text.new.items ≡ text.old.items ++ full_text (note_line (name_in directory.now) (Note.Decide id t path deps.now))) }
{
    push_head(text, b"decide ", directory, id)?;
    push_stamp(text, t)?;
    text.push(b' ')?;
    text.extend_from_slice(path_word(path))?;
    text.extend_from_slice(b" deps ")?;
    push_deps(text, directory, deps)?;
    text.push(b'\n')?;
    Ok(())
}

/// Appends the names of the dependencies of all shards. Those of one shard alone are printed where they stand.
fn push_deps(text: &mut Vec<u8>, directory: &Directory<'_>, deps: &Deps) -> Result<(), OutOfMemory>
    ensures { OnOk result (text.new.items ≡ text.old.items ++ names_text (map (name_in directory.now) (all_ids deps.now))) }
{
    match deps.by_shard() {
        [only] => push_names(text, directory, only.ids.as_slice()),
        _ => push_names(text, directory, deps.all()?.as_slice()),
    }
}
