//! The lines of skipped steps and of actors, as they are printed.
ghost use Rattle.std.specs.Prelude.{◌≡◌, ◌++◌, codes, decimal, OnOk};
ghost use Rattle.acc_report.specs.Report.{name_at, skip_line, event_lines};
ghost use Rattle.acc_report_line.specs.declared.line.Line.TheVariants.{Down as DownLine, SkipNoMessage as NoMessageLine, SkipDown as SkipDownLine};
ghost use Rattle.acc_report_line.specs.Texts.{full_text, lines_text};

use crate::names::name_of_number;
use crate::parts::push_actor;
use acc_base::{OutOfMemory, push_number};
use acc_message::{Event, Skip};
use acc_report_line::Names;
use acc_stamp::Actor;

/// Appends the line of an event, if it has one.
pub(crate) fn push_event(text: &mut Vec<u8>, actor: Actor, event: Event) -> Result<(), OutOfMemory>
    ensures { OnOk result (text.new.items ≡ text.old.items ++ lines_text (event_lines actor event)) }
{
    if let Event::Restart { kept } = event {
        text.extend_from_slice(b"restart ")?;
        push_actor(text, actor)?;
        text.extend_from_slice(b" kept ")?;
        push_number(text, u64::from(kept))?;
        text.push(b'\n')?;
    }
    Ok(())
}

/// Appends the line of an actor that went down.
pub(crate) fn push_down(text: &mut Vec<u8>, actor: Actor) -> Result<(), OutOfMemory>
    ensures { OnOk result (text.new.items ≡ text.old.items ++ full_text (DownLine actor)) }
{
    text.extend_from_slice(b"down ")?;
    push_actor(text, actor)?;
    text.push(b'\n')?;
    Ok(())
}

/// Appends the line of a step that was passed over.
pub(crate) fn push_skip(
    text: &mut Vec<u8>,
    names: &Names,
    step: u32,
    cause: Skip,
) -> Result<(), OutOfMemory>
    ensures { OnOk result (text.new.items ≡ text.old.items ++ full_text (skip_line (name_at names.now) step cause)) }
{
    match cause {
        Skip::NoMessage { number, sent } => push_no_message(text, step, number, sent),
        Skip::Down { actor } => push_skip_down(text, step, actor),
        Skip::Begun { txn } => push_skip_named(text, step, b" begun ", names, txn),
        Skip::Unknown { txn } => push_skip_named(text, step, b" unknown ", names, txn),
        Skip::NoQuorum { txn } => push_skip_named(text, step, b" noquorum ", names, txn),
    }
}

fn push_no_message(text: &mut Vec<u8>, step: u32, number: u64, sent: u64) -> Result<(), OutOfMemory>
    ensures { OnOk result (text.new.items ≡ text.old.items ++ full_text (NoMessageLine step number sent)) }
{
    text.extend_from_slice(b"skip ")?;
    push_number(text, u64::from(step))?;
    text.extend_from_slice(b" nomessage ")?;
    push_number(text, number)?;
    text.push(b' ')?;
    push_number(text, sent)?;
    text.push(b'\n')?;
    Ok(())
}

fn push_skip_down(text: &mut Vec<u8>, step: u32, actor: Actor) -> Result<(), OutOfMemory>
    ensures { OnOk result (text.new.items ≡ text.old.items ++ full_text (SkipDownLine step actor)) }
{
    text.extend_from_slice(b"skip ")?;
    push_number(text, u64::from(step))?;
    text.extend_from_slice(b" down ")?;
    push_actor(text, actor)?;
    text.push(b'\n')?;
    Ok(())
}

/// A line of a step and a transaction.
fn push_skip_named(
    text: &mut Vec<u8>,
    step: u32,
    word: &[u8],
    names: &Names,
    txn: u32,
) -> Result<(), OutOfMemory>
    ensures { OnOk result (text.new.items
        ≡ text.old.items ++ (codes "skip " ++ decimal step ++ word.now ++ name_at names.now txn ++ codes "\n")) }
{
    text.extend_from_slice(b"skip ")?;
    push_number(text, u64::from(step))?;
    text.extend_from_slice(word)?;
    text.extend_from_slice(name_of_number(names, txn))?;
    text.push(b'\n')?;
    Ok(())
}
