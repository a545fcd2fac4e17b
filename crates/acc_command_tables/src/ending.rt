//! How a command ends.
use crate::case::{Case, Ending, Wanted};
use acc_command::accord;
use acc_command_alone::Remains;
use acc_ports::MemMaker;
use anyhow::{Context, Result};
use serde_json::Value;
use std::alloc::Global;
use std::sync::Wait;
use std::thread::Threads;

/// Whether the command ends with the status, the text and the disks that the case wants.
pub fn is_wanted<R: AllocGlobal + Threads + Wait + Sync>(
    rt: &R,
    alloc: Global,
    case: &mut Case<'_>,
) -> Result<bool> {
    let mut remains = Remains::new(alloc);
    let status = accord(
        rt,
        case.words.as_slice(),
        &mut case.ports.source,
        &mut case.ports.sink,
        &mut case.ports.disks,
        &case.gate,
        &mut remains,
    );
    drop(remains);
    are_wanted(alloc, u64::from(status.code()), case)
}

/// Whether the status, the text and the disks are the wanted ones.
fn are_wanted(alloc: Global, status: u64, case: &Case<'_>) -> Result<bool> {
    let Ending {
        status: due,
        wanted,
        left,
    } = case.ending;
    if status != due || !is_text(case.ports.sink.written(), wanted) || !case.gate.is_over() {
        return Ok(false);
    }
    are_left(alloc, &case.ports.disks, left)
}

/// Whether the text is the wanted one, or ends so.
fn is_text(written: &[u8], wanted: Wanted<'_>) -> bool {
    match wanted {
        Wanted::Whole(text) => written == text.as_bytes(),
        Wanted::End(text) => written.ends_with(text.as_bytes()),
        Wanted::Last(front) => last_line(written).starts_with(front.as_bytes()),
    }
}

/// The last line of a text, without its line feed.
fn last_line(written: &[u8]) -> &[u8] {
    let lines = written.strip_suffix(b"\n").unwrap_or(written);
    match lines.iter().rposition(|byte| *byte == b'\n') {
        Some(place) => &lines[place + 1..],
        None => lines,
    }
}

/// Whether the disks that were given back hold what is wanted.
fn are_left(alloc: Global, disks: &MemMaker, left: &[Value]) -> Result<bool> {
    for disk in left {
        let (actor, digits) = disk_of(disk).context("a disk of another form")?;
        let bytes = hex::decode(alloc, digits)?;
        if disks.content(actor) != Some(bytes.as_slice()) {
            return Ok(false);
        }
    }
    Ok(true)
}

fn disk_of(disk: &Value) -> Option<(u32, &str)> {
    match disk.as_array()?.as_slice() {
        [actor, digits] => Some((u32::try_from(actor.as_u64()?).ok()?, digits.as_str()?)),
        _ => None,
    }
}
