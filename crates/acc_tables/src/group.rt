//! Groups of payloads that are appended to a journal.
ghost use Rattle.std.specs.Prelude.{◌≡◌, ◌+◌, ◌*◌, length, sum_by, IfSome};
ghost use Rattle.acc_journal.specs.Layout.{AreShort};

use crate::journal::told;
use acc_base::{Bytes, Sequence};
use acc_journal::{Journal, JournalError, Payloads};
use acc_ports::{MemDisk, Rig};
use anyhow::{Context, Result, bail};
use std::alloc::Global;

/// How an append to a new journal ends, and what a crash leaves of it, given as how many calls of the disk pass, the choice of the
/// crash and the payloads in base 16.
pub fn answer(alloc: Global, text: &str) -> Result<String> {
    let (calls, rest) = text.split_once(' ').context("no choice")?;
    let (choice, digits) = rest.split_once(' ').context("no payloads")?;
    match (calls.parse::<u64>(), choice.parse::<u8>()) {
        (Ok(calls), Ok(choice)) => appended(alloc, calls, choice, &payloads(alloc, digits)?),
        _ => bail!("no number"),
    }
}

fn payloads(alloc: Global, digits: &str) -> Result<Payloads> {
    let mut payloads = Sequence::new(alloc);
    for word in digits.split(' ') {
        payloads.push(Sequence::from_vec(hex::decode(alloc, word)?))?;
    }
    Ok(payloads)
}

fn appended(alloc: Global, calls: u64, choice: u8, payloads: &Payloads) -> Result<String> {
    let mut journal = Journal::fresh(alloc, MemDisk::new(alloc)?);
    journal.arm(calls);
    let ended = append(&mut journal, payloads);
    left(alloc, ended, journal, choice)
}

/// How an append ended.
fn append(journal: &mut Journal<MemDisk>, payloads: &Payloads) -> &'static str {
    if journal.is_broken() || payloads.is_empty() {
        return "no payloads";
    }
    let Some(room) = room(payloads.as_slice()) else {
        return "a payload that is too long";
    };
    if journal.reserve(room).is_err() {
        return "out of memory";
    }
    match journal.append_group(payloads) {
        Ok(()) => "ok",
        Err(JournalError::DiskFault) => "fault",
        Err(_) => "out of memory",
    }
}

/// How it ended, and what a crash leaves.
fn left(alloc: Global, ended: &str, journal: Journal<MemDisk>, choice: u8) -> Result<String> {
    let mut disk = journal.into_disk();
    disk.crash(choice)?;
    let found = told(alloc, Journal::reopen(alloc, disk))?;
    Ok(format!(in alloc; "{ended} {found}")?)
}

/// How much room an append of these payloads asks for at most. None where one is too long.
fn room(payloads: &[Bytes]) -> Option<u64>
    ensures { IfSome result (λ room. AreShort payloads.now × (sum_by length payloads.now + 5 * length payloads.now ≡ room)) }
{
    let mut room: u64 = 0;
    for payload in payloads {
        let length = payload.len() as u64;
        if length >= 1 << 32 {
            return None;
        }
        room = room.checked_add(length + 5)?;
    }
    Some(room)
}
