//! Bytes of journals.
use acc_base::{Bytes, OutOfMemory, Sequence};
use acc_journal::{Journal, JournalError, Payloads};
use acc_ports::MemDisk;
use anyhow::Result;
use std::alloc::Global;

/// The payloads of the journal on a disk that has these bytes, or why there is none.
pub fn answer(alloc: Global, bytes: &[u8]) -> Result<String> {
    let disk = MemDisk::of(alloc, Sequence::from_slice(alloc, bytes)?)?;
    told(alloc, Journal::reopen(alloc, disk))
}

/// The payloads of a journal that was opened, or why there is none.
pub fn told(
    alloc: Global,
    opened: Result<(Journal<MemDisk>, Payloads), (JournalError, MemDisk)>,
) -> Result<String> {
    match opened {
        Ok((journal, payloads)) => {
            drop(journal);
            read(alloc, payloads.as_slice())
        }
        Err((error, disk)) => {
            drop(disk);
            refused(alloc, error)
        }
    }
}

fn read(alloc: Global, payloads: &[Bytes]) -> Result<String> {
    let mut answer = "read".to_string(alloc)?;
    for payload in payloads {
        add(alloc, &mut answer, payload)?;
    }
    Ok(answer)
}

fn add(alloc: Global, answer: &mut String, payload: &Bytes) -> Result<()> {
    answer.push_str(" ")?;
    answer.push_str(&hex::encode(alloc, payload.as_slice())?)?;
    Ok(())
}

fn refused(alloc: Global, error: JournalError) -> Result<String> {
    match error {
        JournalError::BadRecord { place } => Ok(format!(in alloc; "bad record {place}")?),
        JournalError::BadVersion { byte } => Ok(format!(in alloc; "bad version {byte}")?),
        JournalError::DiskFault => Ok("fault".to_string(alloc)?),
        JournalError::OutOfMemory => Err(OutOfMemory.into()),
    }
}
