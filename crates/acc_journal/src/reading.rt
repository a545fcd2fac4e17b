//! Reading the bytes of a journal.
ghost use Rattle.std.specs.Prelude.{◌≡◌, ◌≢◌, ◌+◌, ◌^◌, ◌<◌, ◌≤◌, ◌++◌, length, Err, OnOk, IfOk, IfErr, IfSome, IfNone};
ghost use Rattle.acc_ports.specs.Disk.{IsAtRest};
ghost use Rattle.acc_journal.specs.Layout.{sized, NoRecord};
ghost use Rattle.acc_journal.specs.Journal.{HasGateAt, IsRefused};
ghost use Rattle.acc_journal.specs.Calls.{ReadsDisk, journal_answer};

use crate::{JournalError, Payloads};
use acc_base::{Bytes, Sequence};
use acc_ports::Disk;
use acc_wire::Reader;
use std::alloc::Global;

/// What the bytes of a journal tell: its payloads, and where the closed gate after the last of them stands.
#[derive(Drop)]
pub(crate) struct Told {
    pub(crate) payloads: Payloads,
    pub(crate) gate: u64,
}

/// The payload at the front of these bytes, and what is left from the next gate on, or `None` where one of them is cut.
fn take_record(bytes: &[u8]) -> Option<(&[u8], &[u8])>
    ensures short { IfSome result (λ parts. length parts.0.now < 2 ^ 32) }
    ensures spelled { IfSome result (λ parts. bytes.now ≡ sized parts.0.now ++ parts.1.now) }
    ensures gate { IfSome result (λ parts. 0 < length parts.1.now) }
    ensures cut { IfNone result (NoRecord bytes.now) }
{
    let mut reader = Reader::new(bytes);
    let Ok(count) = reader.take_u32() else {
        return None;
    };
    let rest = reader.left();
    let count = count as usize;
    if rest.len() <= count {
        return None;
    }
    Some(rest.split_at(count))
}

/// Reads the bytes of a journal.
pub(crate) fn read_payloads(alloc: Global, bytes: &[u8]) -> Result<Told, JournalError>
    ensures told { IfOk result (λ told. HasGateAt bytes.now told.payloads told.gate) }
    ensures refused { IfErr result (IsRefused bytes.now) }
    ensures no_fault { result ≢ Err JournalError.DiskFault }
{
    let [version, rest @ ..] = bytes else {
        return Err(JournalError::BadRecord { place: 0 });
    };
    if *version != 1 {
        return Err(JournalError::BadVersion { byte: *version });
    }
    if rest.is_empty() {
        return Err(JournalError::BadRecord { place: 1 });
    }
    let mut payloads = Sequence::new(alloc);
    let mut gate = 1;
    let mut rest = rest;
    while rest[0] == 1 {
        let Some((payload, next)) = take_record(&rest[1..]) else {
            return Err(JournalError::BadRecord { place: gate });
        };
        payloads.push(Bytes::from_slice(alloc, payload)?)?;
        gate += 5 + payload.len() as u64;
        rest = next;
    }
    Ok(Told { payloads, gate })
}

/// Reads the journal on a disk at rest, in two calls. It writes nothing.
pub(crate) fn read_disk<D: Disk>(alloc: Global, disk: &mut D) -> Result<Told, JournalError>
    requires { IsAtRest (D.state disk.old) (D.is_image disk.old) }
    ensures told { IfOk result (λ told. HasGateAt (D.state disk.old).content told.payloads told.gate) }
    ensures refused { IfErr result (IsRefused (D.state disk.old).content) }
    ensures rest { OnOk result (IsAtRest (D.state disk.new) (D.is_image disk.new)) }
    ensures err_rest { IfErr result (λ error. error ≢ JournalError.OutOfMemory → IsAtRest (D.state disk.new) (D.is_image disk.new)) }
    ensures fits { length (D.state disk.new).content < 2 ^ 64 }
    ensures reads { ReadsDisk D.Disk disk.old disk.new (journal_answer result) }
{
    let count = disk.len()?;
    let mut bytes = Vec::new(alloc);
    bytes.resize(count as usize, 0)?;
    disk.read(0, &mut bytes)?;
    read_payloads(alloc, &bytes)
}
