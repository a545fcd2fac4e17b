//! The records of a journal, read where they stand.
ghost use Rattle.std.specs.Prelude.{◌≡◌, ◌<◌, ◌^◌, ◌++◌, length, IfOk, IfErr, IfSome, IfNone};
ghost use Rattle.acc_journal.specs.Journal.{IsRefused};
ghost use Rattle.acc_journal.specs.Layout.{sized, NoRecord, Reads};
ghost use Rattle.acc_left.specs.Told.{bytes_in};

use acc_journal::JournalError;
use acc_wire::Reader;
use std::alloc::Global;

/// The payloads of a journal, which stand in its bytes. `BadVersion` and `BadRecord` say of the bytes what
/// `Journal::reopen` says of them, and no other error but want of memory comes.
pub(crate) fn payloads_of(alloc: Global, bytes: &[u8]) -> Result<Vec<&[u8]>, JournalError>
    ensures ok { IfOk result (λ payloads. Reads bytes.now (bytes_in payloads.items)) }
    ensures refused { IfErr result (IsRefused bytes.now) }
{
    let [version, rest @ ..] = bytes else {
        return Err(JournalError::BadRecord { place: 0 });
    };
    if *version != 1 {
        return Err(JournalError::BadVersion { byte: *version });
    }
    if rest.is_empty() {
        return Err(JournalError::BadRecord { place: 1 });
    }
    let mut payloads = Vec::new(alloc);
    let mut gate = 1;
    let mut rest = rest;
    while rest[0] == 1 {
        let Some((payload, next)) = take_record(&rest[1..]) else {
            return Err(JournalError::BadRecord { place: gate });
        };
        match payloads.push(payload) {
            Ok(()) => {}
            Err(_) => return Err(JournalError::OutOfMemory),
        }
        gate += 5 + payload.len() as u64;
        rest = next;
    }
    Ok(payloads)
}

// The payload at the front of these bytes, and what is left from the next gate on, or `None` where one of them is cut.
fn take_record(bytes: &[u8]) -> Option<(&[u8], &[u8])>
    ensures short { IfSome result (λ parts. length parts.0.now < 2 ^ 32) }
    ensures spelled { IfSome result (λ parts. bytes.now ≡ sized parts.0.now ++ parts.1.now) }
    ensures gate { IfSome result (λ parts. 0 < length parts.1.now) }
    ensures cut { IfNone result (NoRecord bytes.now) }
{
    let mut reader = Reader::new(bytes);
    let Ok(count) = reader.take_u32() else {
        return None;
    };
    let rest = reader.left();
    let count = count as usize;
    if rest.len() <= count {
        return None;
    }
    Some(rest.split_at(count))
}
