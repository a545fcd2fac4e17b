//! The mark of version 2.
ghost use Rattle.std.specs.Prelude.{◌≡◌, ◌++◌, OnOk, OnErr};
ghost use Rattle.std.specs.Str.{bytes_eq};
ghost use Rattle.acc_payloads.specs.Spelling.{mark_bytes};
ghost use Rattle.acc_payloads.specs.Journals.{may_mark as mark_may_stand, appended};

use acc_base::{Bytes, OutOfMemory};
use acc_journal::{Payload, Payloads, Records};

/// The payload that tells that an actor of version 2 went on with a journal.
pub(crate) const MARK: [u8; 2] = [0xff, 2];

/// Whether a payload is the mark.
pub(crate) fn is_mark(payload: &[u8]) -> bool
    ensures { result ≡ bytes_eq payload.now mark_bytes }
{
    payload == MARK.as_slice()
}

/// Whether a mark may stand in a journal that is read by this version, where `marked` tells whether one stands before it: only
/// version 2 knows a mark, and a journal has one of them at most.
pub fn may_mark(version: u8, marked: bool) -> bool
    ensures { result ≡ mark_may_stand version marked }
{
    version == 2 && !marked
}

/// Appends a payload to a group that an actor of this version will append to a journal, where `marked` tells whether the journal or
/// the group has a mark. Version 2 puts a mark in front of it where there is none. Without memory the group is as before.
pub fn put_payload(
    group: &mut Payloads,
    version: u8,
    marked: bool,
    payload: Bytes,
) -> Result<(), OutOfMemory>
    ensures ok { OnOk result (group.new ≡ group.old ++ appended version marked payload) }
    ensures err { OnErr result (group.new ≡ group.old) }
{
    if !may_mark(version, marked) {
        return group.push(payload);
    }
    let before = group.len();
    group.push(Bytes::from_slice(payload.allocator(), &MARK)?)?;
    let appended = group.push(payload);
    if appended.is_err() {
        group.truncate(before);
    }
    appended
}

/// A mark as a payload that is written in place.
struct Mark;

impl Payload for Mark {
    ghost has_payload = { λ _. Unit {0} };

    ghost bytes = { λ _. mark_bytes };

    ghost is_written = { λ _. Unit {0} };

    fn put(&self, out: &mut Bytes) -> Result<(), OutOfMemory> {
        out.extend_from_slice(&MARK)
    }
}

/// The same of a payload that is written in place, after the records that wait for a journal.
pub fn put_record<P: Payload>(
    records: &mut Records,
    version: u8,
    marked: bool,
    payload: &P,
) -> Result<(), OutOfMemory>
    requires { P.has_payload payload.now }
    ensures ok { OnOk result (records.new ≡ records.old ++ appended version marked (P.bytes payload.now)) }
    ensures written { OnOk result (P.is_written payload.now) }
    ensures err { OnErr result (records.new ≡ records.old) }
{
    if !may_mark(version, marked) {
        return records.put(payload);
    }
    let before = records.len();
    records.put(&Mark)?;
    let put = records.put(payload);
    if put.is_err() {
        records.truncate(before);
    }
    put
}
