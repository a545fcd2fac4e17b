//! Appending to the bytes of a journal on a disk.
ghost use Rattle.std.specs.Prelude.{◌≡◌, ◌+◌, ◌^◌, ◌<◌, ℕ, List, ◌++◌, length, true, false, IfOk, IfErr, OnOk, OnErr};
ghost use Rattle.acc_ports.specs.Disk.{IsAtRest};
ghost use Rattle.acc_journal.specs.Layout.{payloads_of};
ghost use Rattle.acc_journal.specs.Journal.{IsSettled, IsOfTheDisk, HasGateAt, IsGroup};
ghost use Rattle.acc_journal.specs.Calls.{Appends, ending_of, journal_answer};

use crate::JournalError;
use crate::durable::write_durably;
use acc_ports::{Disk, PortError};

/// Appends a group of records to a journal on a disk at rest, and answers where its closed gate stands then. `bytes` are
/// the records without the gate in front of them, and a closed gate. First they are written after the gate that is
/// closed, and synced, and only then is it opened: so a crash leaves all of the group or nothing of it.
pub(crate) fn append_records<D: Disk>(
    disk: &mut D,
    gate: u64,
    bytes: &[u8],
) -> Result<u64, PortError>
    requires { IsSettled (D.state disk.old) (D.is_image disk.old) gate }
    ensures fits { length (D.state disk.new).content < 2 ^ 64 }
    ensures rest { OnOk result (IsAtRest (D.state disk.new) (D.is_image disk.new)) }
    ensures gate { IfOk result (λ place. (group : List (List ℕ)) → IsGroup group bytes.now → HasGateAt (D.state disk.new).content (payloads_of (D.state disk.old).content ++ group) place) }
    ensures appends { (group : List (List ℕ)) → IsGroup group bytes.now → Appends D.Disk disk.old disk.new (payloads_of (D.state disk.old).content) group (ending_of result) }
{
    write_durably(disk, gate + 1, bytes)?;
    write_durably(disk, gate, &[1])?;
    Ok(gate + bytes.len() as u64)
}

/// Appends a group of records, and keeps where the closed gate stands then, or that the journal is broken.
pub(crate) fn put_down<D: Disk>(
    disk: &mut D,
    gate: &mut u64,
    broken: &mut bool,
    bytes: &[u8],
) -> Result<(), JournalError>
    requires settled { IsSettled (D.state disk.old) (D.is_image disk.old) gate.old }
    requires sound { broken.old ≡ false }
    ensures ok { (group : List (List ℕ)) → IsGroup group bytes.now → OnOk result ((broken.new ≡ false) × (payloads_of (D.state disk.new).content ≡ payloads_of (D.state disk.old).content ++ group)) }
    ensures settled { (group : List (List ℕ)) → IsGroup group bytes.now → broken.new ≡ false → IsSettled (D.state disk.new) (D.is_image disk.new) gate.new }
    ensures broken { OnErr result (broken.new ≡ true) }
    ensures error { IfErr result IsOfTheDisk }
    ensures appends { (group : List (List ℕ)) → IsGroup group bytes.now → Appends D.Disk disk.old disk.new (payloads_of (D.state disk.old).content) group (journal_answer result) }
{
    match append_records(disk, *gate, bytes) {
        Ok(place) => {
            *gate = place;
            Ok(())
        }
        Err(error) => {
            *broken = true;
            Err(JournalError::from(error))
        }
    }
}
