//! A journal on a disk.
ghost use Rattle.std.specs.Prelude.{◌≡◌, ◌≢◌, ◌^◌, ◌<◌, ◌≤◌, true, false, List, [], ◌∷◌, ◌++◌, ℕ, length, Ok, Err, IfOk, IfErr, OnOk, OnErr};
ghost use Rattle.acc_ports.specs.Disk.{IsAtRest};
ghost use Rattle.acc_ports.specs.Moments.{Arms};

use crate::append::put_down;
use crate::group::{fill, fill_one};
use crate::reading::read_disk;
use crate::records::Records;
use crate::{JournalError, Payloads};
use acc_base::OutOfMemory;
use acc_ports::{Disk, Rig};
use std::alloc::Global;
use std::marker::Model;

/// Payloads on a disk. A payload that was appended can't be lost: from then on each crash leaves it. A journal is broken
/// once a call of its disk failed or found no memory; the disk then has what was acknowledged, and all of the last group
/// or nothing of it.
#[derive(Debug, Drop)]
pub struct Journal<D: Disk> {
    disk: D,
    /// Where the closed gate stands.
    gate: u64,
    /// What goes to the disk in one write; its room is all that is kept of it.
    buffer: Vec<u8>,
    broken: bool,
}

impl<D: Disk> Model for Journal<D> {
    ghost use Rattle.std.specs.Prelude.{◌≡◌, ◌-◌, false, vec_capacity};
    ghost use Rattle.acc_journal.specs.Layout.{payloads_of};
    ghost use Rattle.acc_journal.specs.Journal.{JournalState, IsSettled};

    ghost Value = { JournalState D };

    ghost view = { λ j. record { disk = j.disk; payloads = payloads_of (D.state j.disk).content; spare = vec_capacity j.buffer - 6; broken = j.broken } };

    ghost invariant = { λ j. j.broken ≡ false → IsSettled (D.state j.disk) (D.is_image j.disk) j.gate };
}

impl<D: Disk> Journal<D> {
    ghost use Rattle.acc_journal.specs.Layout.{Reads, AreShort};
    ghost use Rattle.acc_journal.specs.Journal.{IsOfTheDisk, IsRefused, group_room};
    ghost use Rattle.acc_journal.specs.Calls.{Appends, ReadsDisk, journal_answer};
    ghost use Rattle.acc_journal.specs.Errors.{port_error};

    /// A journal without payloads, on a disk that holds the bytes 1 and 0, synced. It makes no call of the disk and takes no
    /// memory.
    pub fn fresh(alloc: Global, disk: D) -> Journal<D>
        requires content { (D.state disk).content ≡ 1 ∷ 0 ∷ [] }
        requires rest { IsAtRest (D.state disk) (D.is_image disk) }
        ensures { result ≡ record { disk = disk; payloads = []; spare = 0; broken = false } }
    {
        Journal {
            disk,
            gate: 1,
            buffer: Vec::new(alloc),
            broken: false,
        }
    }

    /// Opens the journal on a disk, as a crash left it, and gives its payloads. It reads the disk in two calls and writes
    /// nothing. Every error hands the disk back. `BadVersion` and `BadRecord` tell of the bytes, and come on no journal that
    /// this crate wrote, whatever a crash left of it.
    pub fn reopen(alloc: Global, disk: D) -> Result<(Journal<D>, Payloads), (JournalError, D)>
        requires { IsAtRest (D.state disk) (D.is_image disk) }
        ensures ok { IfOk result (λ r. r.0 ≡ record { disk = r.0.disk; payloads = r.1; spare = 0; broken = false }) }
        ensures payloads { IfOk result (λ r. Reads (D.state disk).content r.1) }
        ensures reads { IfOk result (λ r. ReadsDisk D.Disk disk r.0.disk (Ok tt)) }
        ensures err_reads { IfErr result (λ e. ReadsDisk D.Disk disk e.1 (Err (port_error e.0))) }
        ensures err_rest { IfErr result (λ e. e.0 ≢ JournalError.OutOfMemory → IsAtRest (D.state e.1) (D.is_image e.1)) }
        ensures refused { IfErr result (λ e. IsRefused (D.state disk).content e.0) }
        ensures never { (payloads : List (List ℕ)) → Reads (D.state disk).content payloads → IfErr result (λ e. IsOfTheDisk e.0) }
    {
        let mut disk = disk;
        match read_disk(alloc, &mut disk) {
            Ok(told) => Ok((
                Journal {
                    disk,
                    gate: told.gate,
                    buffer: Vec::new(alloc),
                    broken: false,
                },
                told.payloads,
            )),
            Err(error) => Err((error, disk)),
        }
    }

    /// Makes room for a payload of so many bytes, or for a group that takes as much. Its append takes no memory of the
    /// journal's own then.
    pub fn reserve(&mut self, bytes: u64) -> Result<(), OutOfMemory>
        ensures room { OnOk result (bytes ≤ self.new.spare) }
        ensures no_less { self.old.spare ≤ self.new.spare }
        ensures same { self.new ≡ record self.old { spare = self.new.spare } }
    {
        let Some(room) = bytes.checked_add(6) else {
            return Err(OutOfMemory);
        };
        self.buffer.clear();
        self.buffer.reserve(room as usize)?;
        Ok(())
    }

    /// Appends a payload. At Ok each crash from then on leaves it. After an error the journal is broken, and the payload stands
    /// on the disk or doesn't. It makes four calls of the disk.
    pub fn append(&mut self, payload: &[u8]) -> Result<(), JournalError>
        requires sound { self.old.broken ≡ false }
        requires short { length payload.now < 2 ^ 32 }
        requires room { length payload.now ≤ self.old.spare }

        ensures ok { OnOk result ((self.new.broken ≡ false) × (self.new.payloads ≡ self.old.payloads ++ payload.now ∷ [])) }
        ensures broken { OnErr result (self.new.broken ≡ true) }
        ensures error { IfErr result IsOfTheDisk }
        ensures appends { Appends D.Disk self.old.disk self.new.disk self.old.payloads (payload.now ∷ []) (journal_answer result) }
        ensures spare { self.old.spare ≤ self.new.spare }
    {
        if payload.is_empty() {
            return put_down(&mut self.disk, &mut self.gate, &mut self.broken, &[0; 5]);
        }
        fill_one(&mut self.buffer, payload);
        put_down(
            &mut self.disk,
            &mut self.gate,
            &mut self.broken,
            &self.buffer[1..],
        )
    }

    /// Appends a group of payloads. At Ok each crash from then on leaves all of them. After an error the journal is broken,
    /// and either all of them stand on the disk or none. It makes four calls of the disk, as many as for one payload.
    pub fn append_group(&mut self, payloads: &Payloads) -> Result<(), JournalError>
        requires sound { self.old.broken ≡ false }
        requires some { 0 < length payloads.now }
        requires short { AreShort payloads.now }
        requires room { group_room payloads.now ≤ self.old.spare }

        ensures ok { OnOk result ((self.new.broken ≡ false) × (self.new.payloads ≡ self.old.payloads ++ payloads.now)) }
        ensures broken { OnErr result (self.new.broken ≡ true) }
        ensures error { IfErr result IsOfTheDisk }
        ensures appends { Appends D.Disk self.old.disk self.new.disk self.old.payloads payloads.now (journal_answer result) }
        ensures spare { self.old.spare ≤ self.new.spare }
    {
        if let [payload] = payloads.as_slice() {
            return self.append(payload.as_slice());
        }
        fill(&mut self.buffer, payloads.as_slice());
        put_down(
            &mut self.disk,
            &mut self.gate,
            &mut self.broken,
            &self.buffer[1..],
        )
    }

    /// The same of a group that stands in the bytes of its records, which go to the disk as they are. The records stay. It takes no
    /// memory of its own.
    pub fn append_records(&mut self, records: &mut Records) -> Result<(), JournalError>
        requires sound { self.old.broken ≡ false }
        requires some { 0 < length records.old }

        ensures ok { OnOk result ((self.new.broken ≡ false) × (self.new.payloads ≡ self.old.payloads ++ records.old)) }
        ensures broken { OnErr result (self.new.broken ≡ true) }
        ensures error { IfErr result IsOfTheDisk }
        ensures appends { Appends D.Disk self.old.disk self.new.disk self.old.payloads records.old (journal_answer result) }
        ensures spare { self.old.spare ≤ self.new.spare }
        ensures kept { records.new ≡ records.old }
    {
        records.bytes.push_reserved(0);
        let appended = put_down(
            &mut self.disk,
            &mut self.gate,
            &mut self.broken,
            &records.bytes[1..],
        );
        let _gate = records.bytes.pop();
        appended
    }

    /// Whether a call of the disk failed or found no memory. Such a journal takes nothing any more.
    pub fn is_broken(&self) -> bool
        ensures value { result ≡ self.now.broken }
        ensures sound { self.now.broken ≡ false → (image : List ℕ) → D.is_image self.now.disk image → Reads image self.now.payloads }
    {
        let _disk = &self.disk;
        self.broken
    }

    /// The disk under the journal.
    pub fn into_disk(self) -> D
        ensures { result ≡ self.disk }
    {
        let Journal {
            disk,
            gate: _,
            buffer: _,
            broken: _,
        } = self;
        disk
    }
}

impl<D: Rig> Journal<D> {
    /// Arms a call of the disk: where that is strict, so many more pass and the next one fails. It makes no call of the disk and takes no
    /// memory.
    pub fn arm(&mut self, calls: u64)
        ensures arms { Arms D.Disk calls self.old.disk self.new.disk }
        ensures same { self.new ≡ record self.old { disk = self.new.disk } }
    {
        self.disk.arm(calls);
    }
}
