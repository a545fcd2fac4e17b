//! A journal with payloads that wait for it.
ghost use Rattle.std.specs.Prelude.{◌≡◌, ◌^◌, ◌<◌, true, false, List, [], ◌++◌, ℕ, length, take, IfErr, OnOk, OnErr};
ghost use Rattle.acc_ports.specs.Moments.{LeavesOnly, Arms};
ghost use Rattle.acc_payloads.specs.Journals.{appended};

use acc_base::OutOfMemory;
use acc_journal::{Journal, JournalError, Payload, Records};
use acc_payloads::put_record;
use acc_ports::{Disk, Rig};
use std::alloc::Global;
use std::marker::Model;

/// A journal, and a group of payloads that is staged for it, in the bytes that go to its disk.
#[derive(Debug, Drop)]
pub(crate) struct StagedJournal<D: Disk> {
    journal: Journal<D>,
    group: Records,
}

impl<D: Disk> Model for StagedJournal<D> {
    ghost use Rattle.acc_durable_store.specs.Staged.{StagedState};

    ghost Value = { StagedState D };

    ghost view = { λ s. record { disk = s.journal.disk; payloads = s.journal.payloads; group = s.group; broken = s.journal.broken } };
}

impl<D: Disk> StagedJournal<D> {
    ghost use Rattle.acc_journal.specs.Layout.{Reads};
    ghost use Rattle.acc_journal.specs.Journal.{IsOfTheDisk};
    ghost use Rattle.acc_journal.specs.Calls.{Appends, journal_answer};

    /// A journal with nothing staged.
    pub(crate) fn new(alloc: Global, journal: Journal<D>) -> StagedJournal<D>
        ensures { result ≡ record { disk = journal.disk; payloads = journal.payloads; group = []; broken = journal.broken } }
    {
        StagedJournal {
            journal,
            group: Records::new(alloc),
        }
    }

    /// Stages a payload, with a mark in front of it where one is due. It is written in place, and makes no call of the disk. Without
    /// memory nothing more is staged.
    pub(crate) fn put<P: Payload>(
        &mut self,
        version: u8,
        marked: bool,
        payload: &P,
    ) -> Result<(), OutOfMemory>
        requires { P.has_payload payload.now }
        ensures ok { OnOk result (self.new ≡ record self.old { group = self.old.group ++ appended version marked (P.bytes payload.now) }) }
        ensures written { OnOk result (P.is_written payload.now) }
        ensures fits { OnOk result (length self.new.group < 2 ^ 64) }
        ensures err { OnErr result (self.new ≡ self.old) }
    {
        put_record(&mut self.group, version, marked, payload)?;
        let _fits = self.group.len();
        Ok(())
    }

    /// Takes back what was staged after the first payloads of the group.
    pub(crate) fn cancel(&mut self, kept: usize)
        ensures { self.new ≡ record self.old { group = take kept self.old.group } }
    {
        self.group.truncate(kept);
    }

    /// How many payloads are staged.
    pub(crate) fn count(&self) -> usize
        ensures { result ≡ length self.now.group }
    {
        self.group.len()
    }

    /// Appends all that is staged as one group, in four calls of the disk. After an error the journal is broken, and either all of the
    /// group stands on the disk or nothing of it; it stays staged.
    pub(crate) fn append(&mut self) -> Result<(), JournalError>
        requires sound { self.old.broken ≡ false }
        requires some { 0 < length self.old.group }

        ensures ok { OnOk result (self.new ≡ record { disk = self.new.disk; payloads = self.old.payloads ++ self.old.group; group = []; broken = false }) }
        ensures broken { OnErr result (self.new.broken ≡ true) }
        ensures err_group { OnErr result (self.new.group ≡ self.old.group) }
        ensures error { IfErr result IsOfTheDisk }
        ensures appends { Appends D.Disk self.old.disk self.new.disk self.old.payloads self.old.group (journal_answer result) }
    {
        self.journal.append_records(&mut self.group)?;
        self.group.truncate(0);
        Ok(())
    }

    /// Whether a call of the disk failed or found no memory.
    pub(crate) fn is_broken(&self) -> bool
        ensures value { result ≡ self.now.broken }
        ensures sound { self.now.broken ≡ false → (image : List ℕ) → D.is_image self.now.disk image → Reads image self.now.payloads }
        ensures rests { self.now.broken ≡ false → LeavesOnly D.Disk self.now.disk self.now.disk (λ image. Reads image self.now.payloads) }
    {
        self.journal.is_broken()
    }

    /// The disk under the journal.
    pub(crate) fn into_disk(self) -> D
        ensures { result ≡ self.disk }
    {
        let StagedJournal { journal, group: _ } = self;
        journal.into_disk()
    }
}

impl<D: Rig> StagedJournal<D> {
    /// Arms a call of the disk: so many more pass, and the next one fails.
    pub(crate) fn arm(&mut self, calls: u64)
        ensures arms { Arms D.Disk calls self.old.disk self.new.disk }
        ensures same { self.new ≡ record self.old { disk = self.new.disk } }
    {
        self.journal.arm(calls);
    }
}
