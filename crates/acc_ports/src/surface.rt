//! The bytes of a disk in memory, with what takes back each write since the last sync.
ghost use Rattle.std.specs.Prelude.{◌≡◌, ◌+◌, ◌≤◌, ◌<◌, ◌^◌, [], ◌∷◌, ◌++◌, length, take, min, vec_len, IfOk, OnOk, OnErr};
ghost use Rattle.acc_ports.specs.Disk.{overwritten, Only, Stands};
ghost use Rattle.acc_ports.specs.Strict.{IsImage, LeftByChoice};

use crate::saved::Saved;
use crate::undo::{fill, note_failure, take_back, write_over};
use acc_base::{Bytes, OutOfMemory};
use std::alloc::Global;
use std::marker::Model;

/// A write since the last sync.
#[derive(Debug, Drop)]
pub(crate) struct Write {
    /// Where it began.
    pub(crate) at: usize,
    /// How many bytes it wrote, or was to write.
    pub(crate) count: usize,
    /// How many bytes there were before it.
    pub(crate) before: usize,
    /// The bytes that it wrote over.
    pub(crate) saved: Saved,
}

/// The content, and the writes since the last sync, the newest last.
#[derive(Debug, Drop)]
pub(crate) struct Surface {
    content: Vec<u8>,
    writes: Vec<Write>,
}

impl Model for Surface {
    ghost use Rattle.acc_ports.specs.MemoryDisk.{DiskBytes};

    ghost Value = { DiskBytes };

    ghost use Rattle.acc_ports.specs.Undo.{synced_of, ranges_of, CanCrash};

    ghost view = { λ s. record { content = s.content.items; synced = synced_of s.writes.items s.content.items; written = ranges_of s.writes.items } };

    ghost invariant = { λ s. CanCrash s.writes.items s.content.items };
}

impl Surface {
    ghost use Rattle.acc_ports.specs.MemoryDisk.{IsImageOf, settled_on, after_write, after_failed_write};

    /// These bytes, all synced. It takes no memory.
    pub(crate) fn holding(alloc: Global, content: Bytes) -> Surface
        ensures value { result ≡ settled_on content }
        ensures only { Only content (IsImageOf result) }
        ensures stands { Stands result.content (IsImageOf result) }
    {
        Surface {
            content: content.into_vec(),
            writes: Vec::new(alloc),
        }
    }

    /// What a read gives.
    pub(crate) fn content(&self) -> &[u8]
        ensures value { result.now ≡ self.now.content }
        ensures stands { Stands self.now.content (IsImageOf self.now) }
    {
        let _writes = &self.writes;
        self.content.as_slice()
    }

    /// Writes bytes at a place. Without memory all is as before.
    pub(crate) fn write_at(&mut self, at: usize, bytes: &[u8]) -> Result<(), OutOfMemory>
        requires { at ≤ length self.old.content }
        ensures ok { OnOk result (self.new ≡ after_write at bytes.now self.old) }
        ensures stands { Stands self.new.content (IsImageOf self.new) }
        ensures err { OnErr result (self.new ≡ self.old) }
    {
        write_over(&mut self.content, &mut self.writes, at, bytes)
    }

    /// Takes note of a write that failed. Without memory for that all is as before.
    pub(crate) fn fail_at(&mut self, at: usize, count: usize) -> Result<(), OutOfMemory>
        requires { at ≤ length self.old.content }
        ensures ok { OnOk result (self.new ≡ after_failed_write at count self.old) }
        ensures stands { Stands self.new.content (IsImageOf self.new) }
        ensures err { OnErr result (self.new ≡ self.old) }
    {
        note_failure(&self.content, &mut self.writes, at, count)
    }

    /// From now on a crash leaves what a read gives.
    pub(crate) fn sync(&mut self)
        ensures settled { self.new ≡ settled_on self.old.content }
        ensures stands { Stands self.new.content (IsImageOf self.new) }
    {
        self.writes.clear();
    }

    /// Leaves what a crash leaves by this choice.
    pub(crate) fn crash(&mut self, choice: u8)
        ensures left { LeftByChoice choice self.old.content self.old.synced self.old.written self.new.content }
        ensures image { IsImage self.old.synced self.old.written self.new.content }
        ensures settled { self.new ≡ settled_on self.new.content }
        ensures stands { Stands self.new.content (IsImageOf self.new) }
    {
        match choice {
            0 => take_back(&mut self.content, &mut self.writes),
            1 => {}
            _ => fill(&mut self.content, &self.writes, choice),
        }
        self.writes.clear();
    }
}
