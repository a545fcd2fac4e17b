//! A source and a sink over memory.
ghost use Rattle.std.specs.Prelude.{◌≡◌, ◌<◌, ◌≤◌, ◌↔◌, ℕ, [], ◌++◌, Some, min, length, take, drop, Contains, IfOk, OnErr, IsErrOf};
ghost use Rattle.acc_ports.specs.Faults.{Rose};
ghost use Rattle.acc_ports.specs.MemPort.{passed, failed};
ghost use Rattle.acc_ports.specs.Source.{FillsFront};

use crate::calls::CallLog;
use crate::{Calls, History, PortError, Sink, Source};
use acc_base::{Bytes, Sequence};
use std::alloc::Global;
use std::marker::Model;

/// A source of bytes in memory, which gives a few at each read. Chosen reads fail.
#[derive(Debug, Drop)]
pub struct MemSource {
    bytes: Bytes,
    at: usize,
    piece: usize,
    log: CallLog,
    moved: History<usize>,
}

impl Model for MemSource {
    ghost use Rattle.std.specs.Prelude.{◌<◌, ◌≤◌, length, drop};
    ghost use Rattle.acc_ports.specs.MemPort.{MemPort};

    ghost Value = { MemPort };

    ghost view = { λ s. record { bytes = drop s.at s.bytes; piece = s.piece; moved = s.moved.items; fails = s.log.fails; calls = s.log.calls; faults = s.log.faults } };

    ghost invariant = { λ s. (s.at ≤ length s.bytes) × (0 < s.piece) };
}

impl MemSource {
    /// A source of these bytes, with up to `piece` of them for a read. Counting reads from 0, those in `fails` fail and the
    /// rest succeed. Nothing is allocated: the lists come with their memory.
    pub fn new(_alloc: Global, bytes: Bytes, piece: usize, fails: Calls) -> MemSource
        requires { 0 < piece }
        ensures { result ≡ record { bytes = bytes; piece = piece; moved = []; fails = fails; calls = 0; faults = 0 } }
    {
        MemSource {
            bytes,
            at: 0,
            piece,
            log: CallLog::new(fails),
            moved: History::new(),
        }
    }
}

impl Source for MemSource {
    ghost faults = { λ source. source.faults };

    ghost left = { λ source. Some source.bytes };

    ghost reads = { λ source. Some source.moved };

    /// Reads as many bytes as are left, as a read may give, and as `into` has room for. It takes no memory.
    fn read(&mut self, into: &mut [u8]) -> Result<usize, PortError>
        requires { 0 < length into.old }

        ensures count { IfOk result (λ count. count ≡ min (min (length self.old.bytes) self.old.piece) (length into.old)) }
        ensures given { IfOk result (λ count. FillsFront count self.old.bytes into.old into.new) }
        ensures passed { IfOk result (λ count. self.new ≡ passed self.old count (drop count self.old.bytes)) }
        ensures end { IfOk result (λ count. (count ≡ 0) ↔ (self.old.bytes ≡ [])) }

        ensures fails { IsErrOf result PortError.Failed ↔ Contains self.old.fails self.old.calls }
        ensures failed { OnErr result (self.new ≡ failed self.old) }
        ensures untouched { OnErr result (into.new ≡ into.old) }
        ensures no_memory { IsErrOf result PortError.OutOfMemory → ⊥ }

        ensures counted { self.old.faults ≤ self.new.faults }
        ensures cause { IsErrOf result PortError.Failed → Rose self.old.faults self.new.faults }
        ensures still { ¬ (IsErrOf result PortError.Failed) → self.new.faults ≡ self.old.faults }
    {
        if self.log.next_fails() {
            return Err(self.log.fail());
        }
        self.log.pass();
        let count = (self.bytes.len() - self.at).min(self.piece).min(into.len());
        let end = self.at + count;
        into[..count].copy_from_slice(&self.bytes.as_slice()[self.at..end]);
        self.at = end;
        self.moved = self.moved.and(&count);
        Ok(count)
    }
}

/// A sink that keeps its bytes in memory, and takes a few at each write. Chosen writes fail.
#[derive(Debug, Drop)]
pub struct MemSink {
    bytes: Bytes,
    piece: usize,
    log: CallLog,
    moved: History<usize>,
}

impl Model for MemSink {
    ghost use Rattle.std.specs.Prelude.{◌<◌};
    ghost use Rattle.acc_ports.specs.MemPort.{MemPort};

    ghost Value = { MemPort };

    ghost view = { λ s. record { bytes = s.bytes; piece = s.piece; moved = s.moved.items; fails = s.log.fails; calls = s.log.calls; faults = s.log.faults } };

    ghost invariant = { λ s. 0 < s.piece };
}

impl MemSink {
    /// A sink that holds no bytes yet, and takes up to `piece` in a write. Counting writes from 0, those in `fails` fail and
    /// the rest don't. A write that finds no memory isn't counted.
    pub fn new(alloc: Global, piece: usize, fails: Calls) -> MemSink
        requires { 0 < piece }
        ensures { result ≡ record { bytes = []; piece = piece; moved = []; fails = fails; calls = 0; faults = 0 } }
    {
        MemSink {
            bytes: Sequence::new(alloc),
            piece,
            log: CallLog::new(fails),
            moved: History::new(),
        }
    }

    /// The bytes written so far.
    pub fn written(&self) -> &[u8]
        ensures { result.now ≡ self.now.bytes }
    {
        self.bytes.as_slice()
    }
}

impl Sink for MemSink {
    ghost faults = { λ sink. sink.faults };

    ghost written = { λ sink. Some sink.bytes };

    /// Takes as many bytes as `piece` has and as a write may take. Without memory for them the sink is as before.
    fn write(&mut self, piece: &[u8]) -> Result<usize, PortError>
        ensures count { IfOk result (λ count. count ≡ min (length piece.now) self.old.piece) }
        ensures passed { IfOk result (λ count. self.new ≡ passed self.old count (self.old.bytes ++ take count piece.now)) }
        ensures progress { IfOk result (λ count. (count ≡ 0) ↔ (piece.now ≡ [])) }

        ensures fails { IsErrOf result PortError.Failed ↔ Contains self.old.fails self.old.calls }
        ensures failed { IsErrOf result PortError.Failed → self.new ≡ failed self.old }
        ensures no_memory { IsErrOf result PortError.OutOfMemory → self.new ≡ self.old }

        ensures counted { self.old.faults ≤ self.new.faults }
        ensures cause { IsErrOf result PortError.Failed → Rose self.old.faults self.new.faults }
        ensures still { ¬ (IsErrOf result PortError.Failed) → self.new.faults ≡ self.old.faults }
    {
        if self.log.next_fails() {
            return Err(self.log.fail());
        }
        let count = piece.len().min(self.piece);
        self.bytes.extend_from_slice(&piece[..count])?;
        self.log.pass();
        self.moved = self.moved.and(&count);
        Ok(count)
    }
}
