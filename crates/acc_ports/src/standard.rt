//! Standard input and output as a source and a sink.
//!
//! ```text
//! fn main(rt: HostRuntime) -> ExitCode {
//!     let mut source = StdSource::new(&rt);
//!     let mut sink = StdSink::new(&rt);
//!     ..
//! }
//! ```
ghost use Rattle.std.specs.Prelude.{◌≡◌, ◌<◌, ◌≤◌, ◌↔◌, ℕ, [], ◌∷◌, ◌++◌, None, Some, length, IfOk, OnErr, IfErr, IsErrOf, is_ok, if◌then◌else◌};
ghost use Rattle.std.specs.Io.KnownBytes.{ReadConsumes, WriteAppends};
ghost use Rattle.acc_ports.specs.Faults.{Rose, next_count};

use crate::{History, PortError, Sink, Source};
use std::io;
use std::io::{Printer, Read, Write};
use std::marker::Model;

/// A source over a reader, as over standard input. It doesn't tell its bytes and keeps none of them back: each read is one
/// read of the reader. It tells what its reads gave.
#[derive(Debug, Drop)]
pub struct StdSource<R> {
    reader: R,
    moved: History<usize>,
    faults: u64,
}

impl<R> Model for StdSource<R> {
    ghost use Rattle.acc_ports.specs.StdPort.{StdPort};

    ghost Value = { StdPort R };

    ghost view = { λ s. record { inner = s.reader; moved = s.moved.items; faults = s.faults } };
}

impl<R: Read> StdSource<R> {
    /// The standard input of the process. Nothing is read yet.
    pub fn new<I: Input<Reader = R>>(rt: &I) -> StdSource<R>
        ensures moved { result.moved ≡ [] }
        ensures faults { result.faults ≡ 0 }
    {
        StdSource::over(rt.reader())
    }

    /// What a reader has left.
    pub fn over(reader: R) -> StdSource<R>
        ensures { result ≡ record { inner = reader; moved = []; faults = 0 } }
    {
        StdSource {
            reader,
            moved: History::new(),
            faults: 0,
        }
    }
}

impl<R: Read> Source for StdSource<R> {
    ghost faults = { λ source. source.faults };

    ghost left = { λ _. None };

    ghost reads = { λ source. Some source.moved };

    /// Reads once. Each error of the reader is a fault, an interrupt too.
    fn read(&mut self, into: &mut [u8]) -> Result<usize, PortError>
        requires { 0 < length into.old }

        ensures room { IfOk result (λ count. count ≤ length into.old) }
        ensures bytes { ReadConsumes (R.remaining self.old.inner) (R.remaining self.new.inner) result into.new }
        ensures failed { IfErr result (λ error. error ≡ PortError.Failed) }
        ensures moved { IfOk result (λ count. self.new.moved ≡ self.old.moved ++ count ∷ []) }
        ensures unmoved { OnErr result (self.new.moved ≡ self.old.moved) }
        ensures faults { self.new.faults ≡ (if is_ok result then self.old.faults else next_count self.old.faults) }

        ensures counted { self.old.faults ≤ self.new.faults }
        ensures cause { IsErrOf result PortError.Failed → Rose self.old.faults self.new.faults }
        ensures still { ¬ (IsErrOf result PortError.Failed) → self.new.faults ≡ self.old.faults }
    {
        match self.reader.read(into) {
            Ok(count) => {
                self.moved = self.moved.and(&count);
                Ok(count)
            }
            Err(_) => {
                self.faults = self.faults.saturating_add(1);
                Err(PortError::Failed)
            }
        }
    }
}

/// A sink over a writer, as over standard output. It doesn't tell its bytes and keeps none of them back: each write is one
/// write of the writer. What standard output took has been given to the system.
#[derive(Debug, Drop)]
pub struct StdSink<W> {
    writer: W,
    moved: History<usize>,
    faults: u64,
}

impl<W> Model for StdSink<W> {
    ghost use Rattle.acc_ports.specs.StdPort.{StdPort};

    ghost Value = { StdPort W };

    ghost view = { λ s. record { inner = s.writer; moved = s.moved.items; faults = s.faults } };
}

impl<'a, P: Print> StdSink<Printer<'a, P>> {
    /// The standard output of the process. Nothing is written yet.
    pub fn new(rt: &'a P) -> StdSink<Printer<'a, P>>
        ensures moved { result.moved ≡ [] }
        ensures faults { result.faults ≡ 0 }
    {
        StdSink::over(io::writer(rt))
    }
}

impl<W: Write> StdSink<W> {
    /// What a writer takes.
    pub fn over(writer: W) -> StdSink<W>
        ensures { result ≡ record { inner = writer; moved = []; faults = 0 } }
    {
        StdSink {
            writer,
            moved: History::new(),
            faults: 0,
        }
    }
}

impl<W: Write> Sink for StdSink<W> {
    ghost faults = { λ sink. sink.faults };

    ghost written = { λ _. None };

    /// Writes once. Each error of the writer is a fault, an interrupt too. It is also a fault if there are bytes to write and
    /// the writer takes none.
    fn write(&mut self, piece: &[u8]) -> Result<usize, PortError>
        ensures room { IfOk result (λ count. count ≤ length piece.now) }
        ensures progress { IfOk result (λ count. (count ≡ 0) ↔ (piece.now ≡ [])) }
        ensures bytes { WriteAppends (W.contents self.old.inner) (W.contents self.new.inner) result piece.now }
        ensures failed { IfErr result (λ error. error ≡ PortError.Failed) }
        ensures moved { IfOk result (λ count. self.new.moved ≡ self.old.moved ++ count ∷ []) }
        ensures unmoved { OnErr result (self.new.moved ≡ self.old.moved) }
        ensures faults { self.new.faults ≡ (if is_ok result then self.old.faults else next_count self.old.faults) }

        ensures counted { self.old.faults ≤ self.new.faults }
        ensures cause { IsErrOf result PortError.Failed → Rose self.old.faults self.new.faults }
        ensures still { ¬ (IsErrOf result PortError.Failed) → self.new.faults ≡ self.old.faults }
    {
        match self.writer.write(piece) {
            Ok(count) if count > 0 || piece.is_empty() => {
                self.moved = self.moved.and(&count);
                Ok(count)
            }
            _ => {
                self.faults = self.faults.saturating_add(1);
                Err(PortError::Failed)
            }
        }
    }
}
