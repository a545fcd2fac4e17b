//! The commands that ask for no threads.
ghost use Rattle.std.specs.Prelude.{◌≡◌, ◌≤◌, length, IfOk};
ghost use Rattle.acc_command_alone.specs.declared.words.Command.TheVariants.{Check};
ghost use Rattle.acc_command_alone.specs.Words.{AsksForWorkers, IsDocumentLine, UsesDisksAlone};
ghost use Rattle.acc_command_alone.specs.Streams.{streams_of};
ghost use Rattle.acc_command_alone.specs.Ends.{document_limit};
ghost use Rattle.acc_command_alone.specs.Responds.{Responds};
ghost use Rattle.acc_command_alone.specs.Command.{DoesOn, IsDue, OverDisks};
ghost use Rattle.acc_command_alone.specs.CarriesOut.{alone_over, CarriesOut};

use crate::audit::audit;
use crate::check::check;
use crate::generate::generate;
use crate::glance::glance;
use crate::heal::heal;
use crate::leave::leave;
use crate::remains::Remains;
use crate::reply::{Reply, say};
use crate::respond::{read_document, tell};
use crate::resume::resume;
use crate::run::run;
use crate::status::Status;
use crate::words::{Command, Line, line_of};
use acc_base::{Bytes, OutOfMemory, Text};
use acc_ports::{DiskMaker, Sink, Source};
use std::alloc::Global;

const USAGE: &[u8] =
    b"usage: accord run | check | free --workers W | gen --seed N --txns M | heal | leave | resume | audit | glance\n";

/// Does what a command line says that asks for no threads, as `accord` does, and waits for nobody. What it needs no longer goes to `remains`.
pub fn accord_alone<S: Source, K: Sink, M: DiskMaker>(
    alloc: Global,
    words: &[Text],
    source: &mut S,
    sink: &mut K,
    disks: &mut M,
    remains: &mut Remains,
) -> Status
where
    M::D: Drop,
    requires alone { ¬ (AsksForWorkers words.now) }
    ensures does { CarriesOut words.now (alone_over M.D.Disk (M.strict disks.old) (M.given disks.old) (M.given disks.new)) (streams_of S.Source K.Sink source.old sink.old) (streams_of S.Source K.Sink source.new sink.new) result }
    ensures unread { ¬ (IsDocumentLine words.now) → source.new ≡ source.old }
    ensures no_disks { ¬ (UsesDisksAlone words.now) → disks.new ≡ disks.old }
{
    match line_of(alloc, words) {
        Ok(Some(Line::Document(Command::Run))) => {
            answer(alloc, Command::Run, source, sink, disks, remains)
        }
        Ok(Some(Line::Document(Command::Check))) => {
            answer(alloc, Command::Check, source, sink, disks, remains)
        }
        Ok(Some(Line::Heal)) => heal(alloc, source, sink, disks, remains),
        Ok(Some(Line::Leave)) => leave(alloc, source, sink, disks, remains),
        Ok(Some(Line::Resume)) => resume(alloc, source, sink, remains),
        Ok(Some(Line::Audit)) => audit(alloc, source, sink, remains),
        Ok(Some(Line::Glance)) => glance(alloc, source, sink, disks, remains),
        Ok(Some(Line::Generate(numbers))) => generate(alloc, numbers, sink),
        Ok(None) => say(sink, USAGE, Status::Usage),
        Err(OutOfMemory) => Status::OutOfMemory,
    }
}

// Reads a document, and writes what the command answers to it.
fn answer<S: Source, K: Sink, M: DiskMaker>(
    alloc: Global,
    command: Command,
    source: &mut S,
    sink: &mut K,
    disks: &mut M,
    remains: &mut Remains,
) -> Status
where
    M::D: Drop,
    ensures responds { Responds (IsDue (OverDisks M.D.Disk (M.strict disks.old) (M.given disks.old) (M.given disks.new)) command) (DoesOn command) (streams_of S.Source K.Sink source.old sink.old) (streams_of S.Source K.Sink source.new sink.new) result }
    ensures check { command ≡ Check → disks.new ≡ disks.old }
{
    match read_document(alloc, source, sink) {
        Ok(bytes) => tell(sink, reply(alloc, command, bytes, disks, remains)),
        Err(status) => status,
    }
}

// What the command answers to a document.
fn reply<M: DiskMaker>(
    alloc: Global,
    command: Command,
    bytes: Bytes,
    disks: &mut M,
    remains: &mut Remains,
) -> Result<Reply, OutOfMemory>
where
    M::D: Drop,
    requires { length bytes ≤ document_limit }
    ensures check { command ≡ Check → disks.new ≡ disks.old }
    ensures due { IfOk result (λ reply. IsDue (OverDisks M.D.Disk (M.strict disks.old) (M.given disks.old) (M.given disks.new)) command bytes reply.status reply.text) }
{
    match command {
        Command::Run => run(alloc, bytes, disks, remains),
        Command::Check => check(alloc, bytes),
    }
}
