//! The top call.
ghost use Rattle.std.specs.Prelude.{◌≡◌};
ghost use Rattle.acc_command_alone.specs.Words.{ReadsDocument, UsesDisks};
ghost use Rattle.acc_command_alone.specs.Streams.{streams_of};
ghost use Rattle.acc_command_alone.specs.CarriesOut.{CarriesOut};
ghost use Rattle.acc_command.specs.Free.{overs};

use crate::free::free;
use acc_base::{OutOfMemory, Text};
use acc_command_alone::{Remains, Status, accord_alone, workers_of};
use acc_ports::{DiskMaker, Gate, Sink, Source};
use std::sync::Wait;
use std::thread::Threads;

/// Does what a command line says: reads from `source`, writes to `sink`, runs over disks of `disks`, and tells how it ended.
///
/// `words` don't count the program's name. `run`, `heal`, `free`, `leave` and `check` take what the source gives up to its end as a
/// document, but no more than 16,777,216 bytes: where there is one more, reading stops there. `run` writes the report of its run, `heal`
/// that of its run and of what was done after it to finish what it left open, `free` that of what its actors did side by side on so many
/// threads, `leave` the document again, with no step and with the journals that its actors have after its run, `check` a line of what it
/// has, and a document that is refused gets the line of its refusal. `glance` takes a document with looks in the same way, and writes what
/// `run` would write and a line of what each look has seen. `resume` takes a document with journals in the same way, opens each actor from
/// its journal, and writes the report of the steps from there on. `audit` takes a case, and writes whether its report keeps the rules of
/// `docs/AUDIT.md`. `gen` reads nothing and writes the document of its two numbers. Other words get the usage line, and nothing is read.
///
/// A run past a limit gets the line of this limit and nothing else; `run`, `leave`, `glance` and `free` have given their disks back then
/// too, and those of `heal` may be gone. Where a report was due all of them have given their disks back, also where it couldn't be written;
/// without memory they may be gone. `leave` does with disks what `run` does, also where its document takes the place of the report, and
/// `resume` asks the maker for none.
///
/// Each step or restart that an actor takes on a thread of `free` comes through `gate`; what is left once the threads are done doesn't. What
/// a run needs no longer goes to `remains`, so that a program which ends here need not free it.
pub fn accord<
    R: AllocGlobal + Threads + Wait + Sync,
    S: Source,
    K: Sink,
    M: DiskMaker,
    G: Gate + Sync,
>(
    rt: &R,
    words: &[Text],
    source: &mut S,
    sink: &mut K,
    disks: &mut M,
    gate: &G,
    remains: &mut Remains,
) -> Status
where
    M::D: Drop + Send,
    ensures does { CarriesOut words.now (overs M.D.Disk (M.strict disks.old) (M.given disks.old) (M.given disks.new)) (streams_of S.Source K.Sink source.old sink.old) (streams_of S.Source K.Sink source.new sink.new) result }
    ensures unread { ¬ (ReadsDocument words.now) → source.new ≡ source.old }
    ensures no_disks { ¬ (UsesDisks words.now) → disks.new ≡ disks.old }
{
    let alloc = rt.alloc();
    match workers_of(alloc, words) {
        Ok(Some(workers)) => free(
            rt,
            alloc,
            workers as u32,
            source,
            sink,
            disks,
            gate,
            remains,
        ),
        Ok(None) => accord_alone(alloc, words, source, sink, disks, remains),
        Err(OutOfMemory) => Status::OutOfMemory,
    }
}
