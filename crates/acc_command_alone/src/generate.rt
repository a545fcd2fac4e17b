//! The command `gen`.
ghost use Rattle.std.specs.Prelude.{◌≡◌, ◌≢◌, ◌≤◌};
ghost use Rattle.acc_ports.specs.Faults.{Rose};
ghost use Rattle.acc_command_alone.specs.Ends.{Ends};
ghost use Rattle.acc_command_alone.specs.Command.{IsGenerated};

use crate::reply::say;
use crate::status::Status;
use crate::words::Numbers;
use acc_base::OutOfMemory;
use acc_ports::Sink;
use std::alloc::Global;

/// Writes the document of a seed with so many transactions.
pub(crate) fn generate<K: Sink>(alloc: Global, numbers: Numbers, sink: &mut K) -> Status
    requires some { 1 ≤ numbers.txns }
    requires few { numbers.txns ≤ 2000 }
    ensures ends { Ends (IsGenerated numbers.seed numbers.txns) result (K.written sink.old) (K.written sink.new) }
    ensures words { result ≢ Status.Usage }
    ensures reads { result ≢ Status.ReadFault }
    ensures write_fault { result ≡ Status.WriteFault → Rose (K.faults sink.old) (K.faults sink.new) }
    ensures no_write_fault { result ≢ Status.WriteFault → K.faults sink.new ≡ K.faults sink.old }
{
    match acc_generator::generate(alloc, numbers.seed, numbers.txns) {
        Ok(text) => say(sink, text.as_slice(), Status::Done),
        Err(OutOfMemory) => Status::OutOfMemory,
    }
}
