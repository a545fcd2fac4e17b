//! What a command answers to a document, and how a text is written.
ghost use Rattle.std.specs.Prelude.{◌≡◌, ◌≢◌, ◌⊎◌};
ghost use Rattle.acc_ports.specs.Faults.{Rose};
ghost use Rattle.acc_command_alone.specs.Ends.{Says};

use crate::status::Status;
use acc_base::Bytes;
use acc_ports::{PortError, Sink, write_all};

/// The text that is due, and the status with which the command ends where it is written.
#[derive(Debug, Drop)]
pub struct Reply {
    /// The status.
    pub status: Status,
    /// The text.
    pub text: Bytes,
}

/// Writes a text that is due with a status, and answers this status once the whole text is written. `WriteFault` comes where the sink
/// failed, `OutOfMemory` where it had no memory; then a part of the text is written, which may be none of it.
pub fn say<K: Sink>(sink: &mut K, text: &[u8], status: Status) -> Status
    ensures said { Says status text.now result (K.written sink.old) (K.written sink.new) }
    ensures still { result ≢ Status.WriteFault → K.faults sink.new ≡ K.faults sink.old }
    ensures cause { result ≡ Status.WriteFault → (status ≡ Status.WriteFault) ⊎ Rose (K.faults sink.old) (K.faults sink.new) }
{
    match write_all(sink, text) {
        Ok(()) => status,
        Err(PortError::Failed) => Status::WriteFault,
        Err(PortError::OutOfMemory) => Status::OutOfMemory,
    }
}
