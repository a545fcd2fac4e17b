//! Reads the document of a command, and writes its reply.
ghost use Rattle.std.specs.Prelude.{◌≡◌, ◌≢◌, IfOk, IfErr};
ghost use Rattle.acc_ports.specs.Faults.{Rose};
ghost use Rattle.acc_command_alone.specs.Streams.{streams_of};
ghost use Rattle.acc_command_alone.specs.Responds.{Responds, FindsNoMemory, HasRead, IsLongDue, IsVerdict, SaysReply};

use crate::reply::{Reply, say};
use crate::status::Status;
use acc_base::{Bytes, OutOfMemory};
use acc_ports::{ReadError, Sink, Source, read_all};
use std::alloc::Global;

/// How many bytes a document may have.
const DOCUMENT_LIMIT: u64 = 16_777_216;

/// The line of a document that is too long.
const TOO_LONG: &[u8] = b"limit document 16777216\n";

/// The bytes that the source gives up to its end, or the status of a command that gets none: one byte past the limit reading stops, and
/// the line of that limit is written.
pub fn read_document<S: Source, K: Sink>(
    alloc: Global,
    source: &mut S,
    sink: &mut K,
) -> Result<Bytes, Status>
    ensures read { IfOk result (λ bytes. HasRead bytes (streams_of S.Source K.Sink source.old sink.old) (streams_of S.Source K.Sink source.new sink.new)) }
    ensures unread { IfErr result (Responds IsLongDue FindsNoMemory (streams_of S.Source K.Sink source.old sink.old) (streams_of S.Source K.Sink source.new sink.new)) }
{
    match read_all(alloc, source, DOCUMENT_LIMIT) {
        Ok(bytes) => Ok(bytes),
        Err(ReadError::TooLong) => Err(say(sink, TOO_LONG, Status::Limit)),
        Err(ReadError::Failed) => Err(Status::ReadFault),
        Err(ReadError::OutOfMemory) => Err(Status::OutOfMemory),
    }
}

/// Writes a reply, and answers its status once the whole text is written, or `OutOfMemory` where there is none.
pub fn tell<K: Sink>(sink: &mut K, reply: Result<Reply, OutOfMemory>) -> Status
    requires { IfOk reply (λ reply. IsVerdict reply.status) }
    ensures said { SaysReply reply result (K.written sink.old) (K.written sink.new) }
    ensures cause { result ≡ Status.WriteFault → Rose (K.faults sink.old) (K.faults sink.new) }
    ensures still { result ≢ Status.WriteFault → K.faults sink.new ≡ K.faults sink.old }
{
    match reply {
        Ok(reply) => say(sink, reply.text.as_slice(), reply.status),
        Err(OutOfMemory) => Status::OutOfMemory,
    }
}
