//! Reading all bytes of a source, and writing all bytes of a text.
ghost use Rattle.std.specs.Prelude.{◌≡◌, ◌+◌, ◌-◌, ◌<◌, ◌≤◌, ◌↔◌, ◌++◌, ℕ, [], ◌∷◌, Some, length, take, drop, min, vec_len, IfSome, IfOk, OnOk, OnErr, IsErrOf};
ghost use Rattle.acc_ports.specs.Faults.{Rose};
ghost use Rattle.acc_ports.specs.Sink.{followed_by, WritesPart};
ghost use Rattle.acc_ports.specs.Source.{without_first, none_left, read_also, TakesAtMost, ReadsOn, ReadsToEnd};

use crate::{PortError, ReadError, Sink, Source};
use acc_base::{Bytes, Sequence};
use std::alloc::{AllocError, Global};

/// Writes all of `text`, in as few writes as `sink` allows. After an error a part of it was written, from its front on.
pub fn write_all<K: Sink>(sink: &mut K, text: &[u8]) -> Result<(), PortError>
    ensures all { OnOk result (K.written sink.new ≡ followed_by text.now (K.written sink.old)) }
    ensures part { OnErr result (WritesPart text.now (K.written sink.old) (K.written sink.new)) }

    ensures counted { K.faults sink.old ≤ K.faults sink.new }
    ensures cause { IsErrOf result PortError.Failed → Rose (K.faults sink.old) (K.faults sink.new) }
    ensures still { ¬ (IsErrOf result PortError.Failed) → K.faults sink.new ≡ K.faults sink.old }
{
    let mut written = 0;
    while written < text.len() {
        written += sink.write(&text[written..])?;
    }
    Ok(())
}

/// How much room the first read has.
const FIRST_ROOM: usize = 64 * 1024;

/// By how much a buffer grows at most. The C library maps a block of such a size and moves the map when the block grows, in place of
/// its bytes. All room is written before it is read into, so what is never filled is to be little.
const STEP: usize = 1024 * 1024;

/// Reads all bytes that `source` has left, where there are at most `limit`. `TooLong` comes where there are more: then
/// one byte past the limit was read, and no further one is. After `Failed` and `OutOfMemory` at most that many bytes
/// were read. After any error the bytes that were read are gone. They stand once in memory, in a buffer that becomes
/// twice as long when it is full, or a MiB longer once it has that.
pub fn read_all<S: Source>(alloc: Global, source: &mut S, limit: u64) -> Result<Bytes, ReadError>
    ensures within { IfOk result (λ bytes. length bytes ≤ limit) }
    ensures all { IfOk result (λ bytes. IfSome (S.left source.old) (λ left. bytes ≡ left)) }
    ensures end { OnOk result (S.left source.new ≡ none_left (S.left source.old)) }

    // It stops at the first read that gives nothing, and has what the reads before it gave.
    ensures stops { IfOk result (λ bytes. ReadsToEnd (length bytes) (S.reads source.old) (S.reads source.new)) }
    ensures no_end { OnErr result (ReadsOn (S.reads source.old) (S.reads source.new)) }

    ensures too_long { IsErrOf result ReadError.TooLong → IfSome (S.left source.old) (λ left. limit < length left) }
    ensures one_more { IsErrOf result ReadError.TooLong → S.left source.new ≡ without_first (limit + 1) (S.left source.old) }
    ensures taken { OnErr result (TakesAtMost (limit + 1) (S.left source.old) (S.left source.new)) }

    ensures counted { S.faults source.old ≤ S.faults source.new }
    ensures cause { IsErrOf result ReadError.Failed → Rose (S.faults source.old) (S.faults source.new) }
    ensures still { ¬ (IsErrOf result ReadError.Failed) → S.faults source.new ≡ S.faults source.old }
{
    let limit = limit as usize;
    let most = limit.saturating_add(1);
    let mut bytes = Vec::new(alloc);
    let mut filled = 0;
    while filled <= limit {
        make_room(&mut bytes, filled, most)?;
        let count = read_behind(source, &mut bytes, filled)?;
        if count == 0 {
            bytes.truncate(filled);
            return Ok(Sequence::from_vec(bytes));
        }
        filled += count;
    }
    Err(ReadError::TooLong)
}

/// Makes room behind the first `filled` bytes. A full buffer becomes twice as long, or a MiB longer once it has that, as far as `most`
/// allows.
fn make_room(bytes: &mut Vec<u8>, filled: usize, most: usize) -> Result<(), AllocError>
    requires fits { vec_len bytes.old ≤ most }
    requires not_full { filled < most }
    requires inside { filled ≤ vec_len bytes.old }
    ensures kept { take filled bytes.new.items ≡ take filled bytes.old.items }
    ensures room { OnOk result (filled < vec_len bytes.new) }
    ensures within { vec_len bytes.new ≤ most }
{
    if filled == bytes.len() {
        let more = filled.max(FIRST_ROOM).min(STEP);
        let room = filled.saturating_add(more).min(most);
        bytes.resize(room, 0)?;
    }
    Ok(())
}

/// One read into the room behind the first `filled` bytes.
fn read_behind<S: Source>(
    source: &mut S,
    bytes: &mut Vec<u8>,
    filled: usize,
) -> Result<usize, PortError>
    requires { filled < vec_len bytes.old }
    ensures room { IfOk result (λ count. filled + count ≤ vec_len bytes.new) }
    ensures taken { IfOk result (λ count. S.left source.new ≡ without_first count (S.left source.old)) }
    ensures given { IfOk result (λ count. IfSome (S.left source.old) (λ left. (count ≤ length left) × (take (filled + count) bytes.new.items ≡ take filled bytes.old.items ++ take count left))) }
    ensures end { IfOk result (λ count. IfSome (S.left source.old) (λ left. (count ≡ 0) ↔ (left ≡ []))) }
    ensures told { IfOk result (λ count. S.reads source.new ≡ read_also (count ∷ []) (S.reads source.old)) }
    ensures same_room { vec_len bytes.new ≡ vec_len bytes.old }
    ensures before { take filled bytes.new.items ≡ take filled bytes.old.items }
    ensures kept { OnErr result (S.left source.new ≡ S.left source.old) }
    ensures untold { OnErr result (S.reads source.new ≡ S.reads source.old) }
    ensures counted { S.faults source.old ≤ S.faults source.new }
    ensures cause { IsErrOf result PortError.Failed → Rose (S.faults source.old) (S.faults source.new) }
    ensures still { ¬ (IsErrOf result PortError.Failed) → S.faults source.new ≡ S.faults source.old }
{
    source.read(&mut bytes[filled..])
}
