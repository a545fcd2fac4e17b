//! Records that wait to be appended, as the bytes that go to the disk.
ghost use Rattle.std.specs.Prelude.{◌≡◌, ◌+◌, ◌-◌, ◌^◌, ◌<◌, ◌≤◌, ◌++◌, ◌∷◌, [], List, ℕ, length, take, drop, vec_len, vec_capacity, OnOk, OnErr};
ghost use Rattle.acc_journal.specs.Layout.{sized, records};
ghost use Rattle.acc_journal.specs.Records.{StartsWith, payloads_in, AreRecords};

use acc_base::{Bytes, OutOfMemory};
use byteorder::{BigEndian, ByteOrder};
use std::alloc::Global;
use std::marker::Model;
use std::mem;

/// What writes its own payload.
pub trait Payload {
    /// When it has a payload.
    ghost has_payload: { Self → Type 0 };

    /// The bytes of the payload.
    ghost bytes: { Self → List ℕ };

    /// What is known once it is written.
    ghost is_written: { Self → Type 0 };

    /// Appends the bytes of the payload. Without memory for them the bytes are as before.
    fn put(&self, out: &mut Bytes) -> Result<(), OutOfMemory>
        requires { has_payload self.now }
        ensures spelled { OnOk result (out.new ≡ out.old ++ bytes self.now) }
        ensures written { OnOk result (is_written self.now) }
        ensures err { OnErr result (out.new ≡ out.old) };
}

/// Appends a payload alone, in place.
fn put_bytes<P: Payload>(buffer: &mut Vec<u8>, payload: &P) -> Result<(), OutOfMemory>
    requires { P.has_payload payload.now }
    ensures spelled { OnOk result (buffer.new.items ≡ buffer.old.items ++ P.bytes payload.now) }
    ensures written { OnOk result (P.is_written payload.now) }
    ensures err { OnErr result (buffer.new.items ≡ buffer.old.items) }
{
    let alloc = *buffer.allocator();
    let mut out = Bytes::from_vec(mem::replace(buffer, Vec::new(alloc)));
    let put = payload.put(&mut out);
    *buffer = out.into_vec();
    put
}

/// Writes how long a payload is into the four bytes in front of it.
fn set_length(bytes: &mut [u8])
    requires room { 4 ≤ length bytes.old }
    requires short { length bytes.old < 2 ^ 32 + 4 }
    ensures { bytes.new ≡ sized (drop 4 bytes.old) }
{
    let length = bytes.len() - 4;
    BigEndian::write_u32(bytes, length as u32);
}

/// Appends a payload after the four bytes for its length, and writes that. Room is left for a gate.
fn put_payload<P: Payload>(buffer: &mut Vec<u8>, payload: &P) -> Result<(), OutOfMemory>
    requires has { P.has_payload payload.now }
    requires room { 4 ≤ vec_len buffer.old }
    ensures spelled { OnOk result (buffer.new.items ≡ take (length buffer.old.items - 4) buffer.old.items ++ sized (P.bytes payload.now)) }
    ensures short { OnOk result (length (P.bytes payload.now) < 2 ^ 32) }
    ensures room { OnOk result (vec_len buffer.new < vec_capacity buffer.new) }
    ensures written { OnOk result (P.is_written payload.now) }
    ensures err { OnErr result (StartsWith buffer.old.items buffer.new.items) }
{
    let start = buffer.len();
    put_bytes(buffer, payload)?;
    if buffer.len() - start > u32::MAX as usize {
        return Err(OutOfMemory);
    }
    buffer.reserve(1)?;
    set_length(&mut buffer[start - 4..]);
    Ok(())
}

/// Appends an open gate and four bytes for a length, one by one: to copy so few takes longer. Without memory for them the bytes are as
/// before.
fn put_head(buffer: &mut Vec<u8>) -> Result<(), OutOfMemory>
    ensures items { OnOk result (buffer.new.items ≡ buffer.old.items ++ 1 ∷ 0 ∷ 0 ∷ 0 ∷ 0 ∷ []) }
    ensures capacity { vec_capacity buffer.old ≤ vec_capacity buffer.new }
    ensures err { OnErr result (buffer.new.items ≡ buffer.old.items) }
{
    buffer.reserve(5)?;
    buffer.push_reserved(1);
    buffer.push_reserved(0);
    buffer.push_reserved(0);
    buffer.push_reserved(0);
    buffer.push_reserved(0);
    Ok(())
}

/// Appends an open gate and the record of a payload, and leaves room for a gate. Without memory for it the bytes are as before, and
/// the room for a gate is still there.
fn put_record<P: Payload>(buffer: &mut Vec<u8>, payload: &P) -> Result<(), OutOfMemory>
    requires { P.has_payload payload.now }
    ensures spelled { OnOk result (buffer.new.items ≡ buffer.old.items ++ 1 ∷ sized (P.bytes payload.now)) }
    ensures short { OnOk result (length (P.bytes payload.now) < 2 ^ 32) }
    ensures room { OnOk result (vec_len buffer.new < vec_capacity buffer.new) }
    ensures written { OnOk result (P.is_written payload.now) }
    ensures err { OnErr result (buffer.new.items ≡ buffer.old.items) }
    ensures err_room { OnErr result (vec_len buffer.old < vec_capacity buffer.old → vec_len buffer.new < vec_capacity buffer.new) }
{
    let before = buffer.len();
    put_head(buffer)?;
    let put = put_payload(buffer, payload);
    if put.is_err() {
        buffer.truncate(before);
    }
    put
}

/// The place after the first records.
fn place_behind(bytes: &[u8], count: usize) -> usize
    requires records { AreRecords bytes.now (payloads_in bytes.now) }
    requires count { count ≤ length (payloads_in bytes.now) }
    ensures { result ≡ length (records (take count (payloads_in bytes.now))) }
{
    let mut place = 0;
    for _ in 0..count {
        let length = BigEndian::read_u32(&bytes[place + 1..]);
        place += 5 + length as usize;
    }
    place
}

/// Payloads that wait to be appended to a journal as one group, as the bytes that go to its disk.
#[derive(Debug, Drop)]
pub struct Records {
    /// The records, an open gate in front of each. There is room for the closed gate after them.
    pub(crate) bytes: Vec<u8>,
    count: usize,
}

impl Model for Records {
    ghost use Rattle.std.specs.Prelude.{List, ℕ, vec_len, vec_capacity};
    ghost use Rattle.acc_journal.specs.Records.{payloads_in, AreWaiting};

    ghost Value = { List (List ℕ) };

    ghost view = { λ r. payloads_in r.bytes.items };

    ghost invariant = { λ r. AreWaiting r.bytes.items r.count (vec_len r.bytes) (vec_capacity r.bytes) };
}

impl Records {
    /// No payloads. It takes no memory.
    pub fn new(alloc: Global) -> Records
        ensures { result ≡ [] }
    {
        Records {
            bytes: Vec::new(alloc),
            count: 0,
        }
    }

    /// How many payloads there are.
    pub fn len(&self) -> usize
        ensures { result ≡ length self.now }
    {
        self.count
    }

    /// Puts a payload after the others, in place. Without memory for it they are as before; that comes of a payload of 2^32 bytes or
    /// more too.
    #[inline(always)]
    pub fn put<P: Payload>(&mut self, payload: &P) -> Result<(), OutOfMemory>
        requires { P.has_payload payload.now }
        ensures ok { OnOk result (self.new ≡ self.old ++ P.bytes payload.now ∷ []) }
        ensures written { OnOk result (P.is_written payload.now) }
        ensures err { OnErr result (self.new ≡ self.old) }
    {
        put_record(&mut self.bytes, payload)?;
        self.count += 1;
        Ok(())
    }

    /// Keeps the first payloads alone.
    pub fn truncate(&mut self, kept: usize)
        ensures { self.new ≡ take kept self.old }
    {
        if kept < self.count {
            let place = place_behind(self.bytes.as_slice(), kept);
            self.bytes.truncate(place);
            self.count = kept;
        }
    }
}
