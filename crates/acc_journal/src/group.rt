//! The bytes of a group of records.
ghost use Rattle.std.specs.Prelude.{◌≡◌, ◌+◌, ◌*◌, ◌^◌, ◌<◌, ◌≤◌, [], ◌∷◌, ◌++◌, length, vec_len, vec_capacity, sum_by};
ghost use Rattle.acc_journal.specs.Layout.{sized, records, AreShort};

use acc_base::Bytes;
use byteorder::{BigEndian, ByteOrder};

/// Appends bytes for which there is room. It takes no memory.
fn push_all(buffer: &mut Vec<u8>, bytes: &[u8])
    requires { vec_len buffer.old + length bytes.now ≤ vec_capacity buffer.old }
    ensures items { buffer.new.items ≡ buffer.old.items ++ bytes.now }
    ensures len { vec_len buffer.new ≡ vec_len buffer.old + length bytes.now }
    ensures room { vec_capacity buffer.old ≤ vec_capacity buffer.new }
{
    match buffer.extend_from_slice(bytes) {
        Ok(()) => {}
        Err(_) => unreachable!(),
    }
}

/// Appends an open gate and the record of a payload. It takes no memory.
fn push_record(buffer: &mut Vec<u8>, payload: &[u8])
    requires short { length payload.now < 2 ^ 32 }
    requires room { vec_len buffer.old + 5 + length payload.now ≤ vec_capacity buffer.old }
    ensures items { buffer.new.items ≡ buffer.old.items ++ 1 ∷ sized payload.now }
    ensures len { vec_len buffer.new ≡ vec_len buffer.old + 5 + length payload.now }
    ensures room { vec_capacity buffer.old ≤ vec_capacity buffer.new }
{
    let mut size = [0; 4];
    BigEndian::write_u32(&mut size, payload.len() as u32);
    push_all(buffer, &[1]);
    push_all(buffer, &size);
    push_all(buffer, payload);
}

/// Puts the record of one payload into a buffer, an open gate in front of it and a closed one after. It takes no memory.
pub(crate) fn fill_one(buffer: &mut Vec<u8>, payload: &[u8])
    requires short { length payload.now < 2 ^ 32 }
    requires room { 6 + length payload.now ≤ vec_capacity buffer.old }
    ensures items { buffer.new.items ≡ records (payload.now ∷ []) ++ 0 ∷ [] }
    ensures room { vec_capacity buffer.old ≤ vec_capacity buffer.new }
{
    buffer.clear();
    push_record(buffer, payload);
    push_all(buffer, &[0]);
}

/// Puts the records of a group into a buffer, an open gate in front of each and a closed one after. It takes no memory.
pub(crate) fn fill(buffer: &mut Vec<u8>, payloads: &[Bytes])
    requires short { AreShort payloads.now }
    requires room { 1 + sum_by length payloads.now + 5 * length payloads.now ≤ vec_capacity buffer.old }
    ensures items { buffer.new.items ≡ records payloads.now ++ 0 ∷ [] }
    ensures room { vec_capacity buffer.old ≤ vec_capacity buffer.new }
{
    buffer.clear();
    for payload in payloads {
        push_record(buffer, payload.as_slice());
    }
    push_all(buffer, &[0]);
}
