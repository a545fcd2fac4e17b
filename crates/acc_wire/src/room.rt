//! Fields appended to bytes that have room for them, so that no append takes memory.
ghost use Rattle.std.specs.Prelude.{◌≡◌, ◌+◌, ◌≤◌, ◌++◌, length, vec_len, vec_capacity};
ghost use Rattle.acc_wire.specs.Spelling.{u8_bytes, i64_bytes, text_bytes, IsShortText};

use byteorder::{BigEndian, ByteOrder};

/// Appends bytes. They are moved one by one, since most fields are short.
#[inline(always)]
pub fn push_bytes(out: &mut Vec<u8>, bytes: &[u8])
    requires { vec_len out.old + length bytes.now ≤ vec_capacity out.old }
    ensures items { out.new.items ≡ out.old.items ++ bytes.now }
    ensures len { vec_len out.new ≡ vec_len out.old + length bytes.now }
    ensures capacity { vec_capacity out.new ≡ vec_capacity out.old }
{
    for byte in bytes {
        out.push_reserved(*byte);
    }
}

/// Appends a text: its length in one byte, and its bytes.
#[inline(always)]
#[tactic(auto, unfolding(crate::specs::Spelling::text_bytes))]
pub fn push_text(out: &mut Vec<u8>, v: &[u8])
    requires short { IsShortText v.now }
    requires room { vec_len out.old + (1 + length v.now) ≤ vec_capacity out.old }
    ensures spelled { out.new.items ≡ out.old.items ++ text_bytes v.now }
    ensures len { vec_len out.new ≡ vec_len out.old + (1 + length v.now) }
    ensures capacity { vec_capacity out.new ≡ vec_capacity out.old }
{
    out.push_reserved(v.len() as u8);
    push_bytes(out, v);
}

/// Appends a byte and a signed number in 8 bytes, in two's complement.
#[inline(always)]
#[tactic(auto, unfolding(crate::specs::Spelling::i64_bytes, crate::specs::Spelling::u64_bytes))]
pub(crate) fn push_marked_i64(out: &mut Vec<u8>, mark: u8, v: i64)
    requires { vec_len out.old + 9 ≤ vec_capacity out.old }
    ensures { out.new.items ≡ out.old.items ++ u8_bytes mark ++ i64_bytes v }
{
    let mut field = [0; 8];
    BigEndian::write_i64(&mut field, v);
    out.push_reserved(mark);
    push_bytes(out, &field);
}
