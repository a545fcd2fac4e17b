//! Fields appended to bytes. Without memory for a field the bytes are as before.
ghost use Rattle.std.specs.Prelude.{◌≡◌, ◌<◌, ◌++◌, length, OnOk, OnErr};
ghost use Rattle.acc_wire.specs.Spelling.{u8_bytes, u16_bytes, u32_bytes, u64_bytes, i64_bytes, text_bytes, IsShortText};

use crate::room::push_marked_i64;
use acc_base::{Bytes, OutOfMemory};
use byteorder::{BigEndian, ByteOrder};
use std::mem;

/// Appends a byte.
pub fn put_u8(out: &mut Bytes, v: u8) -> Result<(), OutOfMemory>
    ensures ok { OnOk result (out.new ≡ out.old ++ u8_bytes v) }
    ensures err { OnErr result (out.new ≡ out.old) }
{
    out.push(v)
}

/// Appends a number in 2 bytes.
#[tactic(auto, unfolding(crate::specs::Spelling::u16_bytes))]
pub fn put_u16(out: &mut Bytes, v: u16) -> Result<(), OutOfMemory>
    ensures ok { OnOk result (out.new ≡ out.old ++ u16_bytes v) }
    ensures err { OnErr result (out.new ≡ out.old) }
{
    let mut field = [0; 2];
    BigEndian::write_u16(&mut field, v);
    out.extend_from_slice(&field)
}

/// Appends a number in 4 bytes.
#[tactic(auto, unfolding(crate::specs::Spelling::u32_bytes))]
pub fn put_u32(out: &mut Bytes, v: u32) -> Result<(), OutOfMemory>
    ensures ok { OnOk result (out.new ≡ out.old ++ u32_bytes v) }
    ensures err { OnErr result (out.new ≡ out.old) }
{
    let mut field = [0; 4];
    BigEndian::write_u32(&mut field, v);
    out.extend_from_slice(&field)
}

/// Appends a number in 8 bytes.
#[tactic(auto, unfolding(crate::specs::Spelling::u64_bytes))]
pub fn put_u64(out: &mut Bytes, v: u64) -> Result<(), OutOfMemory>
    ensures ok { OnOk result (out.new ≡ out.old ++ u64_bytes v) }
    ensures err { OnErr result (out.new ≡ out.old) }
{
    let mut field = [0; 8];
    BigEndian::write_u64(&mut field, v);
    out.extend_from_slice(&field)
}

#[inline(always)]
fn append_marked_i64(out: &mut Vec<u8>, mark: u8, v: i64) -> Result<(), OutOfMemory>
    ensures ok { OnOk result (out.new.items ≡ out.old.items ++ u8_bytes mark ++ i64_bytes v) }
    ensures err { OnErr result (out.new.items ≡ out.old.items) }
{
    out.reserve(9)?;
    push_marked_i64(out, mark, v);
    Ok(())
}

/// Appends a byte and a signed number in 8 bytes, at once.
pub fn put_marked_i64(out: &mut Bytes, mark: u8, v: i64) -> Result<(), OutOfMemory>
    ensures ok { OnOk result (out.new ≡ out.old ++ u8_bytes mark ++ i64_bytes v) }
    ensures err { OnErr result (out.new ≡ out.old) }
{
    let alloc = out.allocator();
    let mut bytes = mem::replace(out, Bytes::new(alloc)).into_vec();
    let appended = append_marked_i64(&mut bytes, mark, v);
    *out = Bytes::from_vec(bytes);
    appended
}

/// Appends a text: its length in one byte, and its bytes.
#[tactic(auto, unfolding(crate::specs::Spelling::text_bytes))]
pub fn put_text(out: &mut Bytes, v: &[u8]) -> Result<(), OutOfMemory>
    requires { IsShortText v.now }
    ensures ok { OnOk result (out.new ≡ out.old ++ text_bytes v.now) }
    ensures err { OnErr result (out.new ≡ out.old) }
{
    let before = out.len();
    out.push(v.len() as u8)?;
    let appended = out.extend_from_slice(v);
    if appended.is_err() {
        out.truncate(before);
    }
    appended
}
