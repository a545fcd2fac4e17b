//! Fields read from bytes, from left to right.
ghost use Rattle.std.specs.Prelude.{◌≡◌, ◌<◌, ◌++◌, ◌^◌, ℕ, ℤ, List, length, IfOk, IfSome, IfNone, IsOkAnd, FitsSigned};
ghost use Rattle.std.specs.Int.{w64};
ghost use Rattle.acc_wire.specs.Spelling.{u8_bytes, u16_bytes, u32_bytes, u64_bytes, i64_bytes, text_bytes, IsShortText};

use crate::error::{WireError, WireKind};
use std::marker::Model;

/// Reads fields from left to right. Contracts see the bytes that are left and the place of the first of them; a field
/// that can't be read leaves the reader unchanged. Reading takes no memory.
#[derive(Debug, Drop)]
pub struct Reader<'a> {
    ahead: &'a [u8],
    place: u64,
}

impl<'a> Model for Reader<'a> {
    ghost use Rattle.std.specs.Prelude.{◌+◌, ◌<◌, ◌^◌, length};
    ghost use Rattle.acc_wire.specs.Reading.{Unread, AreBytes};

    ghost Value = { Unread };

    ghost view = { λ r. record { bytes = r.ahead.now; place = r.place } };

    ghost invariant = { λ r. (r.place + length r.ahead.now < 2 ^ 64) × AreBytes r.ahead.now };
}

impl<'a> Reader<'a> {
    ghost use Rattle.acc_wire.specs.Reading.{Unread, Passes, AreBytes, Takes, TakesBy, end_at, field_at, fault_at, u8_at, u16_at, u32_at, u64_at, i64_at, text_at};

    /// A reader at the first of these bytes, place 0.
    pub fn new(bytes: &'a [u8]) -> Reader<'a>
        ensures { result ≡ record { bytes = bytes.now; place = 0 } }
    {
        Reader {
            ahead: bytes,
            place: 0,
        }
    }

    /// How many bytes were read.
    pub fn place(&self) -> u64
        ensures { result ≡ self.now.place }
    {
        self.place
    }

    /// The bytes that are left.
    pub fn left(&self) -> &'a [u8]
        ensures { result.now ≡ self.now.bytes }
    {
        self.ahead
    }

    /// A second reader of the bytes that are left, at the same place.
    pub fn fork(&self) -> Reader<'a>
        ensures { result ≡ self.now }
    {
        Reader {
            ahead: self.ahead,
            place: self.place,
        }
    }

    /// The next bytes.
    fn take_chunk<const N: usize>(&mut self) -> Result<[u8; N], WireError>
        ensures exact { Takes result self.old self.new (field_at N (λ bytes. bytes) self.old) }
        ensures bytes { AreBytes self.old.bytes }
    {
        let Some((chunk, rest)) = self.ahead.split_first_chunk::<N>() else {
            return Err(self.short());
        };
        self.ahead = rest;
        self.place += N as u64;
        Ok(*chunk)
    }

    /// The fault of a field of which bytes are missing.
    fn short(&self) -> WireError
        ensures { result ≡ fault_at WireKind.Short self.now }
    {
        WireError {
            kind: WireKind::Short,
            place: self.place,
        }
    }

    /// Reads a byte. Short exactly where fewer bytes are left.
    pub fn take_u8(&mut self) -> Result<u8, WireError>
        ensures found { IfOk result (λ v. Passes self.old self.new (u8_bytes v)) }
        ensures only { (v : ℕ) (rest : Unread) → v < 2 ^ 8 → Passes self.old rest (u8_bytes v) → (result ≡ Ok v) × (self.new ≡ rest) }
        ensures exact { Takes result self.old self.new (u8_at self.old) }
        ensures bytes { AreBytes self.old.bytes }
    {
        self.take_chunk().map(u8::from_be_bytes)
    }

    /// Reads a number in 2 bytes. Short exactly where fewer bytes are left.
    pub fn take_u16(&mut self) -> Result<u16, WireError>
        ensures found { IfOk result (λ v. Passes self.old self.new (u16_bytes v)) }
        ensures only { (v : ℕ) (rest : Unread) → v < 2 ^ 16 → Passes self.old rest (u16_bytes v) → (result ≡ Ok v) × (self.new ≡ rest) }
        ensures exact { Takes result self.old self.new (u16_at self.old) }
        ensures bytes { AreBytes self.old.bytes }
    {
        self.take_chunk().map(u16::from_be_bytes)
    }

    /// Reads a number in 4 bytes. Short exactly where fewer bytes are left.
    pub fn take_u32(&mut self) -> Result<u32, WireError>
        ensures found { IfOk result (λ v. Passes self.old self.new (u32_bytes v)) }
        ensures only { (v : ℕ) (rest : Unread) → v < 2 ^ 32 → Passes self.old rest (u32_bytes v) → (result ≡ Ok v) × (self.new ≡ rest) }
        ensures exact { Takes result self.old self.new (u32_at self.old) }
        ensures bytes { AreBytes self.old.bytes }
    {
        self.take_chunk().map(u32::from_be_bytes)
    }

    /// Reads a number in 8 bytes. Short exactly where fewer bytes are left.
    pub fn take_u64(&mut self) -> Result<u64, WireError>
        ensures found { IfOk result (λ v. Passes self.old self.new (u64_bytes v)) }
        ensures only { (v : ℕ) (rest : Unread) → v < 2 ^ 64 → Passes self.old rest (u64_bytes v) → (result ≡ Ok v) × (self.new ≡ rest) }
        ensures exact { Takes result self.old self.new (u64_at self.old) }
        ensures bytes { AreBytes self.old.bytes }
    {
        self.take_chunk().map(u64::from_be_bytes)
    }

    /// Reads a signed number in 8 bytes, in two's complement. Short exactly where fewer bytes are left.
    pub fn take_i64(&mut self) -> Result<i64, WireError>
        ensures found { IfOk result (λ v. Passes self.old self.new (i64_bytes v)) }
        ensures only { (v : ℤ) (rest : Unread) → FitsSigned w64 v → Passes self.old rest (i64_bytes v) → (result ≡ Ok v) × (self.new ≡ rest) }
        ensures exact { Takes result self.old self.new (i64_at self.old) }
        ensures bytes { AreBytes self.old.bytes }
    {
        self.take_u64().map(u64::cast_signed)
    }

    /// Reads a text: its length in one byte, and its bytes. Where the bytes end before the text does, this is Short at the
    /// place of the length.
    pub fn take_text(&mut self) -> Result<&'a [u8], WireError>
        ensures found { IfOk result (λ text. Passes self.old self.new (text_bytes text.now)) }
        ensures only { (text : List ℕ) (rest : Unread) → IsShortText text → Passes self.old rest (text_bytes text)
            → IsOkAnd result (λ read. read.now ≡ text) × (self.new ≡ rest) }
        ensures exact { TakesBy (λ text. text.now) result self.old self.new (text_at self.old) }
        ensures bytes { AreBytes self.old.bytes }
    {
        let Some((text, rest)) = split_text(self.ahead) else {
            return Err(self.short());
        };
        self.ahead = rest;
        self.place += 1 + text.len() as u64;
        Ok(text)
    }

    /// Whether all is read. Trailing exactly where bytes are left, with the place of the first of them.
    pub fn finish(&self) -> Result<(), WireError>
        ensures { result ≡ end_at self.now }
    {
        if self.ahead.is_empty() {
            Ok(())
        } else {
            Err(WireError {
                kind: WireKind::Trailing,
                place: self.place,
            })
        }
    }
}

/// The text at the front of the bytes, and what stands behind it.
fn split_text(bytes: &[u8]) -> Option<(&[u8], &[u8])>
    ensures whole { IfSome result (λ parts. IsShortText parts.0.now × (bytes.now ≡ text_bytes parts.0.now ++ parts.1.now)) }
    ensures cut { IfNone result ((text rest : List ℕ) → IsShortText text → bytes.now ≡ text_bytes text ++ rest → ⊥) }
{
    let (length, behind) = bytes.split_first()?;
    behind.split_at_checked(usize::from(*length))
}
