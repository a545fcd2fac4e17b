//! Bytes as hexadecimal digits.
ghost use Rattle.std.specs.Prelude.{◌≡◌, ◌+◌, ◌<◌, ◌≤◌, ◌*◌, ℕ, Ok, Some, length, map, take, drop, slice_index, string_bytes, IfOk, IsTrue};
ghost use Rattle.std.specs.List.{list_all};
ghost use Rattle.std.specs.Simd.Lanes.{digits_l, number_l};
ghost use Rattle.hex.specs.Hex.{decode_pairs, encode_lower, hex_digit_value, lower_digits, pair_value};
ghost use Rattle.acc_left.specs.Digits.{bytes_said, is_digits as are_digits, is_lower_digit as is_lower_digit_byte, pair_byte};

use acc_base::{Bytes, OutOfMemory};
use std::alloc::Global;
use std::simd::prelude::*;

/// How many bytes are written at once.
const LANES: usize = 8;

/// Whether a text is an even number of digits 0 to 9 and a to f.
pub(crate) fn is_digits(text: &str) -> bool
    ensures { result ≡ are_digits text.now }
{
    text.len() % 2 == 0 && are_lower(text.as_bytes())
}

// The loop goes to the end whatever it finds, so that a compiler can test many bytes at once.
fn are_lower(bytes: &[u8]) -> bool
    ensures { result ≡ list_all is_lower_digit_byte bytes.now }
{
    let mut all = true;
    for byte in bytes {
        all &= is_lower_digit(*byte);
    }
    all
}

fn is_lower_digit(byte: u8) -> bool
    ensures { result ≡ is_lower_digit_byte byte }
{
    byte.is_ascii_digit() || (b'a' <= byte && byte <= b'f')
}

/// The bytes that digits say.
pub(crate) fn bytes_of(alloc: Global, text: &str) -> Result<Bytes, OutOfMemory>
    requires { IsTrue (are_digits text.now) }
    ensures { IfOk result (λ bytes. bytes ≡ bytes_said text.now) }
{
    let digits = text.as_bytes();
    let mut bytes = vec![in alloc; 0u8; digits.len() / 2]?;
    write_bytes(digits, bytes.as_mut_slice());
    Ok(Bytes::from_vec(bytes))
}

// Writes the bytes that digits say. Nothing branches on a digit.
fn write_bytes(digits: &[u8], bytes: &mut [u8])
    requires digits { IsTrue (list_all is_lower_digit_byte digits.now) }
    requires fits { length digits.now ≡ 2 * length bytes.old }
    ensures { decode_pairs 0 digits.now ≡ Ok bytes.new }
{
    let mut place = 0;
    while bytes.len() - place >= LANES {
        eight_bytes(digits, 2 * place).copy_to_slice(&mut bytes[place..]);
        place += LANES;
    }
    for rest in place..bytes.len() {
        bytes[rest] = byte_of(digits[2 * rest], digits[2 * rest + 1]);
    }
}

// The bytes that sixteen digits say, from this place on. A lane has a pair of them, the first in its low
// byte.
#[inline(always)]
fn eight_bytes(digits: &[u8], at: usize) -> u8x8
    requires { at + 16 ≤ length digits.now }
    ensures { result ≡ map pair_byte (digits_l 65536 8 (number_l 256 (take 16 (drop at digits.now)))) }
{
    let pairs = u16x8::from_le_bytes(u8x16::from_slice(&digits[at..]));
    let high = pairs % u16x8::splat(256);
    let low = pairs / u16x8::splat(256);
    let high = high % u16x8::splat(16) + high / u16x8::splat(64) * u16x8::splat(9);
    let low = low % u16x8::splat(16) + low / u16x8::splat(64) * u16x8::splat(9);
    ((high * u16x8::splat(16) + low) % u16x8::splat(256)).cast::<u8>()
}

// The byte that two digits say.
fn byte_of(high: u8, low: u8) -> u8
    requires high { IsTrue (is_lower_digit_byte high) }
    requires low { IsTrue (is_lower_digit_byte low) }
    ensures { (place : ℕ) → pair_value high low place ≡ Ok result }
{
    value_of(high) * 16 + value_of(low)
}

// What a digit is worth.
fn value_of(digit: u8) -> u8
    requires { IsTrue (is_lower_digit_byte digit) }
    ensures value { hex_digit_value digit ≡ Some result }
    ensures small { result < 16 }
{
    digit % 16 + digit / 64 * 9
}

/// The digits that say some bytes.
pub(crate) fn digits_of(alloc: Global, bytes: &[u8]) -> Result<String, OutOfMemory>
    ensures { IfOk result (λ text. string_bytes text ≡ encode_lower bytes.now) }
{
    let Some(length) = bytes.len().checked_mul(2) else {
        return Err(OutOfMemory);
    };
    let mut digits = vec![in alloc; 0u8; length]?;
    write_digits(bytes, digits.as_mut_slice());
    match String::from_utf8(digits) {
        Ok(text) => Ok(text),
        Err(_) => Err(OutOfMemory),
    }
}

// Writes the digits that say some bytes. Nothing branches on a byte.
fn write_digits(bytes: &[u8], digits: &mut [u8])
    requires { length digits.old ≡ 2 * length bytes.now }
    ensures { digits.new ≡ encode_lower bytes.now }
{
    for place in 0..bytes.len() {
        digits[2 * place] = digit_of(bytes[place] / 16);
        digits[2 * place + 1] = digit_of(bytes[place] % 16);
    }
}

// The digit that is worth this.
fn digit_of(value: u8) -> u8
    requires { value < 16 }
    ensures { result ≡ slice_index lower_digits value }
{
    if value < 10 {
        b'0' + value
    } else {
        b'a' - 10 + value
    }
}
