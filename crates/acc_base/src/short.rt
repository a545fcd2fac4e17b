//! A few bytes that stand in place.
ghost use Rattle.std.specs.Prelude.{◌≡◌, ◌≤◌, take, drop, length, nat_eq};
ghost use Rattle.std.specs.Cmp.Lexicographic.{pointwise, slice_cmp};
ghost use Rattle.std.specs.Ordering.{nat_cmp};
ghost use Rattle.acc_base.specs.Short.{number_behind, AreBytes};

use std::cmp::Ordering;
use std::marker::Model;

/// The most bytes that stand in place.
pub(crate) const ROOM: usize = 14;

/// A few bytes, and zeros behind them.
#[derive(Debug, Drop)]
pub(crate) struct Short {
    len: u8,
    bytes: [u8; ROOM],
}

impl Model for Short {
    ghost use Rattle.std.specs.Prelude.{ℕ, List, take, ◌≤◌};
    ghost use Rattle.acc_base.specs.Short.{AreZerosFrom};

    ghost Value = { List ℕ };

    ghost view = { λ s. take s.len s.bytes };

    ghost invariant = { λ s. (s.len ≤ 14) × AreZerosFrom s.len s.bytes };
}

impl Short {
    pub(crate) fn of(values: &[u8]) -> Short
        requires { length values.now ≤ 14 }
        ensures { result ≡ values.now }
    {
        let len = values.len();
        let mut bytes = [0; ROOM];
        bytes[..len].copy_from_slice(values);
        Short {
            len: len as u8,
            bytes,
        }
    }

    pub(crate) fn as_slice(&self) -> &[u8]
        ensures { result.now ≡ self.now }
    {
        &self.bytes[..self.len as usize]
    }

    pub(crate) fn copy(&self) -> Short
        ensures { result ≡ self.now }
    {
        Short {
            len: self.len,
            bytes: self.bytes,
        }
    }

    /// The order of the bytes. The zeros behind them let it be that of two numbers, and then of the lengths.
    pub(crate) fn cmp(&self, other: &Short) -> Ordering
        ensures { result ≡ slice_cmp nat_cmp self.now other.now }
    {
        let mine = front(&self.bytes);
        let others = front(&other.bytes);
        if mine == others {
            let last = back(&self.bytes).cmp(&back(&other.bytes));
            last.then(self.len.cmp(&other.len))
        } else {
            mine.cmp(&others)
        }
    }

    /// Whether the bytes are equal. The zeros behind them let two numbers and the lengths tell.
    pub(crate) fn equals(&self, other: &Short) -> bool
        ensures { result ≡ pointwise nat_eq self.now other.now }
    {
        let first = front(&self.bytes) == front(&other.bytes);
        let last = back(&self.bytes) == back(&other.bytes);
        first & last & (self.len == other.len)
    }
}

/// The number that the first eight bytes spell.
fn front(bytes: &[u8; ROOM]) -> u64
    ensures value { result ≡ number_behind 0 (take 8 bytes.now) }
    ensures bytes { (length bytes.now ≡ 14) × AreBytes bytes.now }
{
    u64::from_be_bytes([
        bytes[0], bytes[1], bytes[2], bytes[3], bytes[4], bytes[5], bytes[6], bytes[7],
    ])
}

/// The number that the last eight bytes spell, of which two are of the first eight too.
fn back(bytes: &[u8; ROOM]) -> u64
    ensures { result ≡ number_behind 0 (drop 6 bytes.now) }
{
    u64::from_be_bytes([
        bytes[6], bytes[7], bytes[8], bytes[9], bytes[10], bytes[11], bytes[12], bytes[13],
    ])
}
