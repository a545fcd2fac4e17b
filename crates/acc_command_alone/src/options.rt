//! The numbers that options take. A word spells a number by decimal digits, with a plus sign in front of them or without.
ghost use Rattle.std.specs.Prelude.{◌-◌, ◌^◌, IfOk};
ghost use Rattle.acc_command_alone.specs.Number.{IsNumberOf};

use crate::reader::number;
use acc_base::OutOfMemory;
use std::alloc::Global;

/// How many threads share the work: 1 to 16. Nothing where the word spells no such number.
pub fn workers(alloc: Global, word: &[u8]) -> Result<Option<u8>, OutOfMemory>
    ensures { IfOk result (IsNumberOf 1 16 word.now) }
{
    match number_in(alloc, word, 1, 16)? {
        Some(workers) => Ok(Some(workers as u8)),
        None => Ok(None),
    }
}

/// The seed of a generated document, which is any number of 64 bits. Nothing where the word spells no such number.
pub fn seed(alloc: Global, word: &[u8]) -> Result<Option<u64>, OutOfMemory>
    ensures { IfOk result (IsNumberOf 0 (2 ^ 64 - 1) word.now) }
{
    number_in(alloc, word, 0, u64::MAX)
}

/// How many transactions a generated document has: 1 to 2,000. Nothing where the word spells no such number.
pub fn txns(alloc: Global, word: &[u8]) -> Result<Option<u32>, OutOfMemory>
    ensures { IfOk result (IsNumberOf 1 2000 word.now) }
{
    match number_in(alloc, word, 1, 2000)? {
        Some(txns) => Ok(Some(txns as u32)),
        None => Ok(None),
    }
}

// The number that bytes spell. Bytes that aren't UTF-8 spell none.
fn number_in(alloc: Global, word: &[u8], least: u64, most: u64) -> Result<Option<u64>, OutOfMemory>
    ensures { IfOk result (IsNumberOf least most word.now) }
{
    match std::str::from_utf8(word) {
        Ok(word) => number(alloc, word, least, most),
        Err(_) => Ok(None),
    }
}
