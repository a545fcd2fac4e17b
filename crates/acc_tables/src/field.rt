//! Fields of bytes.
use acc_wire::{Reader, WireError};
use anyhow::Result;
use std::alloc::{AllocError, Global};

/// A number in four bytes at the front of some bytes, and then one in a byte, or what is wrong with each.
pub fn answer(alloc: Global, bytes: &[u8]) -> Result<String> {
    let mut reader = Reader::new(bytes);
    let long = match reader.take_u32() {
        Ok(number) => number.to_string(alloc)?,
        Err(error) => fault(alloc, error)?,
    };
    let short = match reader.take_u8() {
        Ok(number) => number.to_string(alloc)?,
        Err(error) => fault(alloc, error)?,
    };
    Ok(format!(in alloc; "{long}, {short}")?)
}

fn fault(alloc: Global, error: WireError) -> Result<String, AllocError> {
    format!(in alloc; "{} at {}", error.kind as u32, error.place)
}
