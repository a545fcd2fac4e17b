//! Bytes of messages.
ghost use Rattle.acc_message_code.specs.Fitting.{FitsMessage};

use crate::told::told_message;
use acc_base::OutOfMemory;
use acc_message::Message;
use acc_message_code::{CodeError, decode, encode, laws, message_length};
use anyhow::Result;
use std::alloc::Global;

/// The message that some bytes say, or their fault.
pub fn answer(alloc: Global, bytes: &[u8]) -> Result<String> {
    match decode(alloc, bytes) {
        Ok(message) => {
            let told = spelled(alloc, &message, bytes);
            drop(message);
            told
        }
        Err(error) => fault(alloc, error),
    }
}

/// The message, where these bytes are its spelling.
fn spelled(alloc: Global, message: &Message, bytes: &[u8]) -> Result<String>
    requires { FitsMessage message.now }
{
    laws::what_fits_is_short();
    if encode(alloc, message)?.as_slice() != bytes {
        return Ok("spelled otherwise".to_string(alloc)?);
    }
    if message_length(message) != bytes.len() as u64 {
        return Ok("of another length".to_string(alloc)?);
    }
    found(alloc, message)
}

fn found(alloc: Global, message: &Message) -> Result<String> {
    let text = told_message(alloc, message)?;
    let text = std::str::from_utf8(text.as_slice())?;
    Ok(format!(in alloc; "ok {text}")?)
}

/// A fault and the byte where it stands.
fn fault(alloc: Global, error: CodeError) -> Result<String> {
    match error {
        CodeError::Wire(wire) => Ok(format!(in alloc; "{} at {}", wire.kind as u32, wire.place)?),
        CodeError::OutOfMemory => Err(OutOfMemory.into()),
    }
}
