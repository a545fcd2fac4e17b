//! Texts of transactions.
use acc_base::OutOfMemory;
use acc_lang::{LangError, parse, parse_v2};
use acc_print::print;
use acc_txn::Body;
use anyhow::Result;
use std::alloc::Global;

/// The canonical text of the body that a text says in version 1, or its fault.
pub fn answer(alloc: Global, text: &str) -> Result<String> {
    match parse(alloc, text) {
        Ok(body) => canonical(alloc, &body),
        Err(error) => fault(alloc, error),
    }
}

/// The canonical text of the body that a text says in version 2, or its fault.
pub fn answer_v2(alloc: Global, text: &str) -> Result<String> {
    match parse_v2(alloc, text) {
        Ok(body) => canonical(alloc, &body),
        Err(error) => fault(alloc, error),
    }
}

fn canonical(alloc: Global, body: &Body) -> Result<String> {
    let text = print(alloc, body)?;
    let text = std::str::from_utf8(text.as_slice())?;
    Ok(format!(in alloc; "ok {text}")?)
}

/// A fault and the byte where it stands.
pub fn fault(alloc: Global, error: LangError) -> Result<String> {
    match error {
        LangError::At { at, kind } => Ok(format!(in alloc; "{} at {at}", kind as u32)?),
        LangError::OutOfMemory => Err(OutOfMemory.into()),
    }
}
