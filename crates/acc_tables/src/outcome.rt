//! Outcomes of bodies.
use crate::text::fault;
use crate::told::told_outcome;
use acc_base::{InlineText, OutOfMemory, Sequence};
use acc_lang::parse_v2;
use acc_txn::{Body, Outcome};
use acc_value::{CellList, Key, Value as Held};
use anyhow::{Context, Result};
use serde_json::Value;
use std::alloc::Global;

/// The outcome on these cells of the body that a text says in version 2, or the text's fault.
pub fn answer(alloc: Global, text: &str, cells: &[Value]) -> Result<String> {
    match parse_v2(alloc, text) {
        Ok(body) => evaluated(alloc, &body, cells),
        Err(error) => fault(alloc, error),
    }
}

fn evaluated(alloc: Global, body: &Body, cells: &[Value]) -> Result<String> {
    let before = cell_list(alloc, cells)?;
    let outcome = body.evaluate(&before)?;
    outcome_text(alloc, &outcome)
}

fn cell_list(alloc: Global, cells: &[Value]) -> Result<CellList> {
    let mut list = CellList::new(alloc);
    for cell in cells {
        add_cell(alloc, &mut list, cell)?;
    }
    Ok(list)
}

fn add_cell(alloc: Global, list: &mut CellList, cell: &Value) -> Result<()> {
    let (table, key, value) = parts(cell).context("a cell of another form")?;
    let key = key_of(alloc, table, key)?;
    list.set(key, held(alloc, value)?)?;
    Ok(())
}

fn parts(cell: &Value) -> Option<(&str, &str, &Value)> {
    match cell.as_array()?.as_slice() {
        [table, key, value] => Some((table.as_str()?, key.as_str()?, value)),
        _ => None,
    }
}

fn key_of(alloc: Global, table: &str, key: &str) -> Result<Key, OutOfMemory> {
    Ok(Key {
        table: InlineText::from_slice(alloc, table.as_bytes())?,
        key: InlineText::from_slice(alloc, key.as_bytes())?,
    })
}

fn held(alloc: Global, value: &Value) -> Result<Option<Held>> {
    if value.is_null() {
        return Ok(None);
    }
    if let Some(text) = value.as_str() {
        return Ok(Some(Held::Text(Sequence::from_slice(alloc, text.as_bytes())?)));
    }
    let number = value
        .as_i64()
        .context("a value that is neither number nor text")?;
    Ok(Some(Held::Number(number)))
}

fn outcome_text(alloc: Global, outcome: &Outcome) -> Result<String> {
    let text = told_outcome(alloc, outcome)?;
    let text = std::str::from_utf8(text.as_slice())?;
    Ok(text.to_string(alloc)?)
}
