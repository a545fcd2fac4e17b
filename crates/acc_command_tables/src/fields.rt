//! The fields of a line.
use acc_base::{Bytes, OutOfMemory, Sequence, Text};
use serde_json::Value;
use std::alloc::Global;

/// A number, or another one where the line has none.
pub fn number(line: &Value, name: &str, otherwise: u64) -> u64 {
    match line.get(name) {
        Some(number) => number.as_u64().unwrap_or(otherwise),
        None => otherwise,
    }
}

/// Whether the line says that it is so.
pub fn is_so(line: &Value, name: &str) -> bool {
    match line.get(name) {
        Some(flag) => flag.as_bool() == Some(true),
        None => false,
    }
}

/// The items of an array, and none where there is no array.
pub fn items<'l>(line: &'l Value, name: &str) -> &'l [Value] {
    match line.get(name) {
        Some(Value::Array(items)) => items.as_slice(),
        _ => &[],
    }
}

/// The numbers of an array.
pub fn numbers(alloc: Global, line: &Value, name: &str) -> Result<Sequence<u64>, OutOfMemory> {
    let mut numbers = Sequence::new(alloc);
    for item in items(line, name) {
        numbers.push(item.as_u64().unwrap_or(0))?;
    }
    Ok(numbers)
}

/// The texts of an array.
pub fn words(alloc: Global, line: &Value, name: &str) -> Result<Sequence<Text>, OutOfMemory> {
    let mut words = Sequence::new(alloc);
    for item in items(line, name) {
        words.push(text(alloc, item)?)?;
    }
    Ok(words)
}

fn text(alloc: Global, item: &Value) -> Result<Text, OutOfMemory> {
    Sequence::from_slice(alloc, item.as_str().unwrap_or("").as_bytes())
}

/// The bytes of a text, as many spaces as a number says, or the document that a seed gives with so many transactions.
pub fn document(alloc: Global, line: &Value, name: &str) -> Result<Bytes, OutOfMemory> {
    match line.get(name) {
        Some(Value::Array(numbers)) => generated(alloc, numbers.as_slice()),
        Some(document) => match document.as_u64() {
            Some(count) => spaces(alloc, count),
            None => text(alloc, document),
        },
        None => Ok(Sequence::new(alloc)),
    }
}

fn generated(alloc: Global, numbers: &[Value]) -> Result<Bytes, OutOfMemory> {
    match numbers {
        [seed, txns] => {
            let txns = txns.as_u64().unwrap_or(1).clamp(1, 2000);
            acc_generator::generate(alloc, seed.as_u64().unwrap_or(0), txns as u32)
        }
        _ => Ok(Sequence::new(alloc)),
    }
}

fn spaces(alloc: Global, count: u64) -> Result<Bytes, OutOfMemory> {
    let mut spaces = Sequence::new(alloc);
    for _ in 0..count {
        spaces.push(b' ')?;
    }
    Ok(spaces)
}
