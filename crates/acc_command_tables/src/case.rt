//! A line of the table.
ghost use Rattle.std.specs.Prelude.{◌<◌};

use crate::fields::{document, is_so, items, number, numbers, words};
use crate::meeting::Meeting;
use acc_base::{OutOfMemory, Sequence, Text};
use acc_ports::{MemMaker, MemSink, MemSource};
use anyhow::{Result, bail};
use serde_json::Value;
use std::alloc::Global;

/// How many bytes a read gives and a write takes, where a line doesn't say.
const PIECE: u64 = 4096;

/// The text that is in the sink at the end.
#[derive(Clone, Copy)]
pub enum Wanted<'l> {
    Whole(&'l str),
    /// What it ends with.
    End(&'l str),
    /// What its last line begins with.
    Last(&'l str),
}

/// How a command has to end.
#[derive(Clone, Copy)]
pub struct Ending<'l> {
    pub status: u64,
    pub wanted: Wanted<'l>,
    /// The disks that were given back, each with the number of its actor and the bytes in base 16.
    pub left: &'l [Value],
}

/// What a command reads from, writes to and keeps its journals on.
#[derive(Drop)]
pub struct Ports {
    pub source: MemSource,
    pub sink: MemSink,
    pub disks: MemMaker,
}

/// A command line with its ports and its gate, and how it has to end.
#[derive(Drop)]
pub struct Case<'l> {
    pub words: Sequence<Text>,
    pub ports: Ports,
    pub gate: Meeting,
    pub ending: Ending<'l>,
}

impl<'l> Case<'l> {
    /// The case that a line has.
    pub fn read(alloc: Global, line: &'l Value) -> Result<Case<'l>> {
        let Some(ending) = ending_of(line) else {
            bail!("a line that wants no ending");
        };
        let ports = ports_of(alloc, line)?;
        Ok(Case {
            words: words(alloc, line, "words")?,
            ports,
            gate: Meeting::new(is_so(line, "meets")),
            ending,
        })
    }
}

fn ports_of(alloc: Global, line: &Value) -> Result<Ports, OutOfMemory> {
    let disks = disks_of(alloc, line)?;
    let sink = sink_of(alloc, line)?;
    Ok(Ports {
        source: source_of(alloc, line)?,
        sink,
        disks,
    })
}

fn source_of(alloc: Global, line: &Value) -> Result<MemSource, OutOfMemory> {
    let document = document(alloc, line, "document")?;
    let fails = numbers(alloc, line, "reads")?;
    Ok(MemSource::new(alloc, document, piece(line, "piece"), fails))
}

fn sink_of(alloc: Global, line: &Value) -> Result<MemSink, OutOfMemory> {
    let fails = numbers(alloc, line, "writes")?;
    Ok(MemSink::new(alloc, piece(line, "takes"), fails))
}

fn disks_of(alloc: Global, line: &Value) -> Result<MemMaker, OutOfMemory> {
    let actor = u32::try_from(number(line, "disk", 0)).unwrap_or(0);
    Ok(MemMaker::listed(alloc, actor, numbers(alloc, line, "calls")?))
}

/// How many bytes a read gives or a write takes.
fn piece(line: &Value, name: &str) -> usize
    ensures { 0 < result }
{
    let number = number(line, name, PIECE);
    if number == 0 { 1 } else { number as usize }
}

fn ending_of(line: &Value) -> Option<Ending<'_>> {
    Some(Ending {
        status: line.get("status")?.as_u64()?,
        wanted: wanted_of(line)?,
        left: items(line, "left"),
    })
}

fn wanted_of(line: &Value) -> Option<Wanted<'_>> {
    match (line.get("ends"), line.get("last")) {
        (Some(end), _) => Some(Wanted::End(end.as_str()?)),
        (_, Some(last)) => Some(Wanted::Last(last.as_str()?)),
        _ => Some(Wanted::Whole(line.get("written")?.as_str()?)),
    }
}
