//! The commands against a table of wanted endings, over sources, sinks and disks in memory. The table comes from standard input.
//! A line of it is a JSON object:
//!
//! - `words`: the words after the program's name;
//! - `document`: the text that the source has, a number for as many spaces, or a seed and a count for the generated document;
//! - `piece`: how many bytes a read gives at most, and `reads`: the reads that fail, counted from 0;
//! - `takes`: how many bytes a write takes at most, and `writes`: the writes that fail, counted from 0;
//! - `disk`: the actor whose disk fails, by its number, and `calls`: the calls of it that fail, counted from 0;
//! - `meets`: whether the first store that comes to its gate is kept there until a second one has come;
//! - `status` and `written`: the exit code, and the text that is in the sink at the end; with `ends` in its place, what the text ends
//!   with, and with `last`, what its last line begins with;
//! - `left`: what disks hold that were given back, each as a pair of its actor's number and the bytes in base 16.
//!
//! `piece` and `takes` are 4096 where they are left out, and no read, no write and no call of a disk fails where none is named. A line that is a
//! text is a heading. Each ending that differs is told by its line, and at the end how many are as wanted. The
//! program fails where one differs, at a line of another form, and where memory runs out.
#![tactic(auto)]

mod case;
mod ending;
mod fields;
mod meeting;
mod tally;

use anyhow::Result;
use case::Case;
use serde_json::Value;
use std::alloc::Global;
use std::io::{self, BufRead, BufReader};
use std::sync::Wait;
use std::thread::Threads;
use tally::Tally;

/// Whether the command ends as a line wants it to. None for a heading.
fn agrees<R: AllocGlobal + Threads + Wait + Sync>(
    rt: &R,
    alloc: Global,
    line: &Value,
) -> Result<Option<bool>> {
    if line.as_str().is_some() {
        return Ok(None);
    }
    let mut case = Case::read(alloc, line)?;
    let agrees = ending::is_wanted(rt, alloc, &mut case);
    drop(case);
    Ok(Some(agrees?))
}

/// Counts whether the next line's command ends so.
fn compare<R: AllocGlobal + Print + Threads + Wait + Sync>(
    rt: &R,
    alloc: Global,
    tally: &mut Tally,
    line: io::Result<String>,
) -> Result<()> {
    tally.next_line();
    let agrees = agrees(rt, alloc, &Value::from_str(alloc, &line?)?)?;
    tally.count(rt, agrees)?;
    Ok(())
}

fn main(rt: HostRuntime) -> Result<()> {
    let alloc = rt.alloc();
    let mut tally = Tally::new();
    for line in BufReader::new(alloc, rt.reader())?.lines(alloc) {
        compare(&rt, alloc, &mut tally, line)?;
    }
    tally.end(&rt)
}
