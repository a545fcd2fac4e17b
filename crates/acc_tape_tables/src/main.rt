//! Tapes against a table of wanted answers. The table comes from standard input. A line of it is a JSON array:
//!
//! - `["part", HEADING]`: the heading of the lines below it;
//! - `["tape", ITEMS, BYTES, STEP, ..]`: a tape that may hold so many items and bytes, and what its seats do, one after the other;
//! - `["threads", ITEMS, BYTES, ACTORS, EACH, WEIGHT, GIVEN, ANSWER]`: a tape on which so many actors, each on a thread of its own,
//!   try so often to reserve an item of this weight and enter it. With GIVEN above 0 each gives every reservation whose number is a multiple of
//!   it up before it reserves anew. An item sends a message to the next actor, and takes the oldest that waits for its own.
//!
//! A step is an array that ends with its answer:
//!
//! - `["seat", ACTOR, "ok"]`: a seat for an actor;
//! - `["reserve", ACTOR, BYTES, ANSWER]`, `["reserve", ACTOR, ITEMS, BYTES, ANSWER]`: an item or so many with so many bytes: `ok`, `full items`
//!   or `full bytes` with the limit;
//! - `["release", ACTOR, BYTES, ANSWER]`, `["release", ACTOR, ITEMS, BYTES, ANSWER]`: `ok`, or `not held` where not so much is reserved;
//! - `["enter", ACTOR, RESERVED, BYTES, TAKEN, [TO, ..], LOST, ANSWER]`: an item of so many bytes, of which each message has one, in place of
//!   one and so many bytes that are reserved; TAKEN is the number of a message or null, LOST whether the messages are lost. `ok`, or
//!   `not held` where not so much is reserved or the item weighs more;
//! - `["enter all", ACTOR, ITEMS, RESERVED, [BYTES, TAKEN, [TO, ..], LOST], .., ANSWER]`: the same of items one after another, in place of so
//!   many and so many bytes;
//! - `["fetch", ACTOR, PLACE, ANSWER]`: the item at a place, as its actor, a dot and how many that entered before; or `none`;
//! - `["next", ACTOR, TO, ANSWER]`, `["after", ACTOR, TO, NUMBER, ANSWER]`: the oldest message that waits for an actor, also after a number: its
//!   number, the place of its item and its index there; or `none`;
//! - `["item", ACTOR, TO, ANSWER]`: the oldest with the item that sent it;
//! - `["collect", ACTOR, TO, MOST, ANSWER]`: so many of the oldest, each with the item that sent it, with commas between; or `none`;
//! - `["close", ANSWER]`: all items. No seat holds a reservation, and the case ends.
//!
//! Threads tell how many items were entered and how many reservations refused, where the items of each actor stand in the order in
//! which it entered them and the messages that they took rise in number.
//!
//! Each case whose answers differ is printed on a line of its own, and at the end how many are as wanted. The program fails
//! where one differs, at a line of another form, and where memory runs out.
#![tactic(auto)]

mod act;
mod case;
mod chair;
mod hall;
mod sample;
mod tally;
mod threads;

use anyhow::{Context, Result};
use serde_json::Value;
use std::alloc::Global;
use std::io::{self, BufRead, BufReader};
use std::sync::Wait;
use std::thread::Threads;
use tally::Tally;

/// Counts whether the answers of the next line are the wanted ones.
fn compare<R: Print + Threads + Wait + Sync>(
    rt: &R,
    alloc: Global,
    tally: &mut Tally,
    line: io::Result<String>,
) -> Result<()> {
    let number = tally.next_line();
    let line = Value::from_str(alloc, &line?)?;
    let agrees = case::agrees(rt, alloc, &line).context(format_args!("line {number}"))?;
    tally.count(rt, agrees)?;
    Ok(())
}

fn main(rt: HostRuntime) -> Result<()> {
    let alloc = rt.alloc();
    let mut tally = Tally::new();
    for line in BufReader::new(alloc, rt.reader())?.lines(alloc) {
        compare(&rt, alloc, &mut tally, line)?;
    }
    tally.end(&rt)
}
