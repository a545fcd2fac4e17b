//! Answers of the crates below against a table of wanted ones. The table comes from standard input. A line of it is a JSON array:
//! a kind, a text and the wanted answer, all three texts.
//!
//! - `text`, `text_v2`: the text of a transaction is parsed in version 1 of the language or in version 2. The answer is `ok` and the
//!   canonical text of its body, or its fault: the kind's number, ` at ` and the byte where it stands.
//! - `outcome`, which has a list of cells between the text and the answer: the body of a text of version 2 is evaluated on the cells,
//!   each a `[TABLE, KEY, VALUE]` where a value is a number, a text or null. The answer is the verdict, then after a space the selected
//!   values, joined by commas, and after ` / ` the writes, as `TABLE.KEY=VALUE` and joined by commas too, texts in single quotes with
//!   two quotes for one. Where there are none of them, their sign is left out.
//! - `document`: the text of a cluster document is read. The answer is `ok` and the counts of the plan, as
//!   `ok nodes=1 shards=1 txns=1 steps=2`, or the refusal: `bad`, the kind's number and the path, then the detail where
//!   it isn't 0, and after the detail of a transaction's text ` at ` and the byte.
//! - `counts`: how many of the first shard's nodes, taken in the order of their numbers, the cluster of a document needs: answers for a
//!   majority, unchanged votes for a fast quorum, changed votes by which a fast quorum is lost, and unchanged votes of a majority of
//!   answers with which there may be a fast quorum.
//! - `message`: bytes in base 16 are decoded. The answer is `ok` and the message in the form below, or its fault: the kind's
//!   number, ` at ` and the byte where it stands. It is `spelled otherwise` where `encode` doesn't give the very bytes again,
//!   and `of another length` where `message_length` isn't their count.
//! - `field`: of bytes in base 16 a number in four bytes is read, and then one in a byte. Each is told, or its fault.
//! - `index`: stamps of updates of one key with commas between them, a bound, and a stamp to look for. Of the columns of the index that
//!   has noted these stamps: which are below the bound, as a `1` or a `0` for each, the greatest of these, and whether the other stamp is
//!   there. Then the greatest stamp that conflicts with an update of the key by the sought transaction, and with one of another key, and
//!   how many transactions write the key.
//! - `answers`: answers to an attempt, as a store's number and the stamp that it votes for, with commas between them: for each whether
//!   it is the first of its store, and the greatest stamp.
//! - `journal`: bytes in base 16 that a disk has. `read` and the payloads, each after a space; or `bad record` and the place, `bad
//!   version` and the byte.
//! - `group`: how many calls of a new disk pass before one fails, the choice of a crash, and payloads in base 16, with spaces between
//!   them. The payloads are appended to the disk's journal in one group: `ok` or `fault`, and what is read after the crash.
//! - `report`, and `bytes` in base 16: a report is read. The answer is `ok` and how many lines it has, or `line` and the number of the
//!   first that has no form.
//! - `audit`: a case is judged. The answer is `yes lines=` and how many lines its report has, or `no`, the number of the first line that
//!   breaks a rule and the rule; or the refusal of the case as of a document, in which a line of the report that has no form stands as
//!   `bad 10 /report 1 at` and its number.
//! - `["part", TEXT]`: the heading of the lines below it. It asks nothing.
//!
//! A message is told as its variant's name, the sender, the actor that it goes to, the id, the ballot and its further fields
//! in their order, each after a space: a node as its number and a store as `NODE.SHARD`, a stamp as its two numbers with a
//! point in between, a body as its canonical text in square brackets, dependencies as the ids of each shard, as
//! `SHARD:ID,ID`, joined by semicolons, an outcome as above in round brackets, a read answer as `values` and the cells in the
//! form of writes, or as `known` and an outcome, a record of a view as its fields in round brackets, the view's flag as `yes`
//! or `no`, and waits as ids joined by commas. No dependencies, no record and no waits are `-`. A key that isn't UTF-8 is told as
//! its bytes, each as a number after a backslash.
//!
//! Each answer that differs is printed on a line of its own, and at the end how many are as wanted. The program fails
//! where one differs, at a line of another form, and where memory runs out.
#![tactic(auto)]

mod answers;
mod case;
mod counts;
mod document;
mod field;
mod group;
mod index;
mod journal;
mod judgement;
mod message;
mod outcome;
mod report;
mod stamps;
mod tally;
mod text;
mod told;

use anyhow::{Context, Result};
use serde_json::Value;
use std::alloc::Global;
use std::io::{self, BufRead, BufReader};
use tally::Tally;

/// Counts whether the answer that the next line asks for is the wanted one.
fn compare(
    rt: &impl Print,
    alloc: Global,
    tally: &mut Tally,
    line: io::Result<String>,
) -> Result<()> {
    let number = tally.next_line();
    let line = Value::from_str(alloc, &line?)?;
    let agrees = case::agrees(alloc, &line).context(format_args!("line {number}"))?;
    tally.count(rt, agrees)?;
    Ok(())
}

fn main(rt: HostRuntime) -> Result<()> {
    let alloc = rt.alloc();
    let mut tally = Tally::new();
    for line in BufReader::new(alloc, rt.reader())?.lines(alloc) {
        compare(&rt, alloc, &mut tally, line)?;
    }
    tally.end(&rt)
}
