//! Outcomes.
use super::cells::{push_cells, push_pairs};
use super::push;
use acc_base::OutOfMemory;
use acc_txn::{Outcome, Verdict};
use std::alloc::Global;

/// An outcome: the verdict, the values after a space, and the writes after ` / `.
pub fn told_outcome(alloc: Global, outcome: &Outcome) -> Result<Vec<u8>, OutOfMemory> {
    let mut text = Vec::new(alloc);
    push_outcome(&mut text, outcome)?;
    Ok(text)
}

/// The same, appended to a text.
pub fn push_outcome(text: &mut Vec<u8>, outcome: &Outcome) -> Result<(), OutOfMemory> {
    push(text, verdict(outcome.reply.verdict))?;
    push_cells(text, " ", outcome.reply.values.as_slice())?;
    push_pairs(text, " / ", outcome.writes.pairs())
}

fn verdict(verdict: Verdict) -> &'static str {
    match verdict {
        Verdict::Ok => "ok",
        Verdict::Skipped => "skipped",
        Verdict::Overflow => "overflow",
    }
}
