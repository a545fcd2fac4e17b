//! Actors, stamps, dependencies, and what stores keep. Each stands after a space.
use super::push;
use acc_base::{OutOfMemory, push_number};
use acc_deps::{Deps, Settled, SharedAccepted, View};
use acc_stamp::{Actor, Stamp, TxnId};

/// The number of a node, or that of a node and that of a shard, joined by a point.
pub fn push_actor(text: &mut Vec<u8>, actor: Actor) -> Result<(), OutOfMemory> {
    push(text, " ")?;
    push_number(text, u64::from(actor.node()))?;
    if actor.shard() != 0 {
        push(text, ".")?;
        push_number(text, u64::from(actor.shard()))?;
    }
    Ok(())
}

/// A stamp.
pub fn push_stamp(text: &mut Vec<u8>, stamp: Stamp) -> Result<(), OutOfMemory> {
    push(text, " ")?;
    push_pair(text, stamp)
}

/// Its two numbers, joined by a point.
fn push_pair(text: &mut Vec<u8>, stamp: Stamp) -> Result<(), OutOfMemory> {
    push_number(text, stamp.h)?;
    push(text, ".")?;
    push_number(text, u64::from(stamp.origin))
}

/// The ids of each shard after its number and a colon, joined by semicolons, or `-` for none.
pub fn push_deps(text: &mut Vec<u8>, deps: &Deps) -> Result<(), OutOfMemory> {
    let mut sign = " ";
    for shard in deps.by_shard() {
        push(text, sign)?;
        push_number(text, u64::from(shard.shard))?;
        push_ids(text, ":", shard.ids.as_slice())?;
        sign = ";";
    }
    if deps.by_shard().is_empty() {
        push(text, " -")?;
    }
    Ok(())
}

/// Ids joined by commas, the first one after the given sign.
fn push_ids(text: &mut Vec<u8>, first: &str, ids: &[TxnId]) -> Result<(), OutOfMemory> {
    let mut sign = first;
    for id in ids {
        push(text, sign)?;
        push_pair(text, id.0)?;
        sign = ",";
    }
    Ok(())
}

/// A stamp and dependencies.
pub fn push_settled(text: &mut Vec<u8>, t: Stamp, deps: &Deps) -> Result<(), OutOfMemory> {
    push_stamp(text, t)?;
    push_deps(text, deps)
}

/// What a store reveals: its name, its vote with dependencies, the accepted, the committed and the stable record, whether
/// the transaction is superseded, and the waits, or `-` for none.
pub fn push_view(text: &mut Vec<u8>, view: &View) -> Result<(), OutOfMemory> {
    push_actor(text, view.store)?;
    push_settled(text, view.vote, &view.vote_deps)?;
    push_records(text, view)?;
    push(text, if view.superseded { " yes" } else { " no" })?;
    push_waits(text, view.waits.as_slice())
}

fn push_records(text: &mut Vec<u8>, view: &View) -> Result<(), OutOfMemory> {
    push_accepted(text, view.accepted.as_ref())?;
    push_accepted(text, view.committed.as_ref())?;
    push_stable(text, view.stable.as_ref())
}

/// The ballot, the timestamp and the dependencies in brackets, or `-`.
fn push_accepted(text: &mut Vec<u8>, shared: Option<&SharedAccepted>) -> Result<(), OutOfMemory> {
    let Some(shared) = shared else {
        return push(text, " -");
    };
    let record = shared.accepted();
    push(text, " (")?;
    push_pair(text, record.ballot.0)?;
    push_settled(text, record.t, &record.deps)?;
    push(text, ")")
}

/// The timestamp and the dependencies in brackets, or `-`.
fn push_stable(text: &mut Vec<u8>, record: Option<&Settled>) -> Result<(), OutOfMemory> {
    let Some(record) = record else {
        return push(text, " -");
    };
    push(text, " (")?;
    push_pair(text, record.t)?;
    push_deps(text, &record.deps)?;
    push(text, ")")
}

fn push_waits(text: &mut Vec<u8>, waits: &[TxnId]) -> Result<(), OutOfMemory> {
    if waits.is_empty() {
        return push(text, " -");
    }
    push_ids(text, " ", waits)
}
