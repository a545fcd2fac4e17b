//! The lines of a document that is refused, and of one that is accepted.
ghost use Rattle.std.specs.Prelude.{◌≡◌, ◌++◌, IfOk, OnOk};
ghost use Rattle.acc_command_alone.specs.Lines.{detail_text, line, number_of, ok_text, quantity_text, refusal_text, run_limit_text, IsRefusalOf};

use acc_base::{Bytes, OutOfMemory, Text, push_number};
use acc_message::Which;
use acc_schedule::{Plan, PlanError, PlanKind};
use std::alloc::Global;

/// The line of an accepted document: how many nodes, shards, transactions and steps it has.
pub(crate) fn ok_line(alloc: Global, plan: &Plan) -> Result<Bytes, OutOfMemory>
    ensures { IfOk result (λ text. text ≡ line (ok_text plan.now)) }
{
    let mut text = Vec::new(alloc);
    text.extend_from_slice(b"ok nodes=")?;
    push_number(&mut text, plan.starts.len() as u64)?;
    text.extend_from_slice(b" shards=")?;
    push_number(&mut text, u64::from(plan.topology.shards()))?;
    text.extend_from_slice(b" txns=")?;
    push_number(&mut text, plan.names.len() as u64)?;
    text.extend_from_slice(b" steps=")?;
    push_number(&mut text, plan.steps.len() as u64)?;
    text.push(b'\n')?;
    Ok(Bytes::from_vec(text))
}

/// The line of a limit that a run would pass. After `OutOfMemory` there is no line, and nothing else has changed.
pub fn limit_line(alloc: Global, which: Which, number: u64) -> Result<Bytes, OutOfMemory>
    ensures { IfOk result (λ text. text ≡ line (run_limit_text which number)) }
{
    let mut text = Vec::new(alloc);
    text.extend_from_slice(b"limit ")?;
    text.extend_from_slice(quantity(which))?;
    text.extend_from_slice(b" ")?;
    push_number(&mut text, number)?;
    text.push(b'\n')?;
    Ok(Bytes::from_vec(text))
}

fn quantity(which: Which) -> &'static [u8]
    ensures { result.now ≡ quantity_text which }
{
    match which {
        Which::Document => b"document",
        Which::Items => b"items",
        Which::Bytes => b"bytes",
    }
}

/// The line of a refusal. Want of memory has none, so it is answered with `OutOfMemory`, as is want of memory for the line itself; then
/// there is no line, and nothing else has changed.
pub fn refusal_line(alloc: Global, error: &PlanError) -> Result<Bytes, OutOfMemory>
    ensures { IfOk result (IsRefusalOf error.now) }
{
    match error {
        PlanError::Bad {
            kind,
            path,
            detail,
            at,
        } => bad_line(alloc, *kind, path, *detail, *at),
        PlanError::OutOfMemory => Err(OutOfMemory),
    }
}

fn bad_line(
    alloc: Global,
    kind: PlanKind,
    path: &Text,
    detail: u32,
    at: u64,
) -> Result<Bytes, OutOfMemory>
    ensures { IfOk result (λ text. text ≡ line (refusal_text kind path.now detail at)) }
{
    let mut text = Vec::new(alloc);
    text.extend_from_slice(b"bad ")?;
    push_number(&mut text, number(kind))?;
    text.extend_from_slice(b" ")?;
    text.extend_from_slice(path.as_slice())?;
    push_detail(&mut text, kind, detail, at)?;
    text.push(b'\n')?;
    Ok(Bytes::from_vec(text))
}

// The number of a kind.
fn number(kind: PlanKind) -> u64
    ensures { result ≡ number_of kind }
{
    kind as u64
}

// What stands after the path.
fn push_detail(text: &mut Vec<u8>, kind: PlanKind, detail: u32, at: u64) -> Result<(), OutOfMemory>
    ensures { OnOk result (text.new.items ≡ text.old.items ++ detail_text kind detail at) }
{
    match kind {
        PlanKind::Topology => {
            text.extend_from_slice(b" ")?;
            push_number(text, u64::from(detail))?;
        }
        PlanKind::Text | PlanKind::Journal | PlanKind::Report => {
            text.extend_from_slice(b" ")?;
            push_number(text, u64::from(detail))?;
            text.extend_from_slice(b" at ")?;
            push_number(text, at)?;
        }
        _ => {}
    }
    Ok(())
}
