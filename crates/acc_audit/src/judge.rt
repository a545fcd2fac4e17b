//! Goes through the lines of a report.
ghost use Rattle.std.specs.Prelude.{◌≡◌, ◌<◌, [], length, IfOk};
ghost use Rattle.acc_audit.specs.Kept.{Holds};
ghost use Rattle.acc_audit.specs.Users.{IsLookup};
ghost use Rattle.acc_audit.specs.Rules.{is_last as is_last_of, Differ, IsFound, Judges};

use crate::error::AuditError;
use crate::front::Front;
use crate::index::{Lookup, by_keys};
use crate::remains::Remains;
use crate::step::{Against, step};
use acc_base::OutOfMemory;
use acc_document_fields::NameTable;
use acc_report_reader::{PlacedLine, PlacedLines};
use acc_schedule::Bodies;
use acc_txn::Body;
use std::alloc::Global;

/// Judges the lines of a report against transactions with these names and bodies, and answers the first line that breaks a rule,
/// with the least rule that it breaks. The rules are those of `docs/AUDIT.md`. It trusts nothing about who wrote the lines.
///
/// There are as many bodies as names. `OutOfMemory` comes where memory was refused, whatever the
/// lines are.
///
/// Its time is linear in the text of the report, times the keys of a transaction and the logarithm of their number.
pub fn audit(
    alloc: Global,
    names: &NameTable,
    bodies: &Bodies,
    lines: &PlacedLines<'_>,
) -> Result<(), AuditError>
    requires as_many { length bodies.now ≡ length names.now }
    ensures { Judges result names.now bodies.now lines.now }
{
    let mut remains = Remains::new();
    judged(alloc, names, bodies, lines, &mut remains)
}

/// The same, where what is needed no longer goes to `remains`.
pub(crate) fn judged(
    alloc: Global,
    names: &NameTable,
    bodies: &Bodies,
    lines: &PlacedLines<'_>,
    remains: &mut Remains,
) -> Result<(), AuditError>
    requires as_many { length bodies.now ≡ length names.now }
    ensures { Judges result names.now bodies.now lines.now }
{
    names.stand_once();
    let fault = first_fault(alloc, names, bodies.as_slice(), lines.as_slice(), remains)?;
    match fault {
        Some((line, rule)) => Err(AuditError::No { line, rule }),
        None => Ok(()),
    }
}

// The number of the first line that breaks a rule, counted from 1, and the least rule that it breaks.
fn first_fault(
    alloc: Global,
    numbers: &NameTable,
    bodies: &[Body],
    lines: &[PlacedLine<'_>],
    remains: &mut Remains,
) -> Result<Option<(u64, u32)>, OutOfMemory>
    requires as_many { length bodies.now ≡ length numbers.now }
    requires differ { Differ numbers.now }
    ensures { IfOk result (IsFound numbers.now bodies.now lines.now) }
{
    if lines.is_empty() {
        return Ok(Some((1, 7)));
    }
    let users = by_keys(alloc, numbers, bodies, lines)?;
    let lookup = Lookup::of(alloc, bodies, &users)?;
    let against = Against {
        numbers,
        bodies,
        lines,
        lookup: &lookup,
    };
    let mut front = Front::new(alloc, numbers)?;
    let fault = fault_in(&mut front, &against)?;
    drop(lookup);
    remains.front = Some(front);
    remains.users = Some(users);
    Ok(fault)
}

// The same of some lines, before the first of which nothing is kept.
fn fault_in(
    front: &mut Front,
    against: &Against<'_, '_, '_>,
) -> Result<Option<(u64, u32)>, OutOfMemory>
    requires as_many { length against.now.bodies.now ≡ length against.now.numbers.now }
    requires differ { Differ against.now.numbers.now }
    requires some { 0 < length against.now.lines.now }
    requires holds { Holds against.now.numbers.now against.now.bodies.now [] 0 front.old }
    requires looks { IsLookup against.now.numbers.now against.now.bodies.now against.now.lines.now against.now.lookup.now }
    ensures { IfOk result (IsFound against.now.numbers.now against.now.bodies.now against.now.lines.now) }
{
    let lines = against.lines;
    for place in 0..lines.len() {
        let last = is_last(lines, place);
        let rule = step(front, against, &lines[place], place as u64, last)?;
        match rule {
            Some(rule) => return Ok(Some((place as u64 + 1, rule))),
            None => {}
        }
    }
    Ok(None)
}

fn is_last(lines: &[PlacedLine<'_>], place: usize) -> bool
    requires { place < length lines.now }
    ensures { result ≡ is_last_of lines.now place }
{
    place + 1 == lines.len()
}
