//! What the lines of a report decide.
ghost use Rattle.std.specs.Prelude.{◌≡◌, ◌<◌, ◌&&◌, ◌||◌, ◌==◌, ◌++◌, false, ℕ, List, Option, nat_le, option_map, length, map, reverse, slice_index_or, slice_set, replicate, Some, None, IsTrue, IfOk, OnOk, if◌then◌else◌};
ghost use Rattle.std.specs.List.{list_any};
ghost use Rattle.std.specs.BTreeMap.{get};
ghost use Rattle.acc_stamp.specs.declared.stamps.Stamp.{Stamp};
ghost use Rattle.acc_stamp.specs.Stamp.{stamp_cmp, stamp_eq, stamp_lt};
ghost use Rattle.acc_audit.specs.Said.{decision_in, timestamp_in, timestamp_of};
ghost use Rattle.acc_audit.specs.Kept.{entry_of, is_below, is_not, is_other as is_other_than, least_in, lesser as lesser_of, lowered};
ghost use Rattle.acc_audit.specs.Rules.{Differ};
ghost use Rattle.acc_audit.specs.Users.{rises};

use crate::users::Entry;
use acc_base::OutOfMemory;
use acc_document_fields::NameTable;
use acc_report_reader::{PlacedForm, PlacedLine};
use acc_stamp::Stamp;
use std::alloc::Global;
use std::collections::BTreeMap;

/// The least timestamp that the lines decide for each transaction.
pub(crate) fn least(
    alloc: Global,
    numbers: &NameTable,
    lines: &[PlacedLine<'_>],
) -> Result<Vec<Option<Stamp>>, OutOfMemory>
    requires { Differ numbers.now }
    ensures { IfOk result (λ least. least.items ≡ map (λ name. least_in name (reverse lines.now)) numbers.now) }
{
    let mut least = no_timestamps(alloc, numbers.len())?;
    for line in lines {
        lower_by(&mut least, numbers, line);
    }
    Ok(least)
}

fn no_timestamps(alloc: Global, count: usize) -> Result<Vec<Option<Stamp>>, OutOfMemory>
    ensures { IfOk result (λ timestamps. timestamps.items ≡ replicate count None) }
{
    Ok(vec![in alloc; None; count]?)
}

// Lowers the timestamp of the transaction that the line decides, if it decides one.
fn lower_by(least: &mut Vec<Option<Stamp>>, numbers: &NameTable, line: &PlacedLine<'_>)
    requires as_many { length least.old.items ≡ length numbers.now }
    requires differ { Differ numbers.now }
    ensures { (was : List ℕ → Option Stamp) → least.old.items ≡ map was numbers.now
        → least.new.items ≡ map (λ name. lowered (was name) (timestamp_in name line.now)) numbers.now }
{
    match decision_of(line) {
        Some((name, t)) => lower_at(least, numbers, name, t),
        None => {}
    }
}

// Lowers the timestamp of the transaction with this name, if there is one.
fn lower_at(least: &mut Vec<Option<Stamp>>, numbers: &NameTable, name: &[u8], t: Stamp)
    requires as_many { length least.old.items ≡ length numbers.now }
    requires differ { Differ numbers.now }
    ensures { (was : List ℕ → Option Stamp) → least.old.items ≡ map was numbers.now
        → least.new.items ≡ map (λ other. lowered (was other) (timestamp_of other (Some (name.now, t)))) numbers.now }
{
    match numbers.place(name) {
        Some(number) => lower(least, number, t),
        None => {}
    }
}

fn decision_of<'r>(line: &PlacedLine<'r>) -> Option<(&'r [u8], Stamp)>
    ensures { option_map (λ decision. (decision.0.now, decision.1)) result ≡ decision_in line.now }
{
    match line.form() {
        PlacedForm::Decide { name, t, .. } => Some((*name, *t)),
        _ => None,
    }
}

// Lowers a timestamp to this one, if it lies above it.
fn lower(least: &mut Vec<Option<Stamp>>, number: usize, t: Stamp)
    requires { number < length least.old.items }
    ensures { least.new.items ≡ slice_set least.old.items number (Some (lesser_of (slice_index_or least.old.items number None) t)) }
{
    least[number] = Some(lesser(least[number], t));
}

fn lesser(held: Option<Stamp>, t: Stamp) -> Stamp
    ensures { result ≡ lesser_of held t }
{
    match held {
        Some(held) if held < t => held,
        _ => t,
    }
}

/// The transactions that have a timestamp, rising by it.
pub(crate) fn ordered(alloc: Global, least: &[Option<Stamp>]) -> Result<Vec<Entry>, OutOfMemory>
    ensures rise { IfOk result (λ entries. IsTrue (rises entries.items)) }
    ensures within { IfOk result (λ entries. list_any (λ entry. nat_le (length least.now) entry.1) entries.items ≡ false) }
    ensures least { IfOk result (λ entries. (number : ℕ) (t : Stamp) →
        list_any (λ entry. (entry.1 == number) && stamp_lt entry.0 t) entries.items ≡ is_below (slice_index_or least.now number None) t) }
{
    let mut entries = decided(alloc, least)?;
    entries.sort_unstable();
    Ok(entries)
}

fn decided(alloc: Global, least: &[Option<Stamp>]) -> Result<Vec<Entry>, OutOfMemory>
    ensures within { IfOk result (λ entries. list_any (λ entry. nat_le (length least.now) entry.1) entries.items ≡ false) }
    ensures least { IfOk result (λ entries. (number : ℕ) (t : Stamp) →
        list_any (λ entry. (entry.1 == number) && stamp_lt entry.0 t) entries.items ≡ is_below (slice_index_or least.now number None) t) }
{
    let mut entries = Vec::with_capacity(alloc, least.len())?;
    for number in 0..least.len() {
        push(&mut entries, least[number], number)?;
    }
    Ok(entries)
}

// Appends the entry of the transaction, if it has a timestamp.
fn push(entries: &mut Vec<Entry>, t: Option<Stamp>, number: usize) -> Result<(), OutOfMemory>
    ensures { OnOk result (entries.new.items ≡ entries.old.items ++ entry_of t number) }
{
    if let Some(t) = t {
        entries.push((t, number))?;
    }
    Ok(())
}

/// The decisions of the lines so far, which agree.
#[derive(Drop)]
pub(crate) struct Decisions {
    timestamps: Vec<Option<Stamp>>,
    owners: BTreeMap<Stamp, usize>,
}

impl Decisions {
    /// No decisions of so many transactions.
    pub(crate) fn new(alloc: Global, count: usize) -> Result<Decisions, OutOfMemory>
        ensures timestamps { IfOk result (λ d. d.timestamps.items ≡ replicate count None) }
        ensures owners { IfOk result (λ d. (t : Stamp) → get stamp_cmp d.owners t ≡ None) }
    {
        Ok(Decisions {
            timestamps: no_timestamps(alloc, count)?,
            owners: BTreeMap::new(alloc),
        })
    }

    /// Whether the transaction has another timestamp, or another transaction has this one.
    pub(crate) fn disagree(&self, number: usize, t: Stamp) -> bool
        requires { number < length self.now.timestamps.items }
        ensures { result ≡ (is_other_than (slice_index_or self.now.timestamps.items number None) t || is_not (get stamp_cmp self.now.owners t) number) }
    {
        is_other(self.timestamps[number], t) || self.is_of_another(number, t)
    }

    fn is_of_another(&self, number: usize, t: Stamp) -> bool
        ensures { result ≡ is_not (get stamp_cmp self.now.owners t) number }
    {
        match self.owners.get(&t) {
            Some(owner) => *owner != number,
            None => false,
        }
    }

    /// Notes that the transaction is decided at this timestamp.
    pub(crate) fn note(&mut self, number: usize, t: Stamp) -> Result<(), OutOfMemory>
        requires { number < length self.old.timestamps.items }
        ensures timestamps { OnOk result (self.new.timestamps.items ≡ slice_set self.old.timestamps.items number (Some t)) }
        ensures owners { OnOk result ((u : Stamp) → get stamp_cmp self.new.owners u ≡ (if stamp_eq t u then Some number else get stamp_cmp self.old.owners u)) }
    {
        self.timestamps[number] = Some(t);
        self.owners.insert(t, number)?;
        Ok(())
    }
}

fn is_other(held: Option<Stamp>, t: Stamp) -> bool
    ensures { result ≡ is_other_than held t }
{
    match held {
        Some(held) => t != held,
        None => false,
    }
}
