//! The rules that a line of each form may break, and what is noted of it where it breaks none.
ghost use Rattle.std.specs.Prelude.{◌≡◌, ◌<◌, ◌+◌, ◌&&◌, ◌||◌, ◌^◌, true, false, not, ℕ, Bool, List, [], ◌∷◌, length, map, slice_index_or, slice_set, unwrap_or, is_some, Some, None, IfOk, if◌then◌else◌};
ghost use Rattle.std.specs.List.{list_all, list_any};
ghost use Rattle.std.specs.BTreeMap.{get};
ghost use Rattle.std.specs.Option.{option_copied};
ghost use Rattle.std.specs.Str.{bytes_eq};
ghost use Rattle.acc_base.specs.Faults.{or_else};
ghost use Rattle.acc_stamp.specs.declared.stamps.Stamp.{Stamp};
ghost use Rattle.acc_stamp.specs.Stamp.{stamp_cmp, stamp_eq};
ghost use Rattle.acc_value.specs.declared.key.Key.{Key};
ghost use Rattle.acc_value.specs.Cells.{cells_of};
ghost use Rattle.acc_txn.specs.declared.parts.BodyParts.{BodyParts};
ghost use Rattle.acc_txn.specs.Meaning.{outcome_of};
ghost use Rattle.acc_txn.specs.Serial.{map_after};
ghost use Rattle.acc_message.specs.declared.note.Path.{Path};
ghost use Rattle.acc_report_line.specs.declared.line.Line.{Line};
ghost use Rattle.acc_report_line.specs.declared.line.Line.TheVariants.{Decide, Outcome};
ghost use Rattle.acc_audit.specs.Said.{begins, same_reply as is_same_reply};
ghost use Rattle.acc_audit.specs.Fronts.{answer_of, first_reply, has_outcome, is_known, number_of};
ghost use Rattle.acc_audit.specs.Kept.{is_not, is_other, AreDecisions, AreMarks, AreOutcomes};
ghost use Rattle.acc_audit.specs.Rules.{differs_from, rule_of, rules, Differ};
ghost use Rattle.acc_audit.specs.Users.{lacks_in, AllStoodRise, IsLookup};

use crate::decisions::Decisions;
use crate::index::Lookup;
use crate::marks::mark;
use crate::numbers::has_each;
use crate::outcomes::Outcomes;
use crate::replies::same_reply;
use acc_base::OutOfMemory;
use acc_document_fields::NameTable;
use acc_report_reader::PlacedNames;
use acc_stamp::Stamp;
use acc_txn::{Body, Reply};

/// The rule that a line breaks which may not be the last one.
pub(crate) fn last_rule(last: bool) -> Option<u32>
    ensures { result ≡ rules false false false false false false last }
{
    if last { Some(7) } else { None }
}

/// A line with a name.
pub(crate) fn named(numbers: &NameTable, name: &[u8], last: bool) -> Option<u32>
    ensures { result ≡ rules (not (list_all (is_known numbers.now) (name.now ∷ []))) false false false false false last }
{
    if numbers.has(name) {
        last_rule(last)
    } else {
        Some(1)
    }
}

/// A line with a name and with names of others.
pub(crate) fn blocked(
    numbers: &NameTable,
    name: &[u8],
    by: &PlacedNames<'_>,
    last: bool,
) -> Option<u32>
    ensures { result ≡ rules (not (list_all (is_known numbers.now) (name.now ∷ by.now))) false false false false false last }
{
    if numbers.has(name) && has_each(numbers, by) {
        last_rule(last)
    } else {
        Some(1)
    }
}

/// A line that begins a transaction.
pub(crate) fn begin(
    begun: &mut Vec<bool>,
    numbers: &NameTable,
    name: &[u8],
    last: bool,
) -> Option<u32>
    requires as_many { length begun.old.items ≡ length numbers.now }
    requires differ { Differ numbers.now }
    ensures rule { (was : List ℕ → Bool) → begun.old.items ≡ map was numbers.now
        → result ≡ rules (not (list_all (is_known numbers.now) (name.now ∷ []))) (was name.now) false false false false last }
    ensures noted { (was : List ℕ → Bool) → begun.old.items ≡ map was numbers.now → result ≡ None
        → begun.new.items ≡ map (λ other. bytes_eq other name.now || was other) numbers.now }
{
    match numbers.place(name) {
        Some(number) => begin_at(begun, number, last),
        None => Some(1),
    }
}

fn begin_at(begun: &mut Vec<bool>, number: usize, last: bool) -> Option<u32>
    requires { number < length begun.old.items }
    ensures rule { result ≡ rules false (slice_index_or begun.old.items number false) false false false false last }
    ensures noted { result ≡ None → begun.new.items ≡ slice_set begun.old.items number true }
{
    if begun[number] {
        return Some(2);
    }
    begun[number] = true;
    last_rule(last)
}

/// A line that decides a transaction. Marks below its own have no meaning.
pub(crate) fn decide(
    marks: &mut Vec<u64>,
    decisions: &mut Decisions,
    numbers: &NameTable,
    lookup: &Lookup<'_>,
    decision: &Decision<'_, '_>,
    last: bool,
) -> Result<Option<u32>, OutOfMemory>
    requires as_many { (length marks.old.items ≡ length numbers.now) × (length decisions.old.timestamps.items ≡ length numbers.now) }
    requires differ { Differ numbers.now }
    requires room { decision.now.place + 1 < 2 ^ 64 }
    requires number { number_of numbers.now decision.now.name.now ≡ Some decision.now.number }
    requires rise { AllStoodRise lookup.now }
    ensures rule { IfOk result (λ rule. (bodies : List BodyParts) (earlier lines : List Line) (path : Path) → length bodies ≡ length numbers.now → AreMarks numbers.now decision.now.place marks.old.items
        → AreDecisions numbers.now earlier decisions.old → IsLookup numbers.now bodies lines lookup.now → rule ≡ rule_of numbers.now bodies lines earlier last (Decide decision.now.name.now decision.now.t path decision.now.deps.now)) }
    ensures marks { IfOk result (λ rule. rule ≡ None → AreMarks numbers.now decision.now.place marks.old.items → AreMarks numbers.now (decision.now.place + 1) marks.new.items) }
    ensures noted { IfOk result (λ rule. rule ≡ None → (earlier : List Line) (path : Path) → AreDecisions numbers.now earlier decisions.old
        → AreDecisions numbers.now (Decide decision.now.name.now decision.now.t path decision.now.deps.now ∷ earlier) decisions.new) }
{
    let known = mark(marks, numbers, decision.deps, decision.place + 1);
    if known {
        let rule = decide_marked(decisions, lookup, decision, marks.as_slice(), last)?;
        Ok(rule)
    } else {
        Ok(Some(1))
    }
}

// The same where the names of the line are known and have their marks.
fn decide_marked(
    decisions: &mut Decisions,
    lookup: &Lookup<'_>,
    decision: &Decision<'_, '_>,
    marks: &[u64],
    last: bool,
) -> Result<Option<u32>, OutOfMemory>
    requires timestamps { decision.now.number < length decisions.old.timestamps.items }
    requires room { decision.now.place + 1 < 2 ^ 64 }
    requires rise { AllStoodRise lookup.now }
    ensures rule { IfOk result (λ rule. rule ≡ rules false false
        (is_other (slice_index_or decisions.old.timestamps.items decision.now.number None) decision.now.t || is_not (get stamp_cmp decisions.old.owners decision.now.t) decision.now.number)
        (lacks_in lookup.now decision.now.number decision.now.t marks.now (decision.now.place + 1)) false false last) }
    ensures timestamps { IfOk result (λ rule. rule ≡ None → decisions.new.timestamps.items ≡ slice_set decisions.old.timestamps.items decision.now.number (Some decision.now.t)) }
    ensures owners { IfOk result (λ rule. rule ≡ None → (u : Stamp) → get stamp_cmp decisions.new.owners u
        ≡ (if stamp_eq decision.now.t u then Some decision.now.number else get stamp_cmp decisions.old.owners u)) }
{
    let disagrees = decisions.disagree(decision.number, decision.t);
    if disagrees {
        return Ok(Some(3));
    }
    if misses(lookup, decision, marks) {
        return Ok(Some(4));
    }
    decisions.note(decision.number, decision.t)?;
    Ok(last_rule(last))
}

// Whether another transaction conflicts with this one, is decided below it and has no mark of this line.
fn misses(lookup: &Lookup<'_>, decision: &Decision<'_, '_>, marks: &[u64]) -> bool
    requires room { decision.now.place + 1 < 2 ^ 64 }
    requires rise { AllStoodRise lookup.now }
    ensures { result ≡ lacks_in lookup.now decision.now.number decision.now.t marks.now (decision.now.place + 1) }
{
    lookup.lacks(decision.number, decision.t, marks, decision.place + 1)
}

/// What a line decides of a transaction, and how many lines stand before it.
#[derive(Drop)]
pub(crate) struct Decision<'a, 'r> {
    pub(crate) name: &'a [u8],
    pub(crate) number: usize,
    pub(crate) t: Stamp,
    pub(crate) deps: &'a PlacedNames<'r>,
    pub(crate) place: u64,
}

/// A line that tells the outcome of a transaction.
pub(crate) fn outcome(
    outcomes: &mut Outcomes,
    begun: &[bool],
    numbers: &NameTable,
    bodies: &[Body],
    name: &[u8],
    reply: &Reply,
    last: bool,
) -> Result<Option<u32>, OutOfMemory>
    requires as_many { (length begun.now ≡ length numbers.now) × (length outcomes.old.first.items ≡ length numbers.now) × (length bodies.now ≡ length numbers.now) }
    requires differ { Differ numbers.now }
    ensures rule { IfOk result (λ rule. (earlier : List Line) → begun.now ≡ map (λ other. list_any (begins other) earlier) numbers.now → AreOutcomes numbers.now bodies.now earlier outcomes.old
        → rule ≡ rules (not (list_all (is_known numbers.now) (name.now ∷ []))) false false false (not (list_any (begins name.now) earlier))
        (not (is_same_reply (unwrap_or (first_reply name.now earlier) (answer_of numbers.now bodies.now earlier name.now)) reply.now)) last) }
    ensures noted { IfOk result (λ rule. rule ≡ None → (earlier : List Line) → AreOutcomes numbers.now bodies.now earlier outcomes.old
        → AreOutcomes numbers.now bodies.now (Outcome name.now reply.now ∷ earlier) outcomes.new) }
{
    match numbers.place(name) {
        Some(number) => {
            let body = &bodies[number];
            let rule = outcome_at(outcomes, begun, number, body, reply, last)?;
            Ok(rule)
        }
        None => Ok(Some(1)),
    }
}

fn outcome_at(
    outcomes: &mut Outcomes,
    begun: &[bool],
    number: usize,
    body: &Body,
    reply: &Reply,
    last: bool,
) -> Result<Option<u32>, OutOfMemory>
    requires begun { number < length begun.now }
    requires first { number < length outcomes.old.first.items }
    ensures rule { IfOk result (λ rule. rule ≡ rules false false false false (not (slice_index_or begun.now number false))
        (not (is_same_reply (unwrap_or (slice_index_or outcomes.old.first.items number None) (outcome_of body.now (cells_of outcomes.old.cells)).reply) reply.now)) last) }
    ensures first { IfOk result (λ rule. rule ≡ None → outcomes.new.first.items
        ≡ slice_set outcomes.old.first.items number (or_else (slice_index_or outcomes.old.first.items number None) (Some reply.now))) }
    ensures cells { IfOk result (λ rule. rule ≡ None → (key : Key) → cells_of outcomes.new.cells key
        ≡ (if is_some (slice_index_or outcomes.old.first.items number None) then cells_of outcomes.old.cells key else map_after (cells_of outcomes.old.cells) body.now key)) }
{
    let is_begun = begun[number];
    if is_begun {
        let right = outcomes.take(number, body, reply)?;
        if right {
            Ok(last_rule(last))
        } else {
            Ok(Some(6))
        }
    } else {
        Ok(Some(5))
    }
}

/// A line that tells the reply to a transaction.
pub(crate) fn reply(
    outcomes: &Outcomes,
    numbers: &NameTable,
    name: &[u8],
    reply: &Reply,
    last: bool,
) -> Option<u32>
    requires as_many { length outcomes.now.first.items ≡ length numbers.now }
    ensures { (bodies : List BodyParts) (earlier : List Line) → AreOutcomes numbers.now bodies earlier outcomes.now
        → result ≡ rules (not (list_all (is_known numbers.now) (name.now ∷ []))) false false false (not (has_outcome name.now earlier)) (differs_from (first_reply name.now earlier) reply.now) last }
{
    match numbers.place(name) {
        Some(number) => reply_after(outcomes.first(number), reply, last),
        None => Some(1),
    }
}

fn reply_after(first: Option<&Reply>, reply: &Reply, last: bool) -> Option<u32>
    ensures { result ≡ rules false false false false (not (is_some (option_copied first.entry))) (differs_from (option_copied first.entry) reply.now) last }
{
    match first {
        Some(first) => {
            let same = same_reply(first, reply);
            if same { last_rule(last) } else { Some(6) }
        }
        None => Some(5),
    }
}
