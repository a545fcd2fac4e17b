//! Goes on by one line.
ghost use Rattle.std.specs.Prelude.{◌≡◌, ◌<◌, ◌+◌, ◌^◌, ◌∷◌, ℕ, List, None, IfOk};
ghost use Rattle.acc_message.specs.declared.note.Path.{Path};
ghost use Rattle.acc_report_line.specs.declared.line.Line.{Line};
ghost use Rattle.acc_report_line.specs.declared.line.Line.TheVariants.{Decide, Outcome};
ghost use Rattle.acc_audit.specs.Kept.{AreSized, Holds};
ghost use Rattle.acc_audit.specs.Rules.{rule_of, Differ};
ghost use Rattle.acc_audit.specs.Users.{AllStoodRise, IsLookup};

use crate::ends::end;
use crate::front::Front;
use crate::index::Lookup;
use crate::steps::{Decision, begin, blocked, decide, last_rule, named, outcome, reply};
use acc_base::OutOfMemory;
use acc_document_fields::NameTable;
use acc_report_reader::{PlacedForm, PlacedLine, PlacedNames};
use acc_stamp::Stamp;
use acc_txn::{Body, Reply};

/// What each line is judged against: transactions by their numbers, and all lines.
#[derive(Drop)]
pub(crate) struct Against<'a, 'k, 'r> {
    pub(crate) numbers: &'a NameTable,
    pub(crate) bodies: &'a [Body],
    pub(crate) lines: &'a [PlacedLine<'r>],
    pub(crate) lookup: &'a Lookup<'k>,
}

/// The least rule that a line breaks, before which so many others stand. Where it breaks none, it is noted.
pub(crate) fn step(
    front: &mut Front,
    against: &Against<'_, '_, '_>,
    line: &PlacedLine<'_>,
    place: u64,
    last: bool,
) -> Result<Option<u32>, OutOfMemory>
    requires sized { AreSized against.now.numbers.now against.now.bodies.now front.old }
    requires differ { Differ against.now.numbers.now }
    requires room { place + 1 < 2 ^ 64 }
    requires rise { AllStoodRise against.now.lookup.now }
    ensures rule { IfOk result (λ rule. (earlier : List Line) → Holds against.now.numbers.now against.now.bodies.now earlier place front.old
        → IsLookup against.now.numbers.now against.now.bodies.now against.now.lines.now against.now.lookup.now
        → rule ≡ rule_of against.now.numbers.now against.now.bodies.now against.now.lines.now earlier last line.now) }
    ensures holds { IfOk result (λ rule. rule ≡ None → (earlier : List Line) → Holds against.now.numbers.now against.now.bodies.now earlier place front.old
        → Holds against.now.numbers.now against.now.bodies.now (line.now ∷ earlier) (place + 1) front.new) }
{
    let numbers = against.numbers;
    match line.form() {
        PlacedForm::Begin { name, .. } => { Ok(begin(&mut front.begun, numbers, name, last)) }
        PlacedForm::Recover { name, .. } => Ok(named(numbers, name, last)),
        PlacedForm::Blocked { name, by, .. } => Ok(blocked(numbers, name, by, last)),
        PlacedForm::Ended { name, .. } => Ok(named(numbers, name, last)),
        PlacedForm::Decide { name, t, deps, .. } => {
            let rule = decision(front, against, name, *t, deps, place, last)?;
            Ok(rule)
        }
        PlacedForm::Outcome { name, reply } => {
            let rule = told(front, against, name, reply, last)?;
            Ok(rule)
        }
        PlacedForm::Reply { name, reply: said } => {
            Ok(reply(&front.outcomes, numbers, name, said, last))
        }
        PlacedForm::SkipNoMessage { .. } => Ok(last_rule(last)),
        PlacedForm::SkipDown { .. } => Ok(last_rule(last)),
        PlacedForm::SkipBegun { name, .. } => Ok(named(numbers, name, last)),
        PlacedForm::SkipUnknown { name, .. } => Ok(named(numbers, name, last)),
        PlacedForm::SkipNoQuorum { name, .. } => Ok(named(numbers, name, last)),
        PlacedForm::Down { .. } => Ok(last_rule(last)),
        PlacedForm::Restart { .. } => Ok(last_rule(last)),
        PlacedForm::Decided { .. } => Ok(Some(7)),
        PlacedForm::End {
            txns,
            replied,
            unreplied,
        } => Ok(end(against.lines, *txns, *replied, *unreplied, last)),
    }
}

// The same of a line that decides a transaction.
fn decision(
    front: &mut Front,
    against: &Against<'_, '_, '_>,
    name: &[u8],
    t: Stamp,
    deps: &PlacedNames<'_>,
    place: u64,
    last: bool,
) -> Result<Option<u32>, OutOfMemory>
    requires sized { AreSized against.now.numbers.now against.now.bodies.now front.old }
    requires differ { Differ against.now.numbers.now }
    requires room { place + 1 < 2 ^ 64 }
    requires rise { AllStoodRise against.now.lookup.now }
    ensures rule { IfOk result (λ rule. (earlier : List Line) (path : Path) → Holds against.now.numbers.now against.now.bodies.now earlier place front.old
        → IsLookup against.now.numbers.now against.now.bodies.now against.now.lines.now against.now.lookup.now
        → rule ≡ rule_of against.now.numbers.now against.now.bodies.now against.now.lines.now earlier last (Decide name.now t path deps.now)) }
    ensures holds { IfOk result (λ rule. rule ≡ None → (earlier : List Line) (path : Path) → Holds against.now.numbers.now against.now.bodies.now earlier place front.old
        → Holds against.now.numbers.now against.now.bodies.now (Decide name.now t path deps.now ∷ earlier) (place + 1) front.new) }
{
    match against.numbers.place(name) {
        Some(number) => {
            let decision = Decision {
                name,
                number,
                t,
                deps,
                place,
            };
            let rule = decide(
                &mut front.marks,
                &mut front.decisions,
                against.numbers,
                against.lookup,
                &decision,
                last,
            )?;
            Ok(rule)
        }
        None => Ok(Some(1)),
    }
}

// The same of a line that tells the outcome of a transaction.
fn told(
    front: &mut Front,
    against: &Against<'_, '_, '_>,
    name: &[u8],
    reply: &Reply,
    last: bool,
) -> Result<Option<u32>, OutOfMemory>
    requires sized { AreSized against.now.numbers.now against.now.bodies.now front.old }
    requires differ { Differ against.now.numbers.now }
    ensures rule { IfOk result (λ rule. (earlier : List Line) (place : ℕ) → Holds against.now.numbers.now against.now.bodies.now earlier place front.old
        → rule ≡ rule_of against.now.numbers.now against.now.bodies.now against.now.lines.now earlier last (Outcome name.now reply.now)) }
    ensures holds { IfOk result (λ rule. rule ≡ None → (earlier : List Line) (place : ℕ) → Holds against.now.numbers.now against.now.bodies.now earlier place front.old
        → Holds against.now.numbers.now against.now.bodies.now (Outcome name.now reply.now ∷ earlier) (place + 1) front.new) }
{
    let rule = outcome(
        &mut front.outcomes,
        front.begun.as_slice(),
        against.numbers,
        against.bodies,
        name,
        reply,
        last,
    )?;
    Ok(rule)
}
