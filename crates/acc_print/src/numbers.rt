//! The numbers of a body fit 64 bits with their signs. Contracts see a body as parts whose numbers have no bound, so each
//! number is looked at as the `i64` that it is.
ghost use Rattle.std.specs.Prelude.{◌≡◌, true, false};
ghost use Rattle.std.specs.List.{list_any};
ghost use Rattle.acc_txn.specs.Rules.{condition_has, update_has};
ghost use Rattle.acc_print.specs.Numbers.{is_wide, is_unsaid, has_unsaid_term, IsSaid};

use acc_txn::{BodyParts, Condition, Part, Term, Update};

/// Looks at each number of a body.
pub fn visit(parts: &BodyParts)
    ensures { IsSaid true parts.now }
{
    visit_conditions(parts.guards.as_slice());
    visit_updates(parts.updates.as_slice());
}

fn visit_conditions(guards: &[Condition])
    ensures { list_any (condition_has (has_unsaid_term true)) guards.now ≡ false }
{
    for guard in guards {
        visit_condition(guard);
    }
}

fn visit_condition(guard: &Condition)
    ensures { condition_has (has_unsaid_term true) guard.now ≡ false }
{
    match guard {
        Condition::Compare { left, right, .. } => {
            visit_sum(left.as_slice());
            visit_sum(right.as_slice());
        }
        Condition::IsNull(_) | Condition::IsNotNull(_) => {}
    }
}

fn visit_updates(updates: &[Update])
    ensures { list_any (update_has (has_unsaid_term true)) updates.now ≡ false }
{
    for update in updates {
        visit_update(update);
    }
}

fn visit_update(update: &Update)
    ensures { update_has (has_unsaid_term true) update.now ≡ false }
{
    match update {
        Update::Set { value, .. } => visit_sum(value.as_slice()),
        Update::Delete { .. } => {}
    }
}

fn visit_sum(sum: &[Part])
    ensures { has_unsaid_term true sum.now ≡ false }
{
    for part in sum {
        visit_term(&part.term);
    }
}

fn visit_term(term: &Term)
    ensures { is_unsaid true term.now ≡ false }
{
    match term {
        Term::Number(number) => visit_number(*number),
        Term::Name(_) | Term::Null | Term::Text(_) => {}
    }
}

fn visit_number(_number: i64)
    ensures { is_wide _number ≡ false }
{}
