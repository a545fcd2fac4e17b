//! The text of a body and of its parts.
ghost use Rattle.std.specs.Prelude.{◌≡◌, ◌++◌, flat_map, codes, IfOk, IsUtf8, OnOk};
ghost use Rattle.std.specs.List.{join_by};
ghost use Rattle.acc_print.specs.Canonical.{let_text, cell_text, operator_text, condition_text, set_text, delete_text, update_text, select_text, action_text, canonical_text};

use crate::keys::{push_get, push_let, push_where};
use crate::sums::{push_cell, push_sum};
use acc_base::{OutOfMemory, Text};
use acc_txn::{Body, BodyParts, Condition, Let, Operator, Part, Select, Update};
use acc_value::Key;
use std::alloc::Global;

/// The canonical text of a body, which is ASCII but for the texts of keys.
pub fn print(alloc: Global, body: &Body) -> Result<Text, OutOfMemory>
    ensures canonical { IfOk result (λ text. text ≡ canonical_text body.now) }
    ensures utf8 { IfOk result IsUtf8 }
{
    let mut text = Vec::new(alloc);
    push_body(&mut text, body.parts())?;
    Ok(Text::from_vec(text))
}

fn push_body(text: &mut Vec<u8>, parts: &BodyParts) -> Result<(), OutOfMemory>
    ensures { OnOk result (text.new.items ≡ text.old.items ++ canonical_text parts.now) }
{
    let lets = parts.lets.as_slice();
    text.extend_from_slice(b"BEGIN TRANSACTION")?;
    push_lets(text, lets)?;
    push_select(text, lets, &parts.select)?;
    push_action(
        text,
        lets,
        parts.guards.as_slice(),
        parts.updates.as_slice(),
    )?;
    text.extend_from_slice(b" COMMIT TRANSACTION")?;
    Ok(())
}

fn push_lets(text: &mut Vec<u8>, lets: &[Let]) -> Result<(), OutOfMemory>
    ensures { OnOk result (text.new.items ≡ text.old.items ++ flat_map let_text lets.now) }
{
    for binding in lets {
        push_let(text, binding)?;
    }
    Ok(())
}

fn push_select(text: &mut Vec<u8>, lets: &[Let], select: &Select) -> Result<(), OutOfMemory>
    ensures { OnOk result (text.new.items ≡ text.old.items ++ select_text lets.now select.now) }
{
    match select {
        Select::Nothing => return Ok(()),
        Select::Names(numbers) => {
            text.extend_from_slice(b" SELECT ")?;
            push_cells(text, lets, numbers.as_slice())?;
        }
        Select::Get(key) => {
            text.extend_from_slice(b" ")?;
            push_get(text, key)?;
        }
    }
    text.extend_from_slice(b";")?;
    Ok(())
}

/// Appends the cells of names with commas between them.
fn push_cells(text: &mut Vec<u8>, lets: &[Let], numbers: &[u8]) -> Result<(), OutOfMemory>
    ensures { OnOk result (text.new.items ≡ text.old.items ++ join_by (cell_text lets.now) (codes ", ") numbers.now) }
{
    let Some((first, others)) = numbers.split_first() else {
        return Ok(());
    };
    push_cell(text, lets, *first)?;
    for number in others {
        text.extend_from_slice(b", ")?;
        push_cell(text, lets, *number)?;
    }
    Ok(())
}

/// Appends the updates, with the IF around them where there are conditions.
fn push_action(
    text: &mut Vec<u8>,
    lets: &[Let],
    guards: &[Condition],
    updates: &[Update],
) -> Result<(), OutOfMemory>
    ensures { OnOk result (text.new.items ≡ text.old.items ++ action_text lets.now guards.now updates.now) }
{
    if guards.is_empty() {
        return push_updates(text, lets, updates);
    }
    text.extend_from_slice(b" IF ")?;
    push_conditions(text, lets, guards)?;
    text.extend_from_slice(b" THEN")?;
    push_updates(text, lets, updates)?;
    text.extend_from_slice(b" END IF")?;
    Ok(())
}

/// Appends conditions with AND between them.
fn push_conditions(
    text: &mut Vec<u8>,
    lets: &[Let],
    guards: &[Condition],
) -> Result<(), OutOfMemory>
    ensures { OnOk result (text.new.items ≡ text.old.items ++ join_by (condition_text lets.now) (codes " AND ") guards.now) }
{
    let Some((first, others)) = guards.split_first() else {
        return Ok(());
    };
    push_condition(text, lets, first)?;
    for guard in others {
        text.extend_from_slice(b" AND ")?;
        push_condition(text, lets, guard)?;
    }
    Ok(())
}

fn push_condition(text: &mut Vec<u8>, lets: &[Let], guard: &Condition) -> Result<(), OutOfMemory>
    ensures { OnOk result (text.new.items ≡ text.old.items ++ condition_text lets.now guard.now) }
{
    match guard {
        Condition::Compare { op, left, right } => {
            push_sum(text, lets, left.as_slice())?;
            text.extend_from_slice(operator(*op))?;
            push_sum(text, lets, right.as_slice())?;
        }
        Condition::IsNull(number) => {
            push_cell(text, lets, *number)?;
            text.extend_from_slice(b" IS NULL")?;
        }
        Condition::IsNotNull(number) => {
            push_cell(text, lets, *number)?;
            text.extend_from_slice(b" IS NOT NULL")?;
        }
    }
    Ok(())
}

/// The sign of a comparison with the spaces around it.
fn operator(op: Operator) -> &'static [u8]
    ensures { result.now ≡ operator_text op }
{
    match op {
        Operator::Equal => b" = ",
        Operator::Differs => b" != ",
        Operator::Less => b" < ",
        Operator::AtMost => b" <= ",
        Operator::More => b" > ",
        Operator::AtLeast => b" >= ",
    }
}

fn push_updates(text: &mut Vec<u8>, lets: &[Let], updates: &[Update]) -> Result<(), OutOfMemory>
    ensures { OnOk result (text.new.items ≡ text.old.items ++ flat_map (update_text lets.now) updates.now) }
{
    for update in updates {
        push_update(text, lets, update)?;
    }
    Ok(())
}

/// Appends an update, with a space in front of it.
fn push_update(text: &mut Vec<u8>, lets: &[Let], update: &Update) -> Result<(), OutOfMemory>
    ensures { OnOk result (text.new.items ≡ text.old.items ++ update_text lets.now update.now) }
{
    match update {
        Update::Set { key, value } => push_set(text, lets, key, value.as_slice()),
        Update::Delete { key } => push_delete(text, key),
    }
}

#[tactic(auto, unfolding(crate::specs::Canonical::set_text))]
fn push_set(text: &mut Vec<u8>, lets: &[Let], key: &Key, sum: &[Part]) -> Result<(), OutOfMemory>
    ensures { OnOk result (text.new.items ≡ text.old.items ++ set_text lets.now key.now sum.now) }
{
    text.extend_from_slice(b" UPDATE ")?;
    text.extend_from_slice(key.table.as_slice())?;
    text.extend_from_slice(b" SET v = ")?;
    push_sum(text, lets, sum)?;
    push_where(text, key)?;
    text.extend_from_slice(b";")?;
    Ok(())
}

#[tactic(auto, unfolding(crate::specs::Canonical::delete_text))]
fn push_delete(text: &mut Vec<u8>, key: &Key) -> Result<(), OutOfMemory>
    ensures { OnOk result (text.new.items ≡ text.old.items ++ delete_text key.now) }
{
    text.extend_from_slice(b" DELETE FROM ")?;
    text.extend_from_slice(key.table.as_slice())?;
    push_where(text, key)?;
    text.extend_from_slice(b";")?;
    Ok(())
}
