//! The rules that the parts of a body keep to.
ghost use Rattle.std.specs.Prelude.{◌≡◌, not, ◌||◌, length, IfOk};
ghost use Rattle.std.specs.List.{list_any};
ghost use Rattle.std.specs.Str.{bytes_eq};
ghost use Rattle.acc_txn.specs.Words.{is_name, is_key};
ghost use Rattle.acc_txn.specs.Uses.{selected_keys, updated_key};
ghost use Rattle.acc_txn.specs.Rules.{is_many, selected_names, condition_has, update_has, some_expression, is_long, has_too_many, is_unbound, term_is_unbound, mentions_unbound, asks_unbound, has_unbound_name, has_name_twice, has_no_key, has_bad_name, has_bad_key, is_malformed, selects_nothing, has_bad_shape, is_bad_text, mentions_bad_text, refusal_of};

use crate::error::BodyError;
use crate::parts::{BodyParts, Condition, Let, Part, Select, Term, Update};
use crate::uses::footprint;
use crate::words::{is_free_text_value, is_free_word, is_well_formed};
use acc_base::OutOfMemory;

/// How many LETs, items of a select, conditions, updates, terms of a sum and different keys a body may have.
const LIMIT: usize = 16;

/// The first rule that the parts break. Memory is for counting the different keys.
pub fn refusal(parts: &BodyParts) -> Result<Option<BodyError>, OutOfMemory>
    ensures { IfOk result (λ first. first ≡ refusal_of parts.now) }
{
    if exceeds_limits(parts)? {
        Ok(Some(BodyError::TooMany))
    } else if mentions_no_let(parts) {
        Ok(Some(BodyError::UnboundName))
    } else if binds_twice(parts.lets.as_slice()) {
        Ok(Some(BodyError::TwiceBound))
    } else if lacks_keys(parts) {
        Ok(Some(BodyError::NoKey))
    } else if lets_misname(parts.lets.as_slice()) || miskeys(parts) {
        Ok(Some(BodyError::BadWord))
    } else if is_misshapen(parts) {
        Ok(Some(BodyError::BadShape))
    } else if has_bad_text(parts) {
        Ok(Some(BodyError::BadText))
    } else {
        Ok(None)
    }
}

fn exceeds_limits(parts: &BodyParts) -> Result<bool, OutOfMemory>
    ensures { IfOk result (λ exceeds. exceeds ≡ has_too_many parts.now) }
{
    if has_long_list(parts) || has_long_sum(parts) {
        return Ok(true);
    }
    Ok(footprint(parts)?.len() > LIMIT)
}

fn has_long_list(parts: &BodyParts) -> bool
    ensures { result ≡ (is_many (length parts.now.lets) || is_many (length (selected_names parts.now.select)) || is_many (length parts.now.guards) || is_many (length parts.now.updates)) }
{
    parts.lets.len() > LIMIT
        || select_is_long(&parts.select)
        || parts.guards.len() > LIMIT
        || parts.updates.len() > LIMIT
}

fn select_is_long(select: &Select) -> bool
    ensures { result ≡ is_many (length (selected_names select.now)) }
{
    match select {
        Select::Names(names) => names.len() > LIMIT,
        Select::Nothing | Select::Get(_) => false,
    }
}

fn has_long_sum(parts: &BodyParts) -> bool
    ensures { result ≡ some_expression is_long parts.now }
{
    guards_are_long(parts.guards.as_slice()) || updates_are_long(parts.updates.as_slice())
}

fn guards_are_long(guards: &[Condition]) -> bool
    ensures { result ≡ list_any (condition_has is_long) guards.now }
{
    guards.iter().any(|guard| condition_is_long(guard))
}

fn updates_are_long(updates: &[Update]) -> bool
    ensures { result ≡ list_any (update_has is_long) updates.now }
{
    updates.iter().any(|update| update_is_long(update))
}

fn condition_is_long(guard: &Condition) -> bool
    ensures { result ≡ condition_has is_long guard.now }
{
    match guard {
        Condition::Compare { left, right, .. } => left.len() > LIMIT || right.len() > LIMIT,
        Condition::IsNull(_) | Condition::IsNotNull(_) => false,
    }
}

fn update_is_long(update: &Update) -> bool
    ensures { result ≡ update_has is_long update.now }
{
    match update {
        Update::Set { value, .. } => value.len() > LIMIT,
        Update::Delete { .. } => false,
    }
}

fn mentions_no_let(parts: &BodyParts) -> bool
    ensures { result ≡ has_unbound_name parts.now }
{
    let lets = parts.lets.len();
    select_mentions_no_let(lets, &parts.select)
        || sums_mention_no_let(lets, parts)
        || guards_ask_no_let(lets, parts.guards.as_slice())
}

fn select_mentions_no_let(lets: usize, select: &Select) -> bool
    ensures { result ≡ list_any (is_unbound lets) (selected_names select.now) }
{
    match select {
        Select::Names(names) => names.as_slice().iter().any(|name| lets <= *name as usize),
        Select::Nothing | Select::Get(_) => false,
    }
}

fn sums_mention_no_let(lets: usize, parts: &BodyParts) -> bool
    ensures { result ≡ some_expression (mentions_unbound lets) parts.now }
{
    guards_mention_no_let(lets, parts.guards.as_slice())
        || updates_mention_no_let(lets, parts.updates.as_slice())
}

fn guards_mention_no_let(lets: usize, guards: &[Condition]) -> bool
    ensures { result ≡ list_any (condition_has (mentions_unbound lets)) guards.now }
{
    guards
        .iter()
        .any(|guard| condition_mentions_no_let(lets, guard))
}

fn updates_mention_no_let(lets: usize, updates: &[Update]) -> bool
    ensures { result ≡ list_any (update_has (mentions_unbound lets)) updates.now }
{
    updates
        .iter()
        .any(|update| update_mentions_no_let(lets, update))
}

fn condition_mentions_no_let(lets: usize, guard: &Condition) -> bool
    ensures { result ≡ condition_has (mentions_unbound lets) guard.now }
{
    match guard {
        Condition::Compare { left, right, .. } => {
            sum_mentions_no_let(lets, left.as_slice())
                || sum_mentions_no_let(lets, right.as_slice())
        }
        Condition::IsNull(_) | Condition::IsNotNull(_) => false,
    }
}

fn update_mentions_no_let(lets: usize, update: &Update) -> bool
    ensures { result ≡ update_has (mentions_unbound lets) update.now }
{
    match update {
        Update::Set { value, .. } => sum_mentions_no_let(lets, value.as_slice()),
        Update::Delete { .. } => false,
    }
}

fn sum_mentions_no_let(lets: usize, sum: &[Part]) -> bool
    ensures { result ≡ mentions_unbound lets sum.now }
{
    sum.iter()
        .any(|part| term_mentions_no_let(lets, &part.term))
}

fn term_mentions_no_let(lets: usize, term: &Term) -> bool
    ensures { result ≡ term_is_unbound lets term.now }
{
    match term {
        Term::Name(name) => lets <= *name as usize,
        Term::Number(_) | Term::Null | Term::Text(_) => false,
    }
}

fn guards_ask_no_let(lets: usize, guards: &[Condition]) -> bool
    ensures { result ≡ list_any (asks_unbound lets) guards.now }
{
    guards.iter().any(|guard| asks_no_let(lets, guard))
}

fn asks_no_let(lets: usize, guard: &Condition) -> bool
    ensures { result ≡ asks_unbound lets guard.now }
{
    match guard {
        Condition::IsNull(name) | Condition::IsNotNull(name) => lets <= *name as usize,
        Condition::Compare { .. } => false,
    }
}

fn binds_twice(lets: &[Let]) -> bool
    ensures { result ≡ has_name_twice lets.now }
{
    let mut rest = lets;
    while let Some((first, others)) = rest.split_first() {
        if binds(others, first.name.as_slice()) {
            return true;
        }
        rest = others;
    }
    false
}

fn binds(lets: &[Let], name: &[u8]) -> bool
    ensures { result ≡ list_any (λ l. bytes_eq name.now l.name) lets.now }
{
    lets.iter().any(|binding| name == binding.name.as_slice())
}

fn lacks_keys(parts: &BodyParts) -> bool
    ensures { result ≡ has_no_key parts.now }
{
    parts.lets.is_empty() && parts.updates.is_empty() && !matches!(parts.select, Select::Get(_))
}

fn miskeys(parts: &BodyParts) -> bool
    ensures { result ≡ has_bad_key parts.now }
{
    lets_miskey(parts.lets.as_slice())
        || select_miskeys(&parts.select)
        || updates_miskey(parts.updates.as_slice())
}

fn lets_misname(lets: &[Let]) -> bool
    ensures { result ≡ has_bad_name lets.now }
{
    lets.iter()
        .any(|binding| !is_free_word(binding.name.as_slice()))
}

fn lets_miskey(lets: &[Let]) -> bool
    ensures { result ≡ list_any (λ l. not (is_key l.key)) lets.now }
{
    lets.iter().any(|binding| !is_well_formed(&binding.key))
}

fn updates_miskey(updates: &[Update]) -> bool
    ensures { result ≡ list_any (λ update. not (is_key (updated_key update))) updates.now }
{
    updates.iter().any(|update| !is_well_formed(update.key()))
}

fn select_miskeys(select: &Select) -> bool
    ensures { result ≡ list_any (λ key. not (is_key key)) (selected_keys select.now) }
{
    match select {
        Select::Get(key) => !is_well_formed(key),
        Select::Nothing | Select::Names(_) => false,
    }
}

fn is_misshapen(parts: &BodyParts) -> bool
    ensures { result ≡ has_bad_shape parts.now }
{
    has_malformed_sum(parts)
        || selects_no_names(&parts.select)
        || (!parts.guards.is_empty() && parts.updates.is_empty())
}

fn selects_no_names(select: &Select) -> bool
    ensures { result ≡ selects_nothing select.now }
{
    match select {
        Select::Names(names) => names.is_empty(),
        Select::Nothing | Select::Get(_) => false,
    }
}

fn has_malformed_sum(parts: &BodyParts) -> bool
    ensures { result ≡ some_expression is_malformed parts.now }
{
    guards_are_malformed(parts.guards.as_slice()) || updates_are_malformed(parts.updates.as_slice())
}

fn guards_are_malformed(guards: &[Condition]) -> bool
    ensures { result ≡ list_any (condition_has is_malformed) guards.now }
{
    guards.iter().any(|guard| condition_is_malformed(guard))
}

fn updates_are_malformed(updates: &[Update]) -> bool
    ensures { result ≡ list_any (update_has is_malformed) updates.now }
{
    updates.iter().any(|update| update_is_malformed(update))
}

fn condition_is_malformed(guard: &Condition) -> bool
    ensures { result ≡ condition_has is_malformed guard.now }
{
    match guard {
        Condition::Compare { left, right, .. } => {
            sum_is_malformed(left.as_slice()) || sum_is_malformed(right.as_slice())
        }
        Condition::IsNull(_) | Condition::IsNotNull(_) => false,
    }
}

fn update_is_malformed(update: &Update) -> bool
    ensures { result ≡ update_has is_malformed update.now }
{
    match update {
        Update::Set { value, .. } => sum_is_malformed(value.as_slice()),
        Update::Delete { .. } => false,
    }
}

fn sum_is_malformed(sum: &[Part]) -> bool
    ensures { result ≡ is_malformed sum.now }
{
    match sum.first() {
        Some(part) => part.minus,
        None => true,
    }
}

fn has_bad_text(parts: &BodyParts) -> bool
    ensures { result ≡ some_expression mentions_bad_text parts.now }
{
    guards_mistype(parts.guards.as_slice()) || updates_mistype(parts.updates.as_slice())
}

fn guards_mistype(guards: &[Condition]) -> bool
    ensures { result ≡ list_any (condition_has mentions_bad_text) guards.now }
{
    guards.iter().any(|guard| condition_mistypes(guard))
}

fn updates_mistype(updates: &[Update]) -> bool
    ensures { result ≡ list_any (update_has mentions_bad_text) updates.now }
{
    updates.iter().any(|update| update_mistypes(update))
}

fn condition_mistypes(guard: &Condition) -> bool
    ensures { result ≡ condition_has mentions_bad_text guard.now }
{
    match guard {
        Condition::Compare { left, right, .. } => {
            sum_mistypes(left.as_slice()) || sum_mistypes(right.as_slice())
        }
        Condition::IsNull(_) | Condition::IsNotNull(_) => false,
    }
}

fn update_mistypes(update: &Update) -> bool
    ensures { result ≡ update_has mentions_bad_text update.now }
{
    match update {
        Update::Set { value, .. } => sum_mistypes(value.as_slice()),
        Update::Delete { .. } => false,
    }
}

fn sum_mistypes(sum: &[Part]) -> bool
    ensures { result ≡ mentions_bad_text sum.now }
{
    sum.iter().any(|part| term_mistypes(&part.term))
}

fn term_mistypes(term: &Term) -> bool
    ensures { result ≡ is_bad_text term.now }
{
    match term {
        Term::Text(text) => !is_free_text_value(text.as_slice()),
        Term::Number(_) | Term::Name(_) | Term::Null => false,
    }
}
