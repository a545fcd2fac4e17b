//! The numbers of a line, as they are read.
ghost use Rattle.std.specs.Prelude.{◌≡◌, ◌≤◌, ◌<◌, true, IfOk};
ghost use Rattle.std.specs.Char.{is_ascii_digit};
ghost use Rattle.std.specs.List.{list_all};
ghost use Rattle.acc_token.specs.Tokens.{number_of as number_said};
ghost use Rattle.acc_report_reader.specs.Gives.{Gives};
ghost use Rattle.acc_report_reader.specs.Fields.{begins_plainly as plainly_begun, is_numeral as numeral, number_in, small_number_in, count_in, stamp_in, place_in, store_in, node_in, actor_in};

use crate::parts::{both_parts, is_word, parts};
use crate::refusal::Refusal;
use acc_stamp::{Actor, Stamp};

/// A number of 64 bits, without zeros in front.
#[tactic(auto, unfolding(crate::specs::Fields::number_in))]
pub(crate) fn number(bytes: &[u8]) -> Result<u64, Refusal>
    ensures { Gives (λ number. number) result (number_in bytes.now) }
{
    if !is_numeral(bytes) {
        return Err(Refusal::Form);
    }
    match number_of(bytes) {
        Some(number) => Ok(number),
        None => Err(Refusal::Form),
    }
}

fn is_numeral(bytes: &[u8]) -> bool
    ensures { result ≡ numeral bytes.now }
{
    begins_plainly(bytes) && are_digits(bytes)
}

fn begins_plainly(bytes: &[u8]) -> bool
    ensures { result ≡ plainly_begun bytes.now }
{
    match bytes.split_first() {
        Some((first, others)) => others.is_empty() || *first != b'0',
        None => false,
    }
}

fn are_digits(bytes: &[u8]) -> bool
    ensures { result ≡ list_all is_ascii_digit bytes.now }
{
    bytes.iter().all(|byte| byte.is_ascii_digit())
}

/// The number that the digits write, where it fits 64 bits.
fn number_of(digits: &[u8]) -> Option<u64>
    requires { list_all is_ascii_digit digits.now ≡ true }
    ensures { result ≡ number_said digits.now }
{
    let mut number = 0u64;
    for digit in digits {
        number = number
            .checked_mul(10)?
            .checked_add(u64::from(*digit - b'0'))?;
    }
    Some(number)
}

#[tactic(auto, unfolding(crate::specs::Fields::small_number_in))]
fn small_number(bytes: &[u8]) -> Result<u32, Refusal>
    ensures { Gives (λ number. number) result (small_number_in bytes.now) }
{
    let number = number(bytes)?;
    if number < 0x1_0000_0000 {
        Ok(number as u32)
    } else {
        Err(Refusal::Form)
    }
}

/// A number after its label.
#[tactic(auto, unfolding(crate::specs::Fields::count_in))]
pub(crate) fn count(bytes: &[u8], label: &[u8]) -> Result<u64, Refusal>
    ensures { Gives (λ number. number) result (count_in label.now bytes.now) }
{
    let (first, rest) = both_parts(bytes, b'=')?;
    let number = number(rest)?;
    if is_word(first, label) {
        Ok(number)
    } else {
        Err(Refusal::Form)
    }
}

/// A timestamp.
#[tactic(auto, unfolding(crate::specs::Fields::stamp_in))]
pub(crate) fn stamp(bytes: &[u8]) -> Result<Stamp, Refusal>
    ensures { Gives (λ stamp. stamp) result (stamp_in bytes.now) }
{
    let (h, origin) = both_parts(bytes, b'.')?;
    Ok(Stamp {
        h: number(h)?,
        origin: small_number(origin)?,
    })
}

/// The number of a node or of a shard.
#[tactic(auto, unfolding(crate::specs::Fields::place_in))]
fn place(bytes: &[u8]) -> Result<u32, Refusal>
    ensures value { Gives (λ number. number) result (place_in bytes.now) }
    ensures within { IfOk result (λ number. number ≤ 15) }
{
    let number = number(bytes)?;
    if 1 <= number && number <= 15 {
        Ok(number as u32)
    } else {
        Err(Refusal::Form)
    }
}

/// An actor.
#[tactic(auto, unfolding(crate::specs::Fields::actor_in))]
pub(crate) fn actor(bytes: &[u8]) -> Result<Actor, Refusal>
    ensures { Gives (λ actor. actor) result (actor_in bytes.now) }
{
    match parts(bytes, b'.') {
        Some((node, shard)) => store(node, shard),
        None => node(bytes),
    }
}

#[tactic(auto, unfolding(crate::specs::Fields::store_in))]
fn store(node: &[u8], shard: &[u8]) -> Result<Actor, Refusal>
    ensures { Gives (λ actor. actor) result (store_in (node.now, shard.now)) }
{
    let node = place(node)?;
    let shard = place(shard)?;
    Ok(acc_stamp::actor(node, shard))
}

#[tactic(auto, unfolding(crate::specs::Fields::node_in))]
fn node(bytes: &[u8]) -> Result<Actor, Refusal>
    ensures { Gives (λ actor. actor) result (node_in bytes.now) }
{
    let node = place(bytes)?;
    Ok(acc_stamp::actor(node, 0))
}
