//! Bodies.
ghost use Rattle.std.specs.Prelude.{◌≡◌, ◌<◌, ◌++◌, ◌^◌, not, length, Ok, OnOk, OnErr, IfOk};
ghost use Rattle.acc_wire.specs.Reading.{Unread, Passes, AreBytes};
ghost use Rattle.acc_txn.specs.declared.parts.BodyParts.{BodyParts};
ghost use Rattle.acc_txn.specs.Rules.{has_no_key};
ghost use Rattle.acc_txn.specs.BodySpelling.{body_bytes};
ghost use Rattle.acc_code.specs.Short.{IsNumberedBody};
ghost use Rattle.acc_code.specs.Reading.{Reads};
ghost use Rattle.acc_code.specs.BodyReading.{parts_at, body_at};

use crate::conditions::take_conditions;
use crate::error::CodeError;
use crate::fields::out_of_range;
use crate::lets::take_lets;
use crate::select::take_select;
use crate::updates::take_updates;
use acc_base::{Bytes, OutOfMemory};
use acc_txn::{Body, BodyParts, Select};
use acc_wire::Reader;
use std::alloc::Global;

#[tactic(auto, unfolding(crate::specs::BodyReading::parts_at))]
fn take_parts(alloc: Global, reader: &mut Reader<'_>) -> Result<BodyParts, CodeError>
    ensures exact { Reads result reader.new (parts_at reader.old) }
    ensures bytes { AreBytes reader.old.bytes }
{
    let mut keys = 0;
    let lets = take_lets(alloc, reader, &mut keys)?;
    let select = take_select(alloc, reader, lets.as_slice(), &mut keys)?;
    let guards = take_conditions(alloc, reader, lets.len())?;
    let updates = take_updates(
        alloc,
        reader,
        lets.as_slice(),
        &select,
        guards.as_slice(),
        &mut keys,
    )?;
    Ok(BodyParts {
        lets,
        select,
        guards,
        updates,
    })
}

fn has_key(parts: &BodyParts) -> bool
    ensures { result ≡ not (has_no_key parts.now) }
{
    match parts.select {
        Select::Get(_) => true,
        Select::Nothing | Select::Names(_) => !parts.lets.is_empty() || !parts.updates.is_empty(),
    }
}

#[tactic(auto, unfolding(crate::specs::BodyReading::body_at))]
fn take_fields(alloc: Global, reader: &mut Reader<'_>) -> Result<Body, CodeError>
    ensures exact { Reads result reader.new (body_at reader.old) }
    ensures bytes { AreBytes reader.old.bytes }
{
    let place = reader.place();
    let parts = take_parts(alloc, reader)?;
    if !has_key(&parts) {
        return Err(out_of_range(place));
    }
    Ok(Body::new_unchecked(parts)?)
}

/// A body, read by a second reader, so that an error leaves this one where it is.
fn take_ahead(alloc: Global, reader: &mut Reader<'_>) -> Result<Body, CodeError>
    ensures exact { Reads result reader.new (body_at reader.old) }
    ensures kept { OnErr result (reader.new ≡ reader.old) }
    ensures bytes { AreBytes reader.old.bytes }
{
    let mut ahead = reader.fork();
    let body = take_fields(alloc, &mut ahead)?;
    *reader = ahead;
    Ok(body)
}

/// Appends a body. Without memory for it the bytes are as before.
pub fn put_body(out: &mut Bytes, body: &Body) -> Result<(), OutOfMemory>
    ensures ok { OnOk result (out.new ≡ out.old ++ body_bytes body.now) }
    ensures err { OnErr result (out.new ≡ out.old) }
    // What is written can be read.
    ensures fits { OnOk result (IsNumberedBody body.now) }
{
    out.extend_from_slice(body.code())
}

/// A body. The error is that of the first field at fault, with the place of its first byte: Short where the bytes end
/// inside the field, and Range where it holds what isn't allowed. That is a count, a sign or the number of a kind outside
/// its bounds; the number of no LET; a name of a LET or of a table that may not be one (`is_free_word`), or that a LET before
/// has; a key's text without its form (`is_free_key_text`); a text that no cell can
/// hold (`is_free_text_value`); and the seventeenth different key, at its table. A body whose
/// parts are allowed and that has no key is Range at its own first byte. After an error the reader is unchanged.
pub fn take_body(alloc: Global, reader: &mut Reader<'_>) -> Result<Body, CodeError>
    // What is read is spelled so.
    ensures found { IfOk result (λ body. Passes reader.old reader.new (body_bytes body)) }
    ensures fits { IfOk result IsNumberedBody }
    // What is spelled so is read, unless memory runs out.
    ensures only { (body : BodyParts) (rest : Unread) → IsNumberedBody body → Passes reader.old rest (body_bytes body)
        → Reads result reader.new (Ok (body, rest)) }
    // Which fault it is.
    ensures exact { Reads result reader.new (body_at reader.old) }
    ensures kept { OnErr result (reader.new ≡ reader.old) }
{
    take_ahead(alloc, reader)
}

/// How many bytes a body takes.
pub fn body_length(body: &Body) -> u64
    ensures exact { result ≡ length (body_bytes body.now) }
    ensures most { result < 2 ^ 27 }
{
    body.code().len() as u64
}
