//! What a store keeps of a transaction.
ghost use Rattle.std.specs.Prelude.{◌≡◌, ◌++◌, OnOk, OnErr, IfSome};
ghost use Rattle.acc_code.specs.Reading.{Reads};
ghost use Rattle.acc_message_code.specs.Spelling.{settled_bytes, accepted_bytes, optional, flag_bytes};
ghost use Rattle.acc_message_code.specs.Short.{IsShortSettled, IsShortAccepted};
ghost use Rattle.acc_message_code.specs.Fitting.{FitsSettled, FitsAccepted};
ghost use Rattle.acc_message_code.specs.Reading.{settled_at, accepted_at, optional_at, flag_at};
ghost use Rattle.acc_txn.specs.Writing.{Keeps};

use crate::deps::{put_deps, take_deps};
use crate::stamps::{put_stamp, take_ballot, take_stamp};
use acc_base::{Bytes, OutOfMemory};
use acc_code::{CodeError, take_between};
use acc_deps::{Accepted, Deps, Settled, SharedAccepted};
use acc_stamp::Stamp;
use acc_wire::{Reader, put_u8};
use std::alloc::Global;

/// Appends a timestamp and dependencies.
#[tactic(auto, using(acc_txn::proofs::Kept::keeps_all, acc_txn::proofs::Kept::keeps_front, acc_txn::proofs::Kept::keeps_more), unfolding(crate::specs::Spelling::settled_bytes))]
pub(crate) fn put_settled(out: &mut Bytes, t: Stamp, deps: &Deps) -> Result<(), OutOfMemory>
    requires { IsShortSettled (record { t = t; deps = deps.now }) }
    ensures spelled { OnOk result (out.new ≡ out.old ++ settled_bytes (record { t = t; deps = deps.now })) }
    ensures kept { OnErr result (Keeps out.old out.new) }
    ensures fits { OnOk result (FitsSettled (record { t = t; deps = deps.now })) }
{
    put_stamp(out, t)?;
    put_deps(out, deps)
}

#[tactic(auto, using(acc_txn::proofs::Kept::keeps_all, acc_txn::proofs::Kept::keeps_front, acc_txn::proofs::Kept::keeps_more), unfolding(crate::specs::Spelling::accepted_bytes, crate::specs::Spelling::settled_bytes))]
fn put_accepted(out: &mut Bytes, accepted: &Accepted) -> Result<(), OutOfMemory>
    requires { IsShortAccepted accepted.now }
    ensures spelled { OnOk result (out.new ≡ out.old ++ accepted_bytes accepted.now) }
    ensures kept { OnErr result (Keeps out.old out.new) }
    ensures fits { OnOk result (FitsAccepted accepted.now) }
{
    put_stamp(out, accepted.ballot.0)?;
    put_settled(out, accepted.t, &accepted.deps)
}

/// Appends 0, or 1 and what was accepted.
#[tactic(auto, using(acc_txn::proofs::Kept::keeps_all, acc_txn::proofs::Kept::keeps_front, acc_txn::proofs::Kept::keeps_more), unfolding(crate::specs::Spelling::optional))]
pub(crate) fn put_optional_accepted(
    out: &mut Bytes,
    accepted: &Option<SharedAccepted>,
) -> Result<(), OutOfMemory>
    requires { IfSome accepted.now IsShortAccepted }
    ensures spelled { OnOk result (out.new ≡ out.old ++ optional accepted_bytes accepted.now) }
    ensures kept { OnErr result (Keeps out.old out.new) }
    ensures fits { OnOk result (IfSome accepted.now FitsAccepted) }
{
    match accepted {
        None => put_u8(out, 0),
        Some(accepted) => {
            put_u8(out, 1)?;
            put_accepted(out, accepted.accepted())
        }
    }
}

/// Appends 0, or 1 and what is settled.
#[tactic(auto, using(acc_txn::proofs::Kept::keeps_all, acc_txn::proofs::Kept::keeps_front, acc_txn::proofs::Kept::keeps_more), unfolding(crate::specs::Spelling::optional))]
pub(crate) fn put_optional_settled(
    out: &mut Bytes,
    settled: &Option<Settled>,
) -> Result<(), OutOfMemory>
    requires { IfSome settled.now IsShortSettled }
    ensures spelled { OnOk result (out.new ≡ out.old ++ optional settled_bytes settled.now) }
    ensures kept { OnErr result (Keeps out.old out.new) }
    ensures fits { OnOk result (IfSome settled.now FitsSettled) }
{
    match settled {
        None => put_u8(out, 0),
        Some(settled) => {
            put_u8(out, 1)?;
            put_settled(out, settled.t, &settled.deps)
        }
    }
}

/// Appends 0 or 1.
#[tactic(auto, using(acc_txn::proofs::Kept::keeps_all, acc_txn::proofs::Kept::keeps_front, acc_txn::proofs::Kept::keeps_more), unfolding(crate::specs::Spelling::flag_bytes))]
pub(crate) fn put_flag(out: &mut Bytes, flag: bool) -> Result<(), OutOfMemory>
    ensures spelled { OnOk result (out.new ≡ out.old ++ flag_bytes flag) }
    ensures kept { OnErr result (Keeps out.old out.new) }
{
    put_u8(out, u8::from(flag))
}

/// A timestamp and dependencies.
#[tactic(auto, unfolding(crate::specs::Reading::settled_at))]
pub(crate) fn take_settled(alloc: Global, reader: &mut Reader<'_>) -> Result<Settled, CodeError>
    ensures { Reads result reader.new (settled_at reader.old) }
{
    let t = take_stamp(reader)?;
    let deps = take_deps(alloc, reader)?;
    Ok(Settled { t, deps })
}

#[tactic(auto, unfolding(crate::specs::Reading::accepted_at))]
fn take_accepted(alloc: Global, reader: &mut Reader<'_>) -> Result<Accepted, CodeError>
    ensures { Reads result reader.new (accepted_at reader.old) }
{
    let ballot = take_ballot(reader)?;
    let Settled { t, deps } = take_settled(alloc, reader)?;
    Ok(Accepted { ballot, t, deps })
}

/// What was accepted, if anything.
#[tactic(auto, unfolding(crate::specs::Reading::optional_at))]
pub(crate) fn take_optional_accepted(
    alloc: Global,
    reader: &mut Reader<'_>,
) -> Result<Option<SharedAccepted>, CodeError>
    ensures { Reads result reader.new (optional_at accepted_at reader.old) }
{
    match take_between(reader, 0, 1)? {
        0 => Ok(None),
        _ => {
            let accepted = take_accepted(alloc, reader)?;
            Ok(Some(SharedAccepted::new(alloc, accepted)?))
        }
    }
}

/// What is settled, if anything.
#[tactic(auto, unfolding(crate::specs::Reading::optional_at))]
pub(crate) fn take_optional_settled(
    alloc: Global,
    reader: &mut Reader<'_>,
) -> Result<Option<Settled>, CodeError>
    ensures { Reads result reader.new (optional_at settled_at reader.old) }
{
    match take_between(reader, 0, 1)? {
        0 => Ok(None),
        _ => Ok(Some(take_settled(alloc, reader)?)),
    }
}

/// A flag.
#[tactic(auto, unfolding(crate::specs::Reading::flag_at))]
pub(crate) fn take_flag(reader: &mut Reader<'_>) -> Result<bool, CodeError>
    ensures { Reads result reader.new (flag_at reader.old) }
{
    let number = take_between(reader, 0, 1)?;
    Ok(number == 1)
}
