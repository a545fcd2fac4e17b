//! What a store reveals of a transaction.
ghost use Rattle.std.specs.Prelude.{◌≡◌, ◌++◌, OnOk, OnErr};
ghost use Rattle.acc_code.specs.Reading.{Reads};
ghost use Rattle.acc_message_code.specs.Spelling.{view_bytes};
ghost use Rattle.acc_message_code.specs.Short.{IsShortView};
ghost use Rattle.acc_message_code.specs.Fitting.{FitsView};
ghost use Rattle.acc_message_code.specs.Reading.{voted_at, view_at};
ghost use Rattle.acc_txn.specs.Writing.{Keeps};

use crate::ids::{put_ids, take_ids};
use crate::records::{
    put_flag, put_optional_accepted, put_optional_settled, put_settled, take_flag,
    take_optional_accepted, take_optional_settled, take_settled,
};
use crate::stamps::{put_actor, take_actor};
use acc_base::{Bytes, OutOfMemory};
use acc_code::CodeError;
use acc_deps::{Settled, View};
use acc_stamp::Actor;
use acc_wire::Reader;
use std::alloc::Global;

/// Appends a view.
#[tactic(auto, using(acc_txn::proofs::Kept::keeps_all, acc_txn::proofs::Kept::keeps_front, acc_txn::proofs::Kept::keeps_more), unfolding(crate::specs::Spelling::view_bytes, crate::specs::Spelling::settled_bytes))]
pub(crate) fn put_view(out: &mut Bytes, view: &View) -> Result<(), OutOfMemory>
    requires { IsShortView view.now }
    ensures spelled { OnOk result (out.new ≡ out.old ++ view_bytes view.now) }
    ensures kept { OnErr result (Keeps out.old out.new) }
    ensures fits { OnOk result (FitsView view.now) }
{
    put_actor(out, view.store)?;
    put_settled(out, view.vote, &view.vote_deps)?;
    put_optional_accepted(out, &view.accepted)?;
    put_optional_accepted(out, &view.committed)?;
    put_optional_settled(out, &view.stable)?;
    put_flag(out, view.superseded)?;
    put_ids(out, view.waits.as_slice())
}

#[tactic(auto, unfolding(crate::specs::Reading::voted_at))]
fn take_voted(alloc: Global, reader: &mut Reader<'_>) -> Result<(Actor, Settled), CodeError>
    ensures { Reads result reader.new (voted_at reader.old) }
{
    let store = take_actor(reader)?;
    let vote = take_settled(alloc, reader)?;
    Ok((store, vote))
}

/// A view.
#[tactic(auto, unfolding(crate::specs::Reading::view_at))]
pub(crate) fn take_view(alloc: Global, reader: &mut Reader<'_>) -> Result<View, CodeError>
    ensures { Reads result reader.new (view_at reader.old) }
{
    let (store, vote) = take_voted(alloc, reader)?;
    let accepted = take_optional_accepted(alloc, reader)?;
    let committed = take_optional_accepted(alloc, reader)?;
    let stable = take_optional_settled(alloc, reader)?;
    let superseded = take_flag(reader)?;
    let waits = take_ids(alloc, reader, 0)?;
    Ok(View {
        store,
        vote: vote.t,
        vote_deps: vote.deps,
        accepted,
        committed,
        stable,
        superseded,
        waits,
    })
}
