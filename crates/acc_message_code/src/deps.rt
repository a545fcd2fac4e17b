//! Dependencies.
ghost use Rattle.std.specs.Prelude.{◌≡◌, ◌<◌, ◌++◌, [], nat_lt, length, OnOk, OnErr, IfOk};
ghost use Rattle.std.specs.List.{flat_map, list_all, AllByRecursion};
ghost use Rattle.acc_stamp.specs.Rising.{IsRising};
ghost use Rattle.acc_code.specs.Reading.{Reads, between_at, each_at};
ghost use Rattle.acc_message_code.specs.Spelling.{shard_bytes, deps_bytes};
ghost use Rattle.acc_message_code.specs.Short.{IsShortShard, AreShortDeps};
ghost use Rattle.acc_message_code.specs.Fitting.{FitStamps, FitDeps};
ghost use Rattle.acc_message_code.specs.Reading.{next_shard_at, shard_at, deps_at};
ghost use Rattle.acc_txn.specs.Writing.{Keeps};

use crate::ids::{counted_room, push_counted, take_ids};
use acc_base::{Bytes, OutOfMemory};
use acc_code::{CodeError, out_of_range, take_between};
use acc_deps::{Deps, ShardDeps};
use acc_wire::Reader;
use std::alloc::Global;
use std::mem;

/// The greatest number of a shard.
pub(crate) const LAST_SHARD: u8 = 15;

#[tactic(auto, unfolding(crate::specs::Spelling::shard_bytes))]
fn append_shard(out: &mut Vec<u8>, shard: &ShardDeps) -> Result<(), OutOfMemory>
    requires { IsShortShard shard.now }
    ensures spelled { OnOk result (out.new.items ≡ out.old.items ++ shard_bytes shard.now) }
    ensures err { OnErr result (out.new.items ≡ out.old.items) }
    ensures stamps { OnOk result (FitStamps shard.now.ids) }
{
    out.reserve(1 + counted_room(shard.ids.as_slice()))?;
    out.push_reserved(shard.shard as u8);
    push_counted(out, shard.ids.as_slice());
    Ok(())
}

#[tactic(auto, using(acc_txn::proofs::Kept::keeps_all, acc_txn::proofs::Kept::keeps_front, acc_txn::proofs::Kept::keeps_more))]
fn append_each_shard(out: &mut Vec<u8>, shards: &[ShardDeps]) -> Result<(), OutOfMemory>
    requires { AllByRecursion IsShortShard shards.now }
    ensures spelled { OnOk result (out.new.items ≡ out.old.items ++ flat_map shard_bytes shards.now) }
    ensures kept { OnErr result (Keeps out.old.items out.new.items) }
    ensures stamps { OnOk result (AllByRecursion (λ d. FitStamps d.ids) shards.now) }
{
    for shard in shards {
        append_shard(out, shard)?;
    }
    Ok(())
}

#[tactic(auto, using(acc_txn::proofs::Kept::keeps_all, acc_txn::proofs::Kept::keeps_front, acc_txn::proofs::Kept::keeps_more), unfolding(crate::specs::Spelling::deps_bytes, acc_txn::specs::BodySpelling::listed))]
fn append_shards(out: &mut Vec<u8>, shards: &[ShardDeps]) -> Result<(), OutOfMemory>
    requires { AreShortDeps shards.now }
    ensures spelled { OnOk result (out.new.items ≡ out.old.items ++ deps_bytes shards.now) }
    ensures kept { OnErr result (Keeps out.old.items out.new.items) }
    ensures stamps { OnOk result (AllByRecursion (λ d. FitStamps d.ids) shards.now) }
{
    out.push(shards.len() as u8)?;
    append_each_shard(out, shards)
}

fn put_shards(out: &mut Bytes, shards: &[ShardDeps]) -> Result<(), OutOfMemory>
    requires { AreShortDeps shards.now }
    ensures spelled { OnOk result (out.new ≡ out.old ++ deps_bytes shards.now) }
    ensures kept { OnErr result (Keeps out.old out.new) }
    ensures stamps { OnOk result (AllByRecursion (λ d. FitStamps d.ids) shards.now) }
{
    let alloc = out.allocator();
    let mut bytes = mem::replace(out, Bytes::new(alloc)).into_vec();
    let appended = append_shards(&mut bytes, shards);
    *out = Bytes::from_vec(bytes);
    appended
}

/// Appends dependencies: a count, and each shard with its transactions.
#[tactic(auto, using(acc_txn::proofs::Kept::keeps_all, acc_txn::proofs::Kept::keeps_front, acc_txn::proofs::Kept::keeps_more))]
pub(crate) fn put_deps(out: &mut Bytes, deps: &Deps) -> Result<(), OutOfMemory>
    requires { AreShortDeps deps.now }
    ensures spelled { OnOk result (out.new ≡ out.old ++ deps_bytes deps.now) }
    ensures kept { OnErr result (Keeps out.old out.new) }
    ensures fits { OnOk result (FitDeps deps.now) }
{
    put_shards(out, deps.by_shard())
}

/// Whether a shard may follow the others.
fn is_behind(front: &[ShardDeps], shard: u32) -> bool
    ensures { result ≡ list_all (λ d. nat_lt d.shard shard) front.now }
{
    front.iter().all(|d| d.shard < shard)
}

fn take_shard_number(reader: &mut Reader<'_>) -> Result<u32, CodeError>
    ensures { Reads result reader.new (between_at 1 15 reader.old) }
{
    let shard = take_between(reader, 1, LAST_SHARD)?;
    Ok(u32::from(shard))
}

#[tactic(auto, unfolding(crate::specs::Reading::next_shard_at))]
fn take_next_shard(reader: &mut Reader<'_>, front: &[ShardDeps]) -> Result<u32, CodeError>
    ensures read { Reads result reader.new (next_shard_at front.now reader.old) }
    ensures below { IfOk result (λ shard. AllByRecursion (λ d. d.shard < shard) front.now) }
{
    let field = reader.place();
    let shard = take_shard_number(reader)?;
    if !is_behind(front, shard) {
        return Err(out_of_range(field));
    }
    Ok(shard)
}

#[tactic(auto, unfolding(crate::specs::Reading::shard_at))]
fn take_shard(
    alloc: Global,
    reader: &mut Reader<'_>,
    front: &[ShardDeps],
) -> Result<ShardDeps, CodeError>
    ensures read { Reads result reader.new (shard_at front.now reader.old) }
    ensures below { IfOk result (λ d. AllByRecursion (λ e. e.shard < d.shard) front.now) }
    ensures rises { IfOk result (λ d. IsRising d.ids) }
    ensures some { IfOk result (λ d. 0 < length d.ids) }
{
    let shard = take_next_shard(reader, front)?;
    let ids = take_ids(alloc, reader, 1)?;
    Ok(ShardDeps { shard, ids })
}

#[tactic(auto, using(acc_code::proofs::Loops::each_goes_on, acc_code::proofs::Loops::each_fails, acc_code::proofs::Loops::each_ends))]
fn take_each_shard(alloc: Global, reader: &mut Reader<'_>, count: u8) -> Result<Deps, CodeError>
    ensures { Reads result reader.new (each_at shard_at count [] reader.old) }
{
    let mut deps = Deps::new(alloc);
    for _ in 0..count {
        let ShardDeps { shard, ids } = take_shard(alloc, reader, deps.by_shard())?;
        deps.push_shard(shard, ids)?;
    }
    Ok(deps)
}

/// Dependencies.
#[tactic(auto, unfolding(crate::specs::Reading::deps_at, acc_code::specs::Reading::listed_at))]
pub(crate) fn take_deps(alloc: Global, reader: &mut Reader<'_>) -> Result<Deps, CodeError>
    ensures { Reads result reader.new (deps_at reader.old) }
{
    let count = take_between(reader, 0, LAST_SHARD)?;
    take_each_shard(alloc, reader, count)
}
