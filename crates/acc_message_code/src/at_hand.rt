//! Whether the next bytes spell a value that is at hand. Where they don't, the reader may stand anywhere after.
ghost use Rattle.std.specs.Prelude.{◌≡◌, ◌++◌, IsTrue};
ghost use Rattle.std.specs.List.{flat_map, AllByRecursion};
ghost use Rattle.acc_message_code.specs.Spelling.{stamp_bytes, id_bytes, shard_bytes, deps_bytes, settled_bytes};
ghost use Rattle.acc_message_code.specs.Short.{IsShortShard};
ghost use Rattle.acc_message_code.specs.Fitting.{FitsStamp, FitStamps, FitDeps, FitsSettled};

use crate::deps::LAST_SHARD;
use acc_deps::{Deps, Settled, ShardDeps};
use acc_stamp::{Stamp, TxnId};
use acc_wire::Reader;

/// Whether a stamp is next.
#[inline(always)]
#[tactic(auto, unfolding(crate::specs::Spelling::stamp_bytes))]
fn has_stamp(reader: &mut Reader<'_>, stamp: Stamp) -> bool
    ensures spelled { IsTrue result → reader.old.bytes ≡ stamp_bytes stamp ++ reader.new.bytes }
    ensures fits { FitsStamp stamp }
{
    let Ok(h) = reader.take_u64() else {
        return false;
    };
    let Ok(origin) = reader.take_u32() else {
        return false;
    };
    h == stamp.h && origin == stamp.origin
}

/// Whether these transactions are next.
fn has_ids(reader: &mut Reader<'_>, ids: &[TxnId]) -> bool
    ensures spelled { IsTrue result → reader.old.bytes ≡ flat_map id_bytes ids.now ++ reader.new.bytes }
    ensures stamps { IsTrue result → FitStamps ids.now }
{
    for id in ids {
        if !has_stamp(reader, id.0) {
            return false;
        }
    }
    true
}

/// Whether the dependencies in a shard are next.
#[tactic(auto, unfolding(crate::specs::Spelling::shard_bytes, crate::specs::Spelling::ids_bytes))]
fn has_shard(reader: &mut Reader<'_>, shard: &ShardDeps) -> bool
    ensures spelled { IsTrue result → reader.old.bytes ≡ shard_bytes shard.now ++ reader.new.bytes }
    ensures short { IsTrue result → IsShortShard shard.now }
    ensures stamps { IsTrue result → FitStamps shard.now.ids }
{
    let Ok(number) = reader.take_u8() else {
        return false;
    };
    if number == 0 || number > LAST_SHARD || u32::from(number) != shard.shard {
        return false;
    }
    let Ok(count) = reader.take_u16() else {
        return false;
    };
    if usize::from(count) != shard.ids.len() {
        return false;
    }
    has_ids(reader, shard.ids.as_slice())
}

/// Whether the dependencies in these shards are next.
fn has_shards(reader: &mut Reader<'_>, shards: &[ShardDeps]) -> bool
    ensures spelled { IsTrue result → reader.old.bytes ≡ flat_map shard_bytes shards.now ++ reader.new.bytes }
    ensures short { IsTrue result → AllByRecursion IsShortShard shards.now }
    ensures stamps { IsTrue result → AllByRecursion (λ d. FitStamps d.ids) shards.now }
{
    for shard in shards {
        if !has_shard(reader, shard) {
            return false;
        }
    }
    true
}

/// Whether these dependencies are next.
#[tactic(auto, using(crate::proofs::AtHand::deps_fit), unfolding(crate::specs::Spelling::deps_bytes, acc_txn::specs::BodySpelling::listed))]
fn has_deps(reader: &mut Reader<'_>, deps: &Deps) -> bool
    ensures spelled { IsTrue result → reader.old.bytes ≡ deps_bytes deps.now ++ reader.new.bytes }
    ensures fits { IsTrue result → FitDeps deps.now }
{
    let Ok(count) = reader.take_u8() else {
        return false;
    };
    let shards = deps.by_shard();
    if count > LAST_SHARD || usize::from(count) != shards.len() {
        return false;
    }
    has_shards(reader, shards)
}

/// Whether this timestamp and its dependencies are next.
#[tactic(auto, unfolding(crate::specs::Spelling::settled_bytes))]
pub(crate) fn has_settled(reader: &mut Reader<'_>, settled: &Settled) -> bool
    ensures spelled { IsTrue result → reader.old.bytes ≡ settled_bytes settled.now ++ reader.new.bytes }
    ensures fits { IsTrue result → FitsSettled settled.now }
{
    if !has_stamp(reader, settled.t) {
        return false;
    }
    has_deps(reader, &settled.deps)
}
