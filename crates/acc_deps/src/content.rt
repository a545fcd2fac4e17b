//! Writes lists of dependencies that their owners share.
ghost use Rattle.std.specs.Prelude.{◌≡◌, ◌∷◌, [], ◌++◌, IfOk, OnOk, OnErr, IfNone, IfSome, if◌then◌else◌};
ghost use Rattle.acc_deps.specs.Content.{held};
ghost use Rattle.acc_deps.specs.Deps.{AreDeps, deps_with};

use crate::ids::insert_id;
use crate::shards::{ShardDeps, place_of};
use acc_base::{Duplicate, OutOfMemory};
use acc_stamp::{Ids, TxnId};
use std::alloc::Global;
use std::slice::from_ref;
use std::sync::Arc;

/// What owners share. No dependencies take no memory, and those that were given for one shard alone, as in a vote, take none for a list.
#[derive(Debug, Drop)]
pub(crate) enum Content {
    Nothing,
    One(Arc<ShardDeps, Global>),
    List(Arc<Vec<ShardDeps>, Global>),
}

// Adds a transaction to the dependencies in a shard, where it isn't there. Without memory for it these are as before.
fn insert_in(shards: &mut Vec<ShardDeps>, shard: u32, id: TxnId) -> Result<(), OutOfMemory>
    requires { AreDeps shards.old.items }
    ensures ok { OnOk result (shards.new.items ≡ deps_with shard id shards.old.items) }
    ensures err { OnErr result (shards.new.items ≡ shards.old.items) }
{
    match place_of(shards, shard) {
        Ok(place) => insert_id(&mut shards[place].ids, id),
        Err(place) => {
            let mut ids = Ids::new(*shards.allocator());
            ids.push(id)?;
            shards.insert(place, ShardDeps { shard, ids })?;
            Ok(())
        }
    }
}

// Where the content is a list with one owner, which is answered, adds the transaction; else nothing changes.
fn insert_alone(content: &mut Content, shard: u32, id: TxnId) -> Result<bool, OutOfMemory>
    requires { AreDeps (held content.old) }
    ensures ok { IfOk result (λ alone. held content.new
        ≡ (if alone then deps_with shard id (held content.old) else held content.old)) }
    ensures err { OnErr result (held content.new ≡ held content.old) }
{
    match content {
        Content::List(shards) => match Arc::get_mut(shards) {
            Some(own) => {
                insert_in(own, shard, id)?;
                Ok(true)
            }
            None => Ok(false),
        },
        Content::Nothing | Content::One(_) => Ok(false),
    }
}

/// The shards of a content.
pub(crate) fn shards_in(content: &Content) -> &[ShardDeps]
    ensures { result.now ≡ held content.now }
{
    match content {
        Content::Nothing => &[],
        Content::One(only) => from_ref(only),
        Content::List(shards) => shards.as_slice(),
    }
}

/// Adds a transaction to the dependencies in a shard, where it isn't there: in place where the content is a list with one
/// owner, else in a copy of it. Without memory for it these are as before.
pub(crate) fn insert_shared(
    content: &mut Content,
    alloc: Global,
    shard: u32,
    id: TxnId,
) -> Result<(), OutOfMemory>
    requires { AreDeps (held content.old) }
    ensures ok { OnOk result (held content.new ≡ deps_with shard id (held content.old)) }
    ensures err { OnErr result (held content.new ≡ held content.old) }
{
    if insert_alone(content, shard, id)? {
        return Ok(());
    }
    let mut own = ShardDeps::copy_all(alloc, shards_in(content))?;
    insert_in(&mut own, shard, id)?;
    *content = Content::List(Arc::new(alloc, own)?);
    Ok(())
}

// Appends a shard where the content is a list with one owner; else gives it back, and nothing changes.
fn push_alone(content: &mut Content, last: ShardDeps) -> Result<Option<ShardDeps>, OutOfMemory>
    ensures pushed { IfOk result (λ back. IfNone back (held content.new ≡ held content.old ++ last ∷ [])) }
    ensures given_back { IfOk result (λ back. IfSome back (λ given. (given ≡ last) × (held content.new ≡ held content.old))) }
    ensures err { OnErr result (held content.new ≡ held content.old) }
{
    match content {
        Content::List(shards) => match Arc::get_mut(shards) {
            Some(own) => {
                own.push(last)?;
                Ok(None)
            }
            None => Ok(Some(last)),
        },
        Content::Nothing | Content::One(_) => Ok(Some(last)),
    }
}

/// Appends a shard: in place where the content is a list with one owner, else to a copy of it. Without memory for it these are
/// as before.
pub(crate) fn push_shared(
    content: &mut Content,
    alloc: Global,
    last: ShardDeps,
) -> Result<(), OutOfMemory>
    ensures ok { OnOk result (held content.new ≡ held content.old ++ last ∷ []) }
    ensures err { OnErr result (held content.new ≡ held content.old) }
{
    if let Content::Nothing = content {
        *content = Content::One(Arc::new(alloc, last)?);
        return Ok(());
    }
    if let Some(last) = push_alone(content, last)? {
        let mut own = ShardDeps::copy_all(alloc, shards_in(content))?;
        own.reserve_exact(1)?;
        own.push(last)?;
        *content = Content::List(Arc::new(alloc, own)?);
    }
    Ok(())
}

/// An equal content, shared with this one. It takes no memory of its own.
pub(crate) fn share(content: &Content) -> Result<Content, OutOfMemory>
    ensures { IfOk result (λ shared. held shared ≡ held content.now) }
{
    match content {
        Content::Nothing => Ok(Content::Nothing),
        Content::One(only) => Ok(Content::One(Arc::try_clone(only)?)),
        Content::List(shards) => Ok(Content::List(Arc::try_clone(shards)?)),
    }
}
