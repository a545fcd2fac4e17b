//! Votes: the timestamp that a store gives a transaction, and the transactions that may have to go before it.
ghost use Rattle.std.specs.Prelude.{◌≡◌, ◌+◌, ◌<◌, ◌^◌, max, cond, List, IfOk};
ghost use Rattle.std.specs.Option.{option_copied};
ghost use Rattle.std.specs.List.{list_all};
ghost use Rattle.acc_stamp.specs.declared.stamps.Stamp.{Stamp};
ghost use Rattle.acc_stamp.specs.Stamp.{stamp_lt};
ghost use Rattle.acc_stamp.specs.Actor.{shard_of};
ghost use Rattle.acc_stamp.specs.Rising.{IsRising};
ghost use Rattle.acc_deps.specs.Deps.{deps_of};
ghost use Rattle.acc_index.specs.Noted.{IsGreatestStamp};
ghost use Rattle.acc_message.specs.VoteRule.{drawn_as};
ghost use Rattle.acc_record.specs.Shelf.{record_at};
ghost use Rattle.acc_record.specs.Learning.{vote_at, deps_below};

use crate::record::Record;
use crate::shelf::Shelf;
use acc_base::OutOfMemory;
use acc_deps::Deps;
use acc_index::Share;
use acc_stamp::{Actor, Ids, Stamp, TxnId};

/// A vote for the timestamp of a transaction.
#[derive(Debug, Drop)]
pub struct Vote {
    /// The timestamp.
    pub stamp: Stamp,
    /// The known conflicting transactions whose own timestamp is smaller.
    pub deps: Deps,
}

impl Shelf {
    /// The vote that is given for a transaction that uses these keys here: the one that was given before, or else a new one.
    /// `top` is the greatest `h` of the message that asks for it. The shelf stays; whoever sends the vote has it learnt.
    pub fn vote(&self, id: TxnId, share: &Share, top: u64) -> Result<Vote, OutOfMemory>
        requires greatest { self.now.greatest < 2 ^ 62 }
        requires top { top < 2 ^ 62 }
        ensures { IfOk result (λ vote. vote ≡ vote_at self.now id share.now top) }
    {
        self.vote_by(self.find(id), id, share, top)
    }

    /// The same of a transaction that has this record, if any.
    pub fn vote_by(
        &self,
        there: Option<&Record>,
        id: TxnId,
        share: &Share,
        top: u64,
    ) -> Result<Vote, OutOfMemory>
        requires there { option_copied there ≡ record_at self.now.records id }
        requires greatest { self.now.greatest < 2 ^ 62 }
        requires top { top < 2 ^ 62 }
        ensures { IfOk result (λ vote. vote ≡ vote_at self.now id share.now top) }
    {
        if let Some(record) = there {
            if let Some(stamp) = record.vote {
                let deps = record.vote_deps.copy()?;
                return Ok(Vote { stamp, deps });
            }
        }
        let (greatest, ids) = self.index.rivals_below(id, share, id.0)?;
        Ok(Vote {
            stamp: self.new_stamp(id, is_above(id.0, greatest), top),
            deps: self.deps_of(ids)?,
        })
    }

    // The transaction's own stamp where that is above those of its rivals, or else one above all that the store saw.
    fn new_stamp(&self, id: TxnId, is_above: bool, top: u64) -> Stamp
        requires greatest { self.now.greatest < 2 ^ 62 }
        requires top { top < 2 ^ 62 }
        ensures { result ≡ cond is_above id.0 (record { h = 1 + max top self.now.greatest; origin = self.now.actor.0 }) }
    {
        if is_above {
            return id.0;
        }
        Stamp {
            h: 1 + top.max(self.greatest),
            origin: self.actor.0,
        }
    }

    /// The known transactions that conflict with this one and whose own timestamp is smaller than the bound, as
    /// dependencies in the store's shard.
    pub fn deps_below(&self, id: TxnId, share: &Share, bound: Stamp) -> Result<Deps, OutOfMemory>
        ensures { IfOk result (λ deps. deps ≡ deps_below self.now id share.now bound) }
    {
        let ids = self.index.known_below(id, share, bound)?;
        self.deps_of(ids)
    }

    fn deps_of(&self, ids: Ids) -> Result<Deps, OutOfMemory>
        requires { IsRising ids }
        ensures { IfOk result (λ deps. deps ≡ deps_of (shard_of self.now.actor) ids) }
    {
        let mut deps = Deps::new(ids.allocator());
        deps.push_shard(self.actor.shard(), ids)?;
        Ok(deps)
    }
}

// Whether a stamp is greater than the greatest of others.
fn is_above(stamp: Stamp, greatest: Option<Stamp>) -> bool
    ensures { (others : List Stamp) → IsGreatestStamp others greatest → result ≡ list_all (λ s. stamp_lt s stamp) others }
{
    match greatest {
        Some(greatest) => greatest < stamp,
        None => true,
    }
}

/// The `h` of a vote that this store drew, and 0 for any other stamp.
pub fn drawn(actor: Actor, vote: Stamp) -> u64
    ensures { result ≡ drawn_as actor.0 vote }
{
    if vote.origin == actor.0 { vote.h } else { 0 }
}
