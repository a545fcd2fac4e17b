//! The index of a store.
ghost use Rattle.std.specs.Prelude.{◌≡◌, [], ◌∷◌, ◌++◌, map, IfOk, OnOk, OnErr};
ghost use Rattle.acc_stamp.specs.Rising.{IsRising, ids_union};
ghost use Rattle.acc_index.specs.Noted.{Noted, IsGreatestStamp, rival_stamps, rival_ids, rival_ids_below, writer_ids};

use crate::columns::Columns;
use crate::order::rising;
use crate::questions::{all_below, all_of, greatest_and_below, greatest_of_all};
use crate::share::Share;
use crate::users::{Users, add_all, reserve_all, users_of};
use acc_base::OutOfMemory;
use acc_ports::History;
use acc_stamp::{Ids, Stamp, TxnId};
use acc_value::Key;
use std::alloc::Global;
use std::collections::HashMap;
use std::marker::Model;

/// What a store has noted: stamps of transactions, each with the transaction and the keys of the shard that it uses, in the
/// order noted. A question takes time for the users of its keys, and not for all that was noted.
#[derive(Debug, Drop)]
pub struct Index {
    columns: Columns,
    // The keys of each place, in contracts alone.
    shares: History<Share>,
    users: HashMap<Key, Users>,
}

impl Model for Index {
    ghost use Rattle.std.specs.Prelude.{List};
    ghost use Rattle.acc_index.specs.Noted.{Noted};
    ghost use Rattle.acc_index.specs.Kept.{noted_of, IsKept};

    ghost Value = { List Noted };

    ghost view = { λ x. noted_of x.columns x.shares.items };

    ghost invariant = { λ x. IsKept x.columns x.shares.items x.users };
}

impl Index {
    /// An index of nothing, which takes no memory yet.
    pub fn new(alloc: Global) -> Index
        ensures { result ≡ [] }
    {
        Index {
            columns: Columns::new(alloc),
            shares: History::new(),
            users: HashMap::new(alloc),
        }
    }

    /// Notes a stamp of a transaction that uses these keys. Without memory for it the index is as before.
    pub fn note(&mut self, id: TxnId, share: &Share, stamp: Stamp) -> Result<(), OutOfMemory>
        ensures ok { OnOk result (self.new ≡ self.old ++ record { id = id; share = share.now; stamp = stamp } ∷ []) }
        ensures err { OnErr result (self.new ≡ self.old) }
    {
        reserve_all(&mut self.users, share.pairs())?;
        let place = self.columns.heights.len();
        self.columns.push(id, stamp)?;
        self.shares = self.shares.and(share);
        add_all(&mut self.users, share.pairs(), place);
        Ok(())
    }

    /// The greatest stamp that was noted of another transaction which conflicts with this one. Takes no memory.
    pub fn greatest_conflict(&self, id: TxnId, share: &Share) -> Option<Stamp>
        ensures { IsGreatestStamp (rival_stamps self.now id share.now) result }
    {
        greatest_of_all(&self.columns, &self.users, share.pairs(), id)
    }

    /// The other transactions that conflict with this one and whose own stamp is smaller than the bound, rising.
    pub fn known_below(&self, id: TxnId, share: &Share, bound: Stamp) -> Result<Ids, OutOfMemory>
        ensures ids { IfOk result (λ ids. ids ≡ rival_ids_below self.now id share.now bound) }
        ensures rises { IfOk result IsRising }
    {
        let alloc = *self.columns.heights.allocator();
        let found = all_below(alloc, &self.columns, &self.users, share.pairs(), id, bound)?;
        let ids = rising(found)?;
        Ok(ids)
    }

    /// The greatest stamp that was noted of another transaction which conflicts with this one, and those of these transactions whose
    /// own stamp is smaller than the bound, rising: what `greatest_conflict` and `known_below` answer, with one look for the users of
    /// a key in place of two.
    pub fn rivals_below(
        &self,
        id: TxnId,
        share: &Share,
        bound: Stamp,
    ) -> Result<(Option<Stamp>, Ids), OutOfMemory>
        ensures greatest { IfOk result (λ found. IsGreatestStamp (rival_stamps self.now id share.now) found.0) }
        ensures ids { IfOk result (λ found. found.1 ≡ rival_ids_below self.now id share.now bound) }
        ensures rises { IfOk result (λ found. IsRising found.1) }
    {
        let alloc = *self.columns.heights.allocator();
        let uses = share.pairs();
        let (greatest, found) = greatest_and_below(
            alloc,
            &self.columns,
            &self.users,
            uses,
            id,
            bound,
        )?;
        let ids = rising(found)?;
        Ok((greatest, ids))
    }

    /// The other transactions that conflict with this one, in no order: one that uses several of the keys may stand there as often.
    pub fn conflicting(&self, id: TxnId, share: &Share) -> Result<Vec<TxnId>, OutOfMemory>
        ensures { IfOk result (λ found. ids_union [] found.items ≡ rival_ids self.now id share.now) }
    {
        let alloc = *self.columns.heights.allocator();
        all_of(alloc, &self.columns, &self.users, share.pairs(), id)
    }

    /// The transactions that write a key, rising.
    pub fn writers(&self, key: &Key) -> Result<Ids, OutOfMemory>
        ensures ids { IfOk result (λ ids. ids ≡ writer_ids self.now key.now) }
        ensures rises { IfOk result IsRising }
    {
        let mut found = Vec::new(*self.columns.heights.allocator());
        let (writers, _) = users_of(&self.users, key, false);
        self.columns.collect(writers, &mut found)?;
        let ids = rising(found)?;
        Ok(ids)
    }

    /// The `h` of each stamp, in the order noted.
    pub fn heights(&self) -> &[u64]
        ensures { result.now ≡ map (λ (t : Noted). t.stamp.h) self.now }
    {
        &self.columns.heights
    }

    /// The origin of each stamp, in the order noted.
    pub fn origins(&self) -> &[u32]
        ensures { result.now ≡ map (λ (t : Noted). t.stamp.origin) self.now }
    {
        &self.columns.origins
    }
}
