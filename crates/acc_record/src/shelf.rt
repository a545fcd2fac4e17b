//! What a store keeps.
ghost use Rattle.std.specs.Prelude.{◌≡◌, [], IfOk};
ghost use Rattle.std.specs.Option.{option_copied};
ghost use Rattle.acc_stamp.specs.Actor.{shard_of};
ghost use Rattle.acc_topology.specs.Layout.{Layout};
ghost use Rattle.acc_topology.specs.Keys.{share_of};
ghost use Rattle.acc_txn.specs.Uses.{footprint_of};
ghost use Rattle.acc_record.specs.Shelf.{record_at};
ghost use Rattle.acc_record.specs.Learning.{body_of};
ghost use Rattle.acc_record.specs.Stands.{StandsFor};

use crate::cells::Cells;
use crate::record::{Record, Records};
use crate::share::share_of;
use acc_base::OutOfMemory;
use acc_index::{Index, Share};
use acc_stamp::{Actor, TxnId};
use acc_topology::Topology;
use acc_txn::Body;
use std::alloc::Global;
use std::collections::{BTreeMap, HashMap};

/// A transaction that waits for a dependency.
#[derive(Clone, Copy, Debug, PartialEq, Eq)]
pub struct Watch {
    /// The transaction that waits.
    pub id: TxnId,
    /// The place of the dependency among its dependencies in the shard. Those after it are done with.
    pub place: usize,
}

/// For each dependency that something waits for, what waits for it. A stable transaction that can't be opened yet waits for
/// the last of its dependencies that holds it back, and for no other.
pub type Waits = BTreeMap<TxnId, Vec<Watch>>;

/// What one store keeps.
#[derive(Debug, Drop)]
pub struct Shelf {
    /// The store.
    pub actor: Actor,
    /// One record for each known transaction.
    pub records: Records,
    /// The stamps of the known transactions, with the keys of the shard that these use.
    pub index: Index,
    /// The cells.
    pub cells: Cells,
    /// What waits for what.
    pub waits: Waits,
    /// The greatest `h` that it was told or drew.
    pub greatest: u64,
}

impl Shelf {
    /// The shelf of a store that has taken no message. It takes no memory yet.
    pub fn new(alloc: Global, actor: Actor) -> Shelf
        ensures actor { result.actor ≡ actor }
        ensures stands { (layout : Layout) → StandsFor layout result [] }
    {
        Shelf {
            actor,
            records: HashMap::new(alloc),
            index: Index::new(alloc),
            cells: Cells::new(alloc),
            waits: BTreeMap::new(alloc),
            greatest: 0,
        }
    }

    /// The record of a transaction, where it is known.
    #[inline(always)]
    pub fn find(&self, id: TxnId) -> Option<&Record>
        ensures { option_copied result ≡ record_at self.now.records id }
    {
        match self.records.get(&id) {
            Some(kept) => Some(kept.get()),
            None => None,
        }
    }

    /// The keys of this shard that a transaction uses, by the body that the store heard first, which is this one where the
    /// transaction isn't known.
    pub fn share(&self, topology: &Topology, id: TxnId, body: &Body) -> Result<Share, OutOfMemory>
        ensures { IfOk result (λ share. share ≡ share_of topology.now (footprint_of (body_of (record_at self.now.records id) body.now)) (shard_of self.now.actor)) }
    {
        let shard = self.actor.shard();
        match self.find(id) {
            Some(record) => share_of(topology, record.body.uses(), shard),
            None => share_of(topology, body.uses(), shard),
        }
    }
}
