//! The columns of an index: the stamps that were noted, and the transactions' own stamps beside them.
ghost use Rattle.std.specs.Prelude.{◌≡◌, ◌+◌, ◌<◌, ◌++◌, [], ◌∷◌, not, length, OnOk, OnErr};
ghost use Rattle.std.specs.Vec.{vec_capacity};
ghost use Rattle.acc_stamp.specs.Stamp.{id_eq};
ghost use Rattle.acc_index.specs.Columns.{IsEven, stamp_at, id_at, HasMore};

use acc_base::OutOfMemory;
use acc_stamp::{Stamp, TxnId};
use std::alloc::Global;

/// Four columns of one length. A place stands for what was noted then: a stamp of a transaction, and the transaction's name,
/// which is its own stamp.
#[derive(Debug, Drop)]
pub(crate) struct Columns {
    pub heights: Vec<u64>,
    pub origins: Vec<u32>,
    pub id_heights: Vec<u64>,
    pub id_origins: Vec<u32>,
}

impl Columns {
    pub fn new(alloc: Global) -> Columns
        ensures empty { length result.heights.items ≡ 0 }
        ensures even { IsEven result }
    {
        Columns {
            heights: Vec::new(alloc),
            origins: Vec::new(alloc),
            id_heights: Vec::new(alloc),
            id_origins: Vec::new(alloc),
        }
    }

    /// Appends one place. Without memory for it the columns are as before.
    pub fn push(&mut self, id: TxnId, stamp: Stamp) -> Result<(), OutOfMemory>
        ensures ok { OnOk result (HasMore self.old self.new id stamp) }
        ensures heights { OnErr result (self.new.heights.items ≡ self.old.heights.items) }
        ensures origins { OnErr result (self.new.origins.items ≡ self.old.origins.items) }
        ensures id_heights { OnErr result (self.new.id_heights.items ≡ self.old.id_heights.items) }
        ensures id_origins { OnErr result (self.new.id_origins.items ≡ self.old.id_origins.items) }
    {
        self.heights.reserve(1)?;
        self.origins.reserve(1)?;
        self.id_heights.reserve(1)?;
        self.id_origins.reserve(1)?;
        put(&mut self.heights, stamp.h);
        put(&mut self.origins, stamp.origin);
        put(&mut self.id_heights, id.0.h);
        put(&mut self.id_origins, id.0.origin);
        Ok(())
    }

    /// The transaction at a place.
    #[inline(always)]
    pub fn id(&self, place: usize) -> TxnId
        requires even { IsEven self.now }
        requires in_range { place < length self.now.heights.items }
        ensures { result ≡ id_at self.now place }
    {
        TxnId(Stamp {
            h: self.id_heights[place],
            origin: self.id_origins[place],
        })
    }

    /// The stamp at a place.
    #[inline(always)]
    pub fn stamp(&self, place: usize) -> Stamp
        requires even { IsEven self.now }
        requires in_range { place < length self.now.heights.items }
        ensures { result ≡ stamp_at self.now place }
    {
        Stamp {
            h: self.heights[place],
            origin: self.origins[place],
        }
    }

    /// Whether another transaction than this one stands at a place.
    #[inline(always)]
    pub fn is_other(&self, place: usize, id: TxnId) -> bool
        requires even { IsEven self.now }
        requires in_range { place < length self.now.heights.items }
        ensures { result ≡ not (id_eq (id_at self.now place) id) }
    {
        self.id_heights[place] != id.0.h || self.id_origins[place] != id.0.origin
    }
}

/// Appends a value, for which there is room.
pub(crate) fn put<T: Drop>(list: &mut Vec<T>, value: T)
    requires { length list.old.items < vec_capacity list.old }
    ensures { list.new.items ≡ list.old.items ++ value ∷ [] }
{
    let _ = list.push(value);
}
