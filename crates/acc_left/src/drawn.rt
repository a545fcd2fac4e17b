//! What the journals of nodes tell.
ghost use Rattle.std.specs.Prelude.{◌≡◌, None, Some, if◌then◌else◌, IfOk, OnOk};
ghost use Rattle.acc_stamp.specs.declared.stamps.Stamp.{Stamp as AStamp};
ghost use Rattle.acc_stamp.specs.Stamp.{stamp_eq};
ghost use Rattle.acc_left.specs.Told.{draw_at, number_begun, recovers_with, stamp_drawn, ListsBegins};

use acc_base::OutOfMemory;
use acc_payloads::{Draw, Purpose};
use acc_stamp::{Ballot, Stamp, TxnId};
use std::alloc::Global;
use std::collections::BTreeMap;

/// All nodes have lower numbers, since an actor's number has 32 bits.
const LIMIT: u32 = 1 << 26;

/// The draws of nodes, by the stamps that they drew.
#[derive(Drop)]
pub(crate) struct Drawn {
    draws: BTreeMap<Stamp, Draw>,
}

impl Drawn {
    /// No draws.
    pub(crate) fn new(alloc: Global) -> Drawn
        ensures { (stamp : AStamp) → draw_at result.draws stamp ≡ None }
    {
        Drawn {
            draws: BTreeMap::new(alloc),
        }
    }

    /// Enters a draw of the node with this number. Want of memory comes of a number that no node has, too.
    pub(crate) fn enter(&mut self, node: u32, draw: Draw) -> Result<(), OutOfMemory>
        ensures { OnOk result ((stamp : AStamp) →
            draw_at self.new.draws stamp ≡ (if stamp_eq (stamp_drawn node draw) stamp then Some draw else draw_at self.old.draws stamp)) }
    {
        if node >= LIMIT {
            return Err(OutOfMemory);
        }
        let stamp = Stamp {
            h: draw.h,
            origin: node * 64,
        };
        self.draws.insert(stamp, draw)?;
        Ok(())
    }

    /// The number of the transaction that was begun with this id.
    pub(crate) fn begun(&self, id: TxnId) -> Option<u32>
        ensures { result ≡ number_begun self.now.draws id }
    {
        match self.draws.get(&id.0) {
            Some(draw) if draw.purpose == Purpose::Begin => Some(draw.txn),
            _ => None,
        }
    }

    /// Whether this ballot was drawn for a recover of the transaction with this number.
    pub(crate) fn recovers(&self, ballot: Ballot, txn: u32) -> bool
        ensures { result ≡ recovers_with txn (draw_at self.now.draws ballot.0) }
    {
        match self.draws.get(&ballot.0) {
            Some(draw) => draw.purpose == Purpose::Recover && draw.txn == txn,
            None => false,
        }
    }

    /// The ids that were begun and the numbers of their transactions, rising.
    pub(crate) fn begins(&self, alloc: Global) -> Result<Vec<(TxnId, u32)>, OutOfMemory>
        ensures { IfOk result (λ begins. ListsBegins self.now.draws begins.items) }
    {
        let mut begins = Vec::new(alloc);
        for (stamp, draw) in &self.draws {
            if draw.purpose == Purpose::Begin {
                begins.push((TxnId(*stamp), draw.txn))?;
            }
        }
        Ok(begins)
    }
}
