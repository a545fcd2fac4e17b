//! Blocks of 64 places of the columns, for which the lanes are asked.
ghost use Rattle.std.specs.Prelude.{◌≡◌, ℕ, ◌+◌, ◌-◌, ◌<◌, ◌≤◌, ◌++◌, false, ◌&&◌, List, length, take, filter, All, OnOk, slice_index_or};
ghost use Rattle.acc_stamp.specs.declared.stamps.Stamp.{Stamp};
ghost use Rattle.acc_stamp.specs.declared.stamps.TxnId.{TxnId};
ghost use Rattle.acc_stamp.specs.Stamp.{stamp_lt};
ghost use Rattle.acc_index.specs.Columns.{IsEven, id_at};
ghost use Rattle.acc_index.specs.Noted.{IsGreatestStamp};
ghost use Rattle.acc_index.specs.Places.{IsBlock, InRange, others, those_below, stamps_of, ids_of, later_of};

use crate::columns::Columns;
use acc_base::OutOfMemory;
use acc_stamp::{Stamp, TxnId};

pub(crate) const BLOCK: usize = 64;

/// At most 64 places of the columns, from the first of some users on.
#[derive(Drop)]
pub(crate) struct Block {
    /// Where it begins.
    pub start: usize,
    /// How far it reaches: up to the last user in it.
    pub width: usize,
    /// How many of the users are in it.
    pub taken: usize,
    /// The users in it that are other transactions.
    pub mask: [bool; 64],
}

impl Columns {
    /// The block of the first of these places, and of those behind it that lie in it too.
    pub fn block(&self, places: &[usize], id: TxnId) -> Block
        requires even { IsEven self.now }
        requires in_range { InRange self.now places.now }
        requires some { 0 < length places.now }
        ensures { IsBlock self.now places.now id result }
    {
        let start = places[0];
        let mut mask = [false; 64];
        let mut width: usize = 0;
        let mut taken: usize = 0;
        for user in places {
            let place = *user;
            if place < start || place - start >= BLOCK {
                break;
            }
            if self.is_other(place, id) {
                mask[place - start] = true;
            }
            width = width.max(place - start + 1);
            taken += 1;
        }
        Block {
            start,
            width,
            taken,
            mask,
        }
    }

    /// The greatest of the stamps that a block's mask tells.
    pub fn greatest_in(&self, block: &Block) -> Option<Stamp>
        requires even { IsEven self.now }
        requires narrow { block.now.width ≤ 64 }
        requires in_range { block.now.start + block.now.width ≤ length self.now.heights.items }
        ensures { (places : List ℕ) → (id : TxnId) → IsBlock self.now places id block.now → IsGreatestStamp (stamps_of self.now (others self.now id (take block.now.taken places))) result }
    {
        let end = block.start + block.width;
        let greatest = acc_lanes::greatest(
            &self.heights[block.start..end],
            &self.origins[block.start..end],
            &block.mask[..block.width],
        );
        match greatest {
            Some((h, origin)) => Some(Stamp { h, origin }),
            None => None,
        }
    }

    /// Tells of each place of a block whether the transaction there has a stamp below the bound.
    pub fn below_in(&self, block: &Block, bound: Stamp) -> [bool; 64]
        requires even { IsEven self.now }
        requires narrow { block.now.width ≤ 64 }
        requires in_range { block.now.start + block.now.width ≤ length self.now.heights.items }
        ensures { (i : ℕ) → i < block.now.width → slice_index_or result i false ≡ stamp_lt (id_at self.now (block.now.start + i)).0 bound }
    {
        let end = block.start + block.width;
        let mut below = [false; 64];
        acc_lanes::below(
            &self.id_heights[block.start..end],
            &self.id_origins[block.start..end],
            (bound.h, bound.origin),
            &mut below[..block.width],
        );
        below
    }

    /// Adds the transactions at those of these places in a block that both masks tell.
    pub fn collect_in(
        &self,
        block: &Block,
        below: &[bool; 64],
        places: &[usize],
        found: &mut Vec<TxnId>,
    ) -> Result<(), OutOfMemory>
        requires even { IsEven self.now }
        requires in_range { InRange self.now places.now }
        requires low { All (λ p. block.now.start ≤ p) places.now }
        requires high { All (λ p. p < block.now.start + 64) places.now }
        ensures { OnOk result (found.new.items ≡ found.old.items ++ ids_of self.now (filter (λ p. slice_index_or block.now.mask (p - block.now.start) false && slice_index_or below.now (p - block.now.start) false) places.now)) }
    {
        for place in places {
            let at = *place - block.start;
            if block.mask[at] && below[at] {
                found.push(self.id(*place))?;
            }
        }
        Ok(())
    }
}
