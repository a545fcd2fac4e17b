//! Learning: what a message makes known of a transaction, before anything else of its record changes.
ghost use Rattle.std.specs.Prelude.{◌≡◌, ◌++◌, cond, Some, None, IfOk, OnOk, OnErr};
ghost use Rattle.acc_stamp.specs.declared.stamps.TxnId.{TxnId};
ghost use Rattle.acc_stamp.specs.Stamp.{id_eq};
ghost use Rattle.std.specs.Option.{option_copied};
ghost use Rattle.acc_record.specs.Shelf.{IsSame, record_at};
ghost use Rattle.acc_record.specs.Steps.{fresh};
ghost use Rattle.acc_record.specs.Learning.{IsLearnt, is_covered_by, is_below_accepted, is_below_settled, later_of, share_at, stamp_to_note, note_of, notes_of};

use crate::record::{KeptRecord, Record, Records};
use crate::shelf::Shelf;
use acc_base::{OutOfMemory, ShortList};
use acc_deps::{Deps, Settled, SharedAccepted};
use acc_index::{Index, Share};
use acc_stamp::{Ballot, Stamp, TxnId};
use acc_topology::Topology;
use acc_txn::Body;

/// A stamp that is noted of a transaction, with the keys of the shard that the transaction uses.
#[derive(Debug, Drop)]
pub struct NotedStamp {
    /// The keys.
    pub share: Share,
    /// The stamp.
    pub stamp: Stamp,
}

impl Shelf {
    /// Makes a transaction known, with the body where it was not, notes a stamp of it that isn't covered by those that its
    /// record has, and raises the greatest `h`. It is the last call of a step that takes memory: without memory for it the
    /// shelf is as before.
    #[inline(always)]
    pub fn learn_body(
        &mut self,
        topology: &Topology,
        id: TxnId,
        body: &Body,
        stamp: Option<Stamp>,
        top: u64,
    ) -> Result<(), OutOfMemory>
        ensures ok { OnOk result (IsLearnt self.old self.new id body.now (share_at topology.now self.old id body.now) stamp top) }
        ensures err { OnErr result (IsSame self.old self.new) }
    {
        let there = self.find(id);
        let is_known = there.is_some();
        let note = self.note_of_body(topology, there, id, body, stamp)?;
        if is_known {
            enter(&mut self.index, id, &note)?;
        } else {
            let made = fresh(id, body)?;
            add(&mut self.records, &mut self.index, made, &note)?;
        }
        self.greatest = self.greatest.max(top);
        Ok(())
    }

    /// What a step notes that brings this stamp of a transaction, which has this record, if any. The keys of this shard that the
    /// transaction uses are looked for only where a stamp is noted, so that a step which brings nothing new doesn't look at them.
    pub fn note_of_body(
        &self,
        topology: &Topology,
        there: Option<&Record>,
        id: TxnId,
        body: &Body,
        stamp: Option<Stamp>,
    ) -> Result<Option<NotedStamp>, OutOfMemory>
        requires { option_copied there ≡ record_at self.now.records id }
        ensures { IfOk result (λ note. note ≡ note_of (share_at topology.now self.now id body.now) (stamp_to_note (record_at self.now.records id) id stamp)) }
    {
        match stamp_to_note(there, id, stamp) {
            Some(stamp) => {
                let share = self.share(topology, id, body)?;
                Ok(Some(NotedStamp { share, stamp }))
            }
            None => Ok(None),
        }
    }
}

/// What a step notes that brings this stamp of a transaction, which has this record, if any, and uses these keys of the shard.
pub fn note_of(
    there: Option<&Record>,
    id: TxnId,
    share: Share,
    stamp: Option<Stamp>,
) -> Option<NotedStamp>
    ensures { result ≡ note_of share (stamp_to_note (option_copied there.entry) id stamp) }
{
    match stamp_to_note(there, id, stamp) {
        Some(stamp) => Some(NotedStamp { share, stamp }),
        None => None,
    }
}

// The stamp that is to be noted, if any.
fn stamp_to_note(there: Option<&Record>, id: TxnId, stamp: Option<Stamp>) -> Option<Stamp>
    ensures { result ≡ stamp_to_note (option_copied there.entry) id stamp }
{
    match (there, stamp) {
        (None, stamp) => Some(later(id.0, stamp)),
        (Some(record), Some(stamp)) if !record.covers(id, stamp) => Some(stamp),
        (Some(_), _) => None,
    }
}

/// The record of a transaction that was just heard of, which knows its body alone, in the place where it will be kept.
#[inline(always)]
pub fn fresh(id: TxnId, body: &Body) -> Result<KeptRecord, OutOfMemory>
    ensures { IfOk result (λ made. made ≡ fresh id body.now) }
{
    let alloc = body.parts().lets.allocator();
    let body = body.copy()?;
    let made = Record {
        id,
        body,
        vote: None,
        vote_deps: Deps::new(alloc),
        promised: Ballot::ZERO,
        accepted: None,
        committed: None,
        stable: None,
        waiters: ShortList::new(alloc),
        opened: false,
        outcome: None,
        applied: false,
    };
    let kept = KeptRecord::new(alloc, made)?;
    Ok(kept)
}

impl Record {
    // Whether a stamp that the record shows is as great. The record is that of this transaction.
    fn covers(&self, id: TxnId, stamp: Stamp) -> bool
        ensures { result ≡ is_covered_by id self.now stamp }
    {
        stamp <= later(id.0, self.vote)
            || is_below(stamp, &self.accepted)
            || is_below(stamp, &self.committed)
            || is_below_settled(stamp, &self.stable)
    }
}

fn later(stamp: Stamp, other: Option<Stamp>) -> Stamp
    ensures { result ≡ later_of stamp other }
{
    match other {
        Some(other) => stamp.max(other),
        None => stamp,
    }
}

fn is_below(stamp: Stamp, accepted: &Option<SharedAccepted>) -> bool
    ensures { result ≡ is_below_accepted stamp accepted.now }
{
    match accepted {
        Some(accepted) => stamp <= accepted.accepted().t,
        None => false,
    }
}

fn is_below_settled(stamp: Stamp, settled: &Option<Settled>) -> bool
    ensures { result ≡ is_below_settled stamp settled.now }
{
    match settled {
        Some(settled) => stamp <= settled.t,
        None => false,
    }
}

/// Notes what is to be noted of a transaction, if anything.
pub(crate) fn enter(
    index: &mut Index,
    id: TxnId,
    note: &Option<NotedStamp>,
) -> Result<(), OutOfMemory>
    ensures ok { OnOk result (index.new ≡ index.old ++ notes_of id note.now) }
    ensures err { OnErr result (index.new ≡ index.old) }
{
    match note {
        Some(note) => index.note(id, &note.share, note.stamp),
        None => Ok(()),
    }
}

/// Adds the record of a transaction that has none, and notes what is to be noted of it.
pub(crate) fn add(
    records: &mut Records,
    index: &mut Index,
    made: KeptRecord,
    note: &Option<NotedStamp>,
) -> Result<(), OutOfMemory>
    requires { record_at records.old made.id ≡ None }
    ensures ok { OnOk result ((y : TxnId) → record_at records.new y ≡ cond (id_eq made.id y) (Some made) (record_at records.old y)) }
    ensures noted { OnOk result (index.new ≡ index.old ++ notes_of made.id note.now) }
    ensures err { OnErr result ((y : TxnId) → record_at records.new y ≡ record_at records.old y) }
    ensures not_noted { OnErr result (index.new ≡ index.old) }
{
    let id = made.get().id;
    put(records, made)?;
    let entered = enter(index, id, note);
    if entered.is_err() {
        forget(records, id);
    }
    entered
}

fn put(records: &mut Records, made: KeptRecord) -> Result<(), OutOfMemory>
    ensures ok { OnOk result ((y : TxnId) → record_at records.new y ≡ cond (id_eq made.id y) (Some made) (record_at records.old y)) }
    ensures err { OnErr result ((y : TxnId) → record_at records.new y ≡ record_at records.old y) }
{
    let id = made.get().id;
    records.insert(id, made)?;
    Ok(())
}

fn forget(records: &mut Records, id: TxnId)
    ensures { (y : TxnId) → record_at records.new y ≡ cond (id_eq id y) None (record_at records.old y) }
{
    let _ = records.remove(&id);
}
