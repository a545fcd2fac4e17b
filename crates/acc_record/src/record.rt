//! What a store keeps of a transaction.
ghost use Rattle.std.specs.Prelude.{◌≡◌, IfOk};
ghost use Rattle.std.specs.Borrow.{Lends, sem};
ghost use Rattle.acc_record.specs.contracts.record.KeptRecord.{the_row};
ghost use Rattle.acc_record.specs.contracts.record.Record.{the_row as record_row};
ghost use Rattle.acc_record.specs.Over.{is_over};

use acc_base::{OutOfMemory, ShortList};
use acc_deps::{Deps, Settled, SharedAccepted};
use acc_message::SharedOutcome;
use acc_stamp::{Ballot, Stamp, TxnId};
use acc_txn::Body;
use std::alloc::Global;
use std::collections::HashMap;
use std::marker::Model;

/// What a store keeps of a transaction that it knows.
#[derive(Debug, Drop)]
pub struct Record {
    /// The transaction.
    pub id: TxnId,
    /// The body that the store heard first.
    pub body: Body,
    /// The store's vote for its timestamp, once it has made one.
    pub vote: Option<Stamp>,
    /// The dependencies that it gave with the vote; none as long as there is no vote.
    pub vote_deps: Deps,
    /// The greatest ballot that it granted, zero where it granted none.
    pub promised: Ballot,
    /// What it accepted last.
    pub accepted: Option<SharedAccepted>,
    /// What was committed at it last.
    pub committed: Option<SharedAccepted>,
    /// What is stable at it.
    pub stable: Option<Settled>,
    /// The ballots whose attempts wait for the cells, rising.
    pub waiters: ShortList<Ballot>,
    /// The outcome that it heard first.
    pub outcome: Option<SharedOutcome>,
    /// Whether the transaction may execute here: all that goes before it is applied.
    pub opened: bool,
    /// Whether its writes are made here.
    pub applied: bool,
}

/// A record in a place of its own, which contracts see as the record. What may be asked of many records at a time is noted
/// beside the place, since reading there would take longer.
#[derive(Debug, Drop)]
pub struct KeptRecord {
    place: Box<Record>,
    /// Whether the record was found stable and applied, and wasn't lent to be changed since.
    over: bool,
}

impl Model for KeptRecord {
    ghost use Rattle.std.specs.Prelude.{IsTrue};
    ghost use Rattle.acc_record.specs.declared.record.Record.{Record};
    ghost use Rattle.acc_record.specs.Over.{is_over};

    ghost Value = { Record };

    ghost view = { λ k. k.place.value };

    ghost invariant = { λ k. IsTrue k.over → IsTrue (is_over k.place.value) };
}

impl KeptRecord {
    /// Puts a record in a place of its own.
    pub fn new(alloc: Global, made: Record) -> Result<KeptRecord, OutOfMemory>
        ensures { IfOk result (λ kept. kept ≡ made) }
    {
        let place = Box::new(alloc, made)?;
        Ok(KeptRecord { place, over: false })
    }

    /// The record.
    pub fn get(&self) -> &Record
        ensures { result.now ≡ self.now }
    {
        self.place.as_ref()
    }

    /// The record, to be changed.
    pub fn get_mut(&mut self) -> &mut Record
        ensures value { result.now ≡ self.old }
        ensures* writes_back { sem 𝓛 (Lends the_row record_row self.entry result (λ w. w)) }
    {
        self.over = false;
        self.place.as_mut()
    }

    /// Whether the record is stable and applied. Where that was noted, the record's own place isn't read.
    #[inline(always)]
    pub fn is_over(&self) -> bool
        ensures { result ≡ is_over self.now }
    {
        self.over || (self.place.stable.is_some() && self.place.applied)
    }

    /// Notes whether the record is stable and applied, for those that ask later.
    pub fn note_over(&mut self)
        ensures { self.new ≡ self.old }
    {
        self.over = self.place.stable.is_some() && self.place.applied;
    }
}

/// The records of a store, by their transactions. Each has a place of its own, such that the entries of the table stay small.
pub type Records = HashMap<TxnId, KeptRecord>;
