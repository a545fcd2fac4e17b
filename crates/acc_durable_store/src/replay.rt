//! The store that the payloads of a journal give back.
ghost use Rattle.std.specs.Prelude.{◌≡◌, ◌^◌, ◌-◌, ◌<◌, ℕ, List, ◌∷◌, [], ◌++◌, true, false, IfOk, IfErr};
ghost use Rattle.acc_payloads.specs.Journals.{IsRefusedAs};
ghost use Rattle.acc_payloads.specs.Store.{store_bytes, StoreMay};
ghost use Rattle.acc_store.specs.Stands.{IsStanding};
ghost use Rattle.acc_durable_store.specs.Replay.{IsReplayOf, IsReplay, IsBad, MayTake, IsTooHigh, HasTaken};

use acc_base::{Bytes, OutOfMemory};
use acc_deps::Settled;
use acc_journal::JournalError;
use acc_message_code::KnownParts;
use acc_payloads::{StorePayload, may_follow, read_store_payload};
use acc_stamp::{Actor, TxnId};
use acc_store::Store;
use acc_topology::Topology;
use acc_txn::Body;
use std::alloc::Global;

/// No store takes a message once it has met an `h` of so much or more.
const LIMIT: u64 = 1 << 62;

/// What the payloads so far give back.
#[derive(Debug, Drop)]
pub(crate) struct Replayed {
    pub(crate) store: Store,
    /// Whether one of them is a mark.
    pub(crate) marked: bool,
    /// How many of them are none.
    pub(crate) kept: u64,
}

/// What two stores know of transactions: the one that is given back, and an earlier one, if that is at hand.
#[derive(Drop)]
struct KnownTo<'a> {
    store: &'a Store,
    earlier: Option<&'a Store>,
}

impl<'a> KnownParts for KnownTo<'a> {
    fn body_of(&self, id: TxnId) -> Option<&Body> {
        if let Some(body) = self.store.body_of(id) {
            return Some(body);
        }
        match self.earlier {
            Some(store) => store.body_of(id),
            None => None,
        }
    }

    fn stable_of(&self, id: TxnId) -> Option<&Settled> {
        if let Some(settled) = self.store.stable_of(id) {
            return Some(settled);
        }
        match self.earlier {
            Some(store) => store.stable_of(id),
            None => None,
        }
    }
}

/// The store that these payloads give back. `BadRecord` comes exactly where one of them may not stand in the journal of this store,
/// with the place of the gate in front of the first such payload. What an earlier store knows is shared where the payloads spell it.
pub(crate) fn replay(
    alloc: Global,
    topology: &Topology,
    own: Actor,
    version: u8,
    payloads: &[Bytes],
    earlier: Option<&Store>,
) -> Result<Replayed, JournalError>
    ensures ok { IfOk result (IsReplayOf topology.now version own payloads.now) }
    ensures refused { IfErr result (IsRefusedAs store_bytes (StoreMay topology.now version own) payloads.now) }
{
    let mut replayed = Replayed {
        store: Store::new(alloc, own),
        marked: false,
        kept: 0,
    };
    let mut gate: u64 = 1;
    for payload in payloads {
        let entered = replayed.enter(alloc, topology, own, version, payload.as_slice(), earlier)?;
        if !entered {
            return Err(JournalError::BadRecord { place: gate });
        }
        let Some(next) = gate.checked_add(5 + payload.len() as u64) else {
            return Err(JournalError::OutOfMemory);
        };
        gate = next;
    }
    Ok(replayed)
}

impl Replayed {
    /// Enters the next payload. Answers false where it may not stand there.
    fn enter(
        &mut self,
        alloc: Global,
        topology: &Topology,
        own: Actor,
        version: u8,
        payload: &[u8],
        earlier: Option<&Store>,
    ) -> Result<bool, OutOfMemory>
        requires replay { IsReplay topology.now version own self.old }
        requires kept { self.old.kept < 2 ^ 64 - 1 }
        ensures entered { IfOk result (λ entered. entered ≡ true → (before : List (List ℕ)) → IsReplayOf topology.now version own before self.old
            → IsReplayOf topology.now version own (before ++ payload.now ∷ []) self.new) }
        ensures bad { IfOk result (λ entered. entered ≡ false → (before : List (List ℕ)) (replayed : IsReplayOf topology.now version own before self.old)
            → IsBad topology.now version own replayed.items payload.now) }
    {
        let known = KnownTo {
            store: &self.store,
            earlier,
        };
        let Some(read) = read_store_payload(alloc, payload, &known)? else {
            return Ok(false);
        };
        if !may_follow(own, version, self.marked, &read) {
            return Ok(false);
        }
        self.take(topology, &read)
    }

    /// Takes a payload. Answers false for a message whose turn comes when the store drew a stamp that is too high.
    fn take(&mut self, topology: &Topology, read: &StorePayload) -> Result<bool, OutOfMemory>
        requires may { MayTake self.old read.now }
        requires stands { IsStanding topology.now self.old.store }
        requires kept { self.old.kept < 2 ^ 64 - 1 }
        ensures taken { IfOk result (λ taken. taken ≡ true → HasTaken topology.now self.old self.new read.now) }
        ensures high { IfOk result (λ taken. taken ≡ false → IsTooHigh self.old read.now) }
    {
        let StorePayload::Takes(m) = read else {
            self.marked = true;
            return Ok(true);
        };
        if self.store.greatest() >= LIMIT {
            return Ok(false);
        }
        let _sent = self.store.step(topology, m)?;
        self.kept += 1;
        Ok(true)
    }
}
