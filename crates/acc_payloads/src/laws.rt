//! Laws of journals. Each is the contract of a function that does nothing.
ghost use Rattle.std.specs.Prelude.{◌≡◌, ℕ, List, None, true};
ghost use Rattle.acc_topology.specs.Layout.{Layout};
ghost use Rattle.acc_stamp.specs.declared.actors.Actor.{Actor};
ghost use Rattle.acc_payloads.specs.declared.node.NodePayload.{NodePayload};
ghost use Rattle.acc_payloads.specs.declared.store.StorePayload.{StorePayload};
ghost use Rattle.acc_message.specs.declared.message.Message.{Message};
ghost use Rattle.acc_message.specs.NodeRules.{Deed, clock_of, begun_id};
ghost use Rattle.acc_payloads.specs.declared.draw.Draw.{Draw};
ghost use Rattle.acc_payloads.specs.declared.draw.Purpose.{Purpose};
ghost use Rattle.acc_payloads.specs.declared.draw.Purpose.TheVariants.{Begin};
ghost use Rattle.acc_payloads.specs.Acts.{next_draw_of, AreDrawsOf, DrawsTell, MayDraw};
ghost use Rattle.acc_payloads.specs.Spelling.{FitsDraw};
ghost use Rattle.acc_payloads.specs.Journals.{IsBadRecord};
ghost use Rattle.acc_payloads.specs.Node.{node_bytes, NodeMay, IsNodeJournal, draws_in, may_draw, GrowsBy};
ghost use Rattle.acc_payloads.specs.Store.{store_bytes, StoreMay, IsStoreJournal, taken_in, IsNextFor, GrowsBy as StoreGrowsBy};

/// The journal of an actor has no bad record.
pub fn journals_are_read()
    ensures node { (version start : ℕ) (payloads : List (List ℕ)) (items : List NodePayload) → IsNodeJournal version start payloads items
        → (place : ℕ) → IsBadRecord node_bytes (NodeMay version start) payloads place → ⊥ }
    ensures store { (layout : Layout) (version : ℕ) (own : Actor) (payloads : List (List ℕ)) (items : List StorePayload) → IsStoreJournal layout version own payloads items
        → (place : ℕ) → IsBadRecord store_bytes (StoreMay layout version own) payloads place → ⊥ }
{}

/// The draws of a node tell the greatest `h` that it drew and the transactions that it began, whatever else it did. What it draws next
/// may stand after them, as long as its clock is below 2^62; a begin, where it has not begun the transaction.
pub fn draws_tell()
    ensures told { (number start : ℕ) (past : List Deed) (draws : List Draw) → AreDrawsOf number start past draws → DrawsTell number start past draws }
    ensures next { (number start : ℕ) (past : List Deed) (draws : List Draw) (purpose : Purpose) (txn : ℕ) → AreDrawsOf number start past draws → MayDraw number start past
        → (purpose ≡ Begin → begun_id number start txn past ≡ None) → may_draw start draws (next_draw_of (clock_of number start past) purpose txn) ≡ true }
{}

/// What an actor appends to its journal makes a journal again. So the journal that an actor wrote is never refused.
pub fn journals_grow()
    ensures node { (version start : ℕ) (payloads : List (List ℕ)) (items : List NodePayload) (d : Draw) → IsNodeJournal version start payloads items
        → FitsDraw d → may_draw start (draws_in items) d ≡ true → GrowsBy version start payloads items d }
    ensures store { (layout : Layout) (version : ℕ) (own : Actor) (payloads : List (List ℕ)) (items : List StorePayload) (m : Message) → IsStoreJournal layout version own payloads items
        → IsNextFor layout version own (taken_in items) m → StoreGrowsBy layout version own payloads items m }
{}

/// Version 2 reads a journal of version 1, as the same.
pub fn version_2_reads_version_1()
    ensures node { (start : ℕ) (payloads : List (List ℕ)) (items : List NodePayload) → IsNodeJournal 1 start payloads items → IsNodeJournal 2 start payloads items }
    ensures store { (layout : Layout) (own : Actor) (payloads : List (List ℕ)) (items : List StorePayload) → IsStoreJournal layout 1 own payloads items → IsStoreJournal layout 2 own payloads items }
{}
