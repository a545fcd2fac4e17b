//! The law, as the contract of a function that does nothing.
ghost use Rattle.std.specs.Prelude.{◌≡◌, ℕ, List, [], IsTrue, is_some};
ghost use Rattle.acc_stamp.specs.declared.actors.Actor.{Actor};
ghost use Rattle.acc_stamp.specs.declared.stamps.TxnId.{TxnId};
ghost use Rattle.acc_topology.specs.Layout.{Layout};
ghost use Rattle.acc_message.specs.declared.message.Message.{Message};
ghost use Rattle.acc_message.specs.Taken.{taking};
ghost use Rattle.acc_message.specs.Opening.{Change, cells_at};
ghost use Rattle.acc_message.specs.StoreRules.{replay, released};
ghost use Rattle.acc_record.specs.declared.record.Record.{Record};
ghost use Rattle.acc_record.specs.declared.shelf.Shelf.{Shelf};
ghost use Rattle.acc_opening.specs.declared.releasing.Released.{Released};
ghost use Rattle.acc_opening.specs.Release.{IsReleased};
ghost use Rattle.acc_stamp.specs.Actor.{shard_of};
ghost use Rattle.acc_value.specs.declared.key.Key.{Key};
ghost use Rattle.acc_value.specs.Cells.{applied};
ghost use Rattle.acc_record.specs.Shelf.{Records, Waits, record_at, cell_at};
ghost use Rattle.acc_record.specs.Stands.{record_for, StandsFor};
ghost use Rattle.acc_opening.specs.Plan.{IsTaking, IsPlan};
ghost use Rattle.acc_opening.specs.Lookup.{lookup};
ghost use Rattle.acc_record.specs.Waits.{AreWaits};
ghost use Rattle.acc_opening.specs.Known.{IsKnown};
ghost use Rattle.acc_opening.specs.History.{AreOf};
ghost use Rattle.acc_execute.specs.Own.{IsOwn};

/// The records that stand for a history, with the record that a message's step gives its own transaction, tell what the step
/// opens and applies, and what it sends and writes.
pub fn records_tell_the_step()
    ensures taking { (layout : Layout) (own : Actor) (shard : ℕ) (messages : List Message) (m : Message) (kept : Records) (mine : Record) →
        ((x : TxnId) → record_at kept x ≡ record_for shard (replay layout own messages) x) → IsOwn kept m mine
        → IsTaking shard (record { message = m; sent = [] }) (replay layout own messages) (lookup kept mine) }
    ensures reads { (layout : Layout) (own : Actor) (shard : ℕ) (messages : List Message) (m : Message) (kept : Records) (mine : Record) →
        ((x : TxnId) → record_at kept x ≡ record_for shard (replay layout own messages) x) → IsOwn kept m mine
        → AreOf (taking m (replay layout own messages)) (lookup kept mine) }
    ensures known { (layout : Layout) (own : Actor) (shard : ℕ) (messages : List Message) (m : Message) (kept : Records) (mine : Record) →
        ((x : TxnId) → record_at kept x ≡ record_for shard (replay layout own messages) x) → IsOwn kept m mine
        → (waits : Waits) → AreWaits shard (record_at kept) waits → IsTrue (is_some mine.stable) → IsKnown shard kept mine waits }
{}

/// What is planned and released by the records of a shelf that stands for a history is what the rules send, and what is written
/// makes the cells that they have then.
pub fn plans_send_as_the_rules_say()
    ensures sent { (layout : Layout) (messages : List Message) (m : Message) (shelf : Shelf) (mine : Record) →
        StandsFor layout shelf (replay layout shelf.actor messages) → IsOwn shelf.records m mine
        → (changes : List Change) → IsPlan (shard_of shelf.actor) (lookup shelf.records mine) changes
        → (given : Released) → IsReleased layout shelf.actor (lookup shelf.records mine) changes (cell_at shelf.cells) given
        → given.sent ≡ released layout shelf.actor (replay layout shelf.actor messages) m }
    ensures cells { (layout : Layout) (messages : List Message) (m : Message) (shelf : Shelf) (mine : Record) →
        StandsFor layout shelf (replay layout shelf.actor messages) → IsOwn shelf.records m mine
        → (changes : List Change) → IsPlan (shard_of shelf.actor) (lookup shelf.records mine) changes
        → (given : Released) → IsReleased layout shelf.actor (lookup shelf.records mine) changes (cell_at shelf.cells) given
        → (key : Key) → applied (cell_at shelf.cells) given.writes key
        ≡ cells_at layout (shard_of shelf.actor) (taking m (replay layout shelf.actor messages)) key }
{}
