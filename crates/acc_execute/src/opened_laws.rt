//! Laws about shelves. Each is the contract of a function that does nothing.
ghost use Rattle.std.specs.Prelude.{◌≡◌, List, ◌∷◌, IsTrue};
ghost use Rattle.acc_stamp.specs.Actor.{shard_of};
ghost use Rattle.acc_topology.specs.Layout.{Layout};
ghost use Rattle.acc_value.specs.declared.key.Key.{Key};
ghost use Rattle.acc_message.specs.declared.message.Message.{Message};
ghost use Rattle.acc_message.specs.Opening.{Change, may_open, changes_of, cells_at};
ghost use Rattle.acc_message.specs.StoreRules.{store_answer, replay};
ghost use Rattle.acc_record.specs.declared.shelf.Shelf.{Shelf};
ghost use Rattle.acc_record.specs.Shelf.{cell_at};
ghost use Rattle.acc_record.specs.Stands.{StandsFor};
ghost use Rattle.acc_execute.specs.Opened.{OpeningStep};

/// A shelf that stands for a history, and is changed as a Stable or an Apply with what it opens and applies demands, stands for
/// the history with this message.
pub fn opening_steps_stand()
    ensures { (layout : Layout) (old new : Shelf) (messages : List Message) (m : Message) (changes : List Change) →
        IsTrue (may_open m) → StandsFor layout old (replay layout old.actor messages) →
        changes ≡ changes_of (shard_of old.actor) (record { message = m; sent = store_answer layout old.actor (replay layout old.actor messages) m }) (replay layout old.actor messages) →
        ((key : Key) → cell_at new.cells key ≡ cells_at layout (shard_of old.actor) (replay layout old.actor (m ∷ messages)) key) →
        OpeningStep layout old new m changes → StandsFor layout new (replay layout old.actor (m ∷ messages)) }
{}
