//! Laws about shelves. Each is the contract of a function that does nothing.
ghost use Rattle.std.specs.Prelude.{◌≡◌, ℕ, false, List, ◌∷◌};
ghost use Rattle.acc_topology.specs.Layout.{Layout};
ghost use Rattle.acc_message.specs.declared.message.Message.{Message};
ghost use Rattle.acc_message.specs.Opening.{may_open};
ghost use Rattle.acc_message.specs.StoreRules.{store_answer, replay};
ghost use Rattle.acc_record.specs.declared.shelf.Shelf.{Shelf};
ghost use Rattle.acc_record.specs.Stands.{StandsFor, AnswersByRules};
ghost use Rattle.acc_record.specs.Steps.{QuietStep};

/// A shelf that stands for a history, and is changed by a quiet step as the rules answer its message, stands for the history
/// with this message.
pub fn quiet_steps_stand()
    ensures { (layout : Layout) (old new : Shelf) (messages : List Message) (m : Message) (sent : List Message) →
        may_open m ≡ false → StandsFor layout old (replay layout old.actor messages) →
        sent ≡ store_answer layout old.actor (replay layout old.actor messages) m → QuietStep layout old new m sent →
        StandsFor layout new (replay layout old.actor (m ∷ messages)) }
{}
