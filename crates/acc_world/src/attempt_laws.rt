//! What attempts are in words. Each law is the contract of a function that does nothing.
ghost use Rattle.std.specs.Prelude.{◌≡◌, ℕ, ◌<◌, List, length, Some};
ghost use Rattle.acc_stamp.specs.declared.stamps.TxnId.{TxnId};
ghost use Rattle.acc_topology.specs.Layout.{Layout};
ghost use Rattle.acc_message.specs.Attempts.{Attempt};
ghost use Rattle.acc_message.specs.NodeRules.{Deed, attempt_of};
ghost use Rattle.acc_message.specs.Shares.{stores_used};
ghost use Rattle.acc_safety.specs.Histories.{EachEmits};
ghost use Rattle.acc_world.specs.Told.{last_asked, taken_since, first_answers};

/// The phase of an attempt is the one that its node's last messages for the transaction ask for, with the timestamp and the dependencies
/// in them. Its answers are, of the messages that the node took since it sent these, those of the phase's kind and of the attempt's ballot
/// from stores of the transaction, of each store the first, and of each shard where it reads. The transaction has a store, as it does in
/// every run of a valid cluster.
pub fn attempts_are_told_by_messages()
    ensures phase { (layout : Layout) (node start : ℕ) (x : TxnId) (deeds : List Deed) (a : Attempt) → EachEmits layout node start deeds →
        attempt_of layout node start x deeds ≡ Some a → 0 < length (stores_used layout a.body) → last_asked x deeds ≡ Some a.phase }
    ensures answers { (layout : Layout) (node start : ℕ) (x : TxnId) (deeds : List Deed) (a : Attempt) → EachEmits layout node start deeds →
        attempt_of layout node start x deeds ≡ Some a → 0 < length (stores_used layout a.body) →
        a.answers ≡ first_answers layout x a.ballot a.body a.phase (taken_since x deeds) }
{}
