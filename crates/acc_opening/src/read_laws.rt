//! What the turns send and write by the records is what the rules say, as the contract of a function that does nothing.
ghost use Rattle.std.specs.Prelude.{◌≡◌, ℕ, List, Option};
ghost use Rattle.acc_stamp.specs.declared.actors.Actor.{Actor};
ghost use Rattle.acc_topology.specs.Layout.{Layout};
ghost use Rattle.acc_value.specs.declared.key.Key.{Key};
ghost use Rattle.acc_value.specs.declared.value.Value.{Value};
ghost use Rattle.acc_message.specs.Taken.{Taken};
ghost use Rattle.acc_message.specs.Opening.{Change, written_by_all};
ghost use Rattle.acc_message.specs.StoreRules.{release};
ghost use Rattle.acc_opening.specs.Plan.{Lookup, EachRight};
ghost use Rattle.acc_opening.specs.Release.{release_by, written_at_all};
ghost use Rattle.acc_opening.specs.History.{AreOf};

/// Changes that are right by the records of a history send and write what the rules say.
pub fn turns_do_as_the_rules_say()
    ensures sent { (layout : Layout) (own : Actor) (now : List Taken) (at : Lookup) (shard : ℕ) (done changes : List Change) (cells : Key → Option Value) →
        AreOf now at → EachRight shard at done changes → release_by layout own at changes cells ≡ release layout own now changes cells }
    ensures written { (layout : Layout) (store : ℕ) (now : List Taken) (at : Lookup) (shard : ℕ) (done changes : List Change) (cells : Key → Option Value) →
        AreOf now at → EachRight shard at done changes → written_at_all layout store at changes cells ≡ written_by_all layout store now changes cells }
{}
