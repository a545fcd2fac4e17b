//! Laws about stores. Each is the contract of a function that does nothing.
ghost use Rattle.std.specs.Prelude.{ℕ, ◌+◌, ◌≤◌, List, length, All};
ghost use Rattle.acc_stamp.specs.declared.actors.Actor.{Actor};
ghost use Rattle.acc_topology.specs.Layout.{Layout};
ghost use Rattle.acc_message.specs.declared.message.Message.{Message};
ghost use Rattle.acc_message.specs.Fields.{top_of};
ghost use Rattle.acc_message.specs.VoteRule.{greatest_h};
ghost use Rattle.acc_message.specs.StoreRules.{replay};

/// What a store meets and draws is above the messages that it took by no more than their number: so a store takes as many
/// messages as there are numbers between theirs and 2^62.
pub fn heights_stay_low()
    ensures { (layout : Layout) (own : Actor) (most : ℕ) (messages : List Message) → All (λ m. top_of m ≤ most) messages →
        greatest_h own (replay layout own messages) ≤ most + length messages }
{}
