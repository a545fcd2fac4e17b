//! The law of opening, as the contract of a function that does nothing.
ghost use Rattle.std.specs.Prelude.{◌≡◌, ℕ, List};
ghost use Rattle.acc_message.specs.Taken.{Taken};
ghost use Rattle.acc_message.specs.Opening.{Change, changes_of};
ghost use Rattle.acc_opening.specs.Plan.{Lookup, IsPlan, IsTaking};

/// A plan over the records of a history whose last step is being taken is what this step opens and applies.
pub fn plans_are_the_changes()
    ensures { (shard : ℕ) (step : Taken) (past : List Taken) (at : Lookup) (changes : List Change) →
        IsTaking shard step past at → IsPlan shard at changes → changes ≡ changes_of shard step past }
{}
