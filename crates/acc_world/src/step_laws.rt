//! How each part of a store changes with one more step. Each law is the contract of a function that does nothing.
ghost use Rattle.std.specs.Prelude.{◌≡◌, ℕ, true, cond, ◌||◌, List, [], ◌∷◌, Option, None, Some};
ghost use Rattle.acc_base.specs.Faults.{or_else};
ghost use Rattle.acc_stamp.specs.declared.stamps.TxnId.{TxnId};
ghost use Rattle.acc_topology.specs.Layout.{Layout};
ghost use Rattle.acc_deps.specs.declared.records.Settled.{Settled};
ghost use Rattle.acc_value.specs.declared.key.Key.{Key};
ghost use Rattle.acc_value.specs.declared.value.Value.{Value};
ghost use Rattle.acc_txn.specs.declared.outcome.Outcome.{Outcome};
ghost use Rattle.acc_message.specs.Taken.{Taken, body_known};
ghost use Rattle.acc_message.specs.BallotRules.{stable_of, settled_in, kept_outcome, outcome_in};
ghost use Rattle.acc_message.specs.Opening.{is_opened, is_applied, changes_of, cells_at};
ghost use Rattle.acc_message.specs.StoreRules.{stable_ballots_in, waiters_of};
ghost use Rattle.acc_actor_laws.specs.OpeningOrder.{opens_in, applies_in};
ghost use Rattle.acc_world.specs.StepLaws.{body_about, is_newly_applied, write_of, WritesLast};

/// What is known stays known with the body that was heard first. Where a transaction isn't known, a message about it that brings
/// a body makes it known with this body.
pub fn known_grows()
    ensures { (step : Taken) (past : List Taken) (x : TxnId) →
        body_known (step ∷ past) x ≡ or_else (body_known past x) (body_about x step.message) }
{}

/// A stable record stays as it is. Where there is none, the step's Stable or Apply about the transaction brings it.
pub fn stable_records_stay()
    ensures stays { (step : Taken) (past : List Taken) (x : TxnId) (s : Settled) → stable_of past x ≡ Some s →
        stable_of (step ∷ past) x ≡ Some s }
    ensures comes { (step : Taken) (past : List Taken) (x : TxnId) → stable_of past x ≡ None →
        stable_of (step ∷ past) x ≡ settled_in x step.message }
{}

/// A kept outcome stays as it is. Where there is none, the step's Apply about the transaction brings it.
pub fn kept_outcomes_stay()
    ensures stays { (step : Taken) (past : List Taken) (x : TxnId) (outcome : Outcome) → kept_outcome past x ≡ Some outcome →
        kept_outcome (step ∷ past) x ≡ Some outcome }
    ensures comes { (step : Taken) (past : List Taken) (x : TxnId) → kept_outcome past x ≡ None →
        kept_outcome (step ∷ past) x ≡ outcome_in x step.message }
{}

/// What is opened stays opened, and what is applied stays applied. To these come just those that the changes of the step open
/// and apply.
pub fn opened_and_applied_grow()
    ensures opened { (shard : ℕ) (step : Taken) (past : List Taken) (x : TxnId) →
        is_opened shard (step ∷ past) x ≡ (is_opened shard past x || opens_in x (changes_of shard step past)) }
    ensures applied { (shard : ℕ) (step : Taken) (past : List Taken) (x : TxnId) →
        is_applied shard (step ∷ past) x ≡ (is_applied shard past x || applies_in x (changes_of shard step past)) }
{}

/// As long as a transaction isn't opened its waiters stay, and the ballot of a Stable about it that the step takes joins them.
/// Once it is opened nobody waits.
pub fn waiters_wait_until_opening()
    ensures { (shard : ℕ) (step : Taken) (past : List Taken) (x : TxnId) →
        waiters_of shard (step ∷ past) x ≡
        cond (is_opened shard (step ∷ past) x) [] (stable_ballots_in x step.message (waiters_of shard past x)) }
{}

/// A cell is written by what the step applies, and of several writers by the last one, by timestamp and id. Where none writes its
/// key it stays.
pub fn cells_are_written_by_the_applied()
    ensures written { (layout : Layout) (shard : ℕ) (step : Taken) (past : List Taken) (key : Key) (x : TxnId) (cell : Option Value) →
        WritesLast layout shard step past key x cell → cells_at layout shard (step ∷ past) key ≡ cell }
    ensures stays { (layout : Layout) (shard : ℕ) (step : Taken) (past : List Taken) (key : Key) →
        ((y : TxnId) → is_newly_applied shard step past y ≡ true → write_of layout shard (step ∷ past) y key ≡ None) →
        cells_at layout shard (step ∷ past) key ≡ cells_at layout shard past key }
{}
