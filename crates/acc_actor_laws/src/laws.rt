//! Laws about one actor: a store, over its history, or a node, over what it did. Each law is the contract of a function that does
//! nothing.
ghost use Rattle.std.specs.Prelude.{◌≡◌, ℕ, false, List, [], ◌∷◌, Some, IsTrue, Contains};
ghost use Rattle.std.specs.List.{list_any};
ghost use Rattle.acc_stamp.specs.declared.stamps.TxnId.{TxnId};
ghost use Rattle.acc_stamp.specs.declared.stamps.Ballot.{Ballot};
ghost use Rattle.acc_stamp.specs.declared.actors.Actor.{Actor};
ghost use Rattle.acc_stamp.specs.Stamp.{ballot_lt, zero_ballot};
ghost use Rattle.acc_stamp.specs.Rising.{id_among};
ghost use Rattle.acc_topology.specs.Layout.{Layout};
ghost use Rattle.acc_txn.specs.declared.parts.BodyParts.{BodyParts};
ghost use Rattle.acc_message.specs.declared.message.Message.{Message};
ghost use Rattle.acc_message.specs.Fields.{ballot_of};
ghost use Rattle.acc_message.specs.Taken.{Taken};
ghost use Rattle.acc_message.specs.BallotRules.{promise_of, grants};
ghost use Rattle.acc_message.specs.Attempts.{Attempt, Voting, votes_for};
ghost use Rattle.acc_message.specs.NodeRules.{Deed, attempt_of};
ghost use Rattle.acc_actor_laws.specs.OpeningOrder.{OpensInOrder};
ghost use Rattle.acc_actor_laws.specs.TakenAlone.{messages_taken, AgreeInParts};
ghost use Rattle.acc_message.specs.StoreRules.{store_answer, stable_ballots_in, stable_ballots, waiters_of};
ghost use Rattle.acc_message.specs.Opening.{Change, IsOpened, opened_of, is_opened, applied_of, is_applied, may_open, changes_of};

/// What a store has opened after a step is the least set that has what it had opened before, and each stable transaction
/// of which every dependency in the shard is stable and, where its timestamp is smaller, applied.
pub fn opening_is_least()
    ensures sound { (shard : ℕ) (step : Taken) (past : List Taken) (x : TxnId) →
        IsTrue (is_opened shard (step ∷ past) x) → IsOpened shard (step ∷ past) (opened_of shard past) x }
    ensures complete { (shard : ℕ) (step : Taken) (past : List Taken) (x : TxnId) →
        IsOpened shard (step ∷ past) (opened_of shard past) x → IsTrue (is_opened shard (step ∷ past) x) }
{}

/// The changes of a step open just what is newly opened and apply just what is newly applied. They rise by the timestamps of
/// their transactions, and of equal ones by their ids, so each transaction has one. Each comes when every dependency of its
/// transaction in the shard is stable and, where its timestamp is smaller, applied.
pub fn changes_are_in_order()
    ensures { (shard : ℕ) (step : Taken) (past : List Taken) → OpensInOrder shard step past }
{}

/// What a store knows, what is stable at it, opened and applied, who waits and the cells depend on the messages that it took
/// alone: what it sent doesn't matter.
pub fn taken_messages_decide()
    ensures { (one other : List Taken) → messages_taken one ≡ messages_taken other → AgreeInParts one other }
{}

/// Applied is opened with an outcome.
pub fn applied_is_opened_with_an_outcome()
    ensures { (shard : ℕ) (history : List Taken) (x : TxnId) → id_among x (applied_of shard history) ≡ is_applied shard history x }
{}

/// A step that takes neither a Stable nor an Apply opens and applies nothing.
pub fn only_stable_and_apply_open()
    ensures { (shard : ℕ) (step : Taken) (past : List Taken) → may_open step.message ≡ false → changes_of shard step past ≡ [] }
{}

/// A store's promise for a transaction never falls, and a ballot that it grants isn't below the promise. That of a granted
/// Recover is above it.
pub fn promises_rise()
    ensures kept { (step : Taken) (past : List Taken) (x : TxnId) → ballot_lt (promise_of (step ∷ past) x) (promise_of past x) ≡ false }
    ensures granted { (layout : Layout) (own : Actor) (past : List Taken) (m : Message) (x : TxnId) →
        IsTrue (grants x m (store_answer layout own past m)) → ballot_lt (ballot_of m) (promise_of past x) ≡ false }
    ensures recover { (layout : Layout) (own : Actor) (past : List Taken) (from to : Actor) (id : TxnId) (ballot : Ballot) (body : BodyParts) (x : TxnId) →
        IsTrue (grants x (Message.Recover from to id ballot body) (store_answer layout own past (Message.Recover from to id ballot body))) →
        IsTrue (ballot_lt (promise_of past x) ballot) }
{}

/// A store answers a PreAccept by its vote only as long as it has promised no ballot for the transaction.
pub fn votes_come_before_promises()
    ensures { (layout : Layout) (own : Actor) (past : List Taken) (m : Message) (x : TxnId) →
        IsTrue (list_any (votes_for x) (store_answer layout own past m)) → promise_of past x ≡ zero_ballot }
{}

/// What a step opens is answered at its waiters: those before the step, and the ballot of a Stable about it that it takes.
pub fn waiters_are_answered()
    ensures { (shard : ℕ) (step : Taken) (past : List Taken) (c : Change) → Contains (changes_of shard step past) c → IsTrue c.opens →
        stable_ballots (step ∷ past) c.id ≡ stable_ballots_in c.id step.message (waiters_of shard past c.id) }
{}

/// An attempt in its first phase has ballot zero.
pub fn first_phase_has_ballot_zero()
    ensures { (layout : Layout) (node start : ℕ) (x : TxnId) (past : List Deed) (a : Attempt) →
        attempt_of layout node start x past ≡ Some a → a.phase ≡ Voting → a.ballot ≡ zero_ballot }
{}
