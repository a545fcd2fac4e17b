//! What holds of every run. Each law is the contract of a function that does nothing.
ghost use Rattle.std.specs.Prelude.{◌≡◌, ℕ, true, false, not, List, ◌∷◌, ◌++◌, Some, IsTrue};
ghost use Rattle.acc_stamp.specs.declared.stamps.TxnId.{TxnId};
ghost use Rattle.acc_stamp.specs.declared.actors.Actor.{Actor};
ghost use Rattle.acc_stamp.specs.Actor.{node_of};
ghost use Rattle.acc_topology.specs.Layout.{Layout, IsLayout};
ghost use Rattle.acc_topology.specs.Sets.{is_among};
ghost use Rattle.acc_txn.specs.declared.parts.BodyParts.{BodyParts};
ghost use Rattle.acc_message.specs.declared.message.Message.{Message};
ghost use Rattle.acc_message.specs.declared.note.Note.{Note};
ghost use Rattle.acc_message.specs.declared.entry.Entry.{Entry};
ghost use Rattle.acc_message.specs.declared.entry.Event.{Event};
ghost use Rattle.acc_message.specs.declared.item.Item.{Item};
ghost use Rattle.acc_message.specs.Items.{is_begun, begins, id_of_note};
ghost use Rattle.acc_message.specs.Shares.{shards_used};
ghost use Rattle.acc_message.specs.Taken.{Taken};
ghost use Rattle.acc_message.specs.Attempts.{Attempt, majority_everywhere, fast_everywhere, fast_lost_somewhere, may_be_fast_everywhere};
ghost use Rattle.acc_message.specs.Run.{Cluster, clock_start, deeds_of, taken_of, is_node, EachStands, IsHomeOf};
ghost use Rattle.acc_message.specs.NodeRules.{Act, Deed, attempt_after, attempt_of, node_emits, node_replay};
ghost use Rattle.acc_message.specs.StoreRules.{store_answer, replay};
ghost use Rattle.acc_safety.specs.RunLaws.{drawn_of, AreDistinct, WasSent, acts_done};
ghost use Rattle.acc_actor_laws.specs.TakenAlone.{messages_taken};
ghost use Rattle.acc_safety.specs.Places.{IsIn, StandsAt, IsPast};
ghost use Rattle.acc_safety.specs.Histories.{EachAnswers, EachEmits, Sending, Noting, Sender};
ghost use Rattle.acc_safety.specs.StoreSends.{StoreSends};
ghost use Rattle.acc_safety.specs.NodeMoves.{AttemptMoves, NodeSends, NodeNotes};
ghost use Rattle.acc_safety.specs.Attempted.{AreAnswersOf, Origin, kind_of};
ghost use Rattle.acc_safety.specs.Underway.{underway, start_if};
ghost use Rattle.acc_safety.specs.Polls.{AreAnswers, Meeting, QuorumsMeet, IsAny, Kept, Changed};
ghost use Rattle.acc_safety.specs.Statements.{BodiesAreBegun, HomesAreOne, DepsAreSets};

use acc_stamp::laws::{draws_are_of_node, draws_rise};

/// Each message that is taken was sent by an earlier entry to the actor that takes it.
pub fn taken_messages_were_sent()
    ensures { (cluster : Cluster) (items after earlier : List Item) (e : Entry) (number : ℕ) → EachStands cluster items →
        items ≡ after ++ Item.Step e ∷ earlier → e.event ≡ Event.Message number → WasSent earlier number e.actor }
{}

/// In each step a store sends what its rules give from what it took before, and a node emits what its rules give from what it did
/// before. Such a history is the replay of what was taken.
pub fn actors_are_replays()
    ensures store { (cluster : Cluster) (a : Actor) (items : List Item) → EachStands cluster items → is_node a ≡ false →
        EachAnswers cluster.layout a (taken_of cluster a items) }
    ensures node { (cluster : Cluster) (a : Actor) (items : List Item) → EachStands cluster items → is_node a ≡ true →
        EachEmits cluster.layout (node_of a) (clock_start cluster.starts (node_of a)) (deeds_of cluster a items) }
    ensures store_replayed { (layout : Layout) (own : Actor) (history : List Taken) → EachAnswers layout own history →
        history ≡ replay layout own (messages_taken history) }
    ensures node_replayed { (layout : Layout) (node start : ℕ) (deeds : List Deed) → EachEmits layout node start deeds →
        deeds ≡ node_replay layout node start (acts_done deeds) }
{}

/// Every message was sent by its sender, a store or a node, in some step of its history; a node is the home of the ballot.
pub fn messages_have_senders()
    ensures sender { (cluster : Cluster) (items : List Item) (m : Message) → EachStands cluster items → Sending items m → Sender cluster items m }
    ensures home { (cluster : Cluster) (items : List Item) → EachStands cluster items → HomesAreOne cluster items }
{}

/// Every message that brings a body brings the one with which its transaction was begun.
pub fn messages_bring_begun_bodies()
    ensures { (cluster : Cluster) (items : List Item) → EachStands cluster items → BodiesAreBegun cluster items }
{}

/// The dependencies of every message and of every decision that is noted are sets: each shard once, in order, and its
/// transactions rising.
pub fn dependencies_are_sets()
    ensures { (cluster : Cluster) (items : List Item) → EachStands cluster items → DepsAreSets items }
{}

/// What an entry notes of a transaction comes after the entry that began it, unless it begins it.
pub fn noted_means_begun()
    ensures { (cluster : Cluster) (items earlier : List Item) (e : Entry) (note : Note) → EachStands cluster items →
        StandsAt (Item.Step e) earlier items → IsIn note e.emitted.notes → begins (id_of_note note) note ≡ false →
        Noting earlier (Note.Begin (id_of_note note)) }
{}

/// Whatever a store sends is an answer with its reason.
pub fn stores_send_for_a_reason()
    ensures { (layout : Layout) (own : Actor) (past : List Taken) (m s : Message) → IsIn s (store_answer layout own past m) →
        StoreSends layout own past m s }
{}

/// However an attempt moves, and whatever a node sends or notes, is a move with its reason.
pub fn attempts_move_for_a_reason()
    ensures moves { (layout : Layout) (node start : ℕ) (past : List Deed) (x : TxnId) (act : Act) →
        AttemptMoves layout node start past x act (attempt_after layout node start x past (attempt_of layout node start x past) act) }
    ensures sends { (layout : Layout) (node start : ℕ) (past : List Deed) (act : Act) (s : Message) →
        IsIn s (node_emits layout node start past act).out → NodeSends layout node start past act s }
    ensures notes { (layout : Layout) (node start : ℕ) (past : List Deed) (act : Act) (note : Note) →
        IsIn note (node_emits layout node start past act).notes → NodeNotes layout node start past act note }
{}

/// The attempt at a transaction is that of its last begin or recover, with no restart since and no note that it was blocked,
/// ended or had its outcome: it has the ballot and the body of that start.
pub fn attempts_are_underway()
    ensures { (layout : Layout) (node start : ℕ) (x : TxnId) (deeds : List Deed) → EachEmits layout node start deeds →
        underway node start x deeds ≡ start_if (attempt_of layout node start x deeds) }
{}

/// An attempt comes from a begin or from a recover. Its answers were taken since, each of the kind of its phase, of its ballot
/// and from a store of its transaction, and in a run each has its place in its store's history.
pub fn answers_come_from_stores()
    ensures taken { (layout : Layout) (x : TxnId) (node start : ℕ) (deeds : List Deed) (a : Attempt) →
        attempt_of layout node start x deeds ≡ Some a → AreAnswersOf layout x deeds a }
    ensures origin { (layout : Layout) (node start : ℕ) (x : TxnId) (deeds : List Deed) (a : Attempt) →
        attempt_of layout node start x deeds ≡ Some a → Origin layout node start x deeds a }
    ensures polled { (cluster : Cluster) (items : List Item) → EachStands cluster items → (a : Actor) (past : List Deed) (x : TxnId) (at : Attempt) →
        IsPast past (deeds_of cluster a items) → AreAnswersOf cluster.layout x past at →
        AreAnswers cluster items x at.body at.ballot (kind_of at.phase) at.answers }
{}

/// Quorums of answers to two transactions meet, in each shard that both use, in a store that gave an answer to both: two
/// majorities, a fast quorum and a majority, two fast quorums, and a fast quorum with what may be one by the answers of a
/// majority. Of one transaction, where a fast quorum is lost or may not be there by some answers, other answers that are fast
/// have a store that changed its timestamp in the first.
pub fn quorums_of_messages_meet()
    ensures majorities { QuorumsMeet majority_everywhere majority_everywhere (λ x. IsAny) (λ y. IsAny) }
    ensures fast_and_majority { QuorumsMeet fast_everywhere majority_everywhere Kept (λ y. IsAny) }
    ensures fast { QuorumsMeet fast_everywhere fast_everywhere Kept Kept }
    ensures possible { (layout : Layout) (x y : TxnId) (body other : BodyParts) (answers others : List Message) (shard : ℕ) → IsLayout layout →
        IsTrue (is_among (shards_used layout body) shard) → IsTrue (is_among (shards_used layout other) shard) →
        IsTrue (fast_everywhere layout x body answers) → IsTrue (majority_everywhere layout y other others) →
        IsTrue (may_be_fast_everywhere layout y other others) → Meeting shard (Kept x) (Kept y) answers others }
    ensures lost { (layout : Layout) (x : TxnId) (body : BodyParts) (answers others : List Message) → IsLayout layout →
        IsTrue (fast_lost_somewhere layout x body answers) → IsTrue (fast_everywhere layout x body others) →
        (shard : ℕ) × Meeting shard (Changed x) (Kept x) answers others }
    ensures ruled_out { (layout : Layout) (x : TxnId) (body : BodyParts) (answers others : List Message) → IsLayout layout →
        may_be_fast_everywhere layout x body answers ≡ false → IsTrue (fast_everywhere layout x body others) →
        (shard : ℕ) × Meeting shard (Changed x) (Kept x) answers others }
{}

/// Each stamp is drawn once: the ids of the transactions that are begun and the ballots of the recoveries all differ.
pub fn stamps_are_drawn_once()
    ensures { (cluster : Cluster) (items : List Item) → EachStands cluster items → AreDistinct (drawn_of items) }
{
    draws_rise();
    draws_are_of_node();
}

/// No transaction is begun twice, or elsewhere than at its home, or recovered before its begin.
pub fn begins_stand_first()
    ensures home { (cluster : Cluster) (items after earlier : List Item) (e : Entry) (txn : ℕ) → EachStands cluster items →
        items ≡ after ++ Item.Step e ∷ earlier → e.event ≡ Event.Begin txn → IsHomeOf cluster txn e.actor }
    ensures first { (cluster : Cluster) (items after earlier : List Item) (e : Entry) (txn : ℕ) → EachStands cluster items →
        items ≡ after ++ Item.Step e ∷ earlier → e.event ≡ Event.Begin txn → IsTrue (not (is_begun earlier txn)) }
    ensures recover { (cluster : Cluster) (items after earlier : List Item) (e : Entry) (txn : ℕ) → EachStands cluster items →
        items ≡ after ++ Item.Step e ∷ earlier → e.event ≡ Event.Recover txn → IsTrue (is_begun earlier txn) }
{}
