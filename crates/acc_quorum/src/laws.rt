//! Laws of quorums of answers. Each is the contract of a function that does nothing. Where two quorums meet, the store in
//! common gave an answer to both.
ghost use Rattle.std.specs.Prelude.{ℕ, true, false, ◌≡◌, ◌||◌, IsTrue, List, Contains};
ghost use Rattle.std.specs.List.{AllByRecursion};
ghost use Rattle.acc_stamp.specs.Stamp.{stamp_lt};
ghost use Rattle.acc_stamp.specs.declared.stamps.TxnId.{TxnId};
ghost use Rattle.acc_topology.specs.Layout.{Layout};
ghost use Rattle.acc_deps.specs.Deps.{AreDeps, deps_has};
ghost use Rattle.acc_quorum.specs.Answers.{Answer, has_answered, has_kept, has_changed, majority_everywhere, fast_everywhere, fast_lost_somewhere, may_be_fast_everywhere, greatest, union_of};
ghost use Rattle.acc_quorum.specs.Meetings.{MeetAt, MeetSomewhere, InCommon, AreShardsOf};

/// In a shard that both use, any two majorities have a store in common.
pub fn majorities_meet()
    ensures { (layout : Layout) (shards others : List ℕ) (answers more : List Answer) (shard : ℕ) → InCommon layout shards others shard →
        IsTrue (majority_everywhere layout shards answers) → IsTrue (majority_everywhere layout others more) →
        MeetAt layout (has_answered answers) (has_answered more) shard }
{}

/// In a shard that both use, a fast quorum of one transaction and a majority of another have a store in common.
pub fn fast_meets_majority()
    ensures { (layout : Layout) (shards others : List ℕ) (answers more : List Answer) (shard : ℕ) → InCommon layout shards others shard →
        IsTrue (fast_everywhere layout shards answers) → IsTrue (majority_everywhere layout others more) →
        MeetAt layout (has_kept answers) (has_answered more) shard }
{}

/// In a shard that both use, two fast quorums have a store in common.
pub fn fast_meets_fast()
    ensures { (layout : Layout) (shards others : List ℕ) (answers more : List Answer) (shard : ℕ) → InCommon layout shards others shard →
        IsTrue (fast_everywhere layout shards answers) → IsTrue (fast_everywhere layout others more) →
        MeetAt layout (has_kept answers) (has_kept more) shard }
{}

/// Where a fast quorum of one transaction was there, and a majority of another has answered so that a fast quorum of it may be
/// there too, some store of the first quorum is among those that kept the second transaction's timestamp in these answers:
/// a fast quorum, what may be another, and a majority have a store in common.
pub fn fast_meets_possible_fast()
    ensures { (layout : Layout) (shards others : List ℕ) (answers more : List Answer) (shard : ℕ) → InCommon layout shards others shard →
        IsTrue (fast_everywhere layout shards answers) → IsTrue (majority_everywhere layout others more) →
        IsTrue (may_be_fast_everywhere layout others more) → MeetAt layout (has_kept answers) (has_kept more) shard }
{}

/// Where a fast quorum is lost or may not be there by some answers, and other answers to the same transaction are fast, some
/// store changed the timestamp in the one and kept it in the other.
pub fn lost_meets_fast()
    ensures lost { (layout : Layout) (shards : List ℕ) (answers more : List Answer) → AreShardsOf layout shards →
        IsTrue (fast_lost_somewhere layout shards answers) → IsTrue (fast_everywhere layout shards more) →
        MeetSomewhere layout (has_changed answers) (has_kept more) shards }
    ensures impossible { (layout : Layout) (shards : List ℕ) (answers more : List Answer) → AreShardsOf layout shards →
        may_be_fast_everywhere layout shards answers ≡ false → IsTrue (fast_everywhere layout shards more) →
        MeetSomewhere layout (has_changed answers) (has_kept more) shards }
{}

/// The greatest timestamp isn't below that of any answer.
pub fn greatest_is_above_each()
    ensures { (answers : List Answer) (a : Answer) → Contains answers a → stamp_lt (greatest answers) a.t ≡ false }
{}

/// The union is a set of dependencies where each answer's dependencies are one, and then has what the answers have.
pub fn union_has_those_of_each()
    ensures stands { (answers : List Answer) → AllByRecursion (λ (a : Answer). AreDeps a.deps) answers → AreDeps (union_of answers) }
    ensures has { (answers : List Answer) (a : Answer) (shard : ℕ) (x : TxnId) → AllByRecursion (λ (b : Answer). AreDeps b.deps) answers →
        Contains answers a → IsTrue (deps_has a.deps shard x) → IsTrue (deps_has (union_of answers) shard x) }
{}
