//! Laws of every accepted layout. Each is the contract of a function that does nothing. A set of nodes is any test on
//! node numbers.
ghost use Rattle.std.specs.Prelude.{◌≡◌, ◌<◌, ◌≤◌, ◌+◌, ◌*◌, ℕ, Bool, not, ◌&&◌, ◌||◌, IsTrue, List, [], ◌∷◌, length};
ghost use Rattle.acc_topology.specs.Layout.{Layout, Shard, IsLayout, HoldsKey, shard_of};
ghost use Rattle.acc_topology.specs.Quorums.{tolerated, majority_size, fast_size, is_majority, is_fast, fast_lost, may_be_fast, Meet, OfEachShard, FastSizesAre};

/// Any two majorities of a shard meet in a replica.
pub fn majorities_meet()
    ensures { OfEachShard (λ s. (a b : ℕ → Bool) → IsTrue (is_majority s a) → IsTrue (is_majority s b) → Meet s a b) }
{}

/// A fast quorum meets every majority in a replica.
pub fn fast_quorum_meets_majority()
    ensures { OfEachShard (λ s. (a b : ℕ → Bool) → IsTrue (is_fast s a) → IsTrue (is_majority s b) → Meet s a b) }
{}

/// Any two fast quorums meet in a replica.
pub fn fast_quorums_meet()
    ensures { OfEachShard (λ s. (a b : ℕ → Bool) → IsTrue (is_fast s a) → IsTrue (is_fast s b) → Meet s a b) }
{}

/// What two fast quorums share meets every majority in a replica.
pub fn fast_quorums_meet_in_majority()
    ensures { OfEachShard (λ s. (a b c : ℕ → Bool) → IsTrue (is_fast s a) → IsTrue (is_fast s b) → IsTrue (is_majority s c)
        → Meet s (λ n. a n && b n) c) }
{}

/// The size of a fast quorum is at least that of a majority, lies above half of the electorate, and above half of the
/// electorate and the replicas that may fail, and the electorate has as many members.
pub fn fast_sizes()
    ensures majority { OfEachShard (λ s. majority_size s ≤ fast_size s) }
    ensures half { OfEachShard (λ s. length s.electorate < 2 * fast_size s) }
    ensures above_failing { OfEachShard (λ s. length s.electorate + tolerated s < 2 * fast_size s) }
    ensures possible { OfEachShard (λ s. fast_size s ≤ length s.electorate) }
{}

/// The sizes that an electorate can have, each with the size of a fast quorum.
pub fn fast_sizes_by_electorate()
    ensures one { FastSizesAre 1 ((1, 1) ∷ []) }
    ensures three { FastSizesAre 3 ((2, 2) ∷ (3, 3) ∷ []) }
    ensures five { FastSizesAre 5 ((3, 3) ∷ (4, 4) ∷ (5, 4) ∷ []) }
    ensures seven { FastSizesAre 7 ((4, 4) ∷ (5, 5) ∷ (6, 5) ∷ (7, 6) ∷ []) }
{}

/// A fast quorum is lost exactly where the votes that haven't changed are no fast quorum.
pub fn lost_where_unchanged_are_too_few()
    ensures { OfEachShard (λ s. (changed : ℕ → Bool) → fast_lost s changed ≡ not (is_fast s (λ n. not (changed n)))) }
{}

/// There may be a fast quorum exactly where those that didn't answer and the unchanged votes would be one.
pub fn may_be_fast_with_the_silent()
    ensures { OfEachShard (λ s. (answered votes : ℕ → Bool) →
        may_be_fast s answered votes ≡ is_fast s (λ n. not (answered n) || votes n)) }
{}

/// Each key lies in just one shard.
pub fn each_key_has_one_shard()
    ensures found { (layout : Layout) (bytes : List ℕ) → IsLayout layout → HoldsKey layout (shard_of layout bytes) bytes }
    ensures only { (layout : Layout) (bytes : List ℕ) (shard : ℕ) → IsLayout layout → HoldsKey layout shard bytes
        → shard ≡ shard_of layout bytes }
{}
