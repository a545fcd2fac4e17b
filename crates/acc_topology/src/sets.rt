//! Sets of nodes and of shards, as the bits of a number.
ghost use Rattle.std.specs.Prelude.{◌≡◌, ◌==◌, ◌||◌, ◌<◌, ◌≤◌, ◌^◌, ℕ, length, count_by};
ghost use Rattle.acc_topology.specs.Sets.{in_set, members};

/// A set of nodes, whose bit n stands for node n.
pub type NodeSet = u16;

/// A set of shards, whose bit n stands for shard n.
pub type ShardSet = u16;

/// Whether a node or a shard is in the set.
pub fn contains(set: u16, number: u32) -> bool
    ensures { result ≡ in_set set number }
{
    number < u16::BITS && set >> number & 1 == 1
}

/// The set with a node or a shard added.
pub fn with(set: u16, number: u32) -> u16
    requires { number < 16 }
    ensures { (n : ℕ) → in_set result n ≡ (in_set set n || number == n) }
{
    set | 1 << number
}

/// How many numbers are in the set.
pub(crate) fn count(set: u16) -> u32
    ensures value { result ≡ length (members set) }
    ensures few { result ≤ 16 }
{
    set.count_ones()
}

/// How many numbers are in both sets.
pub(crate) fn common(a: u16, b: u16) -> u32
    ensures { result ≡ count_by (in_set b) (members a) }
{
    (a & b).count_ones()
}
