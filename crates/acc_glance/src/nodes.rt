//! Lists of nodes.
ghost use Rattle.std.specs.Prelude.{◌≡◌, ◌==◌, ◌&&◌, ◌||◌, ◌≤◌, ℕ, true, false};
ghost use Rattle.acc_topology.specs.Sets.{in_set, is_among};

use acc_topology::NodeSet;
use acc_topology::sets::{contains, with};

/// The set of those of these nodes that are among others.
pub(crate) fn set_of(among: NodeSet, nodes: &[u32]) -> NodeSet
    ensures { (n : ℕ) → in_set result n ≡ (in_set among n && is_among nodes.now n) }
{
    let mut set = 0;
    for node in nodes {
        set = joined(among, set, *node);
    }
    set
}

// The set with a node added, if that is among the others.
fn joined(among: NodeSet, set: NodeSet, node: u32) -> NodeSet
    ensures { (n : ℕ) → in_set result n ≡ (in_set set n || (in_set among n && node == n)) }
{
    let member = contains(among, node);
    if member {
        return with(set, node);
    }
    set
}

/// Whether a node is one of these.
pub(crate) fn is_one_of(nodes: &[u32], node: u32) -> bool
    ensures { result ≡ is_among nodes.now node }
{
    nodes.iter().any(|other| *other == node)
}

/// Whether the set has no node from this one on.
pub(crate) fn has_none_from(set: NodeSet, node: u32) -> bool
    requires { node ≤ 15 }
    ensures { result ≡ true → (n : ℕ) → node ≤ n → in_set set n ≡ false }
{
    set >> node == 0
}
