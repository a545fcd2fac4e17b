//! The least of several numbers, of which one at a time changes: a tree in a vector. The numbers are its leaves. They stand
//! behind as many nodes, and each node has the lesser number of the two places below it.
ghost use Rattle.std.specs.Prelude.{◌≡◌, ℕ, ◌+◌, ◌*◌, ◌^◌, ◌<◌, ◌≤◌, ◌==◌, length, cond, replicate, IfOk};
ghost use Rattle.acc_message_index.specs.Trees.{none, leaf, IsTree};

use acc_base::OutOfMemory;
use std::alloc::Global;

/// Stands where there is no number.
pub(crate) const NOTHING: u64 = u64::MAX;

/// A tree of so many leaves, none of which has a number.
fn bare(alloc: Global, count: usize) -> Result<Vec<u64>, OutOfMemory>
    requires { count < 2 ^ 62 }
    ensures { IfOk result (λ places. places.items ≡ replicate (2 * count) NOTHING) }
{
    Ok(vec![in alloc; NOTHING; 2 * count]?)
}

/// Writes a leaf. The nodes above it are written as far as they change.
pub(crate) fn set_leaf(places: &mut Vec<u64>, count: usize, number: usize, value: u64)
    requires tree { IsTree count places.old.items }
    requires within { number < count }
    ensures tree { IsTree count places.new.items }
    ensures leaves { (other : ℕ) → leaf count places.new.items other ≡ cond (other == number) value (leaf count places.old.items other) }
{
    let mut at = count + number;
    if places[at] == value {
        return;
    }
    places[at] = value;
    while at > 1 {
        at /= 2;
        let lesser = places[2 * at].min(places[2 * at + 1]);
        if places[at] == lesser {
            return;
        }
        places[at] = lesser;
    }
}

/// A tree of more leaves, of which the first are those of this one.
pub(crate) fn grown(
    alloc: Global,
    places: &[u64],
    count: usize,
    more: usize,
) -> Result<Vec<u64>, OutOfMemory>
    requires tree { IsTree count places.now }
    requires more { (count ≤ more) × (more < 2 ^ 62) }
    ensures tree { IfOk result (λ tree. IsTree more tree.items) }
    ensures leaves { IfOk result (λ tree. (number : ℕ) → leaf more tree.items number ≡ leaf count places.now number) }
{
    let mut tree = bare(alloc, more)?;
    for number in 0..count {
        set_leaf(&mut tree, more, number, places[count + number]);
    }
    Ok(tree)
}

/// The least number of all leaves.
pub(crate) fn least(places: &[u64], count: usize) -> u64
    requires { IsTree count places.now }
    ensures bound { (number : ℕ) → number < count → result ≤ leaf count places.now number }
    ensures found { result < none → (number : ℕ) × (number < count) × (leaf count places.now number ≡ result) }
{
    if count == 0 {
        return NOTHING;
    }
    places[1]
}
