//! The part of a footprint that lies in a shard.
ghost use Rattle.std.specs.Prelude.{◌≡◌, ◌==◌, ◌≤◌, cond, [], length, take, drop, IfOk};
ghost use Rattle.std.specs.List.{filter};
ghost use Rattle.acc_topology.specs.Keys.{share_of, shard_of_key};

use acc_base::OutOfMemory;
use acc_index::Share;
use acc_topology::Topology;
use acc_value::{Footprint, Key};

/// The part of a footprint that lies in a shard. It shares the footprint where the keys of the shard stand next to one another
/// in it, as they do where the shard has the keys between two texts.
pub(crate) fn share_of(
    topology: &Topology,
    footprint: &Footprint,
    shard: u32,
) -> Result<Share, OutOfMemory>
    ensures { IfOk result (λ share. share ≡ share_of topology.now footprint.now shard) }
{
    let pairs = footprint.pairs();
    let from = run(topology, pairs, shard, false, 0);
    let rest = &pairs[from..];
    let to = from + run(topology, rest, shard, true, rest.len().min(1));
    let last = &pairs[to..];
    let behind = run(topology, last, shard, false, last.len().min(1));
    if to + behind < pairs.len() {
        return Ok(Share::whole(topology.share(footprint, shard)?));
    }
    Share::part(footprint, from, to)
}

// How many keys in front lie in a shard, or don't. Of the first few that is known already. The key after them does the other.
fn run(topology: &Topology, pairs: &[(Key, bool)], shard: u32, lies: bool, known: usize) -> usize
    requires few { known ≤ length pairs.now }
    requires known { share_of topology.now (take known pairs.now) shard ≡ cond lies (take known pairs.now) [] }
    ensures within { result ≤ length pairs.now }
    ensures each { share_of topology.now (take result pairs.now) shard ≡ cond lies (take result pairs.now) [] }
    ensures next { share_of topology.now (take 1 (drop result pairs.now)) shard ≡ cond lies [] (take 1 (drop result pairs.now)) }
{
    let mut place = known;
    while place < pairs.len() {
        if (topology.shard_of(&pairs[place].0) == shard) != lies {
            return place;
        }
        place += 1;
    }
    place
}
