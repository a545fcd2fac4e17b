//! What holds of every run of a cluster, said of values. Each law is the contract of a function that does nothing. The items stand in
//! the order in which they are printed.
ghost use Rattle.std.specs.Prelude.{reverse};
ghost use Rattle.acc_message.specs.Run.{IsRun};
ghost use Rattle.acc_safety.specs.Agreement.{Agreement};
ghost use Rattle.acc_safety.specs.Calm.{IsCalm, EachBegunIsAnswered};
ghost use Rattle.acc_safety.specs.Coverage.{Coverage};
ghost use Rattle.acc_safety.specs.SerialOutcomes.{SerialOutcomes};
ghost use Rattle.acc_safety.specs.Valid.{IsValidCluster};
ghost use Rattle.acc_world.specs.Values.{cluster};

use acc_message::Items;
use acc_schedule::{Bodies, Starts};
use acc_topology::{NodeList, Topology};

/// Any two decisions of a transaction have one timestamp, and those of different transactions have different ones.
pub fn agreement(
    topology: &Topology,
    starts: &Starts,
    homes: &NodeList,
    bodies: &Bodies,
    items: &Items,
)
    requires valid { IsValidCluster (cluster topology.now starts.now homes.now bodies.now) }
    requires run { IsRun (cluster topology.now starts.now homes.now bodies.now) (reverse items.now) }
    ensures { Agreement (reverse items.now) }
{}

/// A decision names, in each shard where they conflict, every transaction that is decided at a smaller timestamp.
pub fn coverage(
    topology: &Topology,
    starts: &Starts,
    homes: &NodeList,
    bodies: &Bodies,
    items: &Items,
)
    requires valid { IsValidCluster (cluster topology.now starts.now homes.now bodies.now) }
    requires run { IsRun (cluster topology.now starts.now homes.now bodies.now) (reverse items.now) }
    ensures { Coverage (cluster topology.now starts.now homes.now bodies.now) (reverse items.now) }
{}

/// The first outcomes are those of a serial run of their bodies, no other outcome and no reply differs from them, and each stands
/// after its begin and not after its reply.
pub fn serial(
    topology: &Topology,
    starts: &Starts,
    homes: &NodeList,
    bodies: &Bodies,
    items: &Items,
)
    requires valid { IsValidCluster (cluster topology.now starts.now homes.now bodies.now) }
    requires run { IsRun (cluster topology.now starts.now homes.now bodies.now) (reverse items.now) }
    ensures { SerialOutcomes (cluster topology.now starts.now homes.now bodies.now) (reverse items.now) }
{}

/// Where every message that was sent is taken, and nothing is restarted, recovered or slowed down, each begun transaction has its
/// reply.
pub fn calm(topology: &Topology, starts: &Starts, homes: &NodeList, bodies: &Bodies, items: &Items)
    requires valid { IsValidCluster (cluster topology.now starts.now homes.now bodies.now) }
    requires run { IsRun (cluster topology.now starts.now homes.now bodies.now) (reverse items.now) }
    requires calm { IsCalm (reverse items.now) }
    ensures { EachBegunIsAnswered (reverse items.now) }
{
    acc_calm::laws::calm();
}
