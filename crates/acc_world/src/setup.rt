//! What a world is of.
ghost use Rattle.std.specs.Prelude.{◌≡◌, ℕ, IfOk, slice_get};
ghost use Rattle.std.specs.Option.{option_map};
ghost use Rattle.acc_stamp.specs.Actor.{actor_of};
ghost use Rattle.acc_safety.specs.Valid.{IsValidCluster};
ghost use Rattle.acc_message.specs.Run.{clock_start};
ghost use Rattle.acc_world.specs.Held.{cluster_of};
ghost use Rattle.acc_world.specs.Values.{cluster};

use acc_base::OutOfMemory;
use acc_schedule::{Bodies, Starts};
use acc_stamp::{Actor, actor};
use acc_topology::{NodeList, Topology};
use std::alloc::Global;

/// The cluster, and the starts, homes and bodies of its nodes and transactions.
#[derive(Debug, Drop)]
pub struct Setup {
    pub(crate) topology: Topology,
    pub(crate) starts: Starts,
    pub(crate) homes: NodeList,
    pub(crate) bodies: Bodies,
}

impl Setup {
    /// The same, in memory of its own.
    pub(crate) fn of(
        topology: &Topology,
        starts: &Starts,
        homes: &NodeList,
        bodies: &Bodies,
    ) -> Result<Setup, OutOfMemory>
        ensures { IfOk result (λ setup. cluster_of setup ≡ cluster topology.now starts.now homes.now bodies.now) }
    {
        Ok(Setup {
            topology: topology.copy()?,
            starts: starts.copy()?,
            homes: homes.copy()?,
            bodies: bodies.copy()?,
        })
    }

    /// Where its memory comes from.
    pub(crate) fn allocator(&self) -> Global {
        self.homes.allocator()
    }

    /// The home of a transaction, if there is such a transaction.
    pub(crate) fn home_of(&self, txn: u32) -> Option<Actor>
        requires { IsValidCluster (cluster_of self.now) }
        ensures { result ≡ option_map (λ node. actor_of node 0) (slice_get self.now.homes txn) }
    {
        match self.homes.as_slice().get(txn as usize) {
            Some(node) => Some(actor(*node, 0)),
            None => None,
        }
    }

    /// Where the clock of a node starts.
    pub(crate) fn start_of(&self, node: u32) -> u64
        ensures { result ≡ clock_start self.now.starts node }
    {
        for spec in self.starts.as_slice() {
            if spec.id == node {
                return spec.clock;
            }
        }
        0
    }
}
