//! An attempt that a node runs.
ghost use Rattle.std.specs.Prelude.{◌≡◌, IfOk, IfErr, OnErr};
ghost use Rattle.acc_stamp.specs.declared.stamps.TxnId.{TxnId};
ghost use Rattle.acc_message.specs.Attempts.{Attempt, majority_everywhere};
ghost use Rattle.acc_coord.specs.Stands.{StandsFor as Coordinates, is_voting_phase};
ghost use Rattle.acc_node.specs.declared.running.Running.TheVariants.{Coordinating};
ghost use Rattle.acc_node.specs.Stands.{RunsAs, Refuses, SlowsDown};

use crate::error::NodeError;
use acc_base::Kept;
use acc_coord::{Coord, SlowError};
use acc_message::Messages;
use acc_recover::Recovery;
use acc_topology::Topology;

/// An attempt that a node runs: one that asks for evidence, or one that is past that or is the first at its transaction. Few
/// attempts ask for evidence, and one that does takes more memory than any other.
#[derive(Debug, Drop)]
pub(crate) enum Running {
    Coordinating(Coord),
    Recovering(Kept<Recovery>),
}

impl Running {
    /// Gives the fast path of a first attempt that waits for votes up.
    pub(crate) fn go_slow(&mut self, topology: &Topology) -> Result<Messages, NodeError>
        ensures ok { IfOk result (λ out. (x : TxnId) (a : Attempt) → RunsAs topology.now x self.old a → SlowsDown topology.now x self.new out a) }
        ensures refused { IfErr result (λ error. (x : TxnId) (a : Attempt) → RunsAs topology.now x self.old a →
            Refuses (is_voting_phase a.phase) (majority_everywhere topology.now x a.body a.answers) error) }
        ensures err { OnErr result (self.new ≡ self.old) }
    {
        match self {
            Running::Coordinating(coord) => slow_down(coord, topology),
            Running::Recovering(_) => Err(NodeError::Unknown),
        }
    }
}

// Gives the fast path up, where the attempt waits for votes.
fn slow_down(coord: &mut Coord, topology: &Topology) -> Result<Messages, NodeError>
    ensures ok { IfOk result (λ out. (x : TxnId) (a : Attempt) → Coordinates topology.now x coord.old a → SlowsDown topology.now x (Coordinating coord.new) out a) }
    ensures refused { IfErr result (λ error. (x : TxnId) (a : Attempt) → Coordinates topology.now x coord.old a →
        Refuses (is_voting_phase a.phase) (majority_everywhere topology.now x a.body a.answers) error) }
    ensures err { OnErr result (coord.new ≡ coord.old) }
{
    if !coord.in_preaccept() {
        return Err(NodeError::Unknown);
    }
    match coord.go_slow(topology) {
        Ok(out) => Ok(out),
        Err(SlowError::NoQuorum) => Err(NodeError::NoQuorum),
        Err(SlowError::OutOfMemory) => Err(NodeError::OutOfMemory),
    }
}
