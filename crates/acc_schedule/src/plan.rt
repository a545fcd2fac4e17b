//! What a cluster document says.
ghost use Rattle.std.specs.Prelude.{◌≡◌, IfOk};

use acc_base::{Duplicate, OutOfMemory, Sequence, Text};
use acc_stamp::Actor;
use acc_topology::{NodeList, NodeSpec, Topology};
use acc_txn::Body;
use std::marker::Model;

/// The nodes and where their clocks start, in the order of the document.
pub type Starts = Sequence<NodeSpec>;

/// The names of transactions, by their numbers.
pub type Names = Sequence<Text>;

/// The bodies of transactions, by their numbers.
pub type Bodies = Sequence<Body>;

/// The steps of a schedule.
pub type Steps = Sequence<Step>;

/// What a document says: a cluster, transactions, and the steps that it takes. Transactions are numbered from 0, in the
/// order of the document. Each plan keeps what a document has to keep: its nodes have clocks within the limit, its
/// transactions have names of their own and homes among the nodes, its steps are of these transactions, nodes and actors,
/// there are no more of each than a document may have, and bodies of version 1 have no text value.
#[derive(Debug, Drop)]
pub struct Plan {
    /// The version of the document, 1 or 2. In version 2 cells may be texts.
    pub version: u8,
    pub topology: Topology,
    pub starts: Starts,
    /// The names of the transactions, no two of them equal.
    pub names: Names,
    /// The node of each transaction.
    pub homes: NodeList,
    pub bodies: Bodies,
    pub steps: Steps,
    pub print: Print,
}

impl Model for Plan {
    ghost use Rattle.acc_schedule.specs.Content.{Content};

    ghost Value = { Content };

    ghost use Rattle.acc_schedule.specs.Plan.{IsPlan};
    ghost use Rattle.acc_schedule.specs.View.{content};

    ghost view = { content };

    ghost invariant = { λ p. IsPlan (content p) };
}

impl Plan {
    /// An equal plan, in memory of its own.
    pub fn copy(&self) -> Result<Plan, OutOfMemory>
        ensures { IfOk result (λ copy. copy ≡ self.now) }
    {
        Ok(Plan {
            version: self.version,
            topology: self.topology.copy()?,
            starts: self.starts.copy()?,
            names: self.names.copy()?,
            homes: self.homes.copy()?,
            bodies: self.bodies.copy()?,
            steps: self.steps.copy()?,
            print: self.print,
        })
    }
}

impl Duplicate for Plan {
    fn copy(&self) -> Result<Plan, OutOfMemory> {
        Plan::copy(self)
    }
}

/// What the report of a run shows.
#[derive(Clone, Copy, Debug, PartialEq, Eq)]
pub enum Print {
    /// A line for each thing that happens.
    Lines,
    /// Counts alone.
    Summary,
}

/// A step of a schedule. Transactions stand for themselves by their numbers, and messages by the order in which they are
/// sent, from 0.
#[derive(Clone, Copy, Debug, PartialEq, Eq)]
pub enum Step {
    /// The home of the transaction begins it.
    Begin { txn: u32 },
    /// The message is delivered.
    Deliver { number: u64 },
    /// The message is lost.
    Drop { number: u64 },
    /// The node recovers the transaction.
    Recover { txn: u32, node: u32 },
    /// The home of the transaction gives up its fast path.
    Slow { txn: u32 },
    /// The actor's disk crashes, in the way of the choice, and the actor opens it again.
    Restart { actor: Actor, choice: u8 },
    /// The actor's disk fails after so many calls.
    Fail { actor: Actor, calls: u64 },
    /// All messages that are under way are delivered, the oldest first.
    Drain,
}

impl Duplicate for Step {
    fn copy(&self) -> Result<Step, OutOfMemory> {
        Ok(*self)
    }
}
