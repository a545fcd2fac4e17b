//! Whether a node with its disk is up, and the disk.
ghost use Rattle.std.specs.Prelude.{◌≡◌, IsTrue, Bool, None, Ok, IfOk, OnOk, is_none};
ghost use Rattle.acc_topology.specs.Layout.{Layout};
ghost use Rattle.acc_ports.specs.Faults.{CountsFaults};
ghost use Rattle.acc_message.specs.NodeRules.{Act};
ghost use Rattle.acc_payloads.specs.Stops.{Past, count_of, TellsByChoice};
ghost use Rattle.acc_durable_node.specs.Actor.{IsJournal, AreLeft, AreLeftByChoice, IsFound, disk_in, node_in, is_shut};

use crate::DurableNode;
use crate::name::Named;
use acc_base::OutOfMemory;
use acc_journal::JournalError;
use acc_node::Node;
use acc_ports::Rig;
use std::alloc::Global;

/// The node is down where it is broken or shut.
#[derive(Debug, Drop)]
pub(crate) enum NodeState<D: Rig> {
    Open(DurableNode<D>),
    Shut(D),
}

impl<D: Rig> NodeState<D> {
    pub(crate) fn into_disk(self) -> D
        ensures { result ≡ disk_in self }
    {
        match self {
            NodeState::Open(node) => node.into_disk(),
            NodeState::Shut(disk) => disk,
        }
    }

    pub(crate) fn into_parts(self) -> (D, Option<Node>)
        ensures disk { result.0 ≡ disk_in self }
        ensures node { result.1 ≡ node_in self }
    {
        match self {
            NodeState::Open(node) => {
                let (disk, node) = node.into_parts();
                (disk, Some(node))
            }
            NodeState::Shut(disk) => (disk, None),
        }
    }
}

// Crashes the disk and reopens the node. Tells whether the journal has more draws than so many, or that the disk failed.
pub(crate) fn reopened<D: Rig>(
    alloc: Global,
    named: Named,
    kept: u64,
    choice: u8,
    disk: D,
) -> (NodeState<D>, Result<Option<bool>, OutOfMemory>)
    ensures ok { IfOk result.1 (λ found. (layout : Layout) (past : Past Act) → AreLeft D.Disk disk (IsJournal layout named.name) past → kept ≡ count_of past
        → IsFound D.Disk layout named.name past found result.0) }
    ensures shut { IfOk result.1 (λ found. is_shut result.0 ≡ is_none found) }
    ensures faults { CountsFaults (result.1 ≡ Ok None) (D.state disk).faults (D.state (disk_in result.0)).faults }

    ensures kind { (D.state (disk_in result.0)).strict ≡ (D.state disk).strict }
    ensures strict { IsTrue (D.state disk).strict → (layout : Layout) (past : Past Act) (keeps : Bool)
        → AreLeftByChoice D.Disk disk choice (IsJournal layout named.name) past keeps → kept ≡ count_of past
        → IfOk result.1 (TellsByChoice keeps past.stopped) }
    ensures unarmed { IsTrue (D.state disk).strict → OnOk result.1 ((D.state (disk_in result.0)).armed ≡ None) }
{
    let mut disk = disk;
    if kept == u64::MAX || disk.crash(choice).is_err() {
        return (NodeState::Shut(disk), Err(OutOfMemory));
    }
    match DurableNode::reopen(alloc, named.name, disk) {
        Ok(node) => {
            let more = node.kept() > kept;
            (NodeState::Open(node), Ok(Some(more)))
        }
        Err((JournalError::DiskFault, disk)) => (NodeState::Shut(disk), Ok(None)),
        Err((_, disk)) => (NodeState::Shut(disk), Err(OutOfMemory)),
    }
}
