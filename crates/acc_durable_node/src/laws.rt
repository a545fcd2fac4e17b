//! Laws of the journals of nodes. Each is the contract of a function that does nothing.
ghost use Rattle.acc_durable_node.specs.JournalLaws.{JournalsTellActs, BeginsExtendJournals, RecoversExtendJournals, RestartsKeepJournals, HigherVersionsRead};

use acc_ports::Disk;

/// The journal of a node is one of its acts. What a draw would append makes it the journal of these acts and the one that draws, so
/// whether or not the group of a failed append stands on the disk, the disk holds the journal of acts of this node. A restart
/// draws nothing, and version 2 reads a journal of version 1 as the same.
pub fn node_journals_tell<D: Disk>()
    ensures stands { JournalsTellActs D }
    ensures begins { BeginsExtendJournals D }
    ensures recovers { RecoversExtendJournals D }
    ensures restarts { RestartsKeepJournals }
    ensures higher { HigherVersionsRead }
{}
