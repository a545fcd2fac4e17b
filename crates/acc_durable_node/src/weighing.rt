//! How much a node that is up would send. Nothing here makes a call of a disk.
ghost use Rattle.std.specs.Prelude.{◌≡◌, false, IfOk};
ghost use Rattle.acc_message.specs.NodeRules.{Begins, Recovers, Takes};

use crate::actor::NodeActor;
use crate::state::NodeState;
use acc_base::OutOfMemory;
use acc_message::Message;
use acc_ports::Rig;
use acc_stamp::TxnId;
use acc_topology::Topology;
use acc_txn::Body;

impl<D: Rig> NodeActor<D> {
    ghost use Rattle.acc_durable_node.specs.Actor.{MayBegin, MayRecover, is_down};
    ghost use Rattle.acc_durable_node.specs.Weighing.{NodeMayWeigh, Weighs};

    /// How many bytes of encoded messages a begin would send now, of a transaction that the node hasn't begun.
    pub fn weigh_begin(
        &self,
        topology: &Topology,
        txn: u32,
        body: &Body,
    ) -> Result<u64, OutOfMemory>
        requires up { is_down self.now ≡ false }
        requires may { MayBegin D.Disk topology.now self.now txn }
        ensures { IfOk result (Weighs D.Disk topology.now self.now (Begins txn body.now)) }
    {
        let NodeState::Open(node) = &self.state else {
            unreachable!()
        };
        node.weigh_begin(topology, txn, body)
    }

    /// The same of a recover.
    pub fn weigh_recover(
        &self,
        topology: &Topology,
        id: TxnId,
        body: &Body,
    ) -> Result<u64, OutOfMemory>
        requires up { is_down self.now ≡ false }
        requires may { MayRecover D.Disk topology.now self.now }
        ensures { IfOk result (Weighs D.Disk topology.now self.now (Recovers id body.now)) }
    {
        let NodeState::Open(node) = &self.state else {
            unreachable!()
        };
        node.weigh_recover(topology, id, body)
    }

    /// The same of a message.
    pub fn weigh_take(&self, topology: &Topology, m: &Message) -> Result<u64, OutOfMemory>
        requires up { is_down self.now ≡ false }
        requires may { NodeMayWeigh D.Disk topology.now self.now m.now }
        ensures { IfOk result (Weighs D.Disk topology.now self.now (Takes m.now)) }
    {
        let NodeState::Open(node) = &self.state else {
            unreachable!()
        };
        node.weigh_step(topology, m)
    }
}
