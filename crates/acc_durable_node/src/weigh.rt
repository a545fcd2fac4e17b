//! How much a durable node would send.
ghost use Rattle.std.specs.Prelude.{◌≡◌, ◌≤◌, None, IfOk};
ghost use Rattle.std.specs.Ordering.{nat_cmp};
ghost use Rattle.std.specs.BTreeMap.{get};
ghost use Rattle.acc_message.specs.NodeRules.{Begins, Recovers, Takes as TakesMessage};
ghost use Rattle.acc_node.specs.Weighing.{SendsShort};

use crate::DurableNode;
use acc_base::OutOfMemory;
use acc_message::Message;
use acc_ports::Disk;
use acc_stamp::TxnId;
use acc_topology::Topology;
use acc_txn::Body;

impl<D: Disk> DurableNode<D> {
    ghost use Rattle.acc_durable_node.specs.Node.{IsLow, Weighs};

    /// How many bytes of encoded messages a begin would send now, of a transaction that isn't begun. It makes no call of the disk.
    pub fn weigh_begin(
        &self,
        topology: &Topology,
        txn: u32,
        body: &Body,
    ) -> Result<u64, OutOfMemory>
        requires not_begun { get nat_cmp self.now.node.begun txn ≡ None }
        requires node_in_range { self.now.node.clock.node ≤ 15 }
        requires low { IsLow self.now.node.clock }
        ensures { IfOk result (Weighs topology.now self.now (Begins txn body.now)) }
    {
        self.node.weigh_begin(topology, txn, body)
    }

    /// The same of a recover.
    pub fn weigh_recover(
        &self,
        topology: &Topology,
        id: TxnId,
        body: &Body,
    ) -> Result<u64, OutOfMemory>
        requires node_in_range { self.now.node.clock.node ≤ 15 }
        requires low { IsLow self.now.node.clock }
        ensures { IfOk result (Weighs topology.now self.now (Recovers id body.now)) }
    {
        self.node.weigh_recover(topology, id, body)
    }

    /// The same of a message.
    pub fn weigh_step(&self, topology: &Topology, m: &Message) -> Result<u64, OutOfMemory>
        requires { SendsShort topology.now self.now.node (TakesMessage m.now) }
        ensures { IfOk result (Weighs topology.now self.now (TakesMessage m.now)) }
    {
        self.node.weigh_step(topology, m)
    }
}
