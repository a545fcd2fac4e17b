//! How much an answer would send.
ghost use Rattle.std.specs.Prelude.{◌≡◌, IfOk};
ghost use Rattle.acc_stamp.specs.declared.stamps.TxnId.{TxnId};
ghost use Rattle.acc_message.specs.Attempts.{Attempt};
ghost use Rattle.acc_message_code.specs.Weight.{weight_of_all};
ghost use Rattle.acc_coord.specs.Stands.{StandsFor};
ghost use Rattle.acc_coord.specs.Weighing.{SendsShort, sent_on};

use crate::coord::Coord;
use acc_base::OutOfMemory;
use acc_message::Message;
use acc_message_code::messages_length;
use acc_topology::Topology;

impl Coord {
    /// The sum of the lengths of what `encode` makes of each message that `on_answer` would send now. Nothing changes.
    pub fn weigh_answer(&self, topology: &Topology, m: &Message) -> Result<u64, OutOfMemory>
        requires { SendsShort topology.now self.now m.now }
        ensures { IfOk result (λ weight. (x : TxnId) (a : Attempt) → StandsFor topology.now x self.now a →
            weight ≡ weight_of_all (sent_on topology.now x a m.now)) }
    {
        let step = self.step(topology, m)?;
        Ok(messages_length(step.emitted.out.as_slice()))
    }
}
