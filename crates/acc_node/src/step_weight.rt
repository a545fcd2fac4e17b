//! How much an attempt would send.
ghost use Rattle.std.specs.Prelude.{◌≡◌, IfOk};
ghost use Rattle.acc_message.specs.Attempts.{Attempt};
ghost use Rattle.acc_message.specs.Coordinator.{Reaction};
ghost use Rattle.acc_message_code.specs.Weight.{weight_of_all};
ghost use Rattle.acc_coord.specs.Weighing.{sent_on};
ghost use Rattle.acc_recover.specs.Stands.{StandsFor as Recovers, WouldJudgeAs};
ghost use Rattle.acc_node.specs.Stands.{RunsAs};
ghost use Rattle.acc_node.specs.Weighing.{AttemptSendsShort, JudgedSendsShort};

use crate::running::Running;
use acc_base::OutOfMemory;
use acc_coord::Coord;
use acc_message::Message;
use acc_message_code::messages_length;
use acc_recover::{Judged, Recovery};
use acc_stamp::TxnId;
use acc_topology::Topology;

impl Running {
    /// The sum of the lengths of what `encode` makes of each message that the attempt would send if it took this one.
    pub(crate) fn weigh(
        &self,
        topology: &Topology,
        id: TxnId,
        m: &Message,
    ) -> Result<u64, OutOfMemory>
        requires { AttemptSendsShort topology.now id self.now m.now }
        ensures { IfOk result (λ weight. (a : Attempt) → RunsAs topology.now id self.now a → weight ≡ weight_of_all (sent_on topology.now id a m.now)) }
    {
        match self {
            Running::Coordinating(coord) => coord.weigh_answer(topology, m),
            Running::Recovering(recovery) => {
                let recovery = recovery.get();
                let judged = recovery.judge(topology, m)?;
                weigh_judged(recovery, topology, id, judged)
            }
        }
    }
}

// The same of an attempt that goes on as a recovery judged.
fn weigh_judged(
    recovery: &Recovery,
    topology: &Topology,
    id: TxnId,
    judged: Judged,
) -> Result<u64, OutOfMemory>
    requires { JudgedSendsShort topology.now id recovery.now judged }
    ensures { IfOk result (λ weight. (a : Attempt) (r : Reaction) → Recovers topology.now id recovery.now a → WouldJudgeAs topology.now id a r judged →
        weight ≡ weight_of_all r.emitted.out) }
{
    match judged {
        Judged::Go(choice) => {
            let ballot = recovery.ballot();
            let (_, emitted) = Coord::go(topology, id, ballot, recovery.body(), choice)?;
            Ok(messages_length(emitted.out.as_slice()))
        }
        Judged::Wait | Judged::Blocked(_) | Judged::Ended(_) => Ok(0),
    }
}
