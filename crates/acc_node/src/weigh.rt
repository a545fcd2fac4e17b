//! How much a node would send.
ghost use Rattle.std.specs.Prelude.{◌≡◌, ◌≤◌, ◌<◌, ◌^◌, ℕ, List, None, IfOk};
ghost use Rattle.std.specs.Ordering.{nat_cmp};
ghost use Rattle.std.specs.BTreeMap.{get};
ghost use Rattle.acc_message.specs.NodeRules.{Act, Begins, Recovers, node_emits, node_replay};
ghost use Rattle.acc_message_code.specs.Weight.{weight_of_all};
ghost use Rattle.acc_node.specs.Stands.{StandsFor};
ghost use Rattle.acc_node.specs.Questions.{AreQuestions};

use crate::node::Node;
use acc_base::OutOfMemory;
use acc_code::body_length;
use acc_coord::Coord;
use acc_message::Message;
use acc_message_code::messages_length;
use acc_recover::Recovery;
use acc_stamp::{Ballot, TxnId};
use acc_topology::Topology;
use acc_txn::Body;

impl Node {
    /// The sum of the lengths of what `encode` makes of each message that `begin` would send now, of a transaction that the node
    /// has not begun. Nothing changes. Its number is at most 15 where it was made so, by what it stands for.
    pub fn weigh_begin(
        &self,
        topology: &Topology,
        txn: u32,
        body: &Body,
    ) -> Result<u64, OutOfMemory>
        requires not_begun { get nat_cmp self.now.begun txn ≡ None }
        requires node_in_range { self.now.clock.node ≤ 15 }
        requires drawn_in_range { self.now.clock.drawn < 2 ^ 62 }
        requires seen_in_range { self.now.clock.seen < 2 ^ 62 }
        ensures { IfOk result (λ weight. (number start : ℕ) (acts : List Act) → StandsFor topology.now number start self.now acts →
            weight ≡ weight_of_all (node_emits topology.now number start (node_replay topology.now number start acts) (Begins txn body.now)).out) }
    {
        let id = TxnId(self.clock.peek());
        let (_, out) = Coord::begin(topology, id, body)?;
        Ok(questions_length(topology, body, out.as_slice()))
    }

    /// The same of `recover`.
    pub fn weigh_recover(
        &self,
        topology: &Topology,
        id: TxnId,
        body: &Body,
    ) -> Result<u64, OutOfMemory>
        requires node_in_range { self.now.clock.node ≤ 15 }
        requires drawn_in_range { self.now.clock.drawn < 2 ^ 62 }
        requires seen_in_range { self.now.clock.seen < 2 ^ 62 }
        ensures { IfOk result (λ weight. (number start : ℕ) (acts : List Act) → StandsFor topology.now number start self.now acts →
            weight ≡ weight_of_all (node_emits topology.now number start (node_replay topology.now number start acts) (Recovers id body.now)).out) }
    {
        let ballot = Ballot(self.clock.peek());
        let (_, out) = Recovery::begin(topology, id, ballot, body.copy()?)?;
        Ok(questions_length(topology, body, out.as_slice()))
    }
}

// The length of messages that ask each store of a transaction for something.
fn questions_length(topology: &Topology, body: &Body, questions: &[Message]) -> u64
    requires { AreQuestions topology.now body.now questions.now }
    ensures { result ≡ weight_of_all questions.now }
{
    let _ = (topology.shards(), body_length(body));
    messages_length(questions)
}
