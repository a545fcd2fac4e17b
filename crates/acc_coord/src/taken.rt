//! The step of each message.
ghost use Rattle.std.specs.Prelude.{◌≡◌, List, IfOk};
ghost use Rattle.acc_message.specs.declared.message.Message.{Message as Letter};
ghost use Rattle.acc_message.specs.Coordinator.{reaction, on_message};
ghost use Rattle.acc_coord.specs.Stands.{own_of, attempt_in, Keeps, Follows};

use crate::coord::Coord;
use crate::step::{Next, Step, silent};
use acc_base::OutOfMemory;
use acc_message::Message;
use acc_topology::Topology;

impl Coord {
    // The step of a message of the attempt.
    fn taken(&self, topology: &Topology, m: &Message) -> Result<Step, OutOfMemory>
        ensures { IfOk result (λ step. (answers : List Letter) → Keeps topology.now self.now answers →
            Follows topology.now self.now answers step (on_message topology.now (own_of self.now) self.now.id (attempt_in self.now answers) m.now)) }
    {
        match m {
            Message::PreAcceptOk {
                from,
                vote,
                deps,
                ..
            } => self.on_vote(topology, *from, *vote, deps),
            Message::AcceptOk { from, deps, .. } => self.on_accepted(topology, *from, deps),
            Message::CommitOk { from, .. } => self.on_committed(topology, *from),
            Message::ReadOk { from, answer, .. } => self.on_read(topology, *from, answer),
            Message::Nack { promised, .. } => self.on_nack(*promised),
            Message::Decided { t, deps, .. } => self.on_decided(*t, deps),
            Message::PreAccept { .. }
            | Message::Accept { .. }
            | Message::Commit { .. }
            | Message::Stable { .. }
            | Message::Apply { .. }
            | Message::Recover { .. }
            | Message::RecoverOk { .. }
            | Message::Inform { .. } => Ok(silent(self.allocator(), Next::Same)),
        }
    }

    /// What a message makes of the attempt. A message of another attempt makes nothing.
    pub(crate) fn step(&self, topology: &Topology, m: &Message) -> Result<Step, OutOfMemory>
        ensures { IfOk result (λ step. (answers : List Letter) → Keeps topology.now self.now answers →
            Follows topology.now self.now answers step (reaction topology.now (own_of self.now) self.now.id (attempt_in self.now answers) m.now)) }
    {
        if m.ballot() == self.ballot {
            self.taken(topology, m)
        } else {
            Ok(silent(self.allocator(), Next::Same))
        }
    }
}
