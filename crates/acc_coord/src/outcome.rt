//! The last phase, from the reads to the outcome.
ghost use Rattle.std.specs.Prelude.{◌≡◌, ◌<◌, ◌++◌, ◌∷◌, false, List, IfOk, OnOk, OnErr};
ghost use Rattle.acc_stamp.specs.declared.stamps.TxnId.{TxnId};
ghost use Rattle.acc_stamp.specs.declared.stamps.Ballot.{Ballot as AnyBallot};
ghost use Rattle.acc_stamp.specs.declared.actors.Actor.{Actor as AnyActor};
ghost use Rattle.acc_topology.specs.Layout.{Layout};
ghost use Rattle.acc_message.specs.declared.message.Message.{Message as Letter};
ghost use Rattle.acc_message.specs.declared.message.Message.TheVariants.{ReadOk};
ghost use Rattle.acc_message.specs.Attempts.{Executing};
ghost use Rattle.acc_stamp.specs.Actor.{shard_of};
ghost use Rattle.acc_topology.specs.Sets.{in_set};
ghost use Rattle.acc_message.specs.Coordinator.{on_message, after_read, finish, inform};
ghost use Rattle.acc_coord.specs.Stands.{own_of, attempt_at, attempt_in, IsPlaced, Keeps, Follows, ReadsAre};

use crate::coord::Coord;
use crate::reads::Reads;
use crate::step::{Next, Stage, Step, silent};
use acc_base::OutOfMemory;
use acc_deps::Settled;
use acc_message::{Emitted, Message, Messages, Note, ReadAnswer, SharedOutcome};
use acc_stamp::{Actor, Ballot, home};
use acc_tally::is_store;
use acc_topology::Topology;
use acc_topology::sets::contains;

impl Coord {
    // Tells the node that began the transaction, where this is another one.
    fn inform(&self, out: &mut Messages, outcome: &SharedOutcome) -> Result<(), OutOfMemory>
        ensures { OnOk result (out.new ≡ out.old ++ inform (own_of self.now) self.now.id self.now.ballot outcome.now) }
    {
        let own = self.own();
        let begun_at = home(self.id, Ballot::ZERO);
        if own != begun_at {
            out.push(Message::Inform {
                from: own,
                to: begun_at,
                id: self.id,
                ballot: self.ballot,
                outcome: outcome.copy()?,
            })?;
        }
        Ok(())
    }

    // Tells the outcome to all stores, and ends. There is room for the node's reply after the note.
    fn finish(&self, settled: &Settled, outcome: &SharedOutcome) -> Result<Step, OutOfMemory>
        ensures { IfOk result (λ step. (layout : Layout) (answers : List Letter) → IsPlaced layout self.now →
            Follows layout self.now answers step (finish layout (own_of self.now) self.now.id (attempt_in self.now answers) settled.now outcome.now)) }
    {
        let told = Note::Outcome {
            id: self.id,
            reply: outcome.outcome().reply.copy()?,
        };
        let notes = self.noted(told, 2)?;
        let mut out = self.apply_all(settled, outcome)?;
        self.inform(&mut out, outcome)?;
        Ok(Step {
            emitted: Emitted { notes, out },
            next: Next::Ended,
        })
    }

    // What the reads with the newest one make, where none of them knows the outcome.
    fn after_read(&self, settled: &Settled, reads: Reads) -> Result<Step, OutOfMemory>
        ensures { IfOk result (λ step. (layout : Layout) (answers more : List Letter) → IsPlaced layout self.now → ReadsAre layout reads more →
            Follows layout self.now answers step (after_read layout (own_of self.now) self.now.id (attempt_at self.now (Executing settled.now) more) settled.now)) }
    {
        if !reads.has_all(self.shards) {
            let settled = settled.copy()?;
            return Ok(silent(self.allocator(), Next::Stage(Stage::Reads(settled, reads))));
        }
        let outcome = SharedOutcome::new(self.body.evaluate(&reads.cells)?)?;
        self.finish(settled, &outcome)
    }

    // The first answer of a shard.
    fn read_one(
        &self,
        topology: &Topology,
        shard: u32,
        settled: &Settled,
        reads: &Reads,
        answer: &ReadAnswer,
    ) -> Result<Step, OutOfMemory>
        requires { shard < 16 }
        ensures { IfOk result (λ step. (from to : AnyActor) (id : TxnId) (ballot : AnyBallot) (answers : List Letter) →
            IsPlaced topology.now self.now → ReadsAre topology.now reads.now answers → shard_of from ≡ shard → in_set reads.now.heard shard ≡ false →
            Follows topology.now self.now answers step (after_read topology.now (own_of self.now) self.now.id (attempt_at self.now (Executing settled.now) (ReadOk from to id ballot answer.now ∷ answers)) settled.now)) }
    {
        match answer {
            ReadAnswer::Known(outcome) => {
                let known = SharedOutcome::new(outcome.copy()?)?;
                self.finish(settled, &known)
            }
            ReadAnswer::Values(cells) => {
                let more = reads.with(topology, shard, cells)?;
                self.after_read(settled, more)
            }
        }
    }

    /// A store has read.
    pub(crate) fn on_read(
        &self,
        topology: &Topology,
        store: Actor,
        answer: &ReadAnswer,
    ) -> Result<Step, OutOfMemory>
        ensures { IfOk result (λ step. (to : AnyActor) (id : TxnId) (ballot : AnyBallot) (answers : List Letter) → Keeps topology.now self.now answers →
            Follows topology.now self.now answers step (on_message topology.now (own_of self.now) self.now.id (attempt_in self.now answers) (ReadOk store to id ballot answer.now))) }
    {
        match &self.stage {
            Stage::Reads(settled, reads) => {
                let shard = store.shard();
                if !is_store(topology, self.shards, store) || contains(reads.heard, shard) {
                    return Ok(silent(self.allocator(), Next::Same));
                }
                self.read_one(topology, shard, settled, reads, answer)
            }
            Stage::Votes(_) | Stage::Accepts(_, _) | Stage::Commits(_, _) => {
                Ok(silent(self.allocator(), Next::Same))
            }
        }
    }
}
