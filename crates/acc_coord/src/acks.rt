//! The phases of the slow path.
ghost use Rattle.std.specs.Prelude.{◌≡◌, List, IfOk};
ghost use Rattle.acc_stamp.specs.declared.stamps.TxnId.{TxnId};
ghost use Rattle.acc_stamp.specs.declared.stamps.Ballot.{Ballot as AnyBallot};
ghost use Rattle.acc_stamp.specs.declared.actors.Actor.{Actor as AnyActor};
ghost use Rattle.acc_message.specs.declared.message.Message.{Message as Letter};
ghost use Rattle.acc_message.specs.declared.message.Message.TheVariants.{AcceptOk, CommitOk};
ghost use Rattle.acc_message.specs.Attempts.{Accepting, Committing, plainly};
ghost use Rattle.acc_message.specs.Shares.{shards_used};
ghost use Rattle.acc_message.specs.Coordinator.{on_message, after_accept, after_commit, path_of};
ghost use Rattle.acc_tally.specs.Stands.{StandsFor as Tallies};
ghost use Rattle.acc_coord.specs.Stands.{own_of, attempt_in, attempt_at, IsPlaced, Keeps, Follows};

use crate::coord::Coord;
use crate::step::{Next, Stage, Step, silent};
use acc_base::{Kept, OutOfMemory};
use acc_deps::{Deps, Settled};
use acc_message::Path;
use acc_stamp::{Actor, Ballot, Stamp};
use acc_tally::Tally;
use acc_topology::Topology;

impl Coord {
    // How a majority that has committed came to it.
    fn path(&self) -> Path
        ensures { result ≡ path_of self.now.ballot }
    {
        if self.ballot == Ballot::ZERO {
            Path::Slow
        } else {
            Path::Recovered
        }
    }

    // What the acceptances with the newest one make.
    fn after_accept(
        &self,
        topology: &Topology,
        settled: &Settled,
        tally: Kept<Tally>,
    ) -> Result<Step, OutOfMemory>
        ensures { IfOk result (λ step. (answers more : List Letter) → IsPlaced topology.now self.now →
            Tallies tally (shards_used topology.now self.now.body) (plainly self.now.id more) →
            Follows topology.now self.now answers step (after_accept topology.now (own_of self.now) self.now.id (attempt_at self.now (Accepting settled.now) more) settled.now)) }
    {
        let mut agreed = settled.copy()?;
        let acks = tally.get();
        if acks.majority_everywhere(topology) {
            agreed.deps.union(acks.deps())?;
            return self.commit(agreed);
        }
        Ok(silent(self.allocator(), Next::Stage(Stage::Accepts(agreed, tally))))
    }

    /// A store has accepted.
    pub(crate) fn on_accepted(
        &self,
        topology: &Topology,
        store: Actor,
        deps: &Deps,
    ) -> Result<Step, OutOfMemory>
        ensures { IfOk result (λ step. (to : AnyActor) (id : TxnId) (ballot : AnyBallot) (answers : List Letter) → Keeps topology.now self.now answers →
            Follows topology.now self.now answers step (on_message topology.now (own_of self.now) self.now.id (attempt_in self.now answers) (AcceptOk store to id ballot deps.now))) }
    {
        match &self.stage {
            Stage::Accepts(settled, tally) => match self.counted(
                topology,
                tally,
                store,
                Stamp::ZERO,
                deps,
            )? {
                Some(tally) => self.after_accept(topology, settled, tally),
                None => Ok(silent(self.allocator(), Next::Same)),
            },
            Stage::Votes(_) | Stage::Commits(_, _) | Stage::Reads(_, _) => {
                Ok(silent(self.allocator(), Next::Same))
            }
        }
    }

    // What the commits with the newest one make.
    fn after_commit(
        &self,
        topology: &Topology,
        settled: &Settled,
        tally: Kept<Tally>,
    ) -> Result<Step, OutOfMemory>
        ensures { IfOk result (λ step. (answers more : List Letter) → IsPlaced topology.now self.now →
            Tallies tally (shards_used topology.now self.now.body) (plainly self.now.id more) →
            Follows topology.now self.now answers step (after_commit topology.now (own_of self.now) self.now.id (attempt_at self.now (Committing settled.now) more) settled.now)) }
    {
        let settled = settled.copy()?;
        if tally.get().majority_everywhere(topology) {
            return self.decide(self.path(), settled);
        }
        Ok(silent(
            self.allocator(),
            Next::Stage(Stage::Commits(settled, tally)),
        ))
    }

    /// A store has committed.
    pub(crate) fn on_committed(
        &self,
        topology: &Topology,
        store: Actor,
    ) -> Result<Step, OutOfMemory>
        ensures { IfOk result (λ step. (to : AnyActor) (id : TxnId) (ballot : AnyBallot) (answers : List Letter) → Keeps topology.now self.now answers →
            Follows topology.now self.now answers step (on_message topology.now (own_of self.now) self.now.id (attempt_in self.now answers) (CommitOk store to id ballot))) }
    {
        match &self.stage {
            Stage::Commits(settled, tally) => {
                let none = Deps::new(self.allocator());
                match self.counted(topology, tally, store, Stamp::ZERO, &none)? {
                    Some(tally) => self.after_commit(topology, settled, tally),
                    None => Ok(silent(self.allocator(), Next::Same)),
                }
            }
            Stage::Votes(_) | Stage::Accepts(_, _) | Stage::Reads(_, _) => {
                Ok(silent(self.allocator(), Next::Same))
            }
        }
    }
}
