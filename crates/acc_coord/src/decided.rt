//! Decisions and refusals.
ghost use Rattle.std.specs.Prelude.{◌≡◌, [], ◌∷◌, List, IfOk};
ghost use Rattle.acc_topology.specs.Layout.{Layout};
ghost use Rattle.acc_message.specs.declared.message.Message.{Message as Letter};
ghost use Rattle.acc_message.specs.Coordinator.{propose, commit, decide, go, on_nack, on_decided};
ghost use Rattle.acc_coord.specs.Stands.{own_of, attempt_in, has_decided_in, may_adopt_in, IsPlaced, Follows};

use crate::coord::Coord;
use crate::counted::no_answers;
use crate::reads::Reads;
use crate::rounds::Round;
use crate::step::{Next, Stage, Step, silent};
use acc_base::OutOfMemory;
use acc_deps::{Choice, Deps, Settled};
use acc_message::{Emitted, Messages, Note, Notes, Path};
use acc_stamp::{Ballot, Stamp};

impl Coord {
    // A list of one note, with room for so many and no more.
    pub(crate) fn noted(&self, note: Note, room: usize) -> Result<Notes, OutOfMemory>
        ensures { IfOk result (λ notes. notes ≡ note ∷ []) }
    {
        let mut notes = Notes::from_vec(Vec::with_capacity(self.allocator(), room)?);
        notes.push(note)?;
        Ok(notes)
    }

    /// Proposes a timestamp and dependencies.
    #[tactic(auto, using(crate::proofs::Moves::proposes))]
    pub(crate) fn propose(&self, settled: Settled) -> Result<Step, OutOfMemory>
        ensures { IfOk result (λ step. (layout : Layout) (answers : List Letter) → IsPlaced layout self.now →
            Follows layout self.now answers step (propose layout (own_of self.now) self.now.id (attempt_in self.now answers) settled)) }
    {
        let out = self.send(Round::Propose, &settled)?;
        let tally = no_answers(self.allocator(), self.shards)?;
        Ok(Step {
            emitted: Emitted {
                notes: Notes::new(self.allocator()),
                out,
            },
            next: Next::Stage(Stage::Accepts(settled, tally)),
        })
    }

    /// Commits a timestamp and dependencies.
    #[tactic(auto, using(crate::proofs::Moves::commits))]
    pub(crate) fn commit(&self, settled: Settled) -> Result<Step, OutOfMemory>
        ensures { IfOk result (λ step. (layout : Layout) (answers : List Letter) → IsPlaced layout self.now →
            Follows layout self.now answers step (commit layout (own_of self.now) self.now.id (attempt_in self.now answers) settled)) }
    {
        let out = self.send(Round::Fix, &settled)?;
        let tally = no_answers(self.allocator(), self.shards)?;
        Ok(Step {
            emitted: Emitted {
                notes: Notes::new(self.allocator()),
                out,
            },
            next: Next::Stage(Stage::Commits(settled, tally)),
        })
    }

    /// Decides a timestamp and dependencies.
    #[tactic(auto, using(crate::proofs::Moves::decides))]
    pub(crate) fn decide(&self, path: Path, settled: Settled) -> Result<Step, OutOfMemory>
        ensures { IfOk result (λ step. (layout : Layout) (answers : List Letter) → IsPlaced layout self.now →
            Follows layout self.now answers step (decide layout (own_of self.now) self.now.id (attempt_in self.now answers) path settled)) }
    {
        let decide = Note::Decide {
            id: self.id,
            t: settled.t,
            path,
            deps: settled.deps.copy()?,
        };
        let notes = self.noted(decide, 1)?;
        let out = self.send(Round::Decided, &settled)?;
        Ok(Step {
            emitted: Emitted { notes, out },
            next: Next::Stage(Stage::Reads(settled, Reads::new(self.allocator()))),
        })
    }

    /// Goes on with what a recovery has chosen.
    pub(crate) fn chosen(&self, choice: Choice) -> Result<Step, OutOfMemory>
        ensures { IfOk result (λ step. (layout : Layout) (answers : List Letter) → IsPlaced layout self.now →
            Follows layout self.now answers step (go layout (own_of self.now) self.now.id (attempt_in self.now answers) choice)) }
    {
        match choice {
            Choice::Accept(settled) => self.propose(settled),
            Choice::Commit(settled) => self.commit(settled),
            Choice::Stable(settled) => self.decide(Path::Adopted, settled),
        }
    }

    // Whether the attempt is decided.
    fn has_decided(&self) -> bool
        ensures { result ≡ has_decided_in self.now }
    {
        match &self.stage {
            Stage::Votes(_) | Stage::Accepts(_, _) | Stage::Commits(_, _) => false,
            Stage::Reads(_, _) => true,
        }
    }

    // Whether the attempt takes over a decision that a store tells of.
    fn may_adopt(&self) -> bool
        ensures { result ≡ may_adopt_in self.now }
    {
        match &self.stage {
            Stage::Votes(_) => self.ballot == Ballot::ZERO,
            Stage::Accepts(_, _) | Stage::Commits(_, _) => true,
            Stage::Reads(_, _) => false,
        }
    }

    /// A store has promised another ballot.
    #[tactic(auto, using(crate::proofs::Moves::ends, crate::proofs::Moves::nack_of_decided, crate::proofs::Moves::nack_below))]
    pub(crate) fn on_nack(&self, promised: Ballot) -> Result<Step, OutOfMemory>
        ensures { IfOk result (λ step. (layout : Layout) (answers : List Letter) →
            Follows layout self.now answers step (on_nack self.now.id (attempt_in self.now answers) promised)) }
    {
        if self.has_decided() || !(self.ballot < promised) {
            return Ok(silent(self.allocator(), Next::Same));
        }
        let ended = Note::Ended {
            id: self.id,
            ballot: self.ballot,
            by: promised,
        };
        let notes = self.noted(ended, 1)?;
        Ok(Step {
            emitted: Emitted {
                notes,
                out: Messages::new(self.allocator()),
            },
            next: Next::Ended,
        })
    }

    /// A store tells of a decision.
    #[tactic(auto, using(crate::proofs::Moves::adopts, crate::proofs::Moves::adopts_not))]
    pub(crate) fn on_decided(&self, t: Stamp, deps: &Deps) -> Result<Step, OutOfMemory>
        ensures { IfOk result (λ step. (layout : Layout) (answers : List Letter) → IsPlaced layout self.now →
            Follows layout self.now answers step (on_decided layout (own_of self.now) self.now.id (attempt_in self.now answers) (record { t = t; deps = deps.now }))) }
    {
        if !self.may_adopt() {
            return Ok(silent(self.allocator(), Next::Same));
        }
        let deps = deps.copy()?;
        self.decide(Path::Adopted, Settled { t, deps })
    }
}
