//! Outcomes that are shared.
ghost use Rattle.std.specs.Prelude.{◌≡◌, IfOk};

use acc_base::{Duplicate, OutOfMemory};
use acc_txn::Outcome;
use std::alloc::Global;
use std::marker::Model;
use std::sync::Arc;

/// An outcome whose copies share it. Contracts see the outcome.
#[derive(Debug, Drop)]
pub struct SharedOutcome {
    outcome: Arc<Outcome, Global>,
}

impl Model for SharedOutcome {
    ghost use Rattle.std.specs.Arc.{arc_value};
    ghost use Rattle.acc_txn.specs.declared.outcome.Outcome.{Outcome as Meant};

    ghost Value = { Meant };

    ghost view = { λ s. arc_value s.outcome };
}

impl SharedOutcome {
    /// The same outcome, which may be shared now.
    pub fn new(outcome: Outcome) -> Result<SharedOutcome, OutOfMemory>
        ensures { IfOk result (λ shared. shared ≡ outcome) }
    {
        let alloc = outcome.writes.allocator();
        Ok(SharedOutcome {
            outcome: Arc::new(alloc, outcome)?,
        })
    }

    /// The outcome.
    pub fn outcome(&self) -> &Outcome
        ensures { result.now ≡ self.now }
    {
        &self.outcome
    }

    /// The same outcome, shared with this one. It takes no memory of its own.
    pub fn copy(&self) -> Result<SharedOutcome, OutOfMemory>
        ensures { IfOk result (λ copy. copy ≡ self.now) }
    {
        Ok(SharedOutcome {
            outcome: Arc::try_clone(&self.outcome)?,
        })
    }
}

impl Duplicate for SharedOutcome {
    fn copy(&self) -> Result<SharedOutcome, OutOfMemory> {
        SharedOutcome::copy(self)
    }
}
