//! The commands of an actor.
ghost use Rattle.std.specs.Prelude.{◌≡◌, ◌+◌, ◌<◌, ◌^◌, true, length, take, Some};
ghost use Rattle.std.specs.List.{slice_get, list_any};
ghost use Rattle.acc_schedule.specs.declared.plan.Step.{Step as AStep};
ghost use Rattle.acc_desk.specs.Commands.{begins_it, BeginsOnce};

use acc_schedule::{Step, Steps};
use std::marker::Model;

/// The commands of an actor, in their order. Contracts see them as a list.
#[derive(Drop)]
pub(crate) struct Commands {
    steps: Steps,
    /// No transaction is begun twice. Where this is false, one may be.
    once: bool,
}

impl Model for Commands {
    ghost use Rattle.std.specs.Prelude.{◌≡◌, true, List};
    ghost use Rattle.acc_schedule.specs.declared.plan.Step.{Step};
    ghost use Rattle.acc_desk.specs.Commands.{BeginsOnce};

    ghost Value = { List Step };

    ghost view = { λ c. c.steps };

    ghost invariant = { λ c. c.once ≡ true → BeginsOnce c.steps };
}

impl Commands {
    /// The commands in this list.
    pub(crate) fn new(steps: Steps) -> Commands
        ensures { result ≡ steps }
    {
        let once = rise(steps.as_slice());
        Commands { steps, once }
    }

    /// The list of them.
    pub(crate) fn into_steps(self) -> Steps
        ensures { result ≡ self }
    {
        let Commands { steps, once: _ } = self;
        steps
    }

    /// The commands as a slice.
    pub(crate) fn as_slice(&self) -> &[Step]
        ensures { result.now ≡ self.now }
    {
        self.steps.as_slice()
    }

    /// How many there are.
    pub(crate) fn len(&self) -> usize
        ensures { result ≡ length self.now }
    {
        self.steps.len()
    }

    /// Whether a command before this one, which begins the transaction, begins it too.
    pub(crate) fn is_begun_before(&self, place: usize, txn: u32) -> bool
        requires { slice_get self.now place ≡ Some (AStep.Begin txn) }
        ensures begun { result ≡ list_any (begins_it txn) (take place self.now) }
        ensures low { place + 1 < 2 ^ 64 }
    {
        let before = &self.steps.as_slice()[..place];
        !self.once && has_begun(before, txn)
    }
}

// Whether the transactions that are begun have rising numbers.
fn rise(commands: &[Step]) -> bool
    ensures { result ≡ true → BeginsOnce commands.now }
{
    let mut least: u64 = 0;
    for command in commands {
        if let Step::Begin { txn } = *command {
            if u64::from(txn) < least {
                return false;
            }
            least = u64::from(txn) + 1;
        }
    }
    true
}

// Whether some of the commands begins the transaction.
fn has_begun(commands: &[Step], txn: u32) -> bool
    ensures { result ≡ list_any (begins_it txn) commands.now }
{
    for command in commands {
        if begins_txn(*command, txn) {
            return true;
        }
    }
    false
}

// Whether the command begins the transaction.
fn begins_txn(command: Step, txn: u32) -> bool
    ensures { result ≡ begins_it txn command }
{
    match command {
        Step::Begin { txn: begun } => begun == txn,
        _ => false,
    }
}
