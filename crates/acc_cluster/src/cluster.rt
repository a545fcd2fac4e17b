//! The steps of a schedule.
ghost use Rattle.std.specs.Prelude.{◌≡◌, true, false, reverse, length, IfErr, OnOk, IfSome, None};
ghost use Rattle.acc_stamp.specs.declared.actors.Actor.{Actor as AnActor};
ghost use Rattle.acc_message.specs.declared.error.Which.{Which as AWhich};
ghost use Rattle.acc_message.specs.Items.{is_begun};
ghost use Rattle.acc_message.specs.Run.{is_down};
ghost use Rattle.acc_schedule.specs.Content.{Content};
ghost use Rattle.acc_schedule.specs.Plan.{IsStep};
ghost use Rattle.acc_schedule_runs.specs.Situations.{Situation, whole};
ghost use Rattle.acc_schedule_runs.specs.Moves.{Answers};
ghost use Rattle.acc_schedule_runs.specs.StrictMoves.{StrictSituation};

use acc_actors::Slot;
use acc_history::History;
use acc_message::{GrowingItems, RunError};
use acc_ports::Rig;
use acc_schedule::{Plan, Step};
use acc_stamp::Actor;
use acc_store::Store;
use std::alloc::Global;

/// The actors of a plan over their disks, and the past that they made together since they were opened.
#[derive(Debug, Drop)]
pub struct Cluster<D: Rig> {
    pub(crate) alloc: Global,
    pub(crate) history: History,
    // The actors at their numbers.
    pub(crate) slots: Vec<Slot<D>>,
}

impl<D: Rig + Drop> Cluster<D> {
    ghost use Rattle.acc_actors.specs.Stores.{IsStoreUp, IsStoreOf};
    ghost use Rattle.acc_cluster.specs.Stands.{StandsFor, StandsStrictly};
    ghost use Rattle.acc_cluster.specs.Limits.{HasEntered};
    ghost use Rattle.acc_cluster.specs.Tested.{IsTested};
    ghost use Rattle.acc_cluster.specs.Steps.{change, StepsTo, StepsStrictly, IfLimit, EndsIn, EndsStrictlyIn, LimitLeaves};

    /// Takes the step of the schedule that has this number. After an error no step may follow. Where the step enters an item, one more has
    /// to be within the limit of items, which is asked first; then the step is passed over by its first cause, or its actor takes it over
    /// its disk; and what that gave is entered within the limit of bytes. After a limit the items that were entered stay, and `finish`
    /// gives them and the disks back.
    pub fn step(&mut self, plan: &Plan, number: u32, step: &Step) -> Result<(), RunError>
        requires standing { (s : Situation) × StandsFor D.Disk plan.now self.old s }
        requires known { IsStep (length plan.now.names) plan.now.topology step.now }

        ensures ok { OnOk result ((s : Situation) (answers : Answers) → StandsFor D.Disk plan.now self.old s
            → StepsTo D.Disk plan.now answers number step.now (change self.old self.new) s) }
        ensures strict { OnOk result ((s : StrictSituation) → StandsStrictly D.Disk plan.now self.old s
            → StepsStrictly D.Disk plan.now number step.now self.new s) }

        ensures limit { IfErr result (IfLimit (λ which most. (s : Situation) (answers : Answers) → StandsFor D.Disk plan.now self.old s
            → (ends : EndsIn plan.now answers number step.now s which most)
            × LimitLeaves D.Disk plan.now self.old self.new s ends.items ends.reached)) }
        ensures strict_limit { IfErr result (IfLimit (λ which most. (s : StrictSituation) → StandsStrictly D.Disk plan.now self.old s
            → (ends : EndsStrictlyIn plan.now number step.now s which most) × HasEntered self.new ends.items)) }
    {
        self.step_by(false, plan, number, step)
    }

    /// Takes the step, as `step`. Where the cluster tests, it asks an actor for nothing that the actor's own past doesn't allow.
    pub(crate) fn step_by(
        &mut self,
        tests: bool,
        plan: &Plan,
        number: u32,
        step: &Step,
    ) -> Result<(), RunError>
        requires standing { tests ≡ false → (s : Situation) × StandsFor D.Disk plan.now self.old s }
        requires tested { tests ≡ true → IsTested D.Disk plan.now self.old }
        requires known { IsStep (length plan.now.names) plan.now.topology step.now }

        ensures ok { OnOk result ((s : Situation) (answers : Answers) → StandsFor D.Disk plan.now self.old s
            → StepsTo D.Disk plan.now answers number step.now (change self.old self.new) s) }
        ensures strict { OnOk result ((s : StrictSituation) → StandsStrictly D.Disk plan.now self.old s
            → StepsStrictly D.Disk plan.now number step.now self.new s) }

        ensures limit { IfErr result (IfLimit (λ which most. (s : Situation) (answers : Answers) → StandsFor D.Disk plan.now self.old s
            → (ends : EndsIn plan.now answers number step.now s which most)
            × LimitLeaves D.Disk plan.now self.old self.new s ends.items ends.reached)) }
        ensures strict_limit { IfErr result (IfLimit (λ which most. (s : StrictSituation) → StandsStrictly D.Disk plan.now self.old s
            → (ends : EndsStrictlyIn plan.now number step.now s which most) × HasEntered self.new ends.items)) }

        ensures tested { tests ≡ true → OnOk result (IsTested D.Disk plan.now self.new) }
    {
        match *step {
            Step::Begin { txn } => self.begin(tests, plan, number, txn),
            Step::Deliver { number: message } => self.deliver(tests, plan, number, message),
            Step::Drop { number: message } => self.drop_message(plan, number, message),
            Step::Recover { txn, node } => self.recover(tests, plan, number, txn, node),
            Step::Slow { txn } => self.slow(tests, plan, number, txn),
            Step::Restart { actor, choice } => self.restart(tests, plan, actor, choice),
            Step::Fail { actor, calls } => self.fail(plan, actor, calls),
            Step::Drain => self.drain(tests, plan),
        }
    }

    /// The items since the cluster was opened, in the order in which they were entered.
    pub fn items(&self) -> &GrowingItems
        ensures { (plan : Content) (s : Situation) → StandsFor D.Disk plan self.now s → result.now.items ≡ reverse s.own }
    {
        self.history.items()
    }

    /// Whether an actor is down.
    pub fn is_down(&self, actor: Actor) -> bool
        ensures { (plan : Content) (s : Situation) → StandsFor D.Disk plan self.now s → result ≡ is_down actor (whole s) }
    {
        self.history.is_down(actor)
    }

    /// Whether the transaction with this number was begun.
    pub fn is_begun(&self, txn: u32) -> bool
        ensures { (plan : Content) (s : Situation) → StandsFor D.Disk plan self.now s → result ≡ is_begun (whole s) txn }
    {
        self.history.is_begun(txn)
    }

    /// The store with this number, where it is up. `None` comes exactly where the actor is no store of the plan or is down.
    pub fn store(&self, actor: Actor) -> Option<&Store>
        ensures some { IfSome result (λ store. (plan : Content) (s : Situation) → StandsFor D.Disk plan self.now s
            → IsStoreUp plan s actor × IsStoreOf plan s actor store.now) }
        ensures none { result ≡ None → (plan : Content) (s : Situation) → StandsFor D.Disk plan self.now s → IsStoreUp plan s actor → ⊥ }
    {
        let place = actor.0 as usize;
        if place >= self.slots.len() {
            return None;
        }
        self.slots[place].store()
    }
}
