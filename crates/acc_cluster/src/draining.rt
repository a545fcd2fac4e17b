//! Drains.
ghost use Rattle.std.specs.Prelude.{◌≡◌, true, false, ℕ, Bool, List, Option as Maybe, IfErr, OnOk};
ghost use Rattle.acc_schedule_runs.specs.Situations.{Situation};

use crate::cluster::Cluster;
use crate::entering::check_place;
use acc_message::RunError;
use acc_ports::Rig;
use acc_schedule::Plan;

impl<D: Rig + Drop> Cluster<D> {
    ghost use Rattle.acc_cluster.specs.Stands.{StandsFor};
    ghost use Rattle.acc_cluster.specs.Steps.{IfLimit, LimitLeaves};
    ghost use Rattle.acc_cluster.specs.Tried.{HasDrained, HitsLimitInDrain};
    ghost use Rattle.acc_cluster.specs.Tested.{IsTested};

    /// All messages that wait are delivered, the oldest first, and those that come meanwhile. Each delivery enters an item, so that the limit
    /// of items ends a drain that would go on for ever.
    pub(crate) fn drain(&mut self, tests: bool, plan: &Plan) -> Result<(), RunError>
        requires standing { tests ≡ false → (s : Situation) × StandsFor D.Disk plan.now self.old s }
        requires tested { tests ≡ true → IsTested D.Disk plan.now self.old }
        ensures ok { OnOk result ((s : Situation) → StandsFor D.Disk plan.now self.old s
            → HasDrained D.Disk plan.now self.old self.new s) }
        ensures limit { IfErr result (IfLimit (λ which most. (s : Situation) → StandsFor D.Disk plan.now self.old s
            → (hits : HitsLimitInDrain D.Disk plan.now self.old s which most)
            × LimitLeaves D.Disk plan.now self.old self.new s hits.items hits.reached)) }
        ensures tested { tests ≡ true → OnOk result (IsTested D.Disk plan.now self.new) }
    {
        while let Some(message) = self.history.oldest_waiting() {
            check_place(&self.history)?;
            self.take(tests, plan, message)?;
        }
        Ok(())
    }
}
