//! A cluster whose actors need not come from one run.
ghost use Rattle.std.specs.Prelude.{◌≡◌, List, reverse, length, IfOk, IfErr, OnOk};
ghost use Rattle.std.specs.List.{AllByRecursion};
ghost use Rattle.acc_message.specs.declared.item.Item.{Item as AnItem};
ghost use Rattle.acc_schedule.specs.Content.{Content};
ghost use Rattle.acc_schedule.specs.Plan.{IsStep};
ghost use Rattle.acc_schedule_runs.specs.Situations.{Situation, opened};
ghost use Rattle.acc_schedule_runs.specs.Moves.{Answers};
ghost use Rattle.acc_schedule_runs.specs.StrictMoves.{StrictSituation, opened_strictly};
ghost use Rattle.acc_cluster.specs.Opened.{IsNodeOf, IsStoreOf, AreActorsOf, IsEarlier, AreUnarmed};

use crate::cluster::Cluster;
use crate::ending::{Ended, Remains};
use acc_base::OutOfMemory;
use acc_durable_node::DurableNode;
use acc_durable_store::DurableStore;
use acc_message::{GrowingItems, RunError};
use acc_ports::Rig;
use acc_schedule::{Plan, Step};
use std::alloc::Global;

/// The actors of a plan over their disks, each of which stands for some past of its own: of journals that some run left, or nobody's run.
/// Where they stand for one run, a step does what `Cluster::step` does. What no run would ask of an actor isn't asked: a step then answers
/// want of memory.
#[derive(Debug, Drop)]
pub struct TestedCluster<D: Rig> {
    cluster: Cluster<D>,
}

impl<D: Rig + Drop> TestedCluster<D> {
    ghost use Rattle.acc_cluster.specs.Stands.{StandsFor, StandsStrictly};
    ghost use Rattle.acc_cluster.specs.Limits.{HasEntered, StopsAt};
    ghost use Rattle.acc_cluster.specs.Steps.{change, StepsTo, StepsStrictly, IfLimit, EndsIn, EndsStrictlyIn, LimitLeaves};
    ghost use Rattle.acc_cluster.specs.Ends.{IsEndOf};
    ghost use Rattle.acc_cluster.specs.Tested.{IsTested, HaveLowPasts};

    /// The cluster of the actors of a plan, as `Cluster::of`, whatever pasts they stand for. No height in these is above 2^61.
    pub fn of(
        alloc: Global,
        plan: &Plan,
        nodes: Vec<DurableNode<D>>,
        stores: Vec<DurableStore<D>>,
    ) -> Result<TestedCluster<D>, OutOfMemory>
        requires nodes { AllByRecursion (IsNodeOf D.Disk plan.now) nodes.items }
        requires stores { AllByRecursion (IsStoreOf D.Disk plan.now) stores.items }
        requires actors { AreActorsOf plan.now nodes.items stores.items }
        requires pasts { HaveLowPasts plan.now nodes.items stores.items }
        ensures tested { IfOk result (λ opened. IsTested D.Disk plan.now opened.cluster) }
        ensures ok { IfOk result (λ opened_over. (earlier : List AnItem) → IsEarlier plan.now nodes.items stores.items earlier
            → StandsFor D.Disk plan.now opened_over.cluster (opened earlier)) }
        ensures strict { IfOk result (λ opened_over. (earlier : List AnItem) → IsEarlier plan.now nodes.items stores.items earlier
            → AreUnarmed D.Disk nodes.items stores.items
            → StandsStrictly D.Disk plan.now opened_over.cluster (opened_strictly earlier)) }
    {
        let cluster = Cluster::of(alloc, plan, nodes, stores)?;
        Ok(TestedCluster { cluster })
    }

    /// Takes a step of the schedule, as `Cluster::step`. Want of memory comes also where an actor's own past doesn't allow the call, and
    /// where what it gave doesn't fit its format; then nothing is entered. After an error no step may follow.
    pub fn step(&mut self, plan: &Plan, number: u32, step: &Step) -> Result<(), RunError>
        requires tested { IsTested D.Disk plan.now self.old.cluster }
        requires known { IsStep (length plan.now.names) plan.now.topology step.now }

        ensures tested { OnOk result (IsTested D.Disk plan.now self.new.cluster) }

        ensures ok { OnOk result ((s : Situation) (answers : Answers) → StandsFor D.Disk plan.now self.old.cluster s
            → StepsTo D.Disk plan.now answers number step.now (change self.old.cluster self.new.cluster) s) }
        ensures strict { OnOk result ((s : StrictSituation) → StandsStrictly D.Disk plan.now self.old.cluster s
            → StepsStrictly D.Disk plan.now number step.now self.new.cluster s) }

        ensures limit { IfErr result (IfLimit (λ which most. (s : Situation) (answers : Answers) → StandsFor D.Disk plan.now self.old.cluster s
            → (ends : EndsIn plan.now answers number step.now s which most)
            × LimitLeaves D.Disk plan.now self.old.cluster self.new.cluster s ends.items ends.reached)) }
        ensures strict_limit { IfErr result (IfLimit (λ which most. (s : StrictSituation) → StandsStrictly D.Disk plan.now self.old.cluster s
            → (ends : EndsStrictlyIn plan.now number step.now s which most) × HasEntered self.new.cluster ends.items)) }
    {
        self.cluster.step_by(true, plan, number, step)
    }

    /// The items since the cluster was opened, in the order in which they were entered.
    pub fn items(&self) -> &GrowingItems
        ensures { (plan : Content) (s : Situation) → StandsFor D.Disk plan self.now.cluster s → result.now.items ≡ reverse s.own }
    {
        self.cluster.items()
    }

    /// Gives the items and the disks back, as `Cluster::finish`.
    pub fn finish(self, remains: &mut Remains) -> Result<Ended<D>, OutOfMemory>
        ensures ok { IfOk result (λ ended. (plan : Content) (s : Situation) → StandsFor D.Disk plan self.cluster s → IsEndOf D.Disk plan s.own s ended) }
        ensures limited { IfOk result (λ ended. (plan : Content) (items : List AnItem) (s : Situation) → StopsAt D.Disk plan self.cluster items s
            → IsEndOf D.Disk plan items s ended) }
    {
        self.cluster.finish(remains)
    }
}
