//! What holds of the runs of schedules. Each law is the contract of a function that does nothing.
ghost use Rattle.std.specs.Prelude.{◌≡◌, ℕ, ◌+◌, ◌≤◌, List, [], ◌∷◌, ◌++◌, length};
ghost use Rattle.std.specs.List.{AllByRecursion};
ghost use Rattle.acc_stamp.specs.declared.actors.Actor.{Actor};
ghost use Rattle.acc_message.specs.declared.item.Item.{Item};
ghost use Rattle.acc_message.specs.declared.item.Skip.{Skip};
ghost use Rattle.acc_message.specs.Run.{Cluster, IsRun};
ghost use Rattle.acc_safety.specs.Calm.{IsCalm};
ghost use Rattle.acc_schedule.specs.Content.{Content};
ghost use Rattle.acc_schedule.specs.Plan.{IsPlan};
ghost use Rattle.acc_schedule.specs.declared.plan.Step.{Step};
ghost use Rattle.acc_schedule_runs.specs.Situations.{Situation, opened, whole, stopped_at};
ghost use Rattle.acc_schedule_runs.specs.Moves.{Answers, with_item, IsNext};
ghost use Rattle.acc_schedule_runs.specs.Causes.{IsCause};
ghost use Rattle.acc_schedule_runs.specs.Schedules.{Follows, cluster_of, Obeys};
ghost use Rattle.acc_schedule_runs.specs.Laws.{AgreeBelow, NeverFails, NobodyIsDown, NothingIsLost, EndsWithDrain, IsStepOf};

/// A step of a schedule takes a situation to one next situation at most, so a plan has one list of items at most for each answers of
/// the disks.
pub fn one_run()
    ensures next { (cluster : Cluster) (answers : Answers) (number : ℕ) (step : Step) (s one other : Situation) →
        IsNext cluster answers number step s one → IsNext cluster answers number step s other → one ≡ other }
    ensures last { (cluster : Cluster) (answers : Answers) (number : ℕ) (steps : List Step) (s one other : Situation) →
        Follows cluster answers number steps s one → Follows cluster answers number steps s other → one ≡ other }
    ensures items { (plan : Content) (answers : Answers) (one other : List Item) → Obeys plan answers one → Obeys plan answers other →
        one ≡ other }
{}

/// Where no disk fails, nobody goes down and nothing is lost.
pub fn nobody_goes_down()
    ensures { (cluster : Cluster) (answers : Answers) (earlier : List Item) (steps : List Step) (last : Situation) → NeverFails answers →
        NobodyIsDown earlier → Follows cluster answers 0 steps (opened earlier) last → NobodyIsDown (whole last) × NothingIsLost last.own }
{}

/// A schedule of begins and drains that ends with a drain, over disks that don't fail, leaves no message waiting: its run is calm.
pub fn drains_leave_nothing()
    ensures { (plan : Content) (answers : Answers) (items : List Item) → NeverFails answers → EndsWithDrain plan.steps →
        Obeys plan answers items → IsCalm items }
{}

/// Whatever the disks answer, the items of a schedule, after the run that stood before, are a run; from fresh actors those of a plan
/// are a run of its cluster.
pub fn schedules_give_runs()
    ensures behind { (cluster : Cluster) (answers : Answers) (earlier : List Item) (steps : List Step) (last : Situation) →
        IsRun cluster earlier → AllByRecursion (IsStepOf cluster) steps → Follows cluster answers 0 steps (opened earlier) last →
        IsRun cluster (whole last) }
    ensures plan { (plan : Content) (answers : Answers) (items : List Item) → IsPlan plan → Obeys plan answers items →
        IsRun (cluster_of plan) items }
{}

/// A schedule stops one step of an actor at a time, so each of its restarts keeps one at most.
pub fn schedules_stop_one_step()
    ensures { (cluster : Cluster) (answers : Answers) (earlier : List Item) (steps : List Step) (last : Situation) (a : Actor) →
        Follows cluster answers 0 steps (opened earlier) last → length (stopped_at a last.stopped) ≤ 1 }
{}

/// A step is passed over exactly where it has a cause for that, and then nothing but the skip is entered.
pub fn skips_have_causes()
    ensures passed { (cluster : Cluster) (answers : Answers) (number : ℕ) (step : Step) (s next : Situation) (cause : Skip) →
        IsNext cluster answers number step s next → IsCause cluster s step cause → next ≡ with_item (Item.Skipped number cause) s }
    ensures only { (cluster : Cluster) (answers : Answers) (number : ℕ) (step : Step) (s next : Situation) (cause : Skip) →
        IsNext cluster answers number step s next → next.own ≡ Item.Skipped number cause ∷ s.own → IsCause cluster s step cause }
{}

/// A run is made step by step: the answers are read only at the places of its items, so what the disks answer later may be anything, and
/// one step more goes on from where the others lead.
pub fn runs_are_made_step_by_step()
    ensures answers { (cluster : Cluster) (answers other : Answers) (number : ℕ) (steps : List Step) (s last : Situation) →
        AgreeBelow answers other (length last.own) → Follows cluster answers number steps s last → Follows cluster other number steps s last }
    ensures step { (cluster : Cluster) (answers : Answers) (number : ℕ) (steps : List Step) (step : Step) (s between last : Situation) →
        Follows cluster answers number steps s between → IsNext cluster answers (number + length steps) step between last →
        Follows cluster answers number (steps ++ step ∷ []) s last }
{}
