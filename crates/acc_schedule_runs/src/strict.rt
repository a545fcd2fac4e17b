//! What holds of the runs of schedules over strict disks. Each law is the contract of a function that does nothing.
ghost use Rattle.std.specs.Prelude.{◌≡◌, ℕ, suc, ◌+◌, ◌/◌, ◌%◌, ◌<◌, ◌↔◌, true, false, List, [], ◌∷◌, ◌++◌, length, Option};
ghost use Rattle.std.specs.List.{AllByRecursion};
ghost use Rattle.acc_stamp.specs.declared.actors.Actor.{Actor};
ghost use Rattle.acc_journal.specs.Calls.{FailsWithin};
ghost use Rattle.acc_message.specs.Items.{same_actor};
ghost use Rattle.acc_message.specs.declared.item.Item.{Item};
ghost use Rattle.acc_message.specs.Run.{Cluster};
ghost use Rattle.acc_schedule.specs.Content.{Content};
ghost use Rattle.acc_schedule.specs.declared.plan.Step.{Step};
ghost use Rattle.acc_schedule_runs.specs.Situations.{opened};
ghost use Rattle.acc_schedule_runs.specs.Moves.{Answers};
ghost use Rattle.acc_schedule_runs.specs.Schedules.{Follows, Obeys};
ghost use Rattle.acc_payloads.specs.Appends.{fails_append};
ghost use Rattle.acc_schedule_runs.specs.Disks.{Disks, after_step, after_fail, after_restart, step_answers, restart_answers};
ghost use Rattle.acc_schedule_runs.specs.StrictMoves.{StrictSituation, opened_strictly, IsStrictNext};
ghost use Rattle.acc_schedule_runs.specs.StrictSchedules.{FollowsStrictly, ObeysStrictly};
ghost use Rattle.acc_schedule_runs.specs.StrictLaws.{after_steps, IsAsBefore, ArmsNothing, no_faults};

/// Over strict disks a step of a schedule takes a situation to one next situation at most, so a plan has one list of items at most.
pub fn one_strict_run()
    ensures next { (cluster : Cluster) (number : ℕ) (step : Step) (s one other : StrictSituation) →
        IsStrictNext cluster number step s one → IsStrictNext cluster number step s other → one ≡ other }
    ensures last { (cluster : Cluster) (number : ℕ) (steps : List Step) (s one other : StrictSituation) →
        FollowsStrictly cluster number steps s one → FollowsStrictly cluster number steps s other → one ≡ other }
    ensures items { (plan : Content) (one other : List Item) → ObeysStrictly plan one → ObeysStrictly plan other → one ≡ other }
{}

/// What a schedule enters over strict disks, it enters with some answers of disks, so that each law of all answers holds of it.
pub fn strict_disks_give_answers()
    ensures follows { (cluster : Cluster) (number : ℕ) (steps : List Step) (s last : StrictSituation) → FollowsStrictly cluster number steps s last →
        (answers : Answers) × Follows cluster answers number steps s.found last.found }
    ensures plan { (plan : Content) (items : List Item) → ObeysStrictly plan items → (answers : Answers) × Obeys plan answers items }
{}

/// A schedule without a step that arms a disk meets no fault of a strict disk.
pub fn nothing_armed_nothing_fails()
    ensures follows { (cluster : Cluster) (earlier : List Item) (number : ℕ) (steps : List Step) (last : StrictSituation) →
        AllByRecursion ArmsNothing steps → FollowsStrictly cluster number steps (opened_strictly earlier) last →
        Follows cluster no_faults number steps (opened earlier) last.found }
    ensures plan { (plan : Content) (items : List Item) → AllByRecursion ArmsNothing plan.steps → ObeysStrictly plan items →
        Obeys plan no_faults items }
{}

/// A run over strict disks is made step by step: one step more goes on from where the others lead.
pub fn strict_runs_are_made_step_by_step()
    ensures { (cluster : Cluster) (number : ℕ) (steps : List Step) (step : Step) (s between last : StrictSituation) →
        FollowsStrictly cluster number steps s between → IsStrictNext cluster (number + length steps) step between last →
        FollowsStrictly cluster number (steps ++ step ∷ []) s last }
{}

/// Where a *fail* armed so many calls to pass, a fourth of them is how many journalled steps of the actor pass, and the next one stops. A
/// restart keeps that step exactly where three calls of its append passed, so that the second sync failed, and the choice is 1. After a
/// restart nothing fails and nothing is kept. What happens to one actor's disk changes nothing of another's. And an append fails by these
/// definitions just where it does by the contracts of a journal.
pub fn armed_calls_are_counted()
    ensures pass { (a : Actor) (disks : Disks) (calls steps place : ℕ) → steps < calls / 4 →
        (step_answers (after_steps steps a (after_fail a calls disks)) a).fails place ≡ false }
    ensures stops { (a : Actor) (disks : Disks) (calls place : ℕ) →
        (step_answers (after_steps (calls / 4) a (after_fail a calls disks)) a).fails place ≡ true }
    ensures kept { (a : Actor) (disks : Disks) (calls choice place : ℕ) →
        ((restart_answers (after_steps (suc (calls / 4)) a (after_fail a calls disks)) a choice).keeps place ≡ true) ↔ ((calls % 4 ≡ 3) × (choice ≡ 1)) }
    ensures afresh { (a : Actor) (disks : Disks) (choice place : ℕ) →
        ((step_answers (after_restart a disks) a).fails place ≡ false) × ((restart_answers (after_restart a disks) a choice).keeps place ≡ false) }
    ensures apart { (a b : Actor) (disks : Disks) (calls : ℕ) → same_actor b a ≡ false →
        IsAsBefore b disks (after_step true a disks) × IsAsBefore b disks (after_fail a calls disks) × IsAsBefore b disks (after_restart a disks) }
    ensures journal { (armed : Option ℕ) → (fails_append armed ≡ true) ↔ FailsWithin 4 armed }
{}
