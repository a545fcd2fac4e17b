//! The limits of a run, and what holds of fronts of runs and of where a limit ends them. Each law is the contract of a function
//! that does nothing.
ghost use Rattle.std.specs.Prelude.{◌≡◌, ◌⊎◌, ℕ, ◌+◌, ◌≤◌, List, [], ◌∷◌, ◌++◌, length};
ghost use Rattle.acc_message.specs.declared.error.Which.{Which};
ghost use Rattle.acc_message.specs.declared.item.Item.{Item};
ghost use Rattle.acc_message.specs.Run.{Cluster};
ghost use Rattle.acc_schedule.specs.Content.{Content};
ghost use Rattle.acc_schedule.specs.declared.plan.Step.{Step};
ghost use Rattle.acc_schedule_runs.specs.Situations.{Situation};
ghost use Rattle.acc_schedule_runs.specs.Moves.{Answers, IsNext};
ghost use Rattle.acc_schedule_runs.specs.Schedules.{Follows, Obeys};
ghost use Rattle.acc_schedule_runs.specs.Laws.{AgreeBelow};
ghost use Rattle.acc_schedule_runs.specs.StrictMoves.{StrictSituation};
ghost use Rattle.acc_schedule_runs.specs.StrictSchedules.{FollowsStrictly, ObeysStrictly};
ghost use Rattle.acc_schedule_runs.specs.Limits.{IsWithin};
ghost use Rattle.acc_schedule_runs.specs.Fronts.{ComesTo, Reaches, Begins, IsFront, LimitEnds};
ghost use Rattle.acc_schedule_runs.specs.StrictFronts.{StrictlyComesTo, StrictlyReaches, IsStrictFront, StrictLimitEnds};

/// A run has at most so many items.
pub const MOST_ITEMS: u64 = 1_000_000;

/// The messages of a run have at most so many bytes together.
pub const MOST_BYTES: u64 = 268_435_456;

/// The fronts of a plan's run with given answers of the disks stand in one line: of two, the longer one begins with the other. Where the
/// run has an end, its items are the longest.
pub fn fronts_stand_in_line()
    ensures line { (plan : Content) (answers : Answers) (one other : List Item) → IsFront plan answers one → IsFront plan answers other →
        length one ≤ length other → Begins one other }
    ensures whole { (plan : Content) (answers : Answers) (items : List Item) → Obeys plan answers items → IsFront plan answers items }
    ensures longest { (plan : Content) (answers : Answers) (items front : List Item) → Obeys plan answers items → IsFront plan answers front →
        Begins front items }
{}

/// Plan and answers fix the front that a limit ends, which limit it is, and its number.
pub fn one_limit()
    ensures { (plan : Content) (answers : Answers) (one other : List Item) (which which_other : Which) (number number_other : ℕ) →
        LimitEnds plan answers one which number → LimitEnds plan answers other which_other number_other →
        (one ≡ other) × (which ≡ which_other) × (number ≡ number_other) }
{}

/// A run that has an end is within the limits, or a limit ends a front of it, and never both.
pub fn a_limit_or_the_whole()
    ensures one { (plan : Content) (answers : Answers) (items : List Item) → Obeys plan answers items →
        IsWithin items ⊎ ((front : List Item) × (which : Which) × (number : ℕ) × LimitEnds plan answers front which number) }
    ensures not_both { (plan : Content) (answers : Answers) (items front : List Item) (which : Which) (number : ℕ) → Obeys plan answers items →
        IsWithin items → LimitEnds plan answers front which number → ⊥ }
{}

/// A front is made step by step: after whole steps it goes on with a part of the next one, whatever steps follow. The answers are read only
/// at the places of its items.
pub fn fronts_are_made_step_by_step()
    ensures step { (cluster : Cluster) (answers : Answers) (number : ℕ) (steps more : List Step) (step : Step) (s between reached : Situation) →
        Follows cluster answers number steps s between → ComesTo cluster answers (number + length steps) step between reached →
        Reaches cluster answers number (steps ++ step ∷ more) s reached }
    ensures answers { (cluster : Cluster) (answers other : Answers) (number : ℕ) (steps : List Step) (s reached : Situation) →
        AgreeBelow answers other (length reached.own) → Reaches cluster answers number steps s reached → Reaches cluster other number steps s reached }
{}

/// Over strict disks the plan alone fixes the front that a limit ends, which limit it is, and its number. It is one with some answers of the
/// disks.
pub fn one_limit_over_strict_disks()
    ensures line { (plan : Content) (one other : List Item) → IsStrictFront plan one → IsStrictFront plan other → length one ≤ length other →
        Begins one other }
    ensures one { (plan : Content) (one other : List Item) (which which_other : Which) (number number_other : ℕ) →
        StrictLimitEnds plan one which number → StrictLimitEnds plan other which_other number_other →
        (one ≡ other) × (which ≡ which_other) × (number ≡ number_other) }
    ensures answered { (plan : Content) (items : List Item) (which : Which) (number : ℕ) → StrictLimitEnds plan items which number →
        (answers : Answers) × LimitEnds plan answers items which number }
{}

/// Over strict disks too a run that has an end is within the limits, or a limit ends a front of it, and never both; and a front is made step
/// by step.
pub fn a_limit_or_the_whole_over_strict_disks()
    ensures whole { (plan : Content) (items : List Item) → ObeysStrictly plan items → IsStrictFront plan items }
    ensures longest { (plan : Content) (items front : List Item) → ObeysStrictly plan items → IsStrictFront plan front → Begins front items }
    ensures one { (plan : Content) (items : List Item) → ObeysStrictly plan items →
        IsWithin items ⊎ ((front : List Item) × (which : Which) × (number : ℕ) × StrictLimitEnds plan front which number) }
    ensures not_both { (plan : Content) (items front : List Item) (which : Which) (number : ℕ) → ObeysStrictly plan items →
        IsWithin items → StrictLimitEnds plan front which number → ⊥ }
    ensures step { (cluster : Cluster) (number : ℕ) (steps more : List Step) (step : Step) (s between reached : StrictSituation) →
        FollowsStrictly cluster number steps s between → StrictlyComesTo cluster (number + length steps) step between reached →
        StrictlyReaches cluster number (steps ++ step ∷ more) s reached }
{}
