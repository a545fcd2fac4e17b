//! What strict disks fix of looks. The law is the contract of a function that only calls another law.
ghost use Rattle.std.specs.Prelude.{◌≡◌, List};
ghost use Rattle.acc_message.specs.declared.item.Item.{Item};
ghost use Rattle.acc_schedule.specs.Content.{Content};
ghost use Rattle.acc_glance.specs.declared.looks.Look.{Look};
ghost use Rattle.acc_glance.specs.declared.seen.Seen.{Seen};
ghost use Rattle.acc_glance.specs.Runs.{AreSeenStrictly};

use acc_schedule_runs::strict::one_strict_run;

/// Over strict disks the plan and its looks alone fix the items and what each look has seen, over however many moments after the last step
/// it is told.
pub fn one_sight_over_strict_disks()
    ensures items { (plan : Content) (looks : List Look) (one other : List Item) (seens other_seens : List Seen) →
        AreSeenStrictly plan looks one seens → AreSeenStrictly plan looks other other_seens → one ≡ other }
    ensures seens { (plan : Content) (looks : List Look) (one other : List Item) (seens other_seens : List Seen) →
        AreSeenStrictly plan looks one seens → AreSeenStrictly plan looks other other_seens → seens ≡ other_seens }
{
    one_strict_run();
}
