//! What holds of desks. Each law is the contract of a function that does nothing.
ghost use Rattle.std.specs.Prelude.{◌≡◌, ◌≤◌, ℕ, Bool, List, drop, reverse, map, All, Any, Contains};
ghost use mathlib.Core.List.{IsPrefix};
ghost use Rattle.acc_stamp.specs.declared.actors.Actor.{Actor};
ghost use Rattle.acc_message.specs.declared.item.Item.{Item};
ghost use Rattle.acc_payloads.specs.Items.{downs_in};
ghost use Rattle.acc_schedule.specs.Actors.{actors};
ghost use Rattle.acc_schedule.specs.Content.{Content};
ghost use Rattle.acc_schedule_runs.specs.Laws.{NobodyIsDown};
ghost use Rattle.acc_schedule.specs.declared.plan.Step.{Step};
ghost use Rattle.acc_schedule_runs.specs.Limits.{most_items, most_bytes, IsWithin};
ghost use Rattle.acc_actors.specs.declared.slot.Slot.{Slot};
ghost use Rattle.acc_free_laws.specs.FreeRun.{IsFreeRun};
ghost use Rattle.acc_tape.specs.Lists.{items_of};
ghost use Rattle.acc_tape.specs.ItemViews.{actor_of_item};
ghost use Rattle.acc_tape.specs.Seats.{TapeName, SeatView};
ghost use Rattle.acc_desk.specs.declared.desk.Desk.{Desk as ADesk};
ghost use Rattle.acc_desk.specs.Desks.{desk_with, run_with, no_hold, IsAt, IsSeated, IsSound, AreSound};
ghost use Rattle.acc_desk.specs.Fits.{fits_plan};
ghost use Rattle.acc_desk.specs.Threads.{seat_of, AreEnteredBy};

use crate::rules::Planned;
use acc_ports::Rig;

/// Once the tape is closed, the actor of a sound desk stands for the whole list.
pub fn desks_stand_at_the_end<D: Rig>()
    ensures { (strict_run : Bool) (plan : Content) (tape : TapeName) (a : Actor) (seat : SeatView Item) (slot : Slot D) (commands : List Step) (gone : ℕ) →
        tape.limits.items ≤ most_items → IsSound D.Disk (run_with strict_run plan tape) (desk_with a seat slot commands gone) → (items : List Item) →
        IsPrefix seat.seen items → items_of actor_of_item seat.actor items ≡ seat.mine → fits_plan plan items →
        IsAt D.Disk strict_run plan a (reverse items) slot (drop gone commands) }
{}

/// Where no actor of the plan went down, nobody did.
pub fn nobody_goes_down()
    ensures { (plan : Content) (items : List Item) → IsFreeRun plan items → ((a : Actor) → Contains (actors plan.topology) a → downs_in a items ≡ 0) →
        NobodyIsDown items }
{}

/// The items of a closed tape are within the limits: whoever entered the last one has seen them all.
pub fn closed_items_are_within()
    ensures { (tape : TapeName) (made : List ℕ) (seats : List (SeatView Item)) (items : List Item) → tape.limits.items ≤ most_items →
        tape.limits.weight ≤ most_bytes → All (λ (seat : SeatView Item). (a : Actor) × IsSeated tape a no_hold seat) seats →
        All (λ (seat : SeatView Item). IsPrefix seat.seen items × (items_of actor_of_item seat.actor items ≡ seat.mine) × Contains made seat.actor) seats →
        All (λ (item : Item). Any (λ (seat : SeatView Item). seat.actor ≡ actor_of_item item) seats) items →
        IsWithin (reverse items) }
{}

/// What sound desks entered at one tape is one run, once their seats and the tape are closed: in it the own items of each store and node
/// stand once and in order, and there are no others.
pub fn threads_make_one_run<D: Rig, J: Planned>()
    ensures { (strict_run : Bool) (plan : Content) (tape : TapeName) (made : List ℕ) (desks : List (ADesk D J)) (items : List Item) →
        AreSound D.Disk strict_run plan tape desks →
        All (λ (seat : SeatView Item). IsPrefix seat.seen items × (items_of actor_of_item seat.actor items ≡ seat.mine) × Contains made seat.actor) (map seat_of desks) →
        All (λ (item : Item). Any (λ (seat : SeatView Item). seat.actor ≡ actor_of_item item) (map seat_of desks)) items →
        fits_plan plan items → AreEnteredBy plan desks items }
{}
