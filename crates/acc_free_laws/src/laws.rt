//! What holds of actors that step freely. Each law is the contract of a function that does nothing, or only calls another law.
ghost use Rattle.std.specs.Prelude.{◌≡◌, ℕ, ◌+◌, ◌≤◌, Bool, true, false, List, [], ◌∷◌, ◌++◌, Option, Contains, count_by, length};
ghost use Rattle.std.specs.List.{AllByRecursion};
ghost use Rattle.acc_stamp.specs.declared.actors.Actor.{Actor};
ghost use Rattle.acc_message.specs.declared.entry.Event.{Event};
ghost use Rattle.acc_message.specs.declared.item.Item.{Item};
ghost use Rattle.acc_message.specs.Items.{same_actor, notes_of};
ghost use Rattle.acc_message.specs.NodeRules.{Act};
ghost use Rattle.acc_message.specs.Run.{Cluster, kept_of, is_down, EachStands};
ghost use Rattle.acc_safety.specs.Agreement.{Agreement};
ghost use Rattle.acc_safety.specs.Calm.{EachBegunIsAnswered};
ghost use Rattle.acc_safety.specs.Coverage.{Coverage};
ghost use Rattle.acc_safety.specs.SerialOutcomes.{SerialOutcomes};
ghost use Rattle.acc_payloads.specs.Items.{downs_in};
ghost use Rattle.acc_report.specs.Report.{is_begin, is_reply, last_line};
ghost use Rattle.acc_report_line.specs.declared.line.Line.{Line};
ghost use Rattle.acc_schedule.specs.Actors.{actors};
ghost use Rattle.acc_schedule.specs.Content.{Content};
ghost use Rattle.acc_schedule.specs.Plan.{IsPlan};
ghost use Rattle.acc_schedule.specs.declared.plan.Step.{Step};
ghost use Rattle.acc_schedule_runs.specs.Situations.{Stopped, Situation, whole, stopped_at, without, stops_of, receiver_in, waits, NothingWaits};
ghost use Rattle.acc_schedule_runs.specs.Moves.{Answers, with_item, event_in, entered, is_journalled, stopped_by, tried_if, tried, kept_if, reopened, Drains, IsNext};
ghost use Rattle.acc_schedule_runs.specs.Schedules.{cluster_of};
ghost use Rattle.acc_schedule_runs.specs.Laws.{NobodyIsDown};
ghost use Rattle.acc_pasts.specs.Entries.{entering, MayTake};
ghost use Rattle.acc_pasts.specs.Pasts.{IsUntouched};
ghost use Rattle.acc_pasts.specs.Stopped.{AreDifferent, IsSameStep, AreSameSteps};
ghost use Rattle.acc_free_laws.specs.Commands.{commands_of, is_restart, is_event_of, is_message, IsPassed, IsReady, IsHeld};
ghost use Rattle.acc_free_laws.specs.Turns.{Went};
ghost use Rattle.acc_free_laws.specs.FreeRun.{is_plain_event, IsUntaken, KeepsSixteen, AreOthers, IsFreeRun, alone};
ghost use Rattle.acc_free_laws.specs.Serving.{IsServing, MayStop, HasGone, AreStopsOf};
ghost use Rattle.acc_free_laws.specs.Served.{IsServed, IsQuiet, HasNoRecover, IsBegunIn};

use acc_calm::laws::calm;
use acc_plan_laws::laws::{plans_are_valid, plans_have_few_bodies};
use acc_run_laws::receivers::{messages_go_to_actors, nodes_are_actors};

/// No items are a free run, and of every actor all commands are left.
pub fn free_runs_begin()
    ensures items { (plan : Content) → IsFreeRun plan [] }
    ensures serving { (plan : Content) → IsPlan plan → IsServing plan (alone [] []) }
    ensures gone { (plan : Content) (a : Actor) → HasGone plan (alone [] []) a (commands_of plan a) }
{
    plans_are_valid();
    plans_have_few_bodies();
}

/// The items of other actors change nothing for an actor: whether something may be taken, what its next entry would be, and whether its
/// message was taken.
pub fn others_change_nothing()
    ensures untouched { (cluster : Cluster) (seen others : List Item) (a : Actor) → AreOthers a others →
        IsUntouched cluster seen (others ++ seen) a }
    ensures may { (cluster : Cluster) (seen others : List Item) (a : Actor) (event : Event) (act : Act) → AreOthers a others →
        EachStands cluster (others ++ seen) → is_plain_event event ≡ true → MayTake cluster seen a event act →
        MayTake cluster (others ++ seen) a event act }
    ensures entering { (cluster : Cluster) (seen others : List Item) (a : Actor) (event : Event) (act : Act) (lost : Bool) → AreOthers a others →
        MayTake cluster seen a event act → entering cluster (others ++ seen) a event lost ≡ entering cluster seen a event lost }
    ensures untaken { (cluster : Cluster) (seen others : List Item) (a : Actor) (event : Event) (act : Act) → AreOthers a others →
        EachStands cluster (others ++ seen) → MayTake cluster seen a event act → IsUntaken seen event → IsUntaken (others ++ seen) event }
{}

/// Nor do they change what the actor's steps would be, one after another.
pub fn others_change_no_step()
    ensures same { (cluster : Cluster) (seen others : List Item) (a : Actor) (event : Event) (act : Act) → AreOthers a others →
        MayTake cluster seen a event act → IsSameStep cluster seen (others ++ seen) a event }
    ensures all { (cluster : Cluster) (seen others : List Item) (a : Actor) (events : List Event) (lost : Bool) → AreOthers a others →
        AllByRecursion (λ event. (act : Act) × MayTake cluster seen a event act) events →
        AreSameSteps cluster seen (others ++ seen) a events lost }
{}

/// What an actor makes by the items that it has seen fits after these and any further items of others, be it an entry or a down.
pub fn turns_stay_fitting()
    ensures entry { (plan : Content) (seen others : List Item) (a : Actor) (event : Event) (act : Act) → Contains (actors plan.topology) a →
        AreOthers a others → MayTake (cluster_of plan) seen a event act → is_plain_event event ≡ true → kept_of event ≡ 0 →
        is_down a seen ≡ false → IsUntaken seen event → IsFreeRun plan (others ++ seen) →
        IsFreeRun plan (entering (cluster_of plan) seen a event false ∷ others ++ seen) }
    ensures down { (plan : Content) (items : List Item) (a : Actor) → Contains (actors plan.topology) a → IsFreeRun plan items →
        IsFreeRun plan (Item.Down a ∷ items) }
{}

/// Further items of others that come between what an actor has seen and what it made by that change nothing for it either, nor for its
/// stopped steps.
pub fn others_come_between()
    ensures entry { (cluster : Cluster) (seen others : List Item) (a : Actor) (event : Event) (act : Act) (lost : Bool) → AreOthers a others →
        MayTake cluster seen a event act →
        IsUntouched cluster (entering cluster seen a event lost ∷ seen) (entering cluster seen a event lost ∷ others ++ seen) a }
    ensures down { (cluster : Cluster) (seen others : List Item) (a : Actor) → AreOthers a others →
        IsUntouched cluster (Item.Down a ∷ seen) (Item.Down a ∷ others ++ seen) a }
    ensures stop { (cluster : Cluster) (seen others : List Item) (a : Actor) (event : Event) (act : Act) → AreOthers a others →
        MayTake cluster seen a event act → IsSameStep cluster (Item.Down a ∷ seen) (Item.Down a ∷ others ++ seen) a event }
    ensures stops { (cluster : Cluster) (seen others : List Item) (a : Actor) (events : List Event) (lost : Bool) → AreOthers a others →
        AllByRecursion (λ event. (act : Act) × MayTake cluster seen a event act) events →
        AreSameSteps cluster (Item.Down a ∷ seen) (Item.Down a ∷ others ++ seen) a events lost }
{}

/// What holds of the items that an actor has seen goes on holding with others' items, and so does what holds of all actors together.
pub fn turns_go_by()
    ensures went { (a : Actor) (seen others : List Item) (gone : List Step) (stop : Option Step) → AreOthers a others → Went a seen gone stop →
        Went a (others ++ seen) gone stop }
    ensures serving { (plan : Content) (seen others : List Item) (a : Actor) (stopped : List Stopped) → AreOthers a others →
        AreStopsOf a stopped → IsFreeRun plan (others ++ seen) → IsServing plan (alone seen stopped) →
        IsServing plan (alone (others ++ seen) stopped) }
    ensures gone { (plan : Content) (seen others : List Item) (a : Actor) (stopped : List Stopped) (left : List Step) → AreOthers a others →
        HasGone plan (alone seen stopped) a left → HasGone plan (alone (others ++ seen) stopped) a left }
    ensures together { (plan : Content) (items : List Item) (stopped : List Stopped) → IsPlan plan → IsFreeRun plan items →
        ((a : Actor) (event : Event) (events : List Event) → stopped_at a stopped ≡ event ∷ events →
        (one : List Stopped) × (stopped_at a one ≡ event ∷ events) × IsServing plan (alone items one)) → IsServing plan (alone items stopped) }
    ensures each { (plan : Content) (items : List Item) (stopped other : List Stopped) (a : Actor) (left : List Step) →
        stopped_at a other ≡ stopped_at a stopped → HasGone plan (alone items stopped) a left → HasGone plan (alone items other) a left }
{
    plans_are_valid();
    plans_have_few_bodies();
}

/// What entering something makes of a cluster that was opened after nothing.
pub fn alone_are_entered()
    ensures whole { (items : List Item) (stopped : List Stopped) → whole (alone items stopped) ≡ items }
    ensures event { (items : List Item) (stopped : List Stopped) (event : Event) → event_in (alone items stopped) event ≡ event }
    ensures entered { (cluster : Cluster) (items : List Item) (stopped : List Stopped) (a : Actor) (event : Event) (lost : Bool) →
        entered cluster (alone items stopped) a event lost ≡ alone (entering cluster items a event lost ∷ items) stopped }
    ensures stopped { (items : List Item) (stopped : List Stopped) (a : Actor) (events : List Event) →
        stopped_by a events (alone items stopped) ≡ alone (Item.Down a ∷ items) (stops_of a events ++ without a stopped) }
    ensures reopened { (cluster : Cluster) (items : List Item) (stopped : List Stopped) (a : Actor) →
        reopened cluster (alone items stopped) a []
        ≡ alone (entering cluster items a (Event.Restart 0) false ∷ items) (without a stopped) }
{}

/// A whole turn of an actor serves: it stepped by what it had seen, and its item came after items of others. It is an entry, or the down
/// of steps that its disk stopped.
pub fn turns_serve()
    ensures entry { (plan : Content) (seen others : List Item) (a : Actor) (stopped : List Stopped) (event : Event) (act : Act) →
        Contains (actors plan.topology) a → AreOthers a others → AreStopsOf a stopped → MayTake (cluster_of plan) seen a event act →
        is_plain_event event ≡ true → kept_of event ≡ 0 → is_down a seen ≡ false → IsUntaken seen event → IsFreeRun plan (others ++ seen) →
        IsServing plan (alone seen stopped) →
        IsServing plan (alone (entering (cluster_of plan) seen a event false ∷ others ++ seen) stopped) }
    ensures stop { (plan : Content) (seen others : List Item) (a : Actor) (stopped : List Stopped) (events : List Event) →
        Contains (actors plan.topology) a → AreOthers a others → AreStopsOf a stopped →
        AllByRecursion (MayStop (cluster_of plan) seen a) events → AreDifferent events → length events ≤ 16 →
        IsFreeRun plan (others ++ seen) → IsServing plan (alone seen stopped) →
        IsServing plan (alone (Item.Down a ∷ others ++ seen) (stops_of a events ++ without a stopped)) }
{}

/// The turn of a restart serves likewise: one that kept nothing, or the down of one whose disk failed.
pub fn restarting_turns_serve()
    ensures restart { (plan : Content) (seen others : List Item) (a : Actor) (stopped : List Stopped) → Contains (actors plan.topology) a →
        AreOthers a others → AreStopsOf a stopped → IsFreeRun plan (others ++ seen) → IsServing plan (alone seen stopped) →
        IsServing plan (alone (entering (cluster_of plan) seen a (Event.Restart 0) false ∷ others ++ seen) (without a stopped)) }
    ensures failure { (plan : Content) (seen others : List Item) (a : Actor) (stopped : List Stopped) → Contains (actors plan.topology) a →
        AreOthers a others → AreStopsOf a stopped → IsFreeRun plan (others ++ seen) → IsServing plan (alone seen stopped) →
        IsServing plan (alone (Item.Down a ∷ others ++ seen) stopped) }
{}

/// Such a turn may be that of the actor's next command: its entry, or the down of its step that a fault stopped.
pub fn commands_go_by()
    ensures entry { (plan : Content) (seen others : List Item) (a : Actor) (stopped : List Stopped) (event : Event) (act : Act) (command : Step)
        (left : List Step) → AreOthers a others → MayTake (cluster_of plan) seen a event act → is_event_of command event ≡ true →
        is_restart command ≡ false → HasGone plan (alone seen stopped) a (command ∷ left) →
        HasGone plan (alone (entering (cluster_of plan) seen a event false ∷ others ++ seen) stopped) a left }
    ensures stop { (plan : Content) (seen others : List Item) (a : Actor) (stopped : List Stopped) (event : Event) (command : Step)
        (left : List Step) → AreOthers a others → is_event_of command event ≡ true → is_restart command ≡ false →
        is_down a seen ≡ false → HasGone plan (alone seen stopped) a (command ∷ left) →
        HasGone plan (alone (Item.Down a ∷ others ++ seen) (stops_of a (event ∷ []) ++ without a stopped)) a left }
{}

/// Such a turn may be that of messages, and then no command goes by.
pub fn messages_go_by()
    ensures message { (plan : Content) (seen others : List Item) (a : Actor) (stopped : List Stopped) (event : Event) (act : Act)
        (left : List Step) → AreOthers a others → MayTake (cluster_of plan) seen a event act → is_message event ≡ true →
        HasGone plan (alone seen stopped) a left →
        HasGone plan (alone (entering (cluster_of plan) seen a event false ∷ others ++ seen) stopped) a left }
    ensures message_stop { (plan : Content) (seen others : List Item) (a : Actor) (stopped : List Stopped) (events : List Event)
        (left : List Step) → AreOthers a others → AllByRecursion (λ event. is_message event ≡ true) events → is_down a seen ≡ false →
        HasGone plan (alone seen stopped) a left →
        HasGone plan (alone (Item.Down a ∷ others ++ seen) (stops_of a events ++ without a stopped)) a left }
{}

/// Such a turn may be that of a restart that is the actor's next command, whether its disk fails or not.
pub fn restarts_go_by()
    ensures restart { (plan : Content) (seen others : List Item) (a : Actor) (stopped : List Stopped) (command : Step) (left : List Step) →
        AreOthers a others → is_restart command ≡ true → HasGone plan (alone seen stopped) a (command ∷ left) →
        HasGone plan (alone (entering (cluster_of plan) seen a (Event.Restart 0) false ∷ others ++ seen) (without a stopped)) a left }
    ensures failure { (plan : Content) (seen others : List Item) (a : Actor) (stopped : List Stopped) (command : Step) (left : List Step) →
        AreOthers a others → is_restart command ≡ true → HasGone plan (alone seen stopped) a (command ∷ left) →
        HasGone plan (alone (Item.Down a ∷ others ++ seen) stopped) a left }
{}

/// A step of an actor that is up, which a fault can stop, keeps the items a free run. It is the turn of a command or of a message, and no
/// turn of any other actor.
pub fn steps_serve()
    ensures serving { (plan : Content) (s : Situation) (a : Actor) (event : Event) (act : Act) (fails : Bool) → Contains (actors plan.topology) a →
        MayTake (cluster_of plan) (whole s) a (event_in s event) act → is_plain_event event ≡ true → kept_of event ≡ 0 →
        is_down a (whole s) ≡ false → IsUntaken s.own event → (fails ≡ true → is_journalled a event ≡ true) → IsServing plan s →
        IsServing plan (tried_if fails (cluster_of plan) s a event) }
    ensures command { (plan : Content) (s : Situation) (a : Actor) (event : Event) (fails : Bool) (command : Step) (left : List Step) →
        is_event_of command event ≡ true → is_restart command ≡ false → (fails ≡ true → is_down a s.own ≡ false) → HasGone plan s a (command ∷ left) →
        HasGone plan (tried_if fails (cluster_of plan) s a event) a left }
    ensures message { (plan : Content) (s : Situation) (a : Actor) (event : Event) (fails : Bool) (left : List Step) → is_message event ≡ true →
        (fails ≡ true → is_down a s.own ≡ false) → HasGone plan s a left → HasGone plan (tried_if fails (cluster_of plan) s a event) a left }
    ensures others { (plan : Content) (s : Situation) (a b : Actor) (event : Event) (fails : Bool) (left : List Step) → same_actor a b ≡ false →
        HasGone plan s b left → HasGone plan (tried_if fails (cluster_of plan) s a event) b left }
{}

/// A restart keeps the items a free run, whether its disk fails or not, and whether it keeps the stopped steps or not. It is the turn of a
/// command, and no turn of any other actor.
pub fn restarts_serve()
    ensures serving { (plan : Content) (s : Situation) (a : Actor) (keeps : Bool) → Contains (actors plan.topology) a → IsServing plan s →
        IsServing plan (reopened (cluster_of plan) s a (kept_if keeps a s)) }
    ensures command { (plan : Content) (s : Situation) (a : Actor) (keeps : Bool) (command : Step) (left : List Step) →
        is_restart command ≡ true → HasGone plan s a (command ∷ left) →
        HasGone plan (reopened (cluster_of plan) s a (kept_if keeps a s)) a left }
    ensures others { (plan : Content) (s : Situation) (a b : Actor) (kept : List Event) (left : List Step) → same_actor a b ≡ false →
        HasGone plan s b left → HasGone plan (reopened (cluster_of plan) s a kept) b left }
    ensures serving_down { (plan : Content) (s : Situation) (a : Actor) → Contains (actors plan.topology) a → IsServing plan s →
        IsServing plan (with_item (Item.Down a) s) }
    ensures command_down { (plan : Content) (s : Situation) (a : Actor) (command : Step) (left : List Step) → is_restart command ≡ true →
        HasGone plan s a (command ∷ left) → HasGone plan (with_item (Item.Down a) s) a left }
    ensures others_down { (plan : Content) (s : Situation) (a b : Actor) (left : List Step) → same_actor a b ≡ false →
        HasGone plan s b left → HasGone plan (with_item (Item.Down a) s) b left }
{}

/// The steps of a schedule, as a cluster takes them, serve: the next command of an actor that isn't passed over, and a drain, each of whose
/// deliveries does so by itself. A command that is passed over enters nothing.
pub fn schedule_steps_serve()
    ensures passed { (plan : Content) (s : Situation) (a : Actor) (command : Step) (left : List Step) → IsServing plan s →
        IsPassed a (whole s) command → HasGone plan s a (command ∷ left) → HasGone plan s a left }
    ensures command { (plan : Content) (answers : Answers) (number : ℕ) (s next : Situation) (a : Actor) (command : Step) (left : List Step) →
        IsPlan plan → Contains (actors plan.topology) a → IsReady a (whole s) command →
        IsNext (cluster_of plan) answers number command s next → IsServing plan s → HasGone plan s a (command ∷ left) →
        IsServing plan next × HasGone plan next a left
        × ((b : Actor) (other : List Step) → same_actor a b ≡ false → HasGone plan s b other → HasGone plan next b other) }
    ensures drain { (plan : Content) (answers : Answers) (s next : Situation) → IsPlan plan → Drains (cluster_of plan) answers next s →
        IsServing plan s →
        IsServing plan next × NothingWaits next × ((a : Actor) (left : List Step) → HasGone plan s a left → HasGone plan next a left) }
    ensures delivery { (plan : Content) (answers : Answers) (s : Situation) (message : ℕ) → IsPlan plan → waits s message ≡ true →
        IsServing plan s → IsServing plan (tried (cluster_of plan) answers s (receiver_in s message) (Event.Message message))
        × ((a : Actor) (left : List Step) → HasGone plan s a left →
        HasGone plan (tried (cluster_of plan) answers s (receiver_in s message) (Event.Message message)) a left) }
{
    messages_go_to_actors();
}

/// Once nothing waits and every actor's next command is held, the items are served.
pub fn served_at_the_end()
    ensures { (plan : Content) (s : Situation) → IsServing plan s → NothingWaits s →
        ((a : Actor) → Contains (actors plan.topology) a → (left : List Step) × HasGone plan s a left × IsHeld s.own left) →
        IsServed plan s.own }
{}

/// Where nobody goes down and no step of the schedule is a recover, all that it begins is begun in served items.
pub fn served_commands_are_taken()
    ensures { (plan : Content) (items : List Item) → IsPlan plan → IsServed plan items → NobodyIsDown items → HasNoRecover plan.steps →
        AllByRecursion (IsBegunIn items) plan.steps }
{
    plans_are_valid();
    nodes_are_actors();
}

/// An actor goes down once more at most than commands of its own went by.
pub fn downs_are_few()
    ensures { (plan : Content) (s : Situation) (a : Actor) (left : List Step) → IsServing plan s → HasGone plan s a left →
        downs_in a s.own + length left ≤ length (commands_of plan a) + 1 }
{}

/// In a free run each restart kept sixteen steps at most, those of the down in front of it.
pub fn restarts_keep_sixteen()
    ensures { (plan : Content) (items : List Item) → IsFreeRun plan items → AllByRecursion KeepsSixteen items }
{}

/// Served items without a restart, a recover or a down answer each transaction that they begin, and their report says that none is open.
pub fn served_runs_are_answered()
    ensures answered { (plan : Content) (items : List Item) → IsPlan plan → IsServed plan items → IsQuiet items → EachBegunIsAnswered items }
    ensures none_open { (plan : Content) (items : List Item) → IsPlan plan → IsServed plan items → IsQuiet items →
        last_line (notes_of items) ≡ Line.End (count_by is_begin (notes_of items)) (count_by is_reply (notes_of items)) 0 }
{
    plans_are_valid();
    calm();
}

/// Whatever actors do freely is safe: two decisions of a transaction have one timestamp and those of different ones differ, a decision
/// names each conflicting transaction that is decided below it, and the first outcomes are those of a serial run.
pub fn free_runs_are_safe()
    ensures agreement { (plan : Content) (items : List Item) → IsPlan plan → IsFreeRun plan items → Agreement items }
    ensures coverage { (plan : Content) (items : List Item) → IsPlan plan → IsFreeRun plan items → Coverage (cluster_of plan) items }
    ensures serial { (plan : Content) (items : List Item) → IsPlan plan → IsFreeRun plan items → SerialOutcomes (cluster_of plan) items }
{
    plans_are_valid();
}
