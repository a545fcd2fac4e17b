//! What holds of what is asked of a cluster. Each law is the contract of a function that does nothing.
ghost use Rattle.std.specs.Prelude.{◌≡◌, ℕ, false, List, [], ◌∷◌, length};
ghost use Rattle.acc_stamp.specs.declared.actors.Actor.{Actor};
ghost use Rattle.acc_message.specs.declared.entry.Entry.{Entry};
ghost use Rattle.acc_message.specs.declared.item.Item.{Item};
ghost use Rattle.acc_message.specs.declared.item.Skip.{Skip};
ghost use Rattle.acc_message.specs.Run.{Cluster, StandsOn, kept_of, IsRun};
ghost use Rattle.acc_run_laws.specs.declared.ask.Ask.{Ask};
ghost use Rattle.acc_run_laws.specs.Asks.{item_for, after_asks};
ghost use Rattle.acc_run_laws.specs.Schedules.{drained};
ghost use Rattle.acc_run_laws.specs.AskLaws.{IsAskOf, AreAsksOf, IsUp, IsRunWithoutDowns, IsAsked, AreLostOf, with_entries, restart_at};

/// What a cluster enters when it is asked for a step extends a run to a run. So any asks give a run, and so does a drain.
pub fn asks_give_a_run()
    ensures step { (cluster : Cluster) (items : List Item) (step : ℕ) (ask : Ask) → IsRun cluster items → IsAskOf cluster ask →
        IsUp cluster items ask → IsRun cluster (item_for cluster items step ask ∷ items) }
    ensures none { (cluster : Cluster) → IsRunWithoutDowns cluster [] }
    ensures asks { (cluster : Cluster) (step : ℕ) (asks : List Ask) (items : List Item) → IsRunWithoutDowns cluster items →
        AreAsksOf cluster asks → IsRunWithoutDowns cluster (after_asks cluster step asks items) }
    ensures drains { (cluster : Cluster) (dropped : List ℕ) (items : List Item) → IsRunWithoutDowns cluster items →
        IsRunWithoutDowns cluster (drained cluster dropped items) }
{}

/// A run goes on with a step that was passed over, with a down, and with lost entries of one actor and the restart that kept
/// as many.
pub fn runs_go_on()
    ensures skip { (cluster : Cluster) (items : List Item) (step : ℕ) (cause : Skip) → IsRun cluster items →
        IsRun cluster (Item.Skipped step cause ∷ items) }
    ensures down { (cluster : Cluster) (items : List Item) (a : Actor) → IsRun cluster items → IsRun cluster (Item.Down a ∷ items) }
    ensures restart { (cluster : Cluster) (a : Actor) (items : List Item) (entries : List Entry) → IsRun cluster items →
        AreLostOf cluster a items entries →
        IsRun cluster (restart_at cluster (with_entries entries items) a (length entries) ∷ with_entries entries items) }
{}

/// Each entry that the rules allow after some items is entered there for some ask, unless it is lost, or a restart that kept
/// lost ones.
pub fn allowed_entries_are_asked()
    ensures { (cluster : Cluster) (earlier : List Item) (step : ℕ) (e : Entry) → StandsOn cluster earlier e → e.lost ≡ false →
        kept_of e.event ≡ 0 → IsAsked cluster earlier step e }
{}
