//! What entering an item changes. Each law is the contract of a function that does nothing.
ghost use Rattle.std.specs.Prelude.{◌≡◌, ℕ, Bool, true, false, List, [], ◌∷◌, None, Some, is_some};
ghost use Rattle.std.specs.List.{AllByRecursion, slice_get};
ghost use Rattle.acc_stamp.specs.declared.stamps.TxnId.{TxnId};
ghost use Rattle.acc_stamp.specs.declared.actors.Actor.{Actor};
ghost use Rattle.acc_stamp.specs.Actor.{actor_of};
ghost use Rattle.acc_txn.specs.declared.parts.BodyParts.{BodyParts};
ghost use Rattle.acc_message.specs.declared.message.Message.{Message};
ghost use Rattle.acc_message.specs.declared.note.Note.{Note};
ghost use Rattle.acc_message.specs.declared.entry.Event.{Event};
ghost use Rattle.acc_message.specs.declared.item.Item.{Item};
ghost use Rattle.acc_message.specs.declared.item.Skip.{Skip};
ghost use Rattle.acc_message.specs.Items.{same_actor, message_at, is_begun, id_of_txn};
ghost use Rattle.acc_message.specs.NodeRules.{Act, Begins, Recovers, Restarts, begun_id, attempt_of};
ghost use Rattle.acc_message.specs.Run.{Cluster, clock_start, act_of, deeds_of, emits, is_node, is_down, kept_of, EachStands, IsRun};
ghost use Rattle.acc_message_code.specs.MessageSpelling.{message_bytes};
ghost use Rattle.acc_safety.specs.Valid.{IsStanding};
ghost use Rattle.acc_run_laws.specs.Asks.{slow_skip_at, slow_skip};
ghost use Rattle.acc_run_laws.specs.Heights.{clock_at};
ghost use Rattle.acc_payloads.specs.declared.draw.Purpose.{Purpose};
ghost use Rattle.acc_payloads.specs.Spelling.{draw_bytes};
ghost use Rattle.acc_payloads.specs.Acts.{next_draw_of};
ghost use Rattle.acc_payloads.specs.Items.{payload_by, is_item_of, ends_down};
ghost use Rattle.acc_schedule_runs.specs.Situations.{Situation, whole, stopped_at};
ghost use Rattle.acc_schedule_runs.specs.Moves.{with_item, event_in, entered, is_journalled, stopped_by, reopened};
ghost use Rattle.acc_pasts.specs.Entries.{entering, MayTake};
ghost use Rattle.acc_pasts.specs.Pasts.{IsUntouched, DidMore, WentDown};
ghost use Rattle.acc_pasts.specs.Stopped.{CanGoOn, AreDifferent, CanAllGoOn, IsSameStep, AreSameSteps, IsSound, is_other};

/// An item changes its own actor alone: an entry adds what the actor did and what its journal gets of that, a down adds a down.
pub fn items_change_one_actor()
    ensures others { (cluster : Cluster) (items : List Item) (item : Item) (a : Actor) → is_item_of a item ≡ false →
        IsUntouched cluster items (item ∷ items) a }
    ensures entry { (cluster : Cluster) (items : List Item) (a : Actor) (event : Event) (act : Act) (lost : Bool) →
        MayTake cluster items a event act → DidMore cluster items (entering cluster items a event lost ∷ items) a
        (record { act = act; emitted = emits cluster items a act }) (payload_by items a event (emits cluster items a act).notes) lost }
    ensures down { (cluster : Cluster) (items : List Item) (a : Actor) → WentDown cluster items (Item.Down a ∷ items) a }
    ensures reopened_apart { (cluster : Cluster) (s : Situation) (a b : Actor) (kept : List Event) → same_actor a b ≡ false →
        IsUntouched cluster (whole s) (whole (reopened cluster s a kept)) b }
{}

/// A begin and a recover put the draw of the node's clock into its journal, and what a store takes puts the message into its own.
pub fn entries_are_journalled()
    ensures begin { (cluster : Cluster) (items : List Item) (a : Actor) (txn number : ℕ) (body : BodyParts) → is_node a ≡ true →
        payload_by items a (Event.Begin txn) (emits cluster items a (Begins number body)).notes
        ≡ draw_bytes (next_draw_of (clock_at cluster a items) Purpose.Begin txn) ∷ [] }
    ensures recover { (cluster : Cluster) (items : List Item) (a : Actor) (txn : ℕ) (x : TxnId) (body : BodyParts) → is_node a ≡ true →
        payload_by items a (Event.Recover txn) (emits cluster items a (Recovers x body)).notes
        ≡ draw_bytes (next_draw_of (clock_at cluster a items) Purpose.Recover txn) ∷ [] }
    ensures message { (items : List Item) (a : Actor) (number : ℕ) (m : Message) (notes : List Note) → is_node a ≡ false →
        message_at items number ≡ Some m → payload_by items a (Event.Message number) notes ≡ message_bytes m ∷ [] }
{}

/// In every run the last item of an actor is a down exactly where the actor is down: no lost entry is its last one.
pub fn downs_are_last()
    ensures { (cluster : Cluster) (items : List Item) (a : Actor) → IsRun cluster items → ends_down a items ≡ is_down a items }
{}

/// A sound situation stays sound, whatever is entered: a step, a fault that stops the steps of one append, a down, a restart, with what
/// was stopped or without it.
pub fn situations_stay_sound()
    ensures skipped { (cluster : Cluster) (s : Situation) (number : ℕ) (cause : Skip) → IsSound cluster s →
        IsSound cluster (with_item (Item.Skipped number cause) s) }
    ensures down { (cluster : Cluster) (s : Situation) (a : Actor) → IsSound cluster s → IsSound cluster (with_item (Item.Down a) s) }
    ensures entry { (cluster : Cluster) (s : Situation) (a : Actor) (event : Event) (act : Act) →
        MayTake cluster (whole s) a (event_in s event) act → kept_of (event_in s event) ≡ 0 → is_down a (whole s) ≡ false →
        IsSound cluster s → IsSound cluster (entered cluster s a event false) }
    ensures stopped { (cluster : Cluster) (s : Situation) (a : Actor) (events : List Event) →
        AllByRecursion (λ event. (act : Act) × MayTake cluster (whole s) a (event_in s event) act × (is_journalled a event ≡ true)) events →
        AreDifferent events → IsSound cluster s → IsSound cluster (stopped_by a events s) }
    ensures reopened { (cluster : Cluster) (s : Situation) (a : Actor) → IsSound cluster s → IsSound cluster (reopened cluster s a []) }
    ensures kept { (cluster : Cluster) (s : Situation) (a : Actor) → IsSound cluster s →
        IsSound cluster (reopened cluster s a (stopped_at a s.stopped)) }
{}

/// What an event takes, what its entry emits and what the journal gets of it stay the same as long as its actor enters nothing. So does
/// that of more events, each after the entries of those before it: it depends on what their actor did, and not on what others enter.
pub fn stopped_steps_stay()
    ensures one { (cluster : Cluster) (items : List Item) (item : Item) (a : Actor) (event : Event) (act : Act) → is_other a item ≡ true →
        MayTake cluster items a event act → IsSameStep cluster items (item ∷ items) a event }
    ensures all { (cluster : Cluster) (items : List Item) (item : Item) (a : Actor) (events : List Event) (lost : Bool) →
        is_other a item ≡ true → AllByRecursion (λ event. (act : Act) × MayTake cluster items a event act) events →
        AreSameSteps cluster items (item ∷ items) a events lost }
    ensures alike { (cluster : Cluster) (before now : List Item) (a : Actor) (event : Event) (act : Act) →
        deeds_of cluster a now ≡ deeds_of cluster a before → act_of cluster before event ≡ Some act → act_of cluster now event ≡ Some act →
        IsSameStep cluster before now a event }
{}

/// The steps of an actor that were stopped can be entered one after another: after the first one, which is lost, the others still can.
pub fn stopped_steps_go_on()
    ensures { (cluster : Cluster) (s : Situation) (a : Actor) (event : Event) (events : List Event) →
        CanAllGoOn cluster s a (event ∷ events) →
        CanGoOn cluster (whole s) a (event_in s event) × CanAllGoOn cluster (entered cluster s a event true) a events }
{}

/// A transaction is begun by its home alone, which therefore knows its id; by the attempt of the home a slow is passed over.
pub fn homes_know_their_transactions()
    ensures id { (cluster : Cluster) (txn node : ℕ) → slice_get cluster.homes txn ≡ Some node → (items : List Item) →
        EachStands cluster items →
        begun_id node (clock_start cluster.starts node) txn (deeds_of cluster (actor_of node 0) items) ≡ id_of_txn items txn }
    ensures begun { (cluster : Cluster) (txn node : ℕ) → slice_get cluster.homes txn ≡ Some node → (items : List Item) →
        EachStands cluster items →
        is_some (begun_id node (clock_start cluster.starts node) txn (deeds_of cluster (actor_of node 0) items)) ≡ is_begun items txn }
    ensures fresh { (cluster : Cluster) (items : List Item) (a : Actor) (node start txn : ℕ) → is_begun items txn ≡ false →
        begun_id node start txn (deeds_of cluster a items) ≡ None }
    ensures slow { (cluster : Cluster) (txn node : ℕ) → slice_get cluster.homes txn ≡ Some node → (items : List Item) (x : TxnId) →
        EachStands cluster items →
        begun_id node (clock_start cluster.starts node) txn (deeds_of cluster (actor_of node 0) items) ≡ Some x →
        slow_skip cluster items txn (id_of_txn items txn)
        ≡ slow_skip_at cluster.layout txn x
        (attempt_of cluster.layout node (clock_start cluster.starts node) x (deeds_of cluster (actor_of node 0) items)) }
{}
