//! Asking an actor in its slot. Where the cluster tests, what the call asks for is tested first: that the actor is up and of the right kind,
//! that heights are low, and that a message fits its format, brings a body and is addressed to the actor.
ghost use Rattle.std.specs.Prelude.{◌≡◌, ℕ, ◌+◌, ◌<◌, ◌≤◌, ◌^◌, true, false, IsTrue, is_some, IfOk, IfErr, OnOk, OnErr, IfSome, Option as Maybe, Ok, None, Some};
ghost use Rattle.acc_ports.specs.Faults.{CountsFaults};
ghost use Rattle.acc_message.specs.declared.entry.Event.{Event as AnEvent};
ghost use Rattle.acc_message.specs.Fields.{to_of};
ghost use Rattle.acc_message.specs.Taken.{body_in};
ghost use Rattle.acc_message.specs.NodeRules.{Begins, Recovers, Takes};
ghost use Rattle.acc_message_code.specs.Short.{IsShortMessage};
ghost use Rattle.acc_payloads.specs.Texts.{has_text as has_a_text};
ghost use Rattle.acc_run_laws.specs.Sends.{AreSendable};
ghost use Rattle.acc_schedule.specs.Content.{Content};
ghost use Rattle.acc_pasts.specs.Stopped.{IsSound};
ghost use Rattle.acc_schedule_runs.specs.Situations.{Situation};
ghost use Rattle.acc_schedule_runs.specs.Schedules.{cluster_of};
ghost use Rattle.acc_schedule_runs.specs.Disks.{Disks, after_fail};
ghost use Rattle.acc_actors.specs.Slots.{SlotStands, IsStrictSlot, faults_in};
ghost use Rattle.acc_actors.specs.Asked.{step_by, over_disks, IsFew, IsAsked, MayAsk, IsHomeUp, IsSlowRefused, skips_slow, HasTried, HasTriedStrictly, HasRestartedAt, HasRestartedStrictlyAt};
ghost use Rattle.acc_cluster.specs.Safe.{most_opened, IsSafe, MayBeTested};

use acc_actors::Slot;
use acc_base::OutOfMemory;
use acc_message::{Emitted, Message, top};
use acc_node::NodeError;
use acc_payloads::{Restarted, has_text};
use acc_ports::Rig;
use acc_schedule::Plan;
use acc_short::{are_sendable, is_short};
use acc_stamp::{Actor, TxnId};
use acc_txn::Body;

// The greatest height that a message may have where the cluster tests.
const MOST_TESTED: u64 = 2_305_843_009_213_693_952;

/// The node begins a transaction, as `Slot::begin`.
pub(crate) fn begin<D: Rig + Drop>(
    tests: bool,
    slot: &mut Slot<D>,
    plan: &Plan,
    actor: Actor,
    txn: u32,
    body: &Body,
) -> Result<Option<Emitted>, OutOfMemory>
    requires asked { tests ≡ false → MayAsk D.Disk plan.now (step_by actor (AnEvent.Begin txn) (Begins txn body.now)) slot.old }
    requires safe { tests ≡ true → MayBeTested D.Disk plan.now actor slot.old }
    ensures ok { IfOk result (λ given. (s : Situation) → IsAsked D.Disk plan.now s (step_by actor (AnEvent.Begin txn) (Begins txn body.now)) slot.old
        → HasTried D.Disk plan.now s actor (AnEvent.Begin txn) slot.new given) }
    ensures strict { IfOk result (λ given. (s : Situation) (disks : Disks) → IsAsked D.Disk plan.now s (step_by actor (AnEvent.Begin txn) (Begins txn body.now)) slot.old
        → IsStrictSlot D.Disk plan.now s disks actor slot.old
        → HasTriedStrictly D.Disk plan.now (over_disks s disks) actor (AnEvent.Begin txn) slot.new given) }
    ensures faults { CountsFaults (result ≡ Ok None) (faults_in D.Disk slot.old) (faults_in D.Disk slot.new) }
    ensures safe { tests ≡ true → OnOk result ((most : ℕ) → most_opened ≤ most → IsSafe D.Disk plan.now most actor slot.old → IsSafe D.Disk plan.now (most + 1) actor slot.new) }
{
    if !tests {
        return slot.begin(plan, actor, txn, body);
    }
    begin_tested(slot, plan, actor, txn, body)
}

// The node begins it if it may.
fn begin_tested<D: Rig + Drop>(
    slot: &mut Slot<D>,
    plan: &Plan,
    actor: Actor,
    txn: u32,
    body: &Body,
) -> Result<Option<Emitted>, OutOfMemory>
    requires safe { MayBeTested D.Disk plan.now actor slot.old }
    ensures ok { IfOk result (λ given. (s : Situation) → IsAsked D.Disk plan.now s (step_by actor (AnEvent.Begin txn) (Begins txn body.now)) slot.old
        → HasTried D.Disk plan.now s actor (AnEvent.Begin txn) slot.new given) }
    ensures strict { IfOk result (λ given. (s : Situation) (disks : Disks) → IsAsked D.Disk plan.now s (step_by actor (AnEvent.Begin txn) (Begins txn body.now)) slot.old
        → IsStrictSlot D.Disk plan.now s disks actor slot.old
        → HasTriedStrictly D.Disk plan.now (over_disks s disks) actor (AnEvent.Begin txn) slot.new given) }
    ensures faults { CountsFaults (result ≡ Ok None) (faults_in D.Disk slot.old) (faults_in D.Disk slot.new) }
    ensures safe { OnOk result ((most : ℕ) → most_opened ≤ most → IsSafe D.Disk plan.now most actor slot.old → IsSafe D.Disk plan.now (most + 1) actor slot.new) }
{
    let Slot::Node(node) = slot else {
        return Err(OutOfMemory);
    };
    if node.is_down() {
        return Err(OutOfMemory);
    }
    if node.id_of(txn).is_some() {
        return Err(OutOfMemory);
    }
    node.begin(&plan.topology, txn, body)
}

/// The node recovers a transaction, as `Slot::recover`.
pub(crate) fn recover<D: Rig + Drop>(
    tests: bool,
    slot: &mut Slot<D>,
    plan: &Plan,
    actor: Actor,
    txn: u32,
    id: TxnId,
    body: &Body,
) -> Result<Option<Emitted>, OutOfMemory>
    requires asked { tests ≡ false → MayAsk D.Disk plan.now (step_by actor (AnEvent.Recover txn) (Recovers id body.now)) slot.old }
    requires safe { tests ≡ true → MayBeTested D.Disk plan.now actor slot.old }
    ensures ok { IfOk result (λ given. (s : Situation) → IsAsked D.Disk plan.now s (step_by actor (AnEvent.Recover txn) (Recovers id body.now)) slot.old
        → HasTried D.Disk plan.now s actor (AnEvent.Recover txn) slot.new given) }
    ensures strict { IfOk result (λ given. (s : Situation) (disks : Disks) → IsAsked D.Disk plan.now s (step_by actor (AnEvent.Recover txn) (Recovers id body.now)) slot.old
        → IsStrictSlot D.Disk plan.now s disks actor slot.old
        → HasTriedStrictly D.Disk plan.now (over_disks s disks) actor (AnEvent.Recover txn) slot.new given) }
    ensures faults { CountsFaults (result ≡ Ok None) (faults_in D.Disk slot.old) (faults_in D.Disk slot.new) }
    ensures safe { tests ≡ true → OnOk result ((most : ℕ) → most_opened ≤ most → IsSafe D.Disk plan.now most actor slot.old → IsSafe D.Disk plan.now (most + 1) actor slot.new) }
{
    if !tests {
        return slot.recover(plan, actor, txn, id, body);
    }
    recover_tested(slot, plan, actor, txn, id, body)
}

// The node recovers it if it may.
fn recover_tested<D: Rig + Drop>(
    slot: &mut Slot<D>,
    plan: &Plan,
    actor: Actor,
    txn: u32,
    id: TxnId,
    body: &Body,
) -> Result<Option<Emitted>, OutOfMemory>
    requires safe { MayBeTested D.Disk plan.now actor slot.old }
    ensures ok { IfOk result (λ given. (s : Situation) → IsAsked D.Disk plan.now s (step_by actor (AnEvent.Recover txn) (Recovers id body.now)) slot.old
        → HasTried D.Disk plan.now s actor (AnEvent.Recover txn) slot.new given) }
    ensures strict { IfOk result (λ given. (s : Situation) (disks : Disks) → IsAsked D.Disk plan.now s (step_by actor (AnEvent.Recover txn) (Recovers id body.now)) slot.old
        → IsStrictSlot D.Disk plan.now s disks actor slot.old
        → HasTriedStrictly D.Disk plan.now (over_disks s disks) actor (AnEvent.Recover txn) slot.new given) }
    ensures faults { CountsFaults (result ≡ Ok None) (faults_in D.Disk slot.old) (faults_in D.Disk slot.new) }
    ensures safe { OnOk result ((most : ℕ) → most_opened ≤ most → IsSafe D.Disk plan.now most actor slot.old → IsSafe D.Disk plan.now (most + 1) actor slot.new) }
{
    let Slot::Node(node) = slot else {
        return Err(OutOfMemory);
    };
    if node.is_down() {
        return Err(OutOfMemory);
    }
    node.recover(&plan.topology, txn, id, body)
}

/// The home gives the fast path of a transaction up, as `Slot::slow`.
pub(crate) fn slow<D: Rig + Drop>(
    slot: &mut Slot<D>,
    plan: &Plan,
    actor: Actor,
    txn: u32,
) -> Result<Emitted, NodeError>
    ensures ok { IfOk result (λ emitted. (s : Situation) → IsHomeUp D.Disk plan.now s actor txn slot.old
        → (skips_slow plan.now s txn ≡ None) × HasTried D.Disk plan.now s actor (AnEvent.Slow txn) slot.new (Some emitted)) }
    ensures refused { IfErr result (λ error. (s : Situation) → IsHomeUp D.Disk plan.now s actor txn slot.old → IsSlowRefused plan.now s txn error) }
    ensures as_before { OnErr result ((s : Situation) → IsHomeUp D.Disk plan.now s actor txn slot.old → SlotStands D.Disk plan.now s actor slot.new) }
    ensures strict { IfOk result (λ emitted. (s : Situation) (disks : Disks) → IsHomeUp D.Disk plan.now s actor txn slot.old
        → IsStrictSlot D.Disk plan.now s disks actor slot.old
        → HasTriedStrictly D.Disk plan.now (over_disks s disks) actor (AnEvent.Slow txn) slot.new (Some emitted)) }
    ensures strict_as_before { OnErr result ((s : Situation) (disks : Disks) → IsHomeUp D.Disk plan.now s actor txn slot.old
        → IsStrictSlot D.Disk plan.now s disks actor slot.old
        → IsStrictSlot D.Disk plan.now s disks actor slot.new) }
    ensures faults { faults_in D.Disk slot.new ≡ faults_in D.Disk slot.old }
    ensures safe { OnOk result ((most : ℕ) → most_opened ≤ most → IsSafe D.Disk plan.now most actor slot.old → IsSafe D.Disk plan.now (most + 1) actor slot.new) }
    ensures still_safe { OnErr result ((most : ℕ) → IsSafe D.Disk plan.now most actor slot.old → IsSafe D.Disk plan.now most actor slot.new) }
{
    let Slot::Node(node) = slot else {
        return Err(NodeError::OutOfMemory);
    };
    if node.is_down() {
        return Err(NodeError::OutOfMemory);
    }
    node.slow(&plan.topology, txn)
}

// Whether a store may take a message that has a low top and is addressed to it: it fits its format and brings a body, and it has a text in
// version 2 alone.
fn can_be_taken(plan: &Plan, m: &Message) -> bool
    ensures short { IsTrue result → IsShortMessage m.now }
    ensures brings { IsTrue result → IsTrue (is_some (body_in m.now)) }
    ensures texts { IsTrue result → has_a_text m.now ≡ true → plan.now.version ≡ 2 }
{
    has_body(m) && is_short(m) && (plan.version == 2 || !has_text(m))
}

// Whether a message brings a body.
fn has_body(m: &Message) -> bool
    ensures { result ≡ is_some (body_in m.now) }
{
    matches!(
        m,
        Message::PreAccept { .. }
            | Message::Accept { .. }
            | Message::Commit { .. }
            | Message::Stable { .. }
            | Message::Apply { .. }
            | Message::Recover { .. }
    )
}

/// The actor takes the message with this number, as `Slot::take`.
#[inline(always)]
pub(crate) fn take<D: Rig + Drop>(
    tests: bool,
    slot: &mut Slot<D>,
    plan: &Plan,
    actor: Actor,
    number: u64,
    m: &Message,
) -> Result<Option<Emitted>, OutOfMemory>
    requires asked { tests ≡ false → MayAsk D.Disk plan.now (step_by actor (AnEvent.Message number) (Takes m.now)) slot.old }
    requires safe { tests ≡ true → MayBeTested D.Disk plan.now actor slot.old }
    requires goes { actor ≡ to_of m.now }
    ensures ok { IfOk result (λ given. (s : Situation) → IsAsked D.Disk plan.now s (step_by actor (AnEvent.Message number) (Takes m.now)) slot.old
        → HasTried D.Disk plan.now s actor (AnEvent.Message number) slot.new given) }
    ensures strict { IfOk result (λ given. (s : Situation) (disks : Disks) → IsAsked D.Disk plan.now s (step_by actor (AnEvent.Message number) (Takes m.now)) slot.old
        → IsStrictSlot D.Disk plan.now s disks actor slot.old
        → HasTriedStrictly D.Disk plan.now (over_disks s disks) actor (AnEvent.Message number) slot.new given) }
    ensures faults { CountsFaults (result ≡ Ok None) (faults_in D.Disk slot.old) (faults_in D.Disk slot.new) }
    ensures safe { tests ≡ true → OnOk result ((most : ℕ) → most_opened ≤ most → IsSafe D.Disk plan.now most actor slot.old → IsSafe D.Disk plan.now (most + 1) actor slot.new) }
{
    if !tests {
        return slot.take(plan, actor, number, m);
    }
    take_tested(slot, plan, actor, number, m)
}

// The actor takes the message if it may.
fn take_tested<D: Rig + Drop>(
    slot: &mut Slot<D>,
    plan: &Plan,
    actor: Actor,
    number: u64,
    m: &Message,
) -> Result<Option<Emitted>, OutOfMemory>
    requires safe { MayBeTested D.Disk plan.now actor slot.old }
    requires goes { actor ≡ to_of m.now }
    ensures ok { IfOk result (λ given. (s : Situation) → IsAsked D.Disk plan.now s (step_by actor (AnEvent.Message number) (Takes m.now)) slot.old
        → HasTried D.Disk plan.now s actor (AnEvent.Message number) slot.new given) }
    ensures strict { IfOk result (λ given. (s : Situation) (disks : Disks) → IsAsked D.Disk plan.now s (step_by actor (AnEvent.Message number) (Takes m.now)) slot.old
        → IsStrictSlot D.Disk plan.now s disks actor slot.old
        → HasTriedStrictly D.Disk plan.now (over_disks s disks) actor (AnEvent.Message number) slot.new given) }
    ensures faults { CountsFaults (result ≡ Ok None) (faults_in D.Disk slot.old) (faults_in D.Disk slot.new) }
    ensures safe { OnOk result ((most : ℕ) → most_opened ≤ most → IsSafe D.Disk plan.now most actor slot.old → IsSafe D.Disk plan.now (most + 1) actor slot.new) }
{
    if top(m) > MOST_TESTED {
        return Err(OutOfMemory);
    }
    match slot {
        Slot::Empty => Err(OutOfMemory),
        Slot::Node(node) => {
            if node.is_down() {
                return Err(OutOfMemory);
            }
            Ok(Some(node.take(&plan.topology, m)?))
        }
        Slot::Store(store) => {
            if store.is_down() {
                return Err(OutOfMemory);
            }
            if !can_be_taken(plan, m) {
                return Err(OutOfMemory);
            }
            store.take(&plan.topology, number, m)
        }
    }
}

/// Crashes the actor's disk and opens the actor again, as `Slot::restart`.
pub(crate) fn restart<D: Rig + Drop>(
    slot: Slot<D>,
    plan: &Plan,
    actor: Actor,
    choice: u8,
) -> (Slot<D>, Result<Restarted, OutOfMemory>)
    ensures ok { IfOk result.1 (λ found. (s : Situation) → IsSound (cluster_of plan.now) s → IsFew s → SlotStands D.Disk plan.now s actor slot
        → HasRestartedAt D.Disk plan.now s actor found result.0) }
    ensures strict { IfOk result.1 (λ found. (s : Situation) (disks : Disks) → IsSound (cluster_of plan.now) s → SlotStands D.Disk plan.now s actor slot
        → IsStrictSlot D.Disk plan.now s disks actor slot
        → HasRestartedStrictlyAt D.Disk plan.now (over_disks s disks) actor choice found result.0) }
    ensures faults { CountsFaults (result.1 ≡ Ok Restarted.Down) (faults_in D.Disk slot) (faults_in D.Disk result.0) }
    ensures safe { OnOk result.1 ((most : ℕ) → most_opened ≤ most → IsSafe D.Disk plan.now most actor slot → IsSafe D.Disk plan.now (most + 1) actor result.0) }
{
    match slot {
        Slot::Empty => (Slot::Empty, Err(OutOfMemory)),
        Slot::Node(node) => {
            let (node, found) = node.restart(choice);
            (Slot::Node(node), found)
        }
        Slot::Store(store) => {
            let (store, found) = store.restart(&plan.topology, choice);
            (Slot::Store(store), found)
        }
    }
}

/// Arms a call of the actor's disk, as `Slot::arm`.
pub(crate) fn arm<D: Rig + Drop>(slot: &mut Slot<D>, plan: &Plan, actor: Actor, calls: u64)
    ensures stands { (s : Situation) → SlotStands D.Disk plan.now s actor slot.old → SlotStands D.Disk plan.now s actor slot.new }
    ensures strict { (s : Situation) (disks : Disks) → IsStrictSlot D.Disk plan.now s disks actor slot.old
        → IsStrictSlot D.Disk plan.now s (after_fail actor calls disks) actor slot.new }
    ensures faults { faults_in D.Disk slot.new ≡ faults_in D.Disk slot.old }
    ensures safe { (most : ℕ) → IsSafe D.Disk plan.now most actor slot.old → IsSafe D.Disk plan.now most actor slot.new }
{
    match slot {
        Slot::Empty => {}
        Slot::Node(node) => node.arm(calls),
        Slot::Store(store) => store.arm(calls),
    }
}

/// Whether messages that an actor gave can be entered.
pub(crate) fn can_be_sent(emitted: &Emitted) -> bool
    ensures { IsTrue result → AreSendable emitted.now.out }
{
    are_sendable(emitted.out.as_slice())
}

/// What an actor gave, if anything, can be entered: where the cluster tests, that is tested.
#[inline(always)]
pub(crate) fn check_given(tests: bool, given: &Option<Emitted>) -> Result<(), OutOfMemory>
    requires { tests ≡ false → IfSome given.now (λ emitted. AreSendable emitted.out) }
    ensures { OnOk result (IfSome given.now (λ emitted. AreSendable emitted.out)) }
{
    if !tests {
        return Ok(());
    }
    let Some(emitted) = given else {
        return Ok(());
    };
    if !can_be_sent(emitted) {
        return Err(OutOfMemory);
    }
    Ok(())
}
