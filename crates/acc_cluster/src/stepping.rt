//! Steps of one actor each.
ghost use Rattle.std.specs.Prelude.{◌≡◌, ℕ, ◌<◌, ◌≤◌, Bool, true, false, IsTrue, length, Option as Maybe, None, Some, IfErr, OnOk, Contains};
ghost use Rattle.acc_stamp.specs.declared.actors.Actor.{Actor as AnActor};
ghost use Rattle.acc_stamp.specs.Actor.{actor_of};
ghost use Rattle.acc_topology.specs.Sets.{is_among};
ghost use Rattle.acc_message.specs.declared.entry.Event.{Event as AnEvent};
ghost use Rattle.acc_message.specs.declared.item.Skip.{Skip as ASkip};
ghost use Rattle.acc_message.specs.Items.{id_of_txn};
ghost use Rattle.acc_message.specs.Run.{is_down, IsNodeOf};
ghost use Rattle.acc_run_laws.specs.Asks.{home_of_txn, slow_skip};
ghost use Rattle.acc_schedule.specs.Actors.{actors};
ghost use Rattle.acc_schedule_runs.specs.Situations.{Situation, whole, receiver_in};
ghost use Rattle.acc_schedule_runs.specs.Moves.{begin_skip, recover_skip, slowing_skip, message_skip, deliver_skip, dropped_unless};
ghost use Rattle.acc_schedule_runs.specs.Schedules.{cluster_of};
ghost use Rattle.acc_schedule_runs.specs.Disks.{Disks, after_fail};
ghost use Rattle.acc_schedule_runs.specs.Limits.{EndsAt};
ghost use Rattle.acc_message.specs.declared.error.RunError.{RunError as AnError};

use crate::asking;
use crate::asking::check_given;
use crate::cluster::Cluster;
use crate::entering::{check_place, enter_given, enter_skip};
use acc_base::OutOfMemory;
use acc_message::{Event, RunError, Skip};
use acc_node::NodeError;
use acc_ports::Rig;
use acc_schedule::Plan;
use acc_stamp::{Actor, TxnId};

// The home of a transaction.
fn home_of(plan: &Plan, txn: u32) -> Actor
    requires { txn < length plan.now.names }
    ensures { result ≡ home_of_txn (cluster_of plan.now) txn }
{
    Actor(plan.homes.as_slice()[txn as usize] * 64)
}

impl<D: Rig + Drop> Cluster<D> {
    ghost use Rattle.acc_cluster.specs.Stands.{StandsFor, AreStrict, faults_at};
    ghost use Rattle.acc_cluster.specs.Steps.{hit, IfLimit};
    ghost use Rattle.acc_cluster.specs.Entering.{HasPlace, IsPastOf, HasGrown};
    ghost use Rattle.acc_cluster.specs.Limits.{StopsAt};
    ghost use Rattle.acc_cluster.specs.Tried.{scheduled, HasStepped, HasChanged, HitsLimit};
    ghost use Rattle.acc_cluster.specs.Tested.{IsTested, HasTestedPlace};

    // Enters that the step was passed over.
    fn pass_over(&mut self, plan: &Plan, number: u32, cause: Skip) -> Result<(), RunError>
        ensures ok { OnOk result ((s : Situation) (a : AnActor) (event : AnEvent) → StandsFor D.Disk plan.now self.old s → HasPlace s
            → HasStepped D.Disk plan.now (scheduled (Some cause) number a event) self.old self.new s) }
        ensures never { IfErr result (IfLimit (λ which most. (s : Situation) → StandsFor D.Disk plan.now self.old s → HasPlace s → ⊥)) }
        ensures tested { HasTestedPlace D.Disk plan.now self.old → OnOk result (IsTested D.Disk plan.now self.new) }
    {
        enter_skip(&mut self.history, number, cause)
    }

    /// The home of a transaction begins it.
    pub(crate) fn begin(
        &mut self,
        tests: bool,
        plan: &Plan,
        number: u32,
        txn: u32,
    ) -> Result<(), RunError>
        requires standing { tests ≡ false → (s : Situation) × StandsFor D.Disk plan.now self.old s }
        requires tested { tests ≡ true → IsTested D.Disk plan.now self.old }
        requires known { txn < length plan.now.names }
        ensures ok { OnOk result ((s : Situation) → StandsFor D.Disk plan.now self.old s
            → HasStepped D.Disk plan.now (scheduled (begin_skip (cluster_of plan.now) s txn) number (home_of_txn (cluster_of plan.now) txn) (AnEvent.Begin txn)) self.old self.new s) }
        ensures limit { IfErr result (IfLimit (λ which most. (s : Situation) → StandsFor D.Disk plan.now self.old s
            → HitsLimit D.Disk plan.now (scheduled (begin_skip (cluster_of plan.now) s txn) number (home_of_txn (cluster_of plan.now) txn) (AnEvent.Begin txn)) self.old self.new s (hit which most))) }
        ensures tested { tests ≡ true → OnOk result (IsTested D.Disk plan.now self.new) }
    {
        let home = home_of(plan, txn);
        check_place(&self.history)?;
        if self.history.is_down(home) {
            return self.pass_over(plan, number, Skip::Down { actor: home });
        }
        if self.history.is_begun(txn) {
            return self.pass_over(plan, number, Skip::Begun { txn });
        }
        self.begin_at(tests, plan, home, txn)
    }

    // The home of a transaction that isn't begun begins it. It is up.
    fn begin_at(&mut self, tests: bool, plan: &Plan, home: Actor, txn: u32) -> Result<(), RunError>
        requires standing { tests ≡ false → (s : Situation) × StandsFor D.Disk plan.now self.old s × HasPlace s × (begin_skip (cluster_of plan.now) s txn ≡ None) }
        requires tested { tests ≡ true → HasTestedPlace D.Disk plan.now self.old }
        requires known { txn < length plan.now.names }
        requires home { home ≡ home_of_txn (cluster_of plan.now) txn }
        ensures ok { OnOk result ((number : ℕ) (s : Situation) → StandsFor D.Disk plan.now self.old s → HasPlace s → begin_skip (cluster_of plan.now) s txn ≡ None
            → HasStepped D.Disk plan.now (scheduled None number home (AnEvent.Begin txn)) self.old self.new s) }
        ensures limit { IfErr result (IfLimit (λ which most. (number : ℕ) (s : Situation) → StandsFor D.Disk plan.now self.old s → HasPlace s → begin_skip (cluster_of plan.now) s txn ≡ None
            → HitsLimit D.Disk plan.now (scheduled None number home (AnEvent.Begin txn)) self.old self.new s (hit which most))) }
        ensures tested { tests ≡ true → OnOk result (IsTested D.Disk plan.now self.new) }
    {
        let place = home.0 as usize;
        if place >= self.slots.len() {
            return Err(RunError::OutOfMemory);
        }
        let body = &plan.bodies.as_slice()[txn as usize];
        let given = asking::begin(tests, &mut self.slots[place], plan, home, txn, body)?;
        check_given(tests, &given)?;
        enter_given(&mut self.history, home, Event::Begin { txn }, given)
    }

    /// A node recovers a transaction.
    pub(crate) fn recover(
        &mut self,
        tests: bool,
        plan: &Plan,
        number: u32,
        txn: u32,
        node: u32,
    ) -> Result<(), RunError>
        requires standing { tests ≡ false → (s : Situation) × StandsFor D.Disk plan.now self.old s }
        requires tested { tests ≡ true → IsTested D.Disk plan.now self.old }
        requires known { (txn < length plan.now.names) × IsTrue (is_among plan.now.topology.nodes node) }
        ensures ok { OnOk result ((s : Situation) → StandsFor D.Disk plan.now self.old s
            → HasStepped D.Disk plan.now (scheduled (recover_skip s txn node) number (actor_of node 0) (AnEvent.Recover txn)) self.old self.new s) }
        ensures limit { IfErr result (IfLimit (λ which most. (s : Situation) → StandsFor D.Disk plan.now self.old s
            → HitsLimit D.Disk plan.now (scheduled (recover_skip s txn node) number (actor_of node 0) (AnEvent.Recover txn)) self.old self.new s (hit which most))) }
        ensures tested { tests ≡ true → OnOk result (IsTested D.Disk plan.now self.new) }
    {
        let _plan = plan.version;
        let actor = Actor(node * 64);
        check_place(&self.history)?;
        if self.history.is_down(actor) {
            return self.pass_over(plan, number, Skip::Down { actor });
        }
        let Some(id) = self.history.id_of(txn) else {
            return self.pass_over(plan, number, Skip::Unknown { txn });
        };
        self.recover_at(tests, plan, actor, txn, id)
    }

    // A node that is up recovers a transaction that is begun.
    fn recover_at(
        &mut self,
        tests: bool,
        plan: &Plan,
        actor: Actor,
        txn: u32,
        id: TxnId,
    ) -> Result<(), RunError>
        requires standing { tests ≡ false → (s : Situation) × StandsFor D.Disk plan.now self.old s × HasPlace s × (is_down actor (whole s) ≡ false) × (id_of_txn (whole s) txn ≡ Some id) }
        requires tested { tests ≡ true → HasTestedPlace D.Disk plan.now self.old }
        requires known { txn < length plan.now.names }
        requires node { IsNodeOf plan.now.topology actor }
        ensures ok { OnOk result ((number : ℕ) (s : Situation) → StandsFor D.Disk plan.now self.old s → HasPlace s → is_down actor (whole s) ≡ false → id_of_txn (whole s) txn ≡ Some id
            → HasStepped D.Disk plan.now (scheduled None number actor (AnEvent.Recover txn)) self.old self.new s) }
        ensures limit { IfErr result (IfLimit (λ which most. (number : ℕ) (s : Situation) → StandsFor D.Disk plan.now self.old s → HasPlace s → is_down actor (whole s) ≡ false → id_of_txn (whole s) txn ≡ Some id
            → HitsLimit D.Disk plan.now (scheduled None number actor (AnEvent.Recover txn)) self.old self.new s (hit which most))) }
        ensures tested { tests ≡ true → OnOk result (IsTested D.Disk plan.now self.new) }
    {
        let place = actor.0 as usize;
        if place >= self.slots.len() {
            return Err(RunError::OutOfMemory);
        }
        let body = &plan.bodies.as_slice()[txn as usize];
        let given = asking::recover(tests, &mut self.slots[place], plan, actor, txn, id, body)?;
        check_given(tests, &given)?;
        enter_given(&mut self.history, actor, Event::Recover { txn }, given)
    }

    /// The home of a transaction gives its fast path up.
    pub(crate) fn slow(
        &mut self,
        tests: bool,
        plan: &Plan,
        number: u32,
        txn: u32,
    ) -> Result<(), RunError>
        requires standing { tests ≡ false → (s : Situation) × StandsFor D.Disk plan.now self.old s }
        requires tested { tests ≡ true → IsTested D.Disk plan.now self.old }
        requires known { txn < length plan.now.names }
        ensures ok { OnOk result ((s : Situation) → StandsFor D.Disk plan.now self.old s
            → HasStepped D.Disk plan.now (scheduled (slowing_skip (cluster_of plan.now) s txn) number (home_of_txn (cluster_of plan.now) txn) (AnEvent.Slow txn)) self.old self.new s) }
        ensures limit { IfErr result (IfLimit (λ which most. (s : Situation) → StandsFor D.Disk plan.now self.old s
            → HitsLimit D.Disk plan.now (scheduled (slowing_skip (cluster_of plan.now) s txn) number (home_of_txn (cluster_of plan.now) txn) (AnEvent.Slow txn)) self.old self.new s (hit which most))) }
        ensures tested { tests ≡ true → OnOk result (IsTested D.Disk plan.now self.new) }
    {
        let home = home_of(plan, txn);
        check_place(&self.history)?;
        if self.history.is_down(home) {
            return self.pass_over(plan, number, Skip::Down { actor: home });
        }
        self.slow_at(tests, plan, number, home, txn)
    }

    // The home, which is up, gives the fast path up, or the step is passed over.
    fn slow_at(
        &mut self,
        tests: bool,
        plan: &Plan,
        number: u32,
        home: Actor,
        txn: u32,
    ) -> Result<(), RunError>
        requires standing { tests ≡ false → (s : Situation) × StandsFor D.Disk plan.now self.old s × HasPlace s × (is_down home (whole s) ≡ false) }
        requires tested { tests ≡ true → HasTestedPlace D.Disk plan.now self.old }
        requires known { txn < length plan.now.names }
        requires home { home ≡ home_of_txn (cluster_of plan.now) txn }
        ensures ok { OnOk result ((s : Situation) → StandsFor D.Disk plan.now self.old s → HasPlace s → is_down home (whole s) ≡ false
            → HasStepped D.Disk plan.now (scheduled (slow_skip (cluster_of plan.now) (whole s) txn (id_of_txn (whole s) txn)) number home (AnEvent.Slow txn)) self.old self.new s) }
        ensures limit { IfErr result (IfLimit (λ which most. (s : Situation) → StandsFor D.Disk plan.now self.old s → HasPlace s → is_down home (whole s) ≡ false
            → HitsLimit D.Disk plan.now (scheduled (slow_skip (cluster_of plan.now) (whole s) txn (id_of_txn (whole s) txn)) number home (AnEvent.Slow txn)) self.old self.new s (hit which most))) }
        ensures tested { tests ≡ true → OnOk result (IsTested D.Disk plan.now self.new) }
    {
        if txn as usize >= plan.homes.as_slice().len() {
            return Err(RunError::OutOfMemory);
        }
        let place = home.0 as usize;
        if place >= self.slots.len() {
            return Err(RunError::OutOfMemory);
        }
        match asking::slow(&mut self.slots[place], plan, home, txn) {
            Ok(emitted) => {
                let given = Some(emitted);
                check_given(tests, &given)?;
                enter_given(&mut self.history, home, Event::Slow { txn }, given)
            }
            Err(NodeError::Unknown) => self.pass_over(plan, number, Skip::Unknown { txn }),
            Err(NodeError::NoQuorum) => self.pass_over(plan, number, Skip::NoQuorum { txn }),
            Err(_) => Err(RunError::OutOfMemory),
        }
    }

    /// A message is delivered.
    pub(crate) fn deliver(
        &mut self,
        tests: bool,
        plan: &Plan,
        number: u32,
        message: u64,
    ) -> Result<(), RunError>
        requires standing { tests ≡ false → (s : Situation) × StandsFor D.Disk plan.now self.old s }
        requires tested { tests ≡ true → IsTested D.Disk plan.now self.old }
        ensures ok { OnOk result ((s : Situation) → StandsFor D.Disk plan.now self.old s
            → HasStepped D.Disk plan.now (scheduled (deliver_skip s message) number (receiver_in s message) (AnEvent.Message message)) self.old self.new s) }
        ensures limit { IfErr result (IfLimit (λ which most. (s : Situation) → StandsFor D.Disk plan.now self.old s
            → HitsLimit D.Disk plan.now (scheduled (deliver_skip s message) number (receiver_in s message) (AnEvent.Message message)) self.old self.new s (hit which most))) }
        ensures tested { tests ≡ true → OnOk result (IsTested D.Disk plan.now self.new) }
    {
        check_place(&self.history)?;
        let Some(m) = self.history.message(message) else {
            let sent = self.history.sent();
            return self.pass_over(
                plan,
                number,
                Skip::NoMessage {
                    number: message,
                    sent,
                },
            );
        };
        let actor = m.to();
        if self.history.is_down(actor) {
            return self.pass_over(plan, number, Skip::Down { actor });
        }
        self.take(tests, plan, message)
    }

    /// The actor that a message goes to takes it. The message was sent, and the actor is up.
    #[inline(always)]
    pub(crate) fn take(&mut self, tests: bool, plan: &Plan, message: u64) -> Result<(), RunError>
        requires standing { tests ≡ false → (s : Situation) × StandsFor D.Disk plan.now self.old s × HasPlace s × (deliver_skip s message ≡ None) }
        requires tested { tests ≡ true → HasTestedPlace D.Disk plan.now self.old }
        ensures ok { OnOk result ((number : ℕ) (s : Situation) → StandsFor D.Disk plan.now self.old s → HasPlace s → deliver_skip s message ≡ None
            → HasStepped D.Disk plan.now (scheduled None number (receiver_in s message) (AnEvent.Message message)) self.old self.new s) }
        ensures limit { IfErr result (IfLimit (λ which most. (number : ℕ) (s : Situation) → StandsFor D.Disk plan.now self.old s → HasPlace s → deliver_skip s message ≡ None
            → HitsLimit D.Disk plan.now (scheduled None number (receiver_in s message) (AnEvent.Message message)) self.old self.new s (hit which most))) }
        ensures counted { OnOk result ((a : AnActor) → Contains (actors plan.now.topology) a → faults_at D.Disk self.old a ≤ faults_at D.Disk self.new a) }
        ensures tested { tests ≡ true → OnOk result (IsTested D.Disk plan.now self.new) }
        ensures grown { OnOk result ((s : Situation) → IsPastOf self.old.history s → HasPlace s → HasGrown self.new.history s) }
    {
        let Some(m) = self.history.message(message) else {
            return Err(RunError::OutOfMemory);
        };
        let actor = m.to();
        let place = actor.0 as usize;
        if place >= self.slots.len() {
            return Err(RunError::OutOfMemory);
        }
        let given = asking::take(tests, &mut self.slots[place], plan, actor, message, m)?;
        check_given(tests, &given)?;
        enter_given(
            &mut self.history,
            actor,
            Event::Message { number: message },
            given,
        )
    }

    /// A message is lost, if so many were sent.
    pub(crate) fn drop_message(
        &mut self,
        plan: &Plan,
        number: u32,
        message: u64,
    ) -> Result<(), RunError>
        ensures ok { OnOk result ((s : Situation) → StandsFor D.Disk plan.now self.old s
            → HasChanged D.Disk plan.now self.old self.new s (dropped_unless (message_skip s message) number s message)) }
        ensures limit { IfErr result (IfLimit (λ which most. (s : Situation) → StandsFor D.Disk plan.now self.old s
            → EndsAt (λ front. front ≡ (dropped_unless (message_skip s message) number s message).own) s.own which most × StopsAt D.Disk plan.now self.new s.own s)) }
        ensures tested { IsTested D.Disk plan.now self.old → OnOk result (IsTested D.Disk plan.now self.new) }
    {
        if message < self.history.sent() {
            self.history.drop_message(message);
            return Ok(());
        }
        check_place(&self.history)?;
        let sent = self.history.sent();
        self.pass_over(
            plan,
            number,
            Skip::NoMessage {
                number: message,
                sent,
            },
        )
    }

    /// A call of an actor's disk is armed.
    pub(crate) fn fail(&mut self, plan: &Plan, actor: Actor, calls: u64) -> Result<(), RunError>
        requires { Contains (actors plan.now.topology) actor }
        ensures ok { OnOk result ((s : Situation) → StandsFor D.Disk plan.now self.old s → StandsFor D.Disk plan.now self.new s) }
        ensures strict { OnOk result ((s : Situation) (disks : Disks) → StandsFor D.Disk plan.now self.old s
            → AreStrict D.Disk plan.now self.old.slots.items s disks
            → AreStrict D.Disk plan.now self.new.slots.items s (after_fail actor calls disks)) }
        ensures never { IfErr result (λ error. error ≡ AnError.OutOfMemory) }
        ensures tested { IsTested D.Disk plan.now self.old → OnOk result (IsTested D.Disk plan.now self.new) }
    {
        let place = actor.0 as usize;
        if place >= self.slots.len() {
            return Err(RunError::OutOfMemory);
        }
        asking::arm(&mut self.slots[place], plan, actor, calls);
        Ok(())
    }
}
