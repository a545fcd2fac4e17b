//! The visits of looks, moment by moment.
ghost use Rattle.std.specs.Prelude.{◌≡◌, List, ◌∷◌, ◌++◌, [], length, map, nat_le, ℕ, true, false, IfOk, IfSome, OnOk, None};
ghost use Rattle.std.specs.List.{AllByRecursion, list_all};
ghost use Rattle.acc_stamp.specs.Rising.{ids_union};
ghost use Rattle.acc_schedule.specs.Content.{Content};
ghost use Rattle.acc_schedule_runs.specs.Schedules.{cluster_of};
ghost use Rattle.acc_schedule_runs.specs.Situations.{Situation};
ghost use Rattle.acc_cluster.specs.Stands.{StandsFor};
ghost use Rattle.acc_glance.specs.Stages.{after_reading, asked_at, has_asked as has_asked_all, has_ended, moved, next_to_ask as due_to_ask, next_to_read as due_to_read, read_at as due_read, unvisited as left_unvisited, visited};
ghost use Rattle.acc_stamp.specs.Actor.{shard_of};
ghost use Rattle.acc_topology.specs.Layout.{Layout};
ghost use Rattle.acc_message.specs.declared.message.Message.{Message};
ghost use Rattle.acc_message.specs.StoreRules.{replay};
ghost use Rattle.acc_store.specs.Queries.{cell_if_applied};
ghost use Rattle.acc_store.specs.Stands.{actor_of, StandsFor as StoreStands};
ghost use Rattle.acc_glance.specs.Visits.{is_due as is_due_in, AreReplicasOf, HasReplicas, IsLed, IsNextToRead, IsVisitOf, ReadsAfterAsking};

use crate::looks::{Look, Looks};
use crate::nodes::set_of;
use crate::stages::{Course, Stage};
use crate::stores::{Place, Reached, Replicas, first_left, read, replicas_of};
use acc_base::OutOfMemory;
use acc_cluster::Cluster;
use acc_index::rising;
use acc_ports::Rig;
use acc_schedule::Plan;
use acc_stamp::{Ids, TxnId};
use acc_value::{Key, Value};
use std::alloc::Global;
use std::mem;

/// A look with where it stands.
#[derive(Drop)]
pub(crate) struct Visitor {
    pub(crate) look: Look,
    /// Those of the look's key.
    pub(crate) replicas: Replicas,
    pub(crate) stage: Stage,
    pub(crate) reached: Reached,
}

/// A moment: that before the step with its number, or one after the last step.
#[derive(Clone, Copy)]
pub(crate) struct Moment {
    pub(crate) number: u32,
    pub(crate) over: bool,
}

/// The looks, before they begin.
pub(crate) fn visitors(
    alloc: Global,
    plan: &Plan,
    looks: &Looks,
) -> Result<Vec<Visitor>, OutOfMemory>
    ensures looks { IfOk result (λ visitors. map (λ v. v.look) visitors.items ≡ looks.now) }
    ensures replicas { IfOk result (λ visitors. AllByRecursion (HasReplicas plan.now) visitors.items) }
    ensures led { IfOk result (λ visitors. AllByRecursion (IsLed plan.now []) visitors.items) }
{
    let mut visitors = Vec::new(alloc);
    for look in looks.as_slice() {
        visitors.push(begun_by(alloc, plan, look)?)?;
    }
    Ok(visitors)
}

fn begun_by(alloc: Global, plan: &Plan, look: &Look) -> Result<Visitor, OutOfMemory>
    ensures look { IfOk result (λ visitor. visitor.look ≡ look.now) }
    ensures replicas { IfOk result (λ visitor. HasReplicas plan.now visitor) }
    ensures led { IfOk result (λ visitor. IsLed plan.now [] visitor) }
{
    let key = look.key.copy()?;
    let replicas = replicas_of(plan, &key);
    Ok(Visitor {
        look: Look { at: look.at, key },
        replicas,
        stage: Stage::Waiting,
        reached: Reached {
            places: vec![in alloc; 0; 16]?,
            one: Ids::new(alloc),
        },
    })
}

/// Lets each look make its visit of a moment.
pub(crate) fn visit_all<D: Rig + Drop>(
    alloc: Global,
    plan: &Plan,
    cluster: &Cluster<D>,
    moment: Moment,
    visitors: &mut Vec<Visitor>,
) -> Result<(), OutOfMemory>
    requires replicas { AllByRecursion (HasReplicas plan.now) visitors.old.items }
    ensures looks { OnOk result (map (λ v. v.look) visitors.new.items ≡ map (λ v. v.look) visitors.old.items) }
    ensures replicas { OnOk result (AllByRecursion (HasReplicas plan.now) visitors.new.items) }
    ensures led { OnOk result ((s : Situation) (moments : List Situation) → StandsFor D.Disk plan.now cluster.now s
        → moment.number ≡ length moments → moment.over ≡ nat_le (length plan.now.steps) (length moments)
        → AllByRecursion (IsLed plan.now moments) visitors.old.items → AllByRecursion (IsLed plan.now (s ∷ moments)) visitors.new.items) }
{
    for place in 0..visitors.len() {
        advance(alloc, plan, cluster, moment, &mut visitors[place])?;
    }
    Ok(())
}

/// Whether each look has ended.
pub(crate) fn are_over(visitors: &[Visitor]) -> bool
    ensures { result ≡ list_all (λ visitor. has_ended visitor.stage) visitors.now }
{
    visitors.iter().all(|visitor| is_over(&visitor.stage))
}

fn is_over(stage: &Stage) -> bool
    ensures { result ≡ has_ended stage.now }
{
    matches!(stage, Stage::Read { .. } | Stage::Open { .. })
}

// Whether the look has a visit to make in this moment, or may have.
fn is_due(visitor: &Visitor, moment: Moment) -> bool
    ensures { result ≡ is_due_in moment.number visitor.now.look visitor.now.stage }
{
    match &visitor.stage {
        Stage::Waiting => moment.number == visitor.look.at,
        Stage::Visiting(_) => true,
        Stage::Read { .. } => false,
        Stage::Open { .. } => false,
    }
}

// Lets a look make its visit of the moment.
fn advance<D: Rig + Drop>(
    alloc: Global,
    plan: &Plan,
    cluster: &Cluster<D>,
    moment: Moment,
    visitor: &mut Visitor,
) -> Result<(), OutOfMemory>
    requires replicas { HasReplicas plan.now visitor.old }
    ensures look { OnOk result (visitor.new.look ≡ visitor.old.look) }
    ensures replicas { OnOk result (HasReplicas plan.now visitor.new) }
    ensures stage { OnOk result ((s : Situation) → StandsFor D.Disk plan.now cluster.now s
        → ReadsAfterAsking (cluster_of plan.now) visitor.old.look.key visitor.old.stage
        → visitor.new.stage ≡ moved (cluster_of plan.now) visitor.old.look moment.over moment.number s visitor.old.stage) }
{
    if !is_due(visitor, moment) {
        return Ok(());
    }
    let passed = pass_by(
        plan,
        cluster,
        moment.over,
        &visitor.look,
        visitor.replicas,
        &mut visitor.stage,
        &mut visitor.reached,
    )?;
    if passed {
        return Ok(());
    }
    let stage = mem::replace(&mut visitor.stage, Stage::Waiting);
    let course = course_of(alloc, cluster, stage);
    let next = visit(
        plan,
        cluster,
        moment.over,
        &visitor.look.key,
        visitor.replicas,
        course,
        &mut visitor.reached,
    )?;
    visitor.stage = next;
    Ok(())
}

// A visit in vain of the second phase, before the last step is taken, changes the node visited last and nothing else. Whether the look made
// one; where it didn't, nothing has changed. That of the first visit of the phase is made elsewhere: from then on the node visited last
// tells that a majority was asked.
fn pass_by<D: Rig + Drop>(
    plan: &Plan,
    cluster: &Cluster<D>,
    over: bool,
    look: &Look,
    replicas: Replicas,
    stage: &mut Stage,
    reached: &mut Reached,
) -> Result<bool, OutOfMemory>
    requires replicas { AreReplicasOf plan.now look.now.key replicas }
    ensures passed { IfOk result (λ passed. passed ≡ true → (s : Situation) (number : ℕ) → StandsFor D.Disk plan.now cluster.now s
        → ReadsAfterAsking (cluster_of plan.now) look.now.key stage.old → stage.new ≡ moved (cluster_of plan.now) look.now over number s stage.old) }
    ensures kept { IfOk result (λ passed. passed ≡ false → stage.new ≡ stage.old) }
{
    if over {
        return Ok(false);
    }
    let Stage::Visiting(course) = stage else {
        return Ok(false);
    };
    if course.last == 0 {
        return Ok(false);
    }
    let Some(place) = next_to_read(plan, cluster, &look.key, replicas, course) else {
        return Ok(false);
    };
    let None = read_at(&place, &look.key, &course.told, reached)? else {
        return Ok(false);
    };
    course.last = place.node;
    Ok(true)
}

// The visits so far of a look that makes one: none where it begins.
fn course_of<D: Rig + Drop>(alloc: Global, cluster: &Cluster<D>, stage: Stage) -> Course
    ensures { (plan : Content) (s : Situation) → StandsFor D.Disk plan cluster.now s → IsVisitOf s stage result }
{
    match stage {
        Stage::Visiting(course) => course,
        Stage::Waiting => Course::new(alloc, cluster.items().len() as u64),
        Stage::Read { from, .. } => Course::new(alloc, from),
        Stage::Open { from } => Course::new(alloc, from),
    }
}

// The visit of a look that is under way.
fn visit<D: Rig + Drop>(
    plan: &Plan,
    cluster: &Cluster<D>,
    over: bool,
    key: &Key,
    replicas: Replicas,
    course: Course,
    reached: &mut Reached,
) -> Result<Stage, OutOfMemory>
    requires replicas { AreReplicasOf plan.now key.now replicas }
    ensures { IfOk result (λ stage. (s : Situation) → StandsFor D.Disk plan.now cluster.now s
        → stage ≡ visited (cluster_of plan.now) s key.now over course) }
{
    if has_asked(plan, key, &course) {
        read_next(plan, cluster, over, key, replicas, course, reached)
    } else {
        ask_next(plan, cluster, over, key, replicas, course)
    }
}

// Whether a majority was asked.
fn has_asked(plan: &Plan, key: &Key, course: &Course) -> bool
    ensures { result ≡ has_asked_all (cluster_of plan.now) key.now course.now }
{
    let shard = plan.topology.shard_of(key);
    let nodes = plan.topology.replicas(shard);
    plan.topology
        .is_majority(shard, set_of(nodes, course.asked.as_slice()))
}

// A visit of the first phase: one store tells which writers of the key it knows.
fn ask_next<D: Rig + Drop>(
    plan: &Plan,
    cluster: &Cluster<D>,
    over: bool,
    key: &Key,
    replicas: Replicas,
    course: Course,
) -> Result<Stage, OutOfMemory>
    requires replicas { AreReplicasOf plan.now key.now replicas }
    ensures { IfOk result (λ stage. (s : Situation) → StandsFor D.Disk plan.now cluster.now s
        → stage ≡ asked_at (cluster_of plan.now) s key.now over course (due_to_ask (cluster_of plan.now) s key.now course)) }
{
    let Some(place) = first_left(plan, cluster, key, replicas, 0, course.asked.as_slice()) else {
        return Ok(unvisited(over, course));
    };
    let writers = place.store.known_writers(key)?;
    let told = union(course.told.as_slice(), writers)?;
    let mut asked = course.asked;
    asked.push(place.node)?;
    Ok(Stage::Visiting(Course {
        from: course.from,
        asked,
        told,
        last: course.last,
        late: course.late,
    }))
}

// All these transactions, each once, rising.
fn union(told: &[TxnId], writers: Ids) -> Result<Ids, OutOfMemory>
    ensures { IfOk result (λ all. all ≡ ids_union [] (writers ++ told.now)) }
{
    let mut all = writers.into_vec();
    all.extend_from_slice(told)?;
    rising(all)
}

// A visit of the second phase: a store that has applied all told writers shows the cell.
fn read_next<D: Rig + Drop>(
    plan: &Plan,
    cluster: &Cluster<D>,
    over: bool,
    key: &Key,
    replicas: Replicas,
    course: Course,
    reached: &mut Reached,
) -> Result<Stage, OutOfMemory>
    requires replicas { AreReplicasOf plan.now key.now replicas }
    ensures { IfOk result (λ stage. (s : Situation) → StandsFor D.Disk plan.now cluster.now s
        → stage ≡ due_read (cluster_of plan.now) s key.now over course (due_to_read (cluster_of plan.now) s key.now course)) }
{
    let Some(place) = next_to_read(plan, cluster, key, replicas, &course) else {
        return Ok(unvisited(over, course));
    };
    match read_at(&place, key, &course.told, reached)? {
        Some(cell) => Ok(Stage::Read {
            from: course.from,
            to: cluster.items().len() as u64,
            cell,
        }),
        None => Ok(Stage::Visiting(passed(over, course, place.node)?)),
    }
}

// The store that is visited next in the second phase: going round from the one visited last.
fn next_to_read<'c, D: Rig + Drop>(
    plan: &Plan,
    cluster: &'c Cluster<D>,
    key: &Key,
    replicas: Replicas,
    course: &Course,
) -> Option<Place<'c>>
    requires replicas { AreReplicasOf plan.now key.now replicas }
    ensures some { IfSome result (λ place. (s : Situation) → StandsFor D.Disk plan.now cluster.now s
        → IsNextToRead plan.now s key.now course.now place.node place.store.now) }
    ensures none { result ≡ None → (s : Situation) → StandsFor D.Disk plan.now cluster.now s
        → due_to_read (cluster_of plan.now) s key.now course.now ≡ None }
{
    let late = course.late.as_slice();
    match first_left(plan, cluster, key, replicas, course.last, late) {
        Some(place) => Some(place),
        None => first_left(plan, cluster, key, replicas, 0, late),
    }
}

// What a store shows in the second phase.
fn read_at(
    place: &Place<'_>,
    key: &Key,
    told: &Ids,
    reached: &mut Reached,
) -> Result<Option<Option<Value>>, OutOfMemory>
    ensures { IfOk result (λ cell. (layout : Layout) (messages : List Message) → StoreStands layout place.now.store.now (replay layout (actor_of place.now.store.now) messages)
        → cell ≡ cell_if_applied layout (shard_of (actor_of place.now.store.now)) (replay layout (actor_of place.now.store.now) messages) told.now key.now) }
{
    match reached.places.get_mut(place.node as usize) {
        Some(applied) => read(place.store, key, told, applied, &mut reached.one),
        None => Err(OutOfMemory),
    }
}

// The look with one more visit in vain.
fn passed(over: bool, course: Course, node: u32) -> Result<Course, OutOfMemory>
    ensures { IfOk result (λ passed. passed ≡ after_reading over course node) }
{
    let mut late = course.late;
    if over {
        late.push(node)?;
    }
    Ok(Course {
        from: course.from,
        asked: course.asked,
        told: course.told,
        last: node,
        late,
    })
}

// A look that has no store to visit: after the last step it stays open.
fn unvisited(over: bool, course: Course) -> Stage
    ensures { result ≡ left_unvisited over course }
{
    if over {
        Stage::Open { from: course.from }
    } else {
        Stage::Visiting(course)
    }
}
