//! Workers: threads that serve desks side by side.
ghost use Rattle.std.specs.Prelude.{◌≡◌, ◌≤◌, ◌++◌, false, map, IfOk, IsOk};
ghost use Rattle.acc_schedule_runs.specs.Limits.{most_items};
ghost use Rattle.acc_desk.specs.Desks.{AreSound, name_of};
ghost use Rattle.acc_free.specs.Dealing.{all_in};
ghost use Rattle.acc_free.specs.Workers.{KeepsSound};

use acc_base::OutOfMemory;
use acc_desk::{Desks, Floor, PlanTape, Planned, Served, serve};
use acc_ports::{Gate, Rig};
use acc_schedule::Plan;
use std::alloc::Global;
use std::snapshot::Snapshot;
use std::sync::Wait;
use std::thread;
use std::thread::{Promise, Scope, Threads};

/// What all workers share.
#[derive(Clone, Copy)]
pub(crate) struct Shared<'e, R, J: Planned, G> {
    pub(crate) rt: &'e R,
    pub(crate) plan: &'e Plan,
    pub(crate) tape: &'e PlanTape<J>,
    pub(crate) floor: &'e Floor,
    pub(crate) gate: &'e G,
}

// A worker gives its desks back, each sound, unless memory was refused.
#[derive(Drop)]
struct Keeps<'e, D: Rig, J: Planned> {
    plan: &'e Plan,
    tape: &'e PlanTape<J>,
    desks: Snapshot<Desks<D, J>>,
}

impl<'e, D: Rig, J: Planned> Promise<Served<D, J>> for Keeps<'e, D, J> {
    ghost use Rattle.acc_free.specs.Workers.{KeepsSound};

    ghost kept_by = { λ p served. KeepsSound D.Disk J.strict p.plan.now p.tape.now p.desks.value.items served };
}

/// Serves the desks of the first hand here, and those of each other hand on a thread of its own, from the last hand on, and gives them all
/// back. Where a thread can't be started, its desks are served here, once the hands before it were served and their threads have ended. It
/// waits for all threads.
pub(crate) fn serve_all<
    'e,
    R: Threads + Wait + Sync,
    D: Rig + Drop + Send + 'e,
    J: Planned + Send + 'e,
    G: Gate + Sync,
>(
    alloc: Global,
    on: &Shared<'e, R, J, G>,
    hands: Vec<Desks<D, J>>,
) -> Result<Desks<D, J>, OutOfMemory>
    requires plan { on.now.plan.now ≡ J.plan }
    requires limits { on.now.tape.now.limits.items ≤ most_items }
    requires sound { AreSound D.Disk J.strict on.now.plan.now on.now.tape.now (all_in hands.items) }
    ensures same { IfOk result (λ desks. map name_of desks.items ≡ map name_of (all_in hands.items)) }
    ensures sound { IfOk result (λ desks. AreSound D.Disk J.strict on.entry.now.plan.now on.entry.now.tape.now desks.items) }
{
    thread::scope(
        thread::scope_env(),
        on.rt,
        |scope| -> Result<Desks<D, J>, OutOfMemory>
            requires plan { on.now.plan.now ≡ J.plan }
            requires limits { on.now.tape.now.limits.items ≤ most_items }
            requires sound { AreSound D.Disk J.strict on.now.plan.now on.now.tape.now (all_in hands.items) }
            ensures same { IfOk result (λ desks. map name_of desks.items ≡ map name_of (all_in hands.items)) }
            ensures sound { IfOk result (λ desks. AreSound D.Disk J.strict on.entry.now.plan.now on.entry.now.tape.now desks.items) }
        { serve_each(alloc, scope, on, hands) },
    )
}

// The same in a scope of threads.
fn serve_each<
    's,
    'e: 's,
    R: Threads + Wait + Sync,
    D: Rig + Drop + Send + 'e,
    J: Planned + Send + 'e,
    G: Gate + Sync,
>(
    alloc: Global,
    scope: &'s Scope<'s, &'e ()>,
    on: &Shared<'e, R, J, G>,
    hands: Vec<Desks<D, J>>,
) -> Result<Desks<D, J>, OutOfMemory>
    requires plan { on.now.plan.now ≡ J.plan }
    requires limits { on.now.tape.now.limits.items ≤ most_items }
    requires sound { AreSound D.Disk J.strict on.now.plan.now on.now.tape.now (all_in hands.items) }
    ensures same { IfOk result (λ desks. map name_of desks.items ≡ map name_of (all_in hands.items)) }
    ensures sound { IfOk result (λ desks. AreSound D.Disk J.strict on.entry.now.plan.now on.entry.now.tape.now desks.items) }
{
    let mut others = hands;
    let Some(desks) = others.pop() else {
        return Ok(Vec::new(alloc));
    };
    let worker = others.len();
    let Shared {
        rt,
        plan,
        tape,
        floor,
        gate,
    } = *on;
    if others.as_slice().is_empty() {
        let first = serve(rt, plan, desks, worker, floor, tape, gate);
        return joined(Ok(Vec::new(alloc)), first);
    }
    let keeps = Keeps {
        plan,
        tape,
        desks: Snapshot::of(&desks),
    };
    match scope.spawn_with(
        keeps,
        move || -> Served<D, J>
            requires plan { plan.now ≡ J.plan }
            requires limits { tape.now.limits.items ≤ most_items }
            requires sound { AreSound D.Disk J.strict plan.now tape.now desks.items }
            ensures { KeepsSound D.Disk J.strict plan.entry.now tape.entry.now desks.items result }
        { serve(rt, plan, desks, worker, floor, tape, gate) },
    ) {
        Ok(child) => {
            let served = serve_each(alloc, scope, on, others);
            joined(served, child.join(rt))
        }
        Err(refused) => {
            floor.clear(worker);
            let served = serve_each(alloc, scope, on, others);
            joined(served, (refused.value)())
        }
    }
}

// All desks, unless memory was refused.
fn joined<D: Rig + Drop, J: Planned>(
    served: Result<Desks<D, J>, OutOfMemory>,
    more: Served<D, J>,
) -> Result<Desks<D, J>, OutOfMemory>
    ensures all { IfOk result (λ desks. IfOk served (λ first. (more.refused ≡ false) × (desks.items ≡ first.items ++ more.desks.items))) }
    ensures served { IfOk result (λ desks. IsOk served) }
{
    let mut desks = served?;
    let mut more = more;
    if more.refused {
        return Err(OutOfMemory);
    }
    desks.append(&mut more.desks)?;
    Ok(desks)
}
