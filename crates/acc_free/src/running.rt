//! The actors of a plan side by side.
ghost use Rattle.std.specs.Prelude.{◌≡◌, ◌≤◌, ℕ, List, [], true, IsTrue, reverse, map, IfOk, IfErr};
ghost use Rattle.acc_message.specs.declared.error.Which.{Which};
ghost use Rattle.acc_message.specs.declared.error.RunError.{RunError as Why};
ghost use Rattle.acc_message.specs.declared.item.Item.{Item as AnItem};
ghost use Rattle.acc_schedule.specs.Plan.{IsPlan};
ghost use Rattle.acc_schedule_runs.specs.Laws.{NobodyIsDown};
ghost use Rattle.acc_schedule_runs.specs.Limits.{IsWithin, EndsAt};
ghost use Rattle.acc_free_laws.specs.Served.{IsServed};
ghost use Rattle.acc_free.specs.Given.{GivesBackFreely, GivesBackAtLimit};
ghost use Rattle.acc_free_ending.specs.Finish.{HaveRested};
ghost use Rattle.acc_free_ending.specs.Moves.{IsFreeFront};
ghost use Rattle.acc_free_ending.specs.Queues.{rest_actor, AreAllActors};

use crate::closing::closed;
use crate::dealing::deal;
use crate::opening::{First, desks};
use crate::workers::{Shared, serve_all};
use acc_base::OutOfMemory;
use acc_cluster::Remains;
use acc_desk::{Floor, PlanTape, Planned};
use acc_free_ending::{Rests, finish};
use acc_free_laws::laws::free_runs_begin;
use acc_message::{GrowingItems, Items, RunError};
use acc_ports::{DiskMaker, Gate};
use acc_run::give_back;
use acc_schedule::Plan;
use acc_schedule_runs::limits::{MOST_BYTES, MOST_ITEMS};
use acc_tape::Tape;
use std::alloc::Global;
use std::marker::Brand;
use std::sync::Wait;
use std::thread::Threads;

/// Lets so many threads take the turns of a plan's actors over new disks, brings what they leave to its end, and gives the disks back, in
/// rising order of the actors' numbers, and what the actors knew to `remains`. Each turn on a thread comes through the gate. A run past a
/// limit gives the disks back too, and has no items. Without memory the disks may be gone. It waits for the threads, and they wait for one
/// another where they enter what they did.
pub fn run_free<R: Threads + Wait + Sync, M: DiskMaker, G: Gate + Sync>(
    rt: &R,
    alloc: Global,
    plan: &Plan,
    workers: u32,
    disks: &mut M,
    gate: &G,
    remains: &mut Remains,
) -> Result<Items, RunError>
where
    M::D: Drop + Send,
    requires workers { (1 ≤ workers) × (workers ≤ 16) }
    requires is_plan { IsPlan plan.now }

    // Whatever the disks answered and in whatever order turns came, every actor took its turns, and the items are within the limits.
    ensures served { IfOk result (λ items. IsServed plan.now (reverse items)) }
    ensures within { IfOk result (λ items. IsWithin (reverse items)) }
    ensures limit { IfErr result (λ e. (which : Which) (number : ℕ) → e ≡ Why.Limit which number →
        (front : List AnItem) × EndsAt (IsFreeFront (M.strict disks.old) plan.now []) front which number
        × GivesBackAtLimit M.D.Disk plan.now front (M.given disks.old) (M.given disks.new)) }
    ensures stayed { IsTrue (M.strict disks.old) → IfOk result (λ items. NobodyIsDown (reverse items)) }

    ensures given { IfOk result (λ items. GivesBackFreely M.D.Disk plan.now (reverse items) (M.given disks.old) (M.given disks.new)) }
    ensures kind { M.strict disks.new ≡ M.strict disks.old }
{
    run_on::<R, M, G, Brand>(rt, alloc, plan, workers, disks, gate, remains)
}

// The same over a tape of the plan.
fn run_on<R: Threads + Wait + Sync, M: DiskMaker, G: Gate + Sync, J: Planned + Send>(
    rt: &R,
    alloc: Global,
    plan: &Plan,
    workers: u32,
    disks: &mut M,
    gate: &G,
    remains: &mut Remains,
) -> Result<Items, RunError>
where
    M::D: Drop + Send,
    requires plan { plan.now ≡ J.plan }
    requires strict { J.strict ≡ M.strict disks.old }
    requires workers { (1 ≤ workers) × (workers ≤ 16) }
    requires is_plan { IsPlan plan.now }
    ensures served { IfOk result (λ items. IsServed plan.now (reverse items)) }
    ensures within { IfOk result (λ items. IsWithin (reverse items)) }
    ensures limit { IfErr result (λ e. (which : Which) (number : ℕ) → e ≡ Why.Limit which number →
        (front : List AnItem) × EndsAt (IsFreeFront J.strict plan.now []) front which number
        × GivesBackAtLimit M.D.Disk plan.now front (M.given disks.old) (M.given disks.new)) }
    ensures stayed { J.strict ≡ true → IfOk result (λ items. NobodyIsDown (reverse items)) }
    ensures given { IfOk result (λ items. GivesBackFreely M.D.Disk plan.now (reverse items) (M.given disks.old) (M.given disks.new)) }
    ensures kind { M.strict disks.new ≡ M.strict disks.old }
{
    let (rests, entered) = entered_by::<R, M, G, J>(rt, alloc, plan, workers, disks, gate)?;
    let (ended, gone) = finish(alloc, plan, rests, entered, remains)?;
    give_back(disks, ended.disks)?;
    gone?;
    Ok(ended.items)
}

// How many stores other workers get before the one that has the nodes. All nodes have about a fifth as much to do as all stores.
fn ahead(actors: usize, nodes: usize) -> usize {
    actors.saturating_sub(nodes) / 5 + 1
}

// Serves a desk of each actor until there is nothing to do: what the actors left undone, and what they entered.
fn entered_by<'x, R: Threads + Wait + Sync, M: DiskMaker, G: Gate + Sync, J: Planned + Send>(
    rt: &'x R,
    alloc: Global,
    plan: &'x Plan,
    workers: u32,
    disks: &mut M,
    gate: &'x G,
) -> Result<(Rests<M::D>, GrowingItems), OutOfMemory>
where
    M::D: Drop + Send,
    requires plan { plan.now ≡ J.plan }
    requires strict { J.strict ≡ M.strict disks.old }
    requires workers { (1 ≤ workers) × (workers ≤ 16) }
    requires is_plan { IsPlan plan.now }
    ensures actors { IfOk result (λ parts. AreAllActors plan.now (map rest_actor parts.0.items)) }
    ensures rested { IfOk result (λ parts. HaveRested M.D.Disk J.strict plan.now parts.0.items parts.1.items) }
    ensures given { M.given disks.new ≡ M.given disks.old }
    ensures kind { M.strict disks.new ≡ M.strict disks.old }
{
    free_runs_begin();
    let (tape, mut first): (PlanTape<J>, First<J>) = Tape::new(alloc, MOST_ITEMS, MOST_BYTES)?;
    let all = desks(rt, alloc, plan, disks, &tape, &mut first)?;
    let nodes = plan.topology.nodes().count_ones() as usize;
    let rounds = ahead(all.len(), nodes);
    let hands = deal(alloc, all, nodes, rounds, workers as usize)?;
    let floor = Floor::new(alloc, workers as usize)?;
    let on = Shared {
        rt,
        plan,
        tape: &tape,
        floor: &floor,
        gate,
    };
    let served = serve_all(alloc, &on, hands)?;
    closed(alloc, plan, tape, first, served)
}
