//! The desks of a plan's actors that have done nothing.
ghost use Rattle.std.specs.Prelude.{◌≡◌, ◌≢◌, ℕ, ◌+◌, ◌*◌, ◌≤◌, IsTrue, true, false, [], ◌∷◌, ◌++◌, length, map, Contains, IfOk, OnOk};
ghost use Rattle.acc_stamp.specs.Actor.{actor_of};
ghost use Rattle.acc_topology.specs.Layout.{HasShard, shard_at};
ghost use Rattle.acc_topology.specs.Sets.{is_among};
ghost use Rattle.acc_message.specs.Run.{is_node};
ghost use Rattle.acc_schedule.specs.Actors.{actors};
ghost use Rattle.acc_schedule.specs.Plan.{IsPlan};
ghost use Rattle.acc_schedule_runs.specs.Disks.{fresh_disks};
ghost use Rattle.acc_schedule_runs.specs.Limits.{most_items};
ghost use Rattle.acc_actors.specs.Slots.{SlotStands, IsStrictSlot};
ghost use Rattle.acc_free_laws.specs.FreeRun.{alone};
ghost use Rattle.acc_desk.specs.Desks.{run_with};
ghost use Rattle.acc_free.specs.Opened.{desk_actor, rank_of, AreOpened};

use crate::owned::commands_of;
use acc_actors::Slot;
use acc_base::OutOfMemory;
use acc_desk::{Desk, Desks, PlanRules, PlanTape, Planned};
use acc_free_laws::laws::free_runs_begin;
use acc_message::Item;
use acc_ports::{DiskMaker, Rig};
use acc_schedule::Plan;
use acc_stamp::{Actor, actor};
use acc_tape::Seat;
use acc_topology::sets::contains;
use std::alloc::Global;
use std::sync::Wait;

/// The first seat of the tape of a plan.
pub(crate) type First<J> = Seat<Item, PlanRules<J>>;

/// A desk of each actor, over a disk of its own: first the nodes in rising order, then the stores in the order of the shards, those of a
/// shard in rising order of their nodes. It takes turns at the tape, and waits where the tape is taken.
pub(crate) fn desks<W: Wait, M: DiskMaker, J: Planned>(
    rt: &W,
    alloc: Global,
    plan: &Plan,
    disks: &mut M,
    tape: &PlanTape<J>,
    first: &mut First<J>,
) -> Result<Desks<M::D, J>, OutOfMemory>
where
    M::D: Drop,
    requires plan { plan.now ≡ J.plan }
    requires is_plan { IsPlan plan.now }
    requires strict { J.strict ≡ M.strict disks.old }
    requires limits { tape.now.limits.items ≤ most_items }
    requires first { (first.old.tape ≡ tape.now) × (first.old.actor ≡ 0) × (first.old.made ≡ []) }
    ensures ok { IfOk result (λ desks. AreOpened M.D.Disk (run_with J.strict plan.now tape.now) (actors plan.now.topology) ((length plan.now.topology.shards + 1) * 16) first.new desks.items) }
    ensures given { M.given disks.new ≡ M.given disks.old }
    ensures kind { M.strict disks.new ≡ M.strict disks.old }
{
    let mut desks = Vec::new(alloc);
    put_nodes(rt, alloc, plan, disks, tape, first, &mut desks)?;
    put_stores(rt, alloc, plan, disks, tape, first, &mut desks)?;
    Ok(desks)
}

// Puts the desks of the nodes.
fn put_nodes<W: Wait, M: DiskMaker, J: Planned>(
    rt: &W,
    alloc: Global,
    plan: &Plan,
    disks: &mut M,
    tape: &PlanTape<J>,
    first: &mut First<J>,
    desks: &mut Desks<M::D, J>,
) -> Result<(), OutOfMemory>
where
    M::D: Drop,
    requires plan { plan.now ≡ J.plan }
    requires is_plan { IsPlan plan.now }
    requires strict { J.strict ≡ M.strict disks.old }
    requires limits { tape.now.limits.items ≤ most_items }
    requires opened { AreOpened M.D.Disk (run_with J.strict plan.now tape.now) [] 0 first.old desks.old.items }
    ensures ok { OnOk result (AreOpened M.D.Disk (run_with J.strict plan.now tape.now) (map (λ node. actor_of node 0) plan.now.topology.nodes) 16 first.new desks.new.items) }
    ensures given { M.given disks.new ≡ M.given disks.old }
    ensures kind { M.strict disks.new ≡ M.strict disks.old }
{
    let members = plan.topology.nodes();
    for number in 0..16 {
        if contains(members, number) {
            put_node(rt, alloc, plan, disks, tape, first, desks, number)?;
        }
    }
    Ok(())
}

// Puts the desk of a node after the others.
fn put_node<W: Wait, M: DiskMaker, J: Planned>(
    rt: &W,
    alloc: Global,
    plan: &Plan,
    disks: &mut M,
    tape: &PlanTape<J>,
    first: &mut First<J>,
    desks: &mut Desks<M::D, J>,
    number: u32,
) -> Result<(), OutOfMemory>
where
    M::D: Drop,
    requires plan { plan.now ≡ J.plan }
    requires is_plan { IsPlan plan.now }
    requires strict { J.strict ≡ M.strict disks.old }
    requires limits { tape.now.limits.items ≤ most_items }
    requires known { IsTrue (is_among plan.now.topology.nodes number) }
    requires opened { AreOpened M.D.Disk (run_with J.strict plan.now tape.now) (map desk_actor desks.old.items) number first.old desks.old.items }
    ensures ok { OnOk result (AreOpened M.D.Disk (run_with J.strict plan.now tape.now) (map desk_actor desks.old.items ++ actor_of number 0 ∷ []) (number + 1) first.new desks.new.items) }
    ensures given { M.given disks.new ≡ M.given disks.old }
    ensures kind { M.strict disks.new ≡ M.strict disks.old }
{
    let own = actor(number, 0);
    let disk = disks.make(own.0)?;
    let slot = Slot::fresh_node(alloc, plan, number, disk);
    put(rt, alloc, plan, tape, first, desks, own, slot)
}

// Puts the desks of the stores after those of the nodes.
fn put_stores<W: Wait, M: DiskMaker, J: Planned>(
    rt: &W,
    alloc: Global,
    plan: &Plan,
    disks: &mut M,
    tape: &PlanTape<J>,
    first: &mut First<J>,
    desks: &mut Desks<M::D, J>,
) -> Result<(), OutOfMemory>
where
    M::D: Drop,
    requires plan { plan.now ≡ J.plan }
    requires is_plan { IsPlan plan.now }
    requires strict { J.strict ≡ M.strict disks.old }
    requires limits { tape.now.limits.items ≤ most_items }
    requires opened { AreOpened M.D.Disk (run_with J.strict plan.now tape.now) (map (λ node. actor_of node 0) plan.now.topology.nodes) 16 first.old desks.old.items }
    ensures ok { OnOk result (AreOpened M.D.Disk (run_with J.strict plan.now tape.now) (actors plan.now.topology) ((length plan.now.topology.shards + 1) * 16) first.new desks.new.items) }
    ensures given { M.given disks.new ≡ M.given disks.old }
    ensures kind { M.strict disks.new ≡ M.strict disks.old }
{
    for place in 0..plan.topology.shards() {
        put_stores_of(rt, alloc, plan, disks, tape, first, desks, place + 1)?;
    }
    Ok(())
}

// Puts the desks of a shard's stores after the others.
fn put_stores_of<W: Wait, M: DiskMaker, J: Planned>(
    rt: &W,
    alloc: Global,
    plan: &Plan,
    disks: &mut M,
    tape: &PlanTape<J>,
    first: &mut First<J>,
    desks: &mut Desks<M::D, J>,
    shard: u32,
) -> Result<(), OutOfMemory>
where
    M::D: Drop,
    requires plan { plan.now ≡ J.plan }
    requires is_plan { IsPlan plan.now }
    requires strict { J.strict ≡ M.strict disks.old }
    requires limits { tape.now.limits.items ≤ most_items }
    requires shard { HasShard plan.now.topology shard }
    requires opened { AreOpened M.D.Disk (run_with J.strict plan.now tape.now) (map desk_actor desks.old.items) (shard * 16) first.old desks.old.items }
    ensures ok { OnOk result (AreOpened M.D.Disk (run_with J.strict plan.now tape.now) (map desk_actor desks.old.items ++ map (λ node. actor_of node shard) (shard_at plan.now.topology shard).replicas) ((shard + 1) * 16) first.new desks.new.items) }
    ensures given { M.given disks.new ≡ M.given disks.old }
    ensures kind { M.strict disks.new ≡ M.strict disks.old }
{
    let replicas = plan.topology.replicas(shard);
    for node in 0..16 {
        if contains(replicas, node) {
            put_store(
                rt,
                alloc,
                plan,
                disks,
                tape,
                first,
                desks,
                actor(node, shard),
            )?;
        }
    }
    Ok(())
}

// Puts the desk of a store after the others.
fn put_store<W: Wait, M: DiskMaker, J: Planned>(
    rt: &W,
    alloc: Global,
    plan: &Plan,
    disks: &mut M,
    tape: &PlanTape<J>,
    first: &mut First<J>,
    desks: &mut Desks<M::D, J>,
    own: Actor,
) -> Result<(), OutOfMemory>
where
    M::D: Drop,
    requires plan { plan.now ≡ J.plan }
    requires is_plan { IsPlan plan.now }
    requires strict { J.strict ≡ M.strict disks.old }
    requires limits { tape.now.limits.items ≤ most_items }
    requires known { Contains (actors plan.now.topology) own }
    requires kind { is_node own ≡ false }
    requires opened { AreOpened M.D.Disk (run_with J.strict plan.now tape.now) (map desk_actor desks.old.items) (rank_of own) first.old desks.old.items }
    ensures ok { OnOk result (AreOpened M.D.Disk (run_with J.strict plan.now tape.now) (map desk_actor desks.old.items ++ own ∷ []) (rank_of own + 1) first.new desks.new.items) }
    ensures given { M.given disks.new ≡ M.given disks.old }
    ensures kind { M.strict disks.new ≡ M.strict disks.old }
{
    let disk = disks.make(own.0)?;
    let slot = Slot::fresh_store(alloc, plan, own, disk);
    put(rt, alloc, plan, tape, first, desks, own, slot)
}

// Puts the desk of an actor that has done nothing after the others.
fn put<W: Wait, D: Rig + Drop, J: Planned>(
    rt: &W,
    alloc: Global,
    plan: &Plan,
    tape: &PlanTape<J>,
    first: &mut First<J>,
    desks: &mut Desks<D, J>,
    own: Actor,
    slot: Slot<D>,
) -> Result<(), OutOfMemory>
    requires plan { plan.now ≡ J.plan }
    requires is_plan { IsPlan plan.now }
    requires limits { tape.now.limits.items ≤ most_items }
    requires known { Contains (actors plan.now.topology) own }
    requires some { own.0 ≢ 0 }
    requires opened { AreOpened D.Disk (run_with J.strict plan.now tape.now) (map desk_actor desks.old.items) (rank_of own) first.old desks.old.items }
    requires slot { SlotStands D.Disk plan.now (alone [] []) own slot }
    requires strict { J.strict ≡ true → IsStrictSlot D.Disk plan.now (alone [] []) fresh_disks own slot }
    ensures ok { OnOk result (AreOpened D.Disk (run_with J.strict plan.now tape.now) (map desk_actor desks.old.items ++ own ∷ []) (rank_of own + 1) first.new desks.new.items) }
{
    free_runs_begin();
    let commands = commands_of(alloc, plan, own)?;
    let seat = tape.split(rt, first, own.0)?;
    let desk = Desk::new(rt, alloc, plan, tape, own, seat, slot, commands);
    desks.push(desk)?;
    Ok(())
}
