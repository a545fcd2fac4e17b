//! The nodes of a plan, opened from journals.
ghost use Rattle.std.specs.Prelude.{IsTrue, IfOk};
ghost use Rattle.acc_topology.specs.Sets.{is_among};
ghost use Rattle.acc_schedule.specs.Plan.{IsPlan};
ghost use Rattle.acc_left.specs.Rules.{AreLeft};
ghost use Rattle.acc_resume.specs.Opened.{memory, AreOpenedNodes, IsOpenedNode};

use crate::disks::disk_of;
use acc_actors::name_of;
use acc_base::OutOfMemory;
use acc_durable_node::DurableNode;
use acc_left::Image;
use acc_left_laws::laws::reopened_actors_stand;
use acc_ports::MemDisk;
use acc_schedule::Plan;
use acc_stamp::actor;
use acc_topology::sets::contains;
use std::alloc::Global;

/// The nodes of the plan, in rising order, each opened from its journal.
pub(crate) fn nodes_of(
    alloc: Global,
    plan: &Plan,
    images: &[Image],
) -> Result<Vec<DurableNode<MemDisk>>, OutOfMemory>
    requires is_plan { IsPlan plan.now }
    requires left { AreLeft plan.now images.now }
    ensures { IfOk result (λ nodes. AreOpenedNodes memory plan.now images.now nodes.items) }
{
    let members = plan.topology.nodes();
    let mut nodes = Vec::new(alloc);
    for number in 0..16 {
        if contains(members, number) {
            let node = node_of(alloc, plan, images, number)?;
            nodes.push(node)?;
        }
    }
    Ok(nodes)
}

// A node of the plan. Journals that break no rule are refused for want of memory alone.
fn node_of(
    alloc: Global,
    plan: &Plan,
    images: &[Image],
    number: u32,
) -> Result<DurableNode<MemDisk>, OutOfMemory>
    requires is_plan { IsPlan plan.now }
    requires left { AreLeft plan.now images.now }
    requires known { IsTrue (is_among plan.now.topology.nodes number) }
    ensures { IfOk result (IsOpenedNode memory plan.now images.now number) }
{
    reopened_actors_stand();
    let name = name_of(plan, number);
    let disk = disk_of(alloc, images, actor(number, 0))?;
    match DurableNode::reopen(alloc, name, disk) {
        Ok(node) => Ok(node),
        Err(_) => Err(OutOfMemory),
    }
}
