//! How many nodes decide.
ghost use Rattle.acc_topology.specs.Layout.{HasShard};

use acc_schedule::read;
use acc_topology::{NodeSet, Topology};
use anyhow::{Context, Result};
use std::alloc::{AllocError, Global};

/// The sets of the first nodes by their numbers: none, node 1, nodes 1 and 2, and so on.
const FRONTS: [NodeSet; 16] = [
    0, 0x2, 0x6, 0xe, 0x1e, 0x3e, 0x7e, 0xfe, 0x1fe, 0x3fe, 0x7fe, 0xffe, 0x1ffe, 0x3ffe, 0x7ffe,
    0xfffe,
];

/// How many nodes decide in the first shard of a document's cluster.
pub fn answer(alloc: Global, document: &str) -> Result<String> {
    let Ok(plan) = read(alloc, document.as_bytes()) else {
        return None.context("no document");
    };
    let told = told(alloc, &plan.topology);
    drop(plan);
    told
}

fn told(alloc: Global, topology: &Topology) -> Result<String> {
    if topology.shards() == 0 {
        return None.context("no shard");
    }
    Ok(needs(alloc, topology)?)
}

fn needs(alloc: Global, topology: &Topology) -> Result<String, AllocError>
    requires { HasShard topology.now 1 }
{
    let mut majority: u32 = 0;
    let mut fast: u32 = 0;
    let mut lost: u32 = 0;
    let mut possible: u32 = 0;
    let answered = least_majority(topology);
    for front in FRONTS {
        majority = counted(majority, topology.is_majority(1, front));
        fast = counted(fast, topology.is_fast(1, front));
        lost = counted(lost, topology.fast_lost(1, front));
        possible = counted(possible, topology.may_be_fast(1, answered, front));
    }
    format!(in alloc; "majority {majority} fast {fast} lost {lost} possible {possible}")
}

/// One more where so few don't suffice.
fn counted(count: u32, suffices: bool) -> u32 {
    if suffices {
        count
    } else {
        count.saturating_add(1)
    }
}

/// The least front that is a majority.
fn least_majority(topology: &Topology) -> NodeSet
    requires { HasShard topology.now 1 }
{
    for front in FRONTS {
        if topology.is_majority(1, front) {
            return front;
        }
    }
    0
}
