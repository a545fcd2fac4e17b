//! The lanes of a picture: one for the schedule, and one for each actor.
use acc_base::OutOfMemory;
use acc_stamp::Actor;
use acc_topology::Topology;
use acc_topology::sets::contains;
use std::alloc::Global;

/// The lane of an actor.
#[derive(Clone, Copy, Debug)]
pub(crate) struct Lane {
    /// Whose lane it is.
    pub(crate) actor: Actor,
    /// How far below the top it stands.
    pub(crate) y: u64,
    /// Where its actor went down, if it is down.
    pub(crate) since: Option<u64>,
}

/// A stretch of a lane on which its actor is down.
#[derive(Clone, Copy, Debug)]
pub(crate) struct Stretch {
    /// How far below the top it stands.
    pub(crate) y: u64,
    /// Where it begins.
    pub(crate) from: u64,
    /// Where it ends.
    pub(crate) to: u64,
}

/// The lanes of a cluster, a node above its stores. The first one has its notes below `top`.
pub(crate) fn lanes_of(
    alloc: Global,
    topology: &Topology,
    top: u64,
) -> Result<Vec<Lane>, OutOfMemory> {
    let mut lanes = Vec::new(alloc);
    let mut y = top;
    for node in 0..16 {
        if contains(topology.nodes(), node) {
            y = push_node(&mut lanes, topology, node, y)?;
        }
    }
    Ok(lanes)
}

// Appends the lanes of a node and its stores, and answers where the last of them stands.
fn push_node(
    lanes: &mut Vec<Lane>,
    topology: &Topology,
    node: u32,
    above: u64,
) -> Result<u64, OutOfMemory> {
    let mut y = above.saturating_add(72);
    push_lane(lanes, node, 0, y)?;
    for place in 0..topology.shards() {
        let shard = place + 1;
        if contains(topology.replicas(shard), node) {
            y = y.saturating_add(30);
            push_lane(lanes, node, shard, y)?;
        }
    }
    Ok(y)
}

fn push_lane(lanes: &mut Vec<Lane>, node: u32, shard: u32, y: u64) -> Result<(), OutOfMemory> {
    let actor = Actor(node.saturating_mul(64).saturating_add(shard));
    lanes.push(Lane {
        actor,
        y,
        since: None,
    })?;
    Ok(())
}

/// How far below the top the lane of an actor stands. One without a lane has none, and stands at the top.
pub(crate) fn y_of(lanes: &[Lane], actor: Actor) -> u64 {
    for lane in lanes {
        if lane.actor == actor {
            return lane.y;
        }
    }
    0
}

/// Whether an actor is down.
pub(crate) fn is_down(lanes: &[Lane], actor: Actor) -> bool {
    for lane in lanes {
        if lane.actor == actor {
            return lane.since.is_some();
        }
    }
    false
}

/// Enters that an actor went down.
pub(crate) fn go_down(lanes: &mut Vec<Lane>, actor: Actor, x: u64) {
    for lane in lanes.iter_mut() {
        if lane.actor == actor {
            lane.since = Some(x);
        }
    }
}

/// Enters that an actor came back, and answers on which stretch it was down, if it was.
pub(crate) fn come_back(lanes: &mut Vec<Lane>, actor: Actor, x: u64) -> Option<Stretch> {
    let mut stretch = None;
    for lane in lanes.iter_mut() {
        if lane.actor == actor {
            if let Some(from) = lane.since {
                stretch = Some(Stretch {
                    y: lane.y,
                    from,
                    to: x,
                });
            }
            lane.since = None;
        }
    }
    stretch
}
