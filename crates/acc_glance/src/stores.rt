//! Visits of a store.
ghost use Rattle.std.specs.Prelude.{◌≡◌, ◌<◌, ◌≤◌, ◌&&◌, List, None, true, false, IfOk, IfSome};
ghost use Rattle.std.specs.Option.{option_map, option_copied};
ghost use Rattle.acc_stamp.specs.Actor.{shard_of};
ghost use Rattle.acc_topology.specs.Layout.{Layout};
ghost use Rattle.acc_topology.specs.Sets.{in_set};
ghost use Rattle.acc_message.specs.declared.message.Message.{Message};
ghost use Rattle.acc_message.specs.StoreRules.{replay};
ghost use Rattle.acc_store.specs.Queries.{cell_if_applied};
ghost use Rattle.acc_store.specs.Stands.{actor_of, StandsFor as StoreStands};
ghost use Rattle.acc_schedule_runs.specs.Schedules.{cluster_of};
ghost use Rattle.acc_schedule_runs.specs.Situations.{Situation};
ghost use Rattle.acc_cluster.specs.Stands.{StandsFor};
ghost use Rattle.acc_glance.specs.Stages.{first_left as is_first_left, is_left};
ghost use Rattle.acc_glance.specs.Visits.{AreReplicasOf, IsFirst, IsLeftAt};

use crate::nodes::{has_none_from, is_one_of};
use acc_base::OutOfMemory;
use acc_cluster::Cluster;
use acc_ports::Rig;
use acc_schedule::Plan;
use acc_stamp::{Ids, actor};
use acc_store::Store;
use acc_topology::NodeSet;
use acc_topology::sets::contains;
use acc_value::{Key, Value};

/// A node, and its store of a shard, which is up.
#[derive(Drop)]
pub(crate) struct Place<'c> {
    pub(crate) node: u32,
    pub(crate) store: &'c Store,
}

/// A shard, and the nodes of its replicas.
#[derive(Clone, Copy)]
pub(crate) struct Replicas {
    pub(crate) shard: u32,
    pub(crate) nodes: NodeSet,
}

/// How far a look has come in its second phase.
#[derive(Drop)]
pub(crate) struct Reached {
    /// Of each node, up to which place among the told writers its store was found to have applied them.
    pub(crate) places: Vec<usize>,
    /// Room for the one of them that a store is asked for next.
    pub(crate) one: Ids,
}

/// The shard of a key, and its replicas.
pub(crate) fn replicas_of(plan: &Plan, key: &Key) -> Replicas
    ensures { AreReplicasOf plan.now key.now result }
{
    let shard = plan.topology.shard_of(key);
    let nodes = plan.topology.replicas(shard);
    Replicas { shard, nodes }
}

/// The first replica of the key's shard after the given node that wasn't visited and is up.
pub(crate) fn first_left<'c, D: Rig + Drop>(
    plan: &Plan,
    cluster: &'c Cluster<D>,
    key: &Key,
    replicas: Replicas,
    after: u32,
    visited: &[u32],
) -> Option<Place<'c>>
    requires replicas { AreReplicasOf plan.now key.now replicas }
    ensures some { IfSome result (λ place. (s : Situation) → StandsFor D.Disk plan.now cluster.now s
        → IsFirst plan.now s key.now after visited.now place.node place.store.now) }
    ensures none { result ≡ None → (s : Situation) → StandsFor D.Disk plan.now cluster.now s
        → is_first_left (cluster_of plan.now) s key.now after visited.now ≡ None }
{
    if after >= 15 {
        return None;
    }
    for node in after + 1..16 {
        if has_none_from(replicas.nodes, node) {
            return None;
        }
        if let Some(place) = left_at(plan, cluster, key, replicas, node, after, visited) {
            return Some(place);
        }
    }
    None
}

// The store at a node after the given one, where it is a replica of the key's shard that wasn't visited and is up.
fn left_at<'c, D: Rig + Drop>(
    plan: &Plan,
    cluster: &'c Cluster<D>,
    key: &Key,
    replicas: Replicas,
    node: u32,
    after: u32,
    visited: &[u32],
) -> Option<Place<'c>>
    requires node { node ≤ 15 }
    requires after { after < node }
    requires replicas { AreReplicasOf plan.now key.now replicas }
    ensures node { IfSome result (λ place. place.node ≡ node) }
    ensures some { IfSome result (λ place. (s : Situation) → StandsFor D.Disk plan.now cluster.now s
        → IsLeftAt plan.now s key.now after visited.now node place.store.now × (in_set replicas.nodes node ≡ true)) }
    ensures none { result ≡ None → (s : Situation) → StandsFor D.Disk plan.now cluster.now s
        → (in_set replicas.nodes node && is_left (cluster_of plan.now) s key.now after visited.now node) ≡ false }
{
    if !contains(replicas.nodes, node) {
        return None;
    }
    if is_one_of(visited, node) {
        return None;
    }
    match cluster.store(actor(node, replicas.shard)) {
        Some(store) => Some(Place { node, store }),
        None => None,
    }
}

/// The cell of the key, where the store has applied each of these transactions. Those up to the place are passed over until all others
/// are found applied, and then each is asked for: the place is for speed alone.
pub(crate) fn read(
    store: &Store,
    key: &Key,
    ids: &Ids,
    place: &mut usize,
    one: &mut Ids,
) -> Result<Option<Option<Value>>, OutOfMemory>
    ensures { IfOk result (λ cell. (layout : Layout) (messages : List Message) → StoreStands layout store.now (replay layout (actor_of store.now) messages)
        → cell ≡ cell_if_applied layout (shard_of (actor_of store.now)) (replay layout (actor_of store.now) messages) ids.now key.now) }
{
    while let Some(id) = ids.as_slice().get(*place) {
        one.truncate(0);
        one.push(*id)?;
        if store.read_if_applied(key, one).is_none() {
            return Ok(None);
        }
        *place += 1;
    }
    copy_of(store.read_if_applied(key, ids))
}

fn copy_of(told: Option<Option<&Value>>) -> Result<Option<Option<Value>>, OutOfMemory>
    ensures { IfOk result (λ copy. copy ≡ option_map option_copied told.entry) }
{
    match told {
        Some(Some(value)) => Ok(Some(Some(value.copy()?))),
        Some(None) => Ok(Some(None)),
        None => Ok(None),
    }
}
