//! Why a slow is passed over. Each law is the contract of a function that does nothing.
ghost use Rattle.std.specs.Prelude.{◌≡◌, ℕ, List, Some};
ghost use Rattle.std.specs.List.{slice_get};
ghost use Rattle.acc_stamp.specs.Actor.{actor_of};
ghost use Rattle.acc_message.specs.declared.item.Item.{Item};
ghost use Rattle.acc_message.specs.Items.{id_of_txn};
ghost use Rattle.acc_message.specs.Run.{Cluster, clock_start, deeds_of, EachStands};
ghost use Rattle.acc_run_laws.specs.Asks.{slow_skip};
ghost use Rattle.acc_node.specs.Stands.{may_slow, is_answered};
ghost use Rattle.acc_pasts.specs.Slowing.{slow_cause};

/// A slow is passed over by what the node of the home tells of its attempt, as its call for a slow refuses.
pub fn slows_are_told()
    ensures { (cluster : Cluster) (txn node : ℕ) → slice_get cluster.homes txn ≡ Some node → (items : List Item) →
        EachStands cluster items → slow_skip cluster items txn (id_of_txn items txn)
        ≡ slow_cause txn
        (may_slow cluster.layout node (clock_start cluster.starts node) txn (deeds_of cluster (actor_of node 0) items))
        (is_answered cluster.layout node (clock_start cluster.starts node) txn (deeds_of cluster (actor_of node 0) items)) }
{}
