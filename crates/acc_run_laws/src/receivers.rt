//! Who sends and receives messages in every run. Each law is the contract of a function that does nothing.
ghost use Rattle.std.specs.Prelude.{◌≡◌, ℕ, false, true, IsTrue, List, Some, Contains};
ghost use Rattle.acc_stamp.specs.declared.actors.Actor.{Actor};
ghost use Rattle.acc_stamp.specs.Actor.{actor_of};
ghost use Rattle.acc_topology.specs.Layout.{Layout};
ghost use Rattle.acc_topology.specs.Sets.{is_among};
ghost use Rattle.acc_message.specs.declared.message.Message.{Message};
ghost use Rattle.acc_message.specs.declared.item.Item.{Item};
ghost use Rattle.acc_message.specs.Fields.{from_of, to_of};
ghost use Rattle.acc_message.specs.Items.{message_at};
ghost use Rattle.acc_message.specs.Run.{Cluster, is_node, IsHomeOf, IsNodeOf};
ghost use Rattle.acc_safety.specs.Valid.{IsValidCluster, IsStanding};
ghost use Rattle.acc_schedule.specs.Actors.{actors};

/// A message that was sent goes to an actor of the cluster, and comes from one; what goes to a store comes from a node.
pub fn messages_go_to_actors()
    ensures to { (cluster : Cluster) (items : List Item) (number : ℕ) (m : Message) → IsStanding cluster items → message_at items number ≡ Some m →
        Contains (actors cluster.layout) (to_of m) }
    ensures from { (cluster : Cluster) (items : List Item) (number : ℕ) (m : Message) → IsStanding cluster items → message_at items number ≡ Some m →
        Contains (actors cluster.layout) (from_of m) }
    ensures asked { (cluster : Cluster) (items : List Item) (number : ℕ) (m : Message) → IsStanding cluster items → message_at items number ≡ Some m →
        is_node (to_of m) ≡ false → is_node (from_of m) ≡ true }
{}

/// A node of the layout is an actor of the cluster, and so is the home of a transaction.
pub fn nodes_are_actors()
    ensures node { (layout : Layout) (node : ℕ) → IsTrue (is_among layout.nodes node) → Contains (actors layout) (actor_of node 0) }
    ensures of_layout { (layout : Layout) (a : Actor) → IsNodeOf layout a → Contains (actors layout) a }
    ensures home { (cluster : Cluster) (txn : ℕ) (a : Actor) → IsValidCluster cluster → IsHomeOf cluster txn a → Contains (actors cluster.layout) a }
{}
