//! Serial outcomes of every run, from its agreement and coverage.
//!
//! A store opens a transaction only once it has applied each conflicting one with a smaller timestamp, and applies a conflicting
//! one with a greater timestamp only after it. So the cells that it then reads are the latest that were written below the
//! transaction, at whichever store and moment they are read. Every outcome is what the body means on such cells, so a transaction
//! has one outcome, whoever finds it. By then each conflicting one with a smaller timestamp has an outcome too, so in the order of
//! first outcomes each body reads what a serial run of those before it leaves.
ghost use Rattle.std.specs.Prelude.{List};
ghost use Rattle.acc_topology.specs.Layout.{IsLayout};
ghost use Rattle.acc_message.specs.declared.item.Item.{Item};
ghost use Rattle.acc_message.specs.Run.{Cluster, EachStands};
ghost use Rattle.acc_safety.specs.Agreement.{Agreement};
ghost use Rattle.acc_safety.specs.Coverage.{Coverage};
ghost use Rattle.acc_safety.specs.SerialOutcomes.{SerialOutcomes};

/// In every run with agreement and coverage the first outcomes, in the order in which they are printed, are those of a serial run
/// of their bodies, no other outcome and no reply differs from them, and each stands after its begin and not after its reply.
/// Of the cluster only the layout matters, and of the items that each entry stands on those before it.
pub fn serial_outcomes()
    ensures { (cluster : Cluster) (items : List Item) → IsLayout cluster.layout → EachStands cluster items → Agreement items →
        Coverage cluster items → SerialOutcomes cluster items }
{}
