//! What holds of every run. Each law is the contract of a function that does nothing.
ghost use Rattle.std.specs.Prelude.{List};
ghost use Rattle.acc_message.specs.declared.item.Item.{Item};
ghost use Rattle.acc_message.specs.Run.{Cluster, IsRun};
ghost use Rattle.acc_safety.specs.Agreement.{Agreement};
ghost use Rattle.acc_safety.specs.Coverage.{Coverage};
ghost use Rattle.acc_safety.specs.SerialOutcomes.{SerialOutcomes};
ghost use Rattle.acc_safety.specs.Valid.{IsValidCluster};

/// In every run of a valid cluster any two decisions of a transaction have one timestamp, and those of different transactions
/// have different ones. It holds with any number of competing recoveries, with restarts, lost entries, downs and slow events,
/// and for every electorate.
pub fn agreement()
    ensures { (cluster : Cluster) (items : List Item) → IsValidCluster cluster → IsRun cluster items → Agreement items }
{}

/// In every run of a valid cluster a decision names, in each shard where they conflict, every transaction that is decided at a
/// smaller timestamp.
pub fn coverage()
    ensures { (cluster : Cluster) (items : List Item) → IsValidCluster cluster → IsRun cluster items → Coverage cluster items }
{}

/// In every run of a valid cluster the first outcomes, in the order in which they are printed, are those of a serial run of their
/// bodies, no other outcome and no reply differs from them, and each stands after its begin and not after its reply.
pub fn serial()
    ensures { (cluster : Cluster) (items : List Item) → IsValidCluster cluster → IsRun cluster items → SerialOutcomes cluster items }
{}
