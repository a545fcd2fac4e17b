//! Coverage of every run. The law is the contract of a function that does nothing.
ghost use Rattle.std.specs.Prelude.{List};
ghost use Rattle.acc_message.specs.declared.item.Item.{Item};
ghost use Rattle.acc_message.specs.Run.{Cluster};
ghost use Rattle.acc_safety.specs.Coverage.{Coverage};
ghost use Rattle.acc_safety.specs.Statements.{CoveredByFast, CoveredByCommits};
ghost use Rattle.acc_safety.specs.Valid.{IsStanding};
ghost use Rattle.acc_safety_laws.specs.CoveragePremises.{Premises};

/// A decision, fast or committed, names in each shard every conflicting transaction that is decided at a smaller timestamp.
pub fn decisions_cover()
    ensures fast { (cluster : Cluster) (items : List Item) → IsStanding cluster items → Premises cluster items → CoveredByFast cluster items }
    ensures commits { (cluster : Cluster) (items : List Item) → IsStanding cluster items → Premises cluster items → CoveredByCommits cluster items }
    ensures coverage { (cluster : Cluster) (items : List Item) → IsStanding cluster items → Premises cluster items → Coverage cluster items }
{}
