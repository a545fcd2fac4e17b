//! Agreement of every run. Each law is the contract of a function that does nothing.
ghost use Rattle.std.specs.Prelude.{List};
ghost use Rattle.acc_message.specs.declared.item.Item.{Item};
ghost use Rattle.acc_message.specs.Run.{Cluster};
ghost use Rattle.acc_safety.specs.Agreement.{Agreement};
ghost use Rattle.acc_safety.specs.Statements.{FastIsFound, OneTimestamp, OneSetOfDeps, TimestampsDiffer};
ghost use Rattle.acc_safety.specs.Valid.{IsStanding};
ghost use Rattle.acc_safety_laws.specs.AgreementPremises.{Premises};

/// Where a transaction is decided by fast votes, every proposal and every decision of it has its own timestamp.
pub fn fast_decision_is_found()
    ensures { (cluster : Cluster) (items : List Item) → IsStanding cluster items → Premises cluster items → FastIsFound cluster items }
{}

/// The decisions of a transaction have one timestamp, and where it is above the transaction's own, one set of dependencies.
/// Those of different transactions have different timestamps.
pub fn decisions_agree()
    ensures timestamp { (cluster : Cluster) (items : List Item) → IsStanding cluster items → Premises cluster items → OneTimestamp cluster items }
    ensures deps { (cluster : Cluster) (items : List Item) → IsStanding cluster items → Premises cluster items → OneSetOfDeps cluster items }
    ensures differ { (cluster : Cluster) (items : List Item) → IsStanding cluster items → Premises cluster items → TimestampsDiffer cluster items }
    ensures agreement { (cluster : Cluster) (items : List Item) → IsStanding cluster items → Premises cluster items → Agreement items }
{}
