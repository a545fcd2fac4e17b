//! Laws of attempts. Each is the contract of a function that does nothing.
ghost use Rattle.std.specs.Prelude.{List};
ghost use Rattle.acc_message.specs.declared.item.Item.{Item};
ghost use Rattle.acc_message.specs.Run.{Cluster, EachStands};
ghost use Rattle.acc_safety.specs.Valid.{IsStanding};
ghost use Rattle.acc_safety.specs.Statements.{OneProposal, OneCommit, NeverBoth, AcceptedLast, CommittedLast, CommittedIsFinal};

use crate::store_facts::records_are_seen;

/// The proposals of a transaction at one ballot are one, and so are its commits. At ballot zero it isn't both proposed and decided
/// fast.
pub fn stages_come_once()
    ensures proposals { (cluster : Cluster) (items : List Item) → EachStands cluster items → OneProposal items }
    ensures commits { (cluster : Cluster) (items : List Item) → EachStands cluster items → OneCommit items }
    ensures fast { (cluster : Cluster) (items : List Item) → EachStands cluster items → NeverBoth items }
{}

/// Whatever is proposed at a greater ballot than one that a majority accepted is what it accepted.
pub fn accepted_values_last()
    ensures { (cluster : Cluster) (items : List Item) → IsStanding cluster items → AcceptedLast cluster items }
{
    records_are_seen();
}

/// Whatever is committed at a greater ballot than one that a majority committed is what it committed, and nothing is proposed at
/// a greater one.
pub fn committed_values_last()
    ensures commits { (cluster : Cluster) (items : List Item) → IsStanding cluster items → CommittedLast cluster items }
    ensures proposals { (cluster : Cluster) (items : List Item) → IsStanding cluster items → CommittedIsFinal cluster items }
{
    records_are_seen();
}
