//! Roots of every run. Each law is the contract of a function that does nothing.
ghost use Rattle.std.specs.Prelude.{List};
ghost use Rattle.acc_message.specs.declared.item.Item.{Item};
ghost use Rattle.acc_message.specs.Run.{Cluster};
ghost use Rattle.acc_safety.specs.Statements.{ProposalsHaveRoots, CommitsHaveRoots, DecisionsHaveRoots, RecordsHaveRoots};
ghost use Rattle.acc_safety.specs.Valid.{IsStanding};

/// Every proposal goes back to the votes of a majority in every shard: those of the first attempt or of a recovery, of which it has
/// the greatest, or those of a recovery that found that the transaction's own timestamp may have been decided.
pub fn proposals_have_roots()
    ensures { (cluster : Cluster) (items : List Item) → IsStanding cluster items → ProposalsHaveRoots cluster items }
{}

/// Every Commit goes back to a proposal that a majority in every shard accepted at one ballot: its dependencies are the proposed
/// ones with theirs.
pub fn commits_have_roots()
    ensures { (cluster : Cluster) (items : List Item) → IsStanding cluster items → CommitsHaveRoots cluster items }
{}

/// Every decision, and every stable record of a store, goes back to fast votes or to a Commit that a majority in every shard
/// committed at one ballot.
pub fn decisions_have_roots()
    ensures decisions { (cluster : Cluster) (items : List Item) → IsStanding cluster items → DecisionsHaveRoots cluster items }
    ensures records { (cluster : Cluster) (items : List Item) → IsStanding cluster items → RecordsHaveRoots cluster items }
{}
