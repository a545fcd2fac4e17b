//! Which answers count.
ghost use Rattle.std.specs.Prelude.{◌≡◌, ◌≤◌, [], IsTrue, List, IfOk};
ghost use Rattle.acc_stamp.specs.declared.stamps.TxnId.{TxnId};
ghost use Rattle.acc_stamp.specs.Actor.{node_of, shard_of};
ghost use Rattle.acc_topology.specs.Sets.{members};
ghost use Rattle.acc_message.specs.declared.message.Message.{Message as Letter};
ghost use Rattle.acc_message.specs.Attempts.{vote_in_answer, deps_in_answer, plainly};
ghost use Rattle.acc_message.specs.Fields.{from_of};
ghost use Rattle.acc_message.specs.Shares.{shards_used, is_store_of};
ghost use Rattle.acc_tally.specs.Stands.{StandsFor as Tallies};
ghost use Rattle.acc_coord.specs.Stands.{IsPlaced, CountedIs};

use crate::coord::Coord;
use acc_base::{Kept, OutOfMemory};
use acc_deps::Deps;
use acc_stamp::{Actor, Stamp};
use acc_tally::{Tally, is_store};
use acc_topology::{ShardSet, Topology};
use std::alloc::Global;

/// No answers yet, of the stores of these shards, in a place of their own.
pub(crate) fn no_answers(alloc: Global, shards: ShardSet) -> Result<Kept<Tally>, OutOfMemory>
    ensures { IfOk result (λ tally. Tallies tally (members shards) []) }
{
    let tally = Kept::new(alloc, Tally::new(alloc, shards))?;
    Ok(tally)
}

impl Coord {
    /// A tally with one more answer, where it is of a store of the transaction and the first one of that store.
    pub(crate) fn counted(
        &self,
        topology: &Topology,
        tally: &Kept<Tally>,
        store: Actor,
        vote: Stamp,
        deps: &Deps,
    ) -> Result<Option<Kept<Tally>>, OutOfMemory>
        ensures { IfOk result (λ more. (m : Letter) (answers : List Letter) →
            from_of m ≡ store → vote_in_answer m ≡ vote → deps_in_answer m ≡ deps.now → IsPlaced topology.now self.now →
            Tallies tally.now (shards_used topology.now self.now.body) (plainly self.now.id answers) →
            CountedIs topology.now self.now m answers more) }
    {
        if !is_store(topology, self.shards, store) {
            return Ok(None);
        }
        let mut more = Kept::new(self.allocator(), tally.get().copy()?)?;
        if more.get_mut().first(store, vote == self.id.0, vote, deps)? {
            Ok(Some(more))
        } else {
            Ok(None)
        }
    }
}
