//! One shard of a topology.
ghost use Rattle.std.specs.Prelude.{◌≡◌, ◌<◌, ◌≤◌, ◌^◌, not, IfOk};
ghost use Rattle.acc_topology.specs.Sets.{in_set};
ghost use Rattle.acc_topology.specs.Layout.{is_below};
ghost use Rattle.acc_topology.specs.Quorums.{tolerated, fast_size, is_majority, is_fast, fast_lost, may_be_fast};

use crate::sets::{NodeSet, common, count};
use acc_base::{Duplicate, InlineText, OutOfMemory};
use acc_value::Key;

/// A shard's end, its replicas and its electorate.
#[derive(Debug, Drop)]
pub(crate) struct Shard {
    pub(crate) end: Option<InlineText>,
    pub(crate) replicas: NodeSet,
    pub(crate) electorate: NodeSet,
}

impl Shard {
    ghost use Rattle.acc_topology.specs.View.{shard_view};

    /// How many replicas may fail: f, where there are 2f + 1.
    fn tolerated(&self) -> u32
        ensures value { result ≡ tolerated (shard_view self.now) }
        ensures few { result ≤ 8 }
    {
        count(self.replicas) / 2
    }

    /// The size of a fast quorum.
    fn fast_size(&self) -> u32
        ensures { result ≡ fast_size (shard_view self.now) }
    {
        (count(self.electorate) + self.tolerated() + 1).div_ceil(2)
    }

    /// Whether the keys of the shard all stand before this one.
    pub(crate) fn is_behind(&self, key: &Key) -> bool
        ensures { result ≡ not (is_below key.now.key self.now.end) }
    {
        match &self.end {
            Some(end) => !key.key.cmp(end).is_lt(),
            None => false,
        }
    }

    pub(crate) fn is_majority(&self, answered: NodeSet) -> bool
        ensures { result ≡ is_majority (shard_view self.now) (in_set answered) }
    {
        common(self.replicas, answered) > self.tolerated()
    }

    pub(crate) fn is_fast(&self, votes: NodeSet) -> bool
        ensures { result ≡ is_fast (shard_view self.now) (in_set votes) }
    {
        common(self.electorate, votes) >= self.fast_size()
    }

    pub(crate) fn fast_lost(&self, changed: NodeSet) -> bool
        ensures { result ≡ fast_lost (shard_view self.now) (in_set changed) }
    {
        let spare = count(self.electorate).saturating_sub(self.fast_size());
        common(self.electorate, changed) > spare
    }

    pub(crate) fn may_be_fast(&self, answered: NodeSet, votes: NodeSet) -> bool
        ensures { result ≡ may_be_fast (shard_view self.now) (in_set answered) (in_set votes) }
    {
        let silent = count(self.electorate) - common(self.electorate, answered);
        let needed = self.fast_size().saturating_sub(silent);
        common(self.electorate, answered & votes) >= needed
    }
}

impl Duplicate for Shard {
    fn copy(&self) -> Result<Shard, OutOfMemory> {
        Ok(Shard {
            end: self.end.copy()?,
            replicas: self.replicas,
            electorate: self.electorate,
        })
    }
}
