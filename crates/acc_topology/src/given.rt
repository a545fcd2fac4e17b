//! What a cluster is given: its nodes and shards, in the order of its document.
ghost use Rattle.std.specs.Prelude.{◌≡◌, IfOk};

use acc_base::{Duplicate, OutOfMemory, Sequence, Text};

/// A list of node ids.
pub type NodeList = Sequence<u32>;

/// A node, and where its clock starts.
#[derive(Clone, Copy, Debug, PartialEq, Eq, PartialOrd, Ord)]
pub struct NodeSpec {
    pub id: u32,
    pub clock: u64,
}

/// A shard: the text in front of which its keys end, or nothing for the last shard, the nodes that keep it, and those whose
/// votes make a fast path. Where no electorate is named, all replicas are in it.
#[derive(Debug, Drop)]
pub struct ShardSpec {
    pub end: Option<Text>,
    pub replicas: NodeList,
    pub electorate: Option<NodeList>,
}

impl ShardSpec {
    /// An equal shard, in memory of its own.
    pub fn copy(&self) -> Result<ShardSpec, OutOfMemory>
        ensures { IfOk result (λ copy. copy ≡ self.now) }
    {
        let end = self.end.copy()?;
        let replicas = self.replicas.copy()?;
        let electorate = self.electorate.copy()?;
        Ok(ShardSpec {
            end,
            replicas,
            electorate,
        })
    }
}

impl Duplicate for ShardSpec {
    fn copy(&self) -> Result<ShardSpec, OutOfMemory> {
        ShardSpec::copy(self)
    }
}

impl Duplicate for NodeSpec {
    fn copy(&self) -> Result<NodeSpec, OutOfMemory> {
        Ok(*self)
    }
}
