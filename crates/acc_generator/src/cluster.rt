//! The nodes and shards of a document.
ghost use Rattle.std.specs.Prelude.{◌≡◌, [], ◌∷◌, OnOk};
ghost use Rattle.serde_json.specs.Data.{null, string};
ghost use Rattle.acc_generator.specs.Document.{list, node as node_data, nodes as nodes_data, shard as shard_data, shards as shards_data, whole};
ghost use Rattle.acc_generator.specs.Tokens.{Adds};

use json::Writer;
use std::alloc::AllocError;

/// Three nodes, whose clocks start at 0.
#[tactic(auto, unfolding(crate::specs::Document::nodes))]
pub(crate) fn write_nodes(out: &mut Writer) -> Result<(), AllocError>
    ensures { OnOk result (Adds out.old nodes_data out.new) }
{
    out.begin_array()?;
    write_node(out, 1)?;
    write_node(out, 2)?;
    write_node(out, 3)?;
    out.end_array()
}

fn write_node(out: &mut Writer, id: u64) -> Result<(), AllocError>
    ensures { OnOk result (Adds out.old (node_data id) out.new) }
{
    out.begin_object()?;
    out.key("id")?;
    out.u64(id)?;
    out.end_object()
}

/// Three shards with about a third of the keys each, on all nodes.
#[tactic(auto, unfolding(crate::specs::Document::shards))]
pub(crate) fn write_shards(out: &mut Writer) -> Result<(), AllocError>
    ensures { OnOk result (Adds out.old shards_data out.new) }
{
    out.begin_array()?;
    write_shard(out, "k21")?;
    write_shard(out, "k42")?;
    write_last_shard(out)?;
    out.end_array()
}

// A shard on all nodes, up to a key.
fn write_shard(out: &mut Writer, end: &str) -> Result<(), AllocError>
    ensures { OnOk result (Adds out.old (shard_data (string end.now)) out.new) }
{
    out.begin_object()?;
    out.key("end")?;
    out.string(end)?;
    out.key("replicas")?;
    write_replicas(out)?;
    out.end_object()
}

// A shard on all nodes, without an end.
fn write_last_shard(out: &mut Writer) -> Result<(), AllocError>
    ensures { OnOk result (Adds out.old (shard_data null) out.new) }
{
    out.begin_object()?;
    out.key("end")?;
    out.null()?;
    out.key("replicas")?;
    write_replicas(out)?;
    out.end_object()
}

fn write_replicas(out: &mut Writer) -> Result<(), AllocError>
    ensures { OnOk result (Adds out.old (list (whole 1 ∷ whole 2 ∷ whole 3 ∷ [])) out.new) }
{
    out.begin_array()?;
    out.u64(1)?;
    out.u64(2)?;
    out.u64(3)?;
    out.end_array()
}
