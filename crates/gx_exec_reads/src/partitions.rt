//! The partitions of blocks that a cluster holds, borrowed.

ghost use Rattle.std.specs.Prelude.{◌≡◌, ◌≤◌, ◌+◌, ◌++◌, [], IfOk, OnOk, flat_map, length, unwrap_or};
ghost use Rattle.std.specs.Option.{option_copied};
ghost use Rattle.gx_cluster.specs.States.{held_value};
ghost use Rattle.gx_exec_answers.specs.LentRows.{edges_in_parts, vertices_in_parts};
ghost use Rattle.gx_exec_contents.specs.MadeBlocks.{edges_held, vertices_held};
ghost use Rattle.gx_exec_reads.specs.HeldAnswers.{held_contents};
ghost use Rattle.gx_exec_reads.specs.HeldRows.{edges_of_block, vertices_of_block};
ghost use Rattle.gx_exec_work.specs.Works.{shown};

use gx_cluster::Cluster;
use gx_epart::EPart;
use gx_exec_work::Block;
use gx_lineage::BlockId;
use gx_rows::NoMemory;
use gx_vpart::VPart;
use std::alloc::Global;

/// The partitions of vertices among these blocks, in their order. No row is copied.
///
/// # Errors
///
/// `NoMemory` if memory for a reference for each block runs out.
pub(crate) fn vertex_parts<'a>(
    alloc: Global,
    cluster: &'a Cluster<Block>,
    blocks: &[BlockId],
) -> Result<Vec<&'a VPart>, NoMemory>
    ensures exact { IfOk result (λ parts. vertices_in_parts parts.items
        ≡ flat_map vertices_held (held_contents cluster.now.held blocks.now)) }
    ensures few { IfOk result (λ parts. length parts.items ≤ length blocks.now) }
{
    let mut parts = Vec::new(alloc);
    for block in blocks {
        push_vertices(&mut parts, cluster, *block)?;
    }
    Ok(parts)
}

fn push_vertices<'a>(
    parts: &mut Vec<&'a VPart>,
    cluster: &'a Cluster<Block>,
    block: BlockId,
) -> Result<(), NoMemory>
    ensures exact { OnOk result (vertices_in_parts parts.new.items
        ≡ vertices_in_parts parts.old.items
        ++ vertices_of_block (held_value cluster.now.held block)) }
    ensures few { OnOk result (length parts.new.items ≤ length parts.old.items + 1) }
{
    if let Some(part) = vertex_part(cluster, block) {
        parts.push(part)?;
    }
    Ok(())
}

fn vertex_part(cluster: &Cluster<Block>, block: BlockId) -> Option<&VPart>
    ensures { unwrap_or (option_copied result) []
        ≡ vertices_of_block (held_value cluster.now.held block) }
{
    match cluster.take(block) {
        Some(value) => vertices_in(value.as_ref()),
        None => None,
    }
}

fn vertices_in(block: &Block) -> Option<&VPart>
    ensures { unwrap_or (option_copied result) [] ≡ vertices_held (shown block.now) }
{
    match block {
        Block::Table(part) => Some(part.as_ref()),
        _ => None,
    }
}

/// The partitions of edges among these blocks, in their order. No row is copied.
///
/// # Errors
///
/// `NoMemory` if memory for a reference for each block runs out.
pub(crate) fn edge_parts<'a>(
    alloc: Global,
    cluster: &'a Cluster<Block>,
    blocks: &[BlockId],
) -> Result<Vec<&'a EPart>, NoMemory>
    ensures exact { IfOk result (λ parts. edges_in_parts parts.items
        ≡ flat_map edges_held (held_contents cluster.now.held blocks.now)) }
    ensures few { IfOk result (λ parts. length parts.items ≤ length blocks.now) }
{
    let mut parts = Vec::new(alloc);
    for block in blocks {
        push_edges(&mut parts, cluster, *block)?;
    }
    Ok(parts)
}

fn push_edges<'a>(
    parts: &mut Vec<&'a EPart>,
    cluster: &'a Cluster<Block>,
    block: BlockId,
) -> Result<(), NoMemory>
    ensures exact { OnOk result (edges_in_parts parts.new.items
        ≡ edges_in_parts parts.old.items ++ edges_of_block (held_value cluster.now.held block)) }
    ensures few { OnOk result (length parts.new.items ≤ length parts.old.items + 1) }
{
    if let Some(part) = edge_part(cluster, block) {
        parts.push(part)?;
    }
    Ok(())
}

fn edge_part(cluster: &Cluster<Block>, block: BlockId) -> Option<&EPart>
    ensures { unwrap_or (option_copied result) []
        ≡ edges_of_block (held_value cluster.now.held block) }
{
    match cluster.take(block) {
        Some(value) => edges_in(value.as_ref()),
        None => None,
    }
}

fn edges_in(block: &Block) -> Option<&EPart>
    ensures { unwrap_or (option_copied result) [] ≡ edges_held (shown block.now) }
{
    match block {
        Block::Edges(part) => Some(part.as_ref()),
        _ => None,
    }
}
