//! The inputs of a block.

ghost use Rattle.std.specs.Prelude.{◌≡◌, ◌∷◌, ◌++◌, IfOk, OnOk, [], drop, flat_map, option_map};
ghost use Rattle.gx_cluster_state.specs.Values.{pointed_values};
ghost use Rattle.gx_exec_contents.specs.MadeBlocks.{edges_held, vertices_held};
ghost use Rattle.gx_exec_contents.specs.PartContents.{Stopped, first_given, stop_in};
ghost use Rattle.gx_exec_work.specs.MadeTables as tables;
ghost use Rattle.gx_exec_work.specs.Works.{shown, shown_blocks};
ghost use Rattle.gx_gops.specs.AllEdges.{edges_of_parts};

use crate::Block;
use gx_epart::EPart;
use gx_rows::{NoMemory, RowKey};
use gx_vpart::VPart;
use std::alloc::Global;
use std::rc::Rc;

/// The first input that is stopped, copied; `None` exactly if none is.
pub(crate) fn first_stop(inputs: &[Rc<Block>]) -> Result<Option<Block>, NoMemory>
    ensures { IfOk result (λ stop. option_map shown stop
        ≡ option_map Stopped (first_given stop_in (shown_blocks (pointed_values inputs.now)))) }
{
    let mut rest = inputs;
    while let [first, after @ ..] = rest {
        if let Some(stop) = stop_of(first)? {
            return Ok(Some(stop));
        }
        rest = after;
    }
    Ok(None)
}

// The block again if it is stopped.
fn stop_of(block: &Block) -> Result<Option<Block>, NoMemory>
    ensures { IfOk result (λ stop. option_map shown stop
        ≡ option_map Stopped (stop_in (shown block.now))) }
{
    match block {
        Block::Stopped { key, expr, cause } => Ok(Some(Block::Stopped {
            key: copy_of(key)?,
            expr: *expr,
            cause: *cause,
        })),
        _ => Ok(None),
    }
}

// The same key. The texts and lists of an edge's row are shared.
fn copy_of(key: &RowKey) -> Result<RowKey, NoMemory>
    ensures { IfOk result (λ copy. copy ≡ key.now) }
{
    match key {
        RowKey::Vertex(v) => Ok(RowKey::Vertex(*v)),
        RowKey::Edge(src, dst, row) => Ok(RowKey::Edge(*src, *dst, row.copy()?)),
    }
}

/// The vertices of the first input, if there is one.
pub(crate) fn first_table(
    alloc: Global,
    inputs: &[Rc<Block>],
) -> Result<Option<Rc<VPart>>, NoMemory>
    ensures { IfOk result (λ table. option_map (λ t. t.value) table
        ≡ tables.first_table (shown_blocks (pointed_values inputs.now))) }
{
    let [first, ..] = inputs else {
        return Ok(None);
    };
    Ok(Some(vertices_in(alloc, first)?))
}

/// The vertices of the first two inputs, if there are two.
pub(crate) fn two_tables(
    alloc: Global,
    inputs: &[Rc<Block>],
) -> Result<Option<(Rc<VPart>, Rc<VPart>)>, NoMemory>
    ensures { IfOk result (λ pair. option_map (λ p. (p.0.value, p.1.value)) pair
        ≡ tables.two_tables (shown_blocks (pointed_values inputs.now))) }
{
    let [first, second, ..] = inputs else {
        return Ok(None);
    };
    Ok(Some((vertices_in(alloc, first)?, vertices_in(alloc, second)?)))
}

// The vertices of a block, shared; none if it is of another kind.
fn vertices_in(alloc: Global, block: &Block) -> Result<Rc<VPart>, NoMemory>
    ensures { IfOk result (λ table. table.value ≡ vertices_held (shown block.now)) }
{
    match block {
        Block::Table(table) => Ok(table.clone()?),
        _ => Ok(Rc::new(alloc, no_vertices(alloc)?)?),
    }
}

/// A partition without a vertex.
pub(crate) fn no_vertices(alloc: Global) -> Result<VPart, NoMemory>
    ensures { IfOk result (λ table. table ≡ []) }
{
    VPart::of(alloc, Vec::new(alloc))
}

/// The edges of the inputs, each partition shared; those of another kind have none.
pub(crate) fn edges_in(alloc: Global, inputs: &[Rc<Block>]) -> Result<Vec<Rc<EPart>>, NoMemory>
    ensures { IfOk result (λ parts. edges_of_parts parts.items
        ≡ flat_map edges_held (shown_blocks (pointed_values inputs.now))) }
{
    let mut parts = Vec::new(alloc);
    let mut rest = inputs;
    while let [first, after @ ..] = rest {
        append_edges(&mut parts, first)?;
        rest = after;
    }
    Ok(parts)
}

fn append_edges(parts: &mut Vec<Rc<EPart>>, block: &Block) -> Result<(), NoMemory>
    ensures { OnOk result (edges_of_parts parts.new.items
        ≡ edges_of_parts parts.old.items ++ edges_held (shown block.now)) }
{
    if let Block::Edges(edges) = block {
        append(parts, edges.clone()?)?;
    }
    Ok(())
}

/// All inputs but the first.
pub(crate) fn rest_of(inputs: &[Rc<Block>]) -> &[Rc<Block>]
    ensures { shown_blocks (pointed_values result.now)
        ≡ drop 1 (shown_blocks (pointed_values inputs.now)) }
{
    if inputs.is_empty() {
        inputs
    } else {
        &inputs[1..]
    }
}

// One more item.
fn append<T: Drop>(items: &mut Vec<T>, item: T) -> Result<(), NoMemory>
    ensures { OnOk result (items.new.items ≡ items.old.items ++ item ∷ []) }
{
    items.push(item)?;
    Ok(())
}
