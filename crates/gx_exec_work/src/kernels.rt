//! The kernels, from the inputs of a block to the block.

ghost use Rattle.std.specs.Prelude.{◌≡◌, ◌≢◌, ◌<◌, ◌++◌, IfOk, List, Option, [], flat_map, option_map, unwrap_or};
ghost use Rattle.std.specs.Option.{option_copied};
ghost use Rattle.gx_cluster_state.specs.Values.{pointed_values};
ghost use Rattle.gx_rows.specs.declared.cut.Cut.TheVariants as cut_of;
ghost use Rattle.gx_epart.specs.Edges.{edge_order_of};
ghost use Rattle.gx_exec_contents.specs.MadeBlocks as made;
ghost use Rattle.gx_exec_contents.specs.MadeBlocks.{edges_held};
ghost use Rattle.gx_exec_contents.specs.PartContents.{Table, stop_on_vertex, stop_or};
ghost use Rattle.gx_exec_contents.specs.PartContents as contents;
ghost use Rattle.gx_exec_work.specs.MadeTables.{made_if};
ghost use Rattle.gx_exec_work.specs.MadeTables as tables;
ghost use Rattle.gx_exec_work.specs.Works.{shown, shown_blocks};
ghost use Rattle.gx_gops.specs.Moving.{edges_placed_in};
ghost use Rattle.gx_gops.specs.Tables.{default_rows, ends_in_part, table_of};
ghost use Rattle.gx_model.specs.Graphs.{Vertex};
ghost use Rattle.gx_vpart.specs.Operators.{diff, minus};
ghost use Rattle.gx_vtable.specs.Kernels.{ReturnsRows, VertexFault};
ghost use Rattle.gx_vtable.specs.NewRows.{test_result};

use crate::Block;
use crate::inputs::{edges_in, first_table, no_vertices, two_tables};
use gx_epart::{EPart, edge_order_is_unique};
use gx_expr::Expr;
use gx_gops::{add_missing, move_edges};
use gx_rows::{Cut, NoMemory, PartStop, Row};
use gx_vpart::VPart;
use gx_vtable::{table_filter, table_inner, table_left, table_map};
use std::alloc::Global;
use std::rc::Rc;

// ---- from partitions to blocks

/// A block of these vertices.
pub(crate) fn table_block(alloc: Global, table: VPart) -> Result<Block, NoMemory>
    ensures { IfOk result (λ block. shown block ≡ Table table) }
{
    Ok(Block::Table(Rc::new(alloc, table)?))
}

/// A block of these edges.
pub(crate) fn edges_block(alloc: Global, edges: EPart) -> Result<Block, NoMemory>
    ensures { IfOk result (λ block. shown block ≡ contents.Edges edges) }
{
    Ok(Block::Edges(Rc::new(alloc, edges)?))
}

/// A block without an edge.
pub(crate) fn no_edges(alloc: Global) -> Result<Block, NoMemory>
    ensures { IfOk result (λ block. shown block ≡ contents.Edges []) }
{
    edges_block(alloc, EPart::from_edges(alloc, Vec::new(alloc))?)
}

/// A block without a vertex.
pub(crate) fn empty_block(alloc: Global) -> Result<Block, NoMemory>
    ensures { IfOk result (λ block. shown block ≡ Table []) }
{
    table_block(alloc, no_vertices(alloc)?)
}

// A block of what a kernel returned: of the vertices, or the fault that stopped it.
fn table_or_stop(alloc: Global, returned: Result<VPart, PartStop>) -> Result<Block, NoMemory>
    ensures { (rows : List Vertex) (fault : Option VertexFault) → ReturnsRows rows fault returned
        → IfOk result (λ block.
        shown block ≡ stop_or (option_map stop_on_vertex fault) (Table rows)) }
{
    match returned {
        Ok(table) => table_block(alloc, table),
        Err(PartStop::Fault { key, expr, cause }) => Ok(Block::Stopped { key, expr, cause }),
        Err(PartStop::NoMemory) => Err(NoMemory),
    }
}

// ---- graphs

/// The vertices of a part of a graph: these, and the default row for each end of the edges of the
/// inputs that is in the part and has no row.
pub(crate) fn completed(
    alloc: Global,
    rows: Option<&VPart>,
    edges: &[Rc<Block>],
    default: &Row,
    part: u32,
    parts: u32,
) -> Result<Block, NoMemory>
    requires { part < parts }
    ensures { IfOk result (λ block. shown block ≡ Table (table_of
        (unwrap_or (option_copied rows.entry) [] ++ default_rows default.now (ends_in_part part parts
        (flat_map edges_held (shown_blocks (pointed_values edges.now))))))) }
{
    let edges = edges_in(alloc, edges)?;
    let table = add_missing(alloc, rows, edges.as_slice(), default, part, parts)?;
    table_block(alloc, table)
}

/// The edges of the inputs that the cut places in the part.
pub(crate) fn moved(
    alloc: Global,
    inputs: &[Rc<Block>],
    cut: Cut,
    part: u32,
    parts: u32,
) -> Result<Block, NoMemory>
    requires by_ends { cut ≢ cut_of.Rows }
    requires in_range { part < parts }
    ensures { IfOk result (λ block. shown block ≡ contents.Edges (edge_order_of
        (edges_placed_in cut part parts (flat_map edges_held
        (shown_blocks (pointed_values inputs.now)))))) }
{
    let edges = edges_in(alloc, inputs)?;
    edge_order_is_unique();
    edges_block(
        alloc,
        move_edges(alloc, edges.as_slice(), cut, part, parts)?,
    )
}

// ---- tables

/// The vertices of the first input with new rows.
pub(crate) fn mapped(alloc: Global, inputs: &[Rc<Block>], sets: &[Expr]) -> Result<Block, NoMemory>
    ensures { IfOk result (λ block. shown block ≡ made_if (made.mapped sets.now)
        (tables.first_table (shown_blocks (pointed_values inputs.now)))) }
{
    let Some(table) = first_table(alloc, inputs)? else {
        return empty_block(alloc);
    };
    table_or_stop(alloc, table_map(alloc, &table, sets))
}

/// The vertices of the first input on which the test holds.
pub(crate) fn kept(alloc: Global, inputs: &[Rc<Block>], test: &Expr) -> Result<Block, NoMemory>
    ensures { IfOk result (λ block. shown block
        ≡ made_if (made.vertices_kept (test_result test.now))
        (tables.first_table (shown_blocks (pointed_values inputs.now)))) }
{
    let Some(table) = first_table(alloc, inputs)? else {
        return empty_block(alloc);
    };
    table_or_stop(alloc, table_filter(alloc, &table, test))
}

/// The vertices of the first input that are not in the second.
pub(crate) fn subtracted(alloc: Global, inputs: &[Rc<Block>]) -> Result<Block, NoMemory>
    ensures { IfOk result (λ block. shown block ≡ made_if (λ p. Table (minus p.0 p.1))
        (tables.two_tables (shown_blocks (pointed_values inputs.now)))) }
{
    let Some((table, other)) = two_tables(alloc, inputs)? else {
        return empty_block(alloc);
    };
    table_block(alloc, table.minus(&other)?)
}

/// The vertices of the second input whose row in the first is another one.
pub(crate) fn changed(alloc: Global, inputs: &[Rc<Block>]) -> Result<Block, NoMemory>
    ensures { IfOk result (λ block. shown block ≡ made_if (λ p. Table (diff p.0 p.1))
        (tables.two_tables (shown_blocks (pointed_values inputs.now)))) }
{
    let Some((table, other)) = two_tables(alloc, inputs)? else {
        return empty_block(alloc);
    };
    table_block(alloc, table.diff(&other)?)
}

/// The vertices that are in the first two inputs, with new rows.
pub(crate) fn joined(alloc: Global, inputs: &[Rc<Block>], sets: &[Expr]) -> Result<Block, NoMemory>
    ensures { IfOk result (λ block. shown block ≡ made_if (tables.inner_made sets.now)
        (tables.two_tables (shown_blocks (pointed_values inputs.now)))) }
{
    let Some((table, other)) = two_tables(alloc, inputs)? else {
        return empty_block(alloc);
    };
    table_or_stop(alloc, table_inner(alloc, &table, &other, sets))
}

/// The vertices of the first input with new rows, by those of the second or the default.
pub(crate) fn left_joined(
    alloc: Global,
    inputs: &[Rc<Block>],
    default: &Row,
    sets: &[Expr],
) -> Result<Block, NoMemory>
    ensures { IfOk result (λ block. shown block ≡ made_if (tables.left_made default.now sets.now)
        (tables.two_tables (shown_blocks (pointed_values inputs.now)))) }
{
    let Some((table, other)) = two_tables(alloc, inputs)? else {
        return empty_block(alloc);
    };
    table_or_stop(alloc, table_left(alloc, &table, &other, default, sets))
}
