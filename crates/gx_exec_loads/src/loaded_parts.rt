//! The loaded rows of a script, with the positions of each part.

ghost use Rattle.std.specs.Prelude.{◌≡◌, ◌<◌, ◌≤◌, ◌^◌, IfOk, vec_len};
ghost use Rattle.gx_epart.specs.Edges.{edge_order_of};
ghost use Rattle.gx_exec_contents.specs.PartContents.{part_of_edges, part_of_vertices};
ghost use Rattle.gx_exec_contents.specs.Worlds.{place_in};
ghost use Rattle.gx_exec_loads.specs.Filing.{AreFiled, kind_in, part_of_row, positions_in_part};
ghost use Rattle.gx_gops.specs.Tables.{table_of};
ghost use Rattle.gx_model.specs.Graphs.{placed_from};
ghost use Rattle.gx_model.specs.Values.{rows_loaded, vertices_loaded};
ghost use Rattle.gx_plan.specs.declared.kind.Kind.TheVariants as kinds;

use crate::copies::{append, edges_at, vertices_at};
use crate::filing::{filed, kind_of};
use crate::positions::Positions;
use gx_epart::{EPart, edge_order_is_unique};
use gx_gops::table_of_lent;
use gx_load::Loads;
use gx_rows::{Cut, NoMemory, Row, Vid};
use gx_types::Typed;
use gx_vpart::VPart;
use std::alloc::Global;
use std::marker::Model;
use std::rc::Rc;

/// The loaded rows of a script, by part. Contracts see it as the world: the script, the rows of its
/// loads, the number of parts and the cut that places edges.
#[derive(Drop)]
pub struct LoadedParts {
    typed: Rc<Typed>,
    loads: Loads,
    parts: u32,
    cut: Cut,
    // One entry for each load.
    filed: Vec<Positions>,
    alloc: Global,
}

impl Model for LoadedParts {
    ghost use Rattle.gx_exec_contents.specs.Worlds.{World};
    ghost use Rattle.gx_exec_loads.specs.Filing.{AreFiled};
    ghost use Rattle.std.specs.Coded.{codes};
    ghost use Rattle.gx_expr.specs.contracts.expr.Expr as expr;

    ghost Value = { World };

    ghost coded = { Prim.hlevel (codes, expr.the_row.coded) };

    ghost view = { λ l. record {
      script = l.typed.value;
      loads = l.loads;
      parts = l.parts;
      cut = l.cut;
    } };

    ghost invariant = { λ l. AreFiled
        (record { script = l.typed.value; loads = l.loads; parts = l.parts; cut = l.cut })
        l.filed.items };
}

impl LoadedParts {
    /// Files the rows of each load in so many parts: vertices by their identifiers, and edges where
    /// the cut places them. It reads each row once, and moves none.
    ///
    /// # Errors
    ///
    /// `NoMemory` if memory for the positions runs out, or if a load has 2^32 rows or more.
    pub fn new(
        alloc: Global,
        typed: Rc<Typed>,
        loads: Loads,
        parts: u32,
        cut: Cut,
    ) -> Result<LoadedParts, NoMemory>
        requires nonzero { 1 ≤ parts }
        ensures { IfOk result (λ w. w ≡ record {
          script = typed.value;
          loads = loads;
          parts = parts;
          cut = cut;
        }) }
    {
        let filed = file_loads(alloc, &typed, &loads, parts, cut)?;
        Ok(LoadedParts {
            typed,
            loads,
            parts,
            cut,
            filed,
            alloc,
        })
    }

    /// The number of parts.
    pub fn parts(&self) -> u32
        ensures { result ≡ self.now.parts }
    {
        self.parts
    }

    /// The vertices of a part that statement `s` loaded: each identifier with its first row. The
    /// rows of the part are copied once.
    ///
    /// # Errors
    ///
    /// `NoMemory` if memory for the partition runs out.
    pub fn vertices(&self, s: u32, part: u32) -> Result<VPart, NoMemory>
        requires in_range { part < self.now.parts }
        requires loads_vertices { kind_in self.now.script s ≡ kinds.Vertices }
        ensures { IfOk result (λ t. t ≡ table_of
            (part_of_vertices self.now.parts part (vertices_loaded self.now.loads s))) }
    {
        let (rows, positions) = self.rows_of_part(s, part);
        table_of_lent(self.alloc, vertices_at(self.alloc, rows, positions)?)
    }

    /// The edges of a part that statement `s` loaded. The rows of the part are copied once.
    ///
    /// # Errors
    ///
    /// `NoMemory` if memory for the partition runs out.
    pub fn edges(&self, s: u32, part: u32) -> Result<EPart, NoMemory>
        requires in_range { part < self.now.parts }
        requires loads_edges { kind_in self.now.script s ≡ kinds.Edges }
        ensures { IfOk result (λ t. t ≡ edge_order_of
            (part_of_edges part (placed_from (place_in self.now) 0 (rows_loaded self.now.loads s)))) }
    {
        let (rows, positions) = self.rows_of_part(s, part);
        let edges = edges_at(self.alloc, rows, positions)?;
        if edges.len() > u32::MAX as usize {
            return Err(NoMemory);
        }
        edge_order_is_unique();
        EPart::from_lent(self.alloc, edges)
    }

    // The rows that statement `s` loaded, and the positions of those in a part.
    fn rows_of_part(&self, s: u32, part: u32) -> (&[(Vid, Vid, Row)], &[u32])
        requires { part < self.now.parts }
        ensures rows { result.0.now ≡ rows_loaded self.now.loads s }
        ensures positions { result.1.now ≡ positions_in_part
            (part_of_row (kind_in self.now.script s) self.now.cut self.now.parts) part 0
            (rows_loaded self.now.loads s) }
    {
        for i in 0..self.loads.len() {
            let (statement, rows) = self.loads.entry(i);
            if statement == s {
                return (rows, self.filed[i as usize].of_part(part));
            }
        }
        (&[], &[])
    }
}

// The positions of the rows of each load, by part.
fn file_loads(
    alloc: Global,
    typed: &Typed,
    loads: &Loads,
    parts: u32,
    cut: Cut,
) -> Result<Vec<Positions>, NoMemory>
    requires { 1 ≤ parts }
    ensures { IfOk result (λ filed. AreFiled
        (record { script = typed.now; loads = loads.now; parts = parts; cut = cut })
        filed.items) }
{
    let mut all = Vec::with_capacity(alloc, loads.len() as usize)?;
    for i in 0..loads.len() {
        let (statement, rows) = loads.entry(i);
        let positions = filed(alloc, kind_of(typed, statement), cut, parts, rows)?;
        append(&mut all, positions)?;
    }
    Ok(all)
}
