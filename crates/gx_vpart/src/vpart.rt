//! A vertex partition.

ghost use Rattle.std.specs.Prelude.{◌≡◌, ◌<◌, ◌^◌, All, IfOk, IsPermutation, length, vec_len, zip};
ghost use Rattle.std.specs.Map.{keys_of};
ghost use Rattle.std.specs.Option.{option_copied};
ghost use Rattle.gx_index.specs.Ids.{HasDistinctIds, IsAscending};
ghost use Rattle.gx_traverse.specs.Calls.{MayCallAtVertex, ReturnsAtVertex};
ghost use Rattle.gx_traverse.specs.Traversal.{IsTraversal};
ghost use Rattle.gx_vpart.specs.Operators.{picked, row_at, vertex_key, with_rows};
ghost use Rattle.gx_vpart.specs.Slots.{HasSlots, masked_rows};

use crate::columns::columns;
use crate::slots::thin;
use crate::traverse::{map_rows, traverse_rows};
use crate::vrows::VRows;
use gx_chunks::Rows;
use gx_index::Index;
use gx_mask::Mask;
use gx_rows::{EvalStop, NoMemory, PartStop, Row, Vid};
use std::alloc::Global;
use std::marker::Model;
use std::rc::Rc;

/// The vertices of one partition, each with its row. Contracts see their list, identifiers
/// ascending.
#[derive(Drop)]
pub struct VPart {
    pub(crate) index: Rc<Index>,
    rows: Rc<Rows>,
    pub(crate) mask: Rc<Mask>,
    alloc: Global,
}

impl Model for VPart {
    ghost use Rattle.std.specs.Prelude.{List};
    ghost use Rattle.gx_vpart.specs.Operators.{VertexRow};
    ghost use Rattle.gx_vpart.specs.Slots.{HasSlots, masked_rows};

    ghost Value = { List VertexRow };

    ghost view = { λ p. masked_rows p.mask.value p.index.value p.rows.value };

    ghost invariant = { λ p. HasSlots p.mask.value p.index.value p.rows.value };
}

impl VPart {
    /// The partition of these vertices, given in any order.
    ///
    /// # Errors
    ///
    /// `NoMemory` if memory for the partition runs out.
    pub fn of(alloc: Global, rows: Vec<(Vid, Row)>) -> Result<VPart, NoMemory>
        requires few { vec_len rows < 2 ^ 32 }
        requires distinct { HasDistinctIds (keys_of rows.items) }
        ensures ascending { IfOk result (λ part. IsAscending (keys_of part)) }
        ensures same { IfOk result (λ part. IsPermutation rows.items part) }
    {
        let (ids, rows) = columns(alloc, rows)?;
        VPart::from_sorted(alloc, ids, rows)
    }

    /// The partition of these identifiers, which ascend, each with the row at its position. No row
    /// is moved.
    ///
    /// # Errors
    ///
    /// `NoMemory` if memory for the partition runs out.
    pub fn from_sorted(alloc: Global, ids: Vec<Vid>, rows: Rows) -> Result<VPart, NoMemory>
        requires few { vec_len ids < 2 ^ 32 }
        requires ascending { IsAscending ids.items }
        requires one_row_each { length rows ≡ length ids.items }
        ensures { IfOk result (λ part. part ≡ zip ids.items rows) }
    {
        let mask = Rc::new(alloc, Mask::full(alloc, ids.len() as u32)?)?;
        let index = Rc::new(alloc, Index::from_vec(alloc, ids)?)?;
        let rows = Rc::new(alloc, rows)?;
        Ok(VPart {
            index,
            rows,
            mask,
            alloc,
        })
    }

    /// The row of `v`; `None` exactly if `v` is not in the partition. It takes no memory.
    pub fn row(&self, v: Vid) -> Option<&Row>
        ensures { option_copied result ≡ row_at v self.now }
    {
        let Some(slot) = self.index.find(v) else {
            return None;
        };
        if self.mask.test(slot) {
            self.rows.get(slot)
        } else {
            None
        }
    }

    /// The vertices with their rows by ascending identifier, borrowed. Neither this call nor the
    /// items take memory.
    pub fn rows(&self) -> VRows<'_>
        ensures exact { result ≡ self.now }
        ensures fits_u32 { length self.now < 2 ^ 32 }
        ensures ascending { IsAscending (keys_of self.now) }
    {
        VRows::of(self.mask.as_ref(), self.index.ids(), self.rows.as_ref())
    }

    /// The same vertices, each with the row that `f` returns for it. The index is shared.
    ///
    /// # Errors
    ///
    /// The fault of the least identifier at which `f` returns one, exactly if there is one;
    /// `NoMemory` if `f` returns it, or if memory for the rows runs out.
    pub fn map<F: Fn(Vid, &Row) -> Result<Row, EvalStop>>(&self, f: F) -> Result<VPart, PartStop>
        requires { All (MayCallAtVertex (F.pre f)) self.now }
        ensures { IsTraversal (ReturnsAtVertex (F.post f)) vertex_key self.now
            (λ rows new. new ≡ with_rows self.now rows) result }
    {
        let rows = map_rows(self.alloc, self.mask.as_ref(), self.rows(), f)?;
        Ok(VPart::of_columns(self.alloc, &self.index, &self.mask, rows)?)
    }

    /// The vertices for which `f` returns true. The index and the rows are shared; no row is copied.
    ///
    /// # Errors
    ///
    /// The fault of the least identifier at which `f` returns one, exactly if there is one;
    /// `NoMemory` if `f` returns it, or if memory for the mask runs out.
    pub fn filter<F: Fn(Vid, &Row) -> Result<bool, EvalStop>>(
        &self,
        f: F,
    ) -> Result<VPart, PartStop>
        requires { All (MayCallAtVertex (F.pre f)) self.now }
        ensures { IsTraversal (ReturnsAtVertex (F.post f)) vertex_key self.now
            (λ bools new. new ≡ picked self.now bools) result }
    {
        let bools = traverse_rows(self.alloc, self.rows(), f)?;
        Ok(self.pick(bools.as_slice())?)
    }

    pub(crate) fn alloc(&self) -> Global {
        self.alloc
    }

    // The vertices of the slots that the mask has. The index and the mask are shared.
    pub(crate) fn of_columns(
        alloc: Global,
        index: &Rc<Index>,
        mask: &Rc<Mask>,
        rows: Rows,
    ) -> Result<VPart, NoMemory>
        requires { HasSlots mask.now.value index.now.value rows }
        ensures { IfOk result (λ new. new ≡ masked_rows mask.now.value index.now.value rows) }
    {
        Ok(VPart {
            index: index.clone()?,
            rows: Rc::new(alloc, rows)?,
            mask: mask.clone()?,
            alloc,
        })
    }

    // The vertices at which the bools, one for each, are true.
    pub(crate) fn pick(&self, bools: &[bool]) -> Result<VPart, NoMemory>
        ensures { IfOk result (λ new. new ≡ picked self.now bools.now) }
    {
        let mask = thin(self.alloc, self.mask.as_ref(), bools)?;
        Ok(VPart {
            index: self.index.clone()?,
            rows: self.rows.clone()?,
            mask: Rc::new(self.alloc, mask)?,
            alloc: self.alloc,
        })
    }
}
