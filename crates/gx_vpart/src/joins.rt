//! Operators on two partitions.

ghost use Rattle.std.specs.Prelude.{◌≡◌, All, IfOk, zip};
ghost use Rattle.gx_traverse.specs.Traversal.{IsTraversal};
ghost use Rattle.gx_vpart.specs.JoinCalls.{MayCallAtPair, MayCallBeside, ReturnsAtPair, ReturnsBeside};
ghost use Rattle.gx_vpart.specs.Operators.{diff, ids_of_join, inner_join, join_key, left_join, minus, with_rows};

use crate::VPart;
use crate::beside::Beside;
use crate::traverse::{changed, map_beside, map_pairs, without_partner};
use gx_rows::{EvalStop, NoMemory, PartStop, Row, Vid};

impl VPart {
    /// The vertices that are in both, each with the row that `f` returns for its row here and its
    /// row in `other`.
    ///
    /// # Errors
    ///
    /// The fault of the least identifier at which `f` returns one, exactly if there is one;
    /// `NoMemory` if `f` returns it, or if memory for the rows runs out.
    pub fn inner_join<F: Fn(Vid, &Row, &Row) -> Result<Row, EvalStop>>(
        &self,
        other: &VPart,
        f: F,
    ) -> Result<VPart, PartStop>
        requires { All (MayCallAtPair (F.pre f)) (inner_join self.now other.now) }
        ensures { IsTraversal (ReturnsAtPair (F.post f)) join_key (inner_join self.now other.now)
            (λ rows new. new ≡ zip (ids_of_join (inner_join self.now other.now)) rows) result }
    {
        let beside = Beside::of(self.rows(), other.rows());
        let (bools, rows) = map_pairs(self.alloc(), self.mask.as_ref(), beside, f)?;
        let all = VPart::of_columns(self.alloc(), &self.index, &self.mask, rows)?;
        Ok(all.pick(bools.as_slice())?)
    }

    /// The same vertices, each with the row that `f` returns for its row here and its row in
    /// `other`, if it has one.
    ///
    /// # Errors
    ///
    /// The fault of the least identifier at which `f` returns one, exactly if there is one;
    /// `NoMemory` if `f` returns it, or if memory for the rows runs out.
    pub fn left_join<F: Fn(Vid, &Row, Option<&Row>) -> Result<Row, EvalStop>>(
        &self,
        other: &VPart,
        f: F,
    ) -> Result<VPart, PartStop>
        requires { All (MayCallBeside (F.pre f)) (left_join self.now other.now) }
        ensures { IsTraversal (ReturnsBeside (F.post f)) join_key (left_join self.now other.now)
            (λ rows new. new ≡ with_rows self.now rows) result }
    {
        let beside = Beside::of(self.rows(), other.rows());
        let rows = map_beside(self.alloc(), self.mask.as_ref(), beside, f)?;
        Ok(VPart::of_columns(self.alloc(), &self.index, &self.mask, rows)?)
    }

    /// The vertices that are not in `other`. The index and the rows are shared.
    ///
    /// # Errors
    ///
    /// `NoMemory` if memory for the mask runs out.
    pub fn minus(&self, other: &VPart) -> Result<VPart, NoMemory>
        ensures { IfOk result (λ new. new ≡ minus self.now other.now) }
    {
        let beside = Beside::of(self.rows(), other.rows());
        let bools = without_partner(self.alloc(), beside)?;
        self.pick(bools.as_slice())
    }

    /// The vertices that are in both with different rows, each with its row in `other`, whose index
    /// and rows are shared.
    ///
    /// # Errors
    ///
    /// `NoMemory` if memory for the mask runs out.
    pub fn diff(&self, other: &VPart) -> Result<VPart, NoMemory>
        ensures { IfOk result (λ new. new ≡ diff self.now other.now) }
    {
        let beside = Beside::of(other.rows(), self.rows());
        let bools = changed(self.alloc(), beside)?;
        other.pick(bools.as_slice())
    }
}
