//! Rows. One or two values are kept in the row itself, so that such a row takes no memory; how a
//! row keeps its values is seen nowhere else.

ghost use Rattle.std.specs.Prelude.{
  ◌≡◌,
  ◌<◌,
  ◌^◌,
  List,
  [],
  ◌∷◌,
  length,
  vec_len,
  slice_get,
  IfOk,
  refl,
};
ghost use Rattle.std.specs.Cmp.{eq_by_cmp_equiv, partial_equiv_from_equiv, partial_order_from_total};
ghost use Rattle.std.specs.Option.{option_copied};
ghost use Rattle.std.specs.Ordering.{as_partial_cmp, eq_by_cmp};
ghost use Rattle.gx_rows.specs.Order.{row_cmp, row_cmp-total};

use crate::{NoMemory, Value};
use std::alloc::AllocError;
use std::cmp::Ordering;
use std::marker::Model;

// Arrays, so that `as_slice` can borrow them.
#[derive(Debug, Drop)]
enum Cells {
    One([Value; 1]),
    Two([Value; 2]),
    Many(Vec<Value>),
}

/// A row of a table. Contracts see it as its list of values, which has fewer than 2^32 entries.
#[derive(Debug, Drop)]
pub struct Row {
    cells: Cells,
}

impl Model for Row {
    ghost use Rattle.std.specs.Prelude.{List, ◌<◌, ◌^◌, length};
    ghost use Rattle.gx_rows.specs.declared.value.Value.{Value as Cell};

    ghost Value = { List Cell };

    ghost use Rattle.gx_rows.specs.Cells.{values_of};

    ghost view = { λ r. values_of r.cells };

    ghost invariant = { λ r. length (values_of r.cells) < 2 ^ 32 };
}

impl Row {
    /// The row of these values, in order. It takes no memory.
    pub fn of(mut values: Vec<Value>) -> Row
        requires { vec_len values < 2 ^ 32 }
        ensures { result ≡ values.items }
    {
        if values.len() > 2 {
            return Row::many(values);
        }
        let Some(last) = values.pop() else {
            return Row::many(values);
        };
        match values.pop() {
            Some(first) => Row::two(first, last),
            None => Row::one(last),
        }
    }

    /// The row of one value. It takes no memory.
    pub fn one(value: Value) -> Row
        ensures { result ≡ value ∷ [] }
    {
        Row {
            cells: Cells::One([value]),
        }
    }

    /// The row of two values, in order. It takes no memory.
    pub fn two(first: Value, second: Value) -> Row
        ensures { result ≡ first ∷ second ∷ [] }
    {
        Row {
            cells: Cells::Two([first, second]),
        }
    }

    fn many(values: Vec<Value>) -> Row
        requires { vec_len values < 2 ^ 32 }
        ensures { result ≡ values.items }
    {
        Row {
            cells: Cells::Many(values),
        }
    }

    /// The number of values.
    pub fn len(&self) -> u32
        ensures { result ≡ length self.now }
    {
        self.as_slice().len() as u32
    }

    /// The value at position `i`, counted from 0; `None` exactly if `i` is at least `len`.
    pub fn get(&self, i: u32) -> Option<&Value>
        ensures { option_copied result ≡ slice_get self.now i }
    {
        self.as_slice().get(i as usize)
    }

    /// All values in order, borrowed.
    pub fn as_slice(&self) -> &[Value]
        ensures values { result.now ≡ self.now }
        ensures few { length self.now < 2 ^ 32 }
    {
        match &self.cells {
            Cells::One(value) => value.as_slice(),
            Cells::Two(values) => values.as_slice(),
            Cells::Many(values) => values.as_slice(),
        }
    }

    /// An equal row. It shares the texts and lists, and takes memory for three values and more.
    ///
    /// # Errors
    ///
    /// `NoMemory` if memory for the values runs out, or if no further copy of one can be counted.
    pub fn copy(&self) -> Result<Row, NoMemory>
        ensures { IfOk result (λ row. row ≡ self.now) }
    {
        match &self.cells {
            Cells::One([value]) => Ok(Row::one(value.copy()?)),
            Cells::Two([first, second]) => Ok(Row::two(first.copy()?, second.copy()?)),
            Cells::Many(values) => {
                let copies = Vec::from_clones(*values.allocator(), values.as_slice())?;
                Ok(Row::many(copies))
            }
        }
    }

    /// Lexicographically by the order of values, a prefix first.
    pub fn compare(&self, other: &Row) -> Ordering
        ensures { result ≡ row_cmp self.now other.now }
    {
        self.as_slice().cmp(&other.as_slice())
    }
}

impl Clone for Row {
    ghost is_clone = { λ row clone. clone ≡ row };

    fn clone(&self) -> Result<Row, AllocError> {
        match self.copy() {
            Ok(row) => Ok(row),
            Err(_) => Err(AllocError),
        }
    }
}

impl PartialEq for Row {
    ghost eq = { eq_by_cmp row_cmp };

    ghost laws = { partial_equiv_from_equiv (eq_by_cmp_equiv row_cmp-total) };

    fn eq(&self, other: &Row) -> bool {
        self.compare(other).is_eq()
    }
}

impl Eq for Row {
    ghost laws = { eq_by_cmp_equiv row_cmp-total };
}

impl PartialOrd for Row {
    ghost partial_cmp = { as_partial_cmp row_cmp };

    ghost laws = { partial_order_from_total row_cmp-total };

    fn partial_cmp(&self, other: &Row) -> Option<Ordering> {
        Some(self.compare(other))
    }
}

impl Ord for Row {
    ghost cmp = { row_cmp };

    ghost total = { row_cmp-total };

    ghost matches_partial_cmp = { λ x y. refl };

    ghost matches_eq = { λ x y. refl };

    fn cmp(&self, other: &Row) -> Ordering {
        self.compare(other)
    }
}
