//! What an expression reads.

ghost use Rattle.std.specs.Prelude.{◌≡◌, slice_get};
ghost use Rattle.std.specs.Option.{option_copied};
ghost use Rattle.gx_expr.specs.Evaluation.{ScopeValues};
ghost use Rattle.gx_expr.specs.Numbers.{number_at};

use crate::leaf::number_in;
use crate::side::Side;
use gx_rows::{Value, Vid};

/// The rows and identifiers that an expression may read. Its values are borrowed, so a kernel makes
/// one for each row without a copy.
pub trait Scope {
    // what can be read
    ghost values: { Self → ScopeValues };

    /// The value of column `i`, counted from 0, of a side; `None` exactly if there is none.
    fn column(&self, side: Side, i: u32) -> Option<&Value>
        ensures { option_copied result ≡ slice_get ((values self.now).columns side) i };

    /// The number of column `i` of a side; `None` exactly if there is none, or if it is of another
    /// kind. A scope that keeps columns of numbers returns it from there, without the row.
    fn number(&self, side: Side, i: u32) -> Option<i64>
        ensures { result ≡ number_at (values self.now) side i }
    {
        number_in(self.column(side, i))
    }

    /// The identifier of the vertex on a side; `None` exactly if there is none.
    fn id(&self, side: Side) -> Option<Vid>
        ensures { result ≡ (values self.now).id side };

    /// Whether a join found a row.
    fn matched(&self) -> bool
        ensures { result ≡ (values self.now).matched };
}
