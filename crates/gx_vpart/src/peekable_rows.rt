//! The rows of a partition, with the next one at hand.

ghost use Rattle.std.specs.Prelude.{◌≡◌, ◌∷◌, [], drop, MatchOption};

use crate::vrows::VRows;
use gx_rows::{Row, Vid};
use std::marker::Model;

/// Rows of which the next one can be seen before it is passed over. Contracts see the list of those
/// that are left. It takes no memory.
#[derive(Drop)]
pub struct PeekableRows<'a> {
    // `None` if no row is left.
    first: Option<(Vid, &'a Row)>,
    rest: VRows<'a>,
}

impl<'a> Model for PeekableRows<'a> {
    ghost use Rattle.std.specs.Prelude.{List, [], ◌≡◌, IfNone};
    ghost use Rattle.gx_vpart.specs.Joining.{rows_from};
    ghost use Rattle.gx_vpart.specs.Operators.{VertexRow};

    ghost Value = { List VertexRow };

    ghost view = { λ p. rows_from p.first p.rest };

    ghost invariant = { λ p. IfNone p.first (p.rest ≡ []) };
}

impl<'a> PeekableRows<'a> {
    /// All of these rows.
    pub fn of(mut rows: VRows<'a>) -> PeekableRows<'a>
        ensures { result ≡ rows.entry }
    {
        let first = rows.next();
        PeekableRows { first, rest: rows }
    }

    /// The next row; `None` exactly if none is left.
    pub fn peek(&self) -> Option<(Vid, &'a Row)>
        ensures { MatchOption result (self.now ≡ []) (λ r. self.now ≡ (r.0, r.1.now) ∷ drop 1 self.now) }
    {
        self.first
    }

    /// Passes over the next row.
    pub fn advance(&mut self)
        ensures { self.new ≡ drop 1 self.old }
    {
        self.first = self.rest.next();
    }
}
