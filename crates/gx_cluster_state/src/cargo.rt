//! What a finished block sends to partitions.

ghost use Rattle.std.specs.Prelude.{◌≡◌};

use gx_rows::Vid;
use std::marker::Model;

/// The rows that a block sends, without their values. Contracts see it as a list of pairs of a
/// partition and a vertex.
#[derive(Drop)]
pub struct Cargo {
    pairs: Vec<(u32, Vid)>,
}

impl Model for Cargo {
    ghost use Rattle.std.specs.Prelude.{List, ℕ};
    ghost use Rattle.gx_rows.specs.declared.vid.Vid.{Vid};

    ghost Value = { List (ℕ × Vid) };

    ghost view = { λ c. c.pairs.items };
}

impl Cargo {
    /// These pairs, in order. It takes no memory.
    pub fn of(pairs: Vec<(u32, Vid)>) -> Cargo
        ensures { result ≡ pairs.items }
    {
        Cargo { pairs }
    }

    /// The pairs, in order.
    pub fn pairs(&self) -> &[(u32, Vid)]
        ensures { result.now ≡ self.now }
    {
        self.pairs.as_slice()
    }
}
