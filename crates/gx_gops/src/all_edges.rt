//! The edges of several partitions, one partition after another.

ghost use Rattle.std.specs.Prelude.{◌≡◌};
ghost use Rattle.std.specs.Iterator.{YieldsFirstBy, item_count};
ghost use Rattle.gx_gops.specs.AllEdges.{edges_of_parts};

use gx_epart::EPart;
use gx_rows::{Row, Vid};
use std::marker::Model;
use std::rc::Rc;

/// The edges of several partitions. Contracts see the list of those that are left. It takes no
/// memory.
#[derive(Drop)]
pub struct AllEdges<'a> {
    parts: &'a [Rc<EPart>],
    // The edges of the first partition before this position are passed over.
    position: u32,
}

impl<'a> Model for AllEdges<'a> {
    ghost use Rattle.std.specs.Prelude.{List};
    ghost use Rattle.gx_rows.specs.Order.{Edge};
    ghost use Rattle.gx_gops.specs.AllEdges.{edges_after};

    ghost Value = { List Edge };

    ghost view = { λ e. edges_after e.position e.parts.now };
}

impl<'a> AllEdges<'a> {
    /// All edges of these partitions.
    pub fn of(parts: &'a [Rc<EPart>]) -> AllEdges<'a>
        ensures { result ≡ edges_of_parts parts.now }
    {
        AllEdges { parts, position: 0 }
    }
}

impl<'a> Iterator for AllEdges<'a> {
    type Item = (Vid, Vid, &'a Row);

    ghost next_gives = { YieldsFirstBy (λ item. (item.0, item.1, item.2.now)) (λ rest. rest) };

    ghost remaining = { item_count (λ rest. rest) };

    fn next(&mut self) -> Option<(Vid, Vid, &'a Row)> {
        while let [part, after @ ..] = self.parts {
            if self.position < part.len() {
                let edge = part.edge(self.position);
                self.position += 1;
                return Some(edge);
            }
            self.parts = after;
            self.position = 0;
        }
        None
    }
}
