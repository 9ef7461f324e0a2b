//! The rows of one partition, each with the row of another under the same identifier.
//!
//! Both partitions are walked once, by ascending identifier: no row is looked up.

ghost use Rattle.std.specs.Prelude.{◌≡◌};
ghost use Rattle.std.specs.Iterator.{YieldsFirstBy, item_count};
ghost use Rattle.std.specs.Map.{keys_of};
ghost use Rattle.std.specs.Option.{option_copied};
ghost use Rattle.gx_index.specs.Ids.{IsAscending};
ghost use Rattle.gx_vpart.specs.Joining.{rows_not_below};
ghost use Rattle.gx_vpart.specs.Operators.{left_join, row_at};

use crate::peekable_rows::PeekableRows;
use crate::vrows::VRows;
use gx_rows::{Row, Vid};
use std::cmp::Ordering;
use std::marker::Model;

/// The rows of the left partition, each with that of the right one, if it has one. Contracts see the
/// list of those that are left. It takes no memory.
#[derive(Drop)]
pub struct Beside<'a> {
    left: VRows<'a>,
    right: PeekableRows<'a>,
}

impl<'a> Model for Beside<'a> {
    ghost use Rattle.std.specs.Prelude.{List, Option};
    ghost use Rattle.std.specs.Map.{keys_of};
    ghost use Rattle.gx_index.specs.Ids.{IsAscending};
    ghost use Rattle.gx_rows.specs.declared.value.Value.{Value as Cell};
    ghost use Rattle.gx_rows.specs.declared.vid.Vid.{Vid};
    ghost use Rattle.gx_vpart.specs.Operators.{left_join};

    ghost Value = { List (Vid × List Cell × Option (List Cell)) };

    ghost view = { λ b. left_join b.left b.right };

    ghost invariant = { λ b. IsAscending (keys_of b.left) × IsAscending (keys_of b.right) };
}

impl<'a> Beside<'a> {
    /// From the start of both lists.
    pub fn of(left: VRows<'a>, right: VRows<'a>) -> Beside<'a>
        requires left { IsAscending (keys_of left) }
        requires right { IsAscending (keys_of right) }
        ensures { result ≡ left_join left.entry right.entry }
    {
        let right = PeekableRows::of(right);
        Beside { left, right }
    }
}

impl<'a> Iterator for Beside<'a> {
    type Item = (Vid, &'a Row, Option<&'a Row>);

    ghost next_gives = { YieldsFirstBy (λ item. (item.0, item.1.now, option_copied item.2)) (λ rest. rest) };

    ghost remaining = { item_count (λ rest. rest) };

    fn next(&mut self) -> Option<(Vid, &'a Row, Option<&'a Row>)> {
        let Some((v, row)) = self.left.next() else {
            return None;
        };
        let other = partner(&mut self.right, v);
        Some((v, row, other))
    }
}

// The row of `v`, if any. The rows before it are passed over.
fn partner<'a>(rows: &mut PeekableRows<'a>, v: Vid) -> Option<&'a Row>
    requires { IsAscending (keys_of rows.old) }
    ensures found { option_copied result ≡ row_at v rows.old }
    ensures rest { rows.new ≡ rows_not_below v rows.old }
{
    'below: while let Some((w, row)) = rows.peek() {
        match w.cmp(&v) {
            Ordering::Less => rows.advance(),
            Ordering::Equal => return Some(row),
            Ordering::Greater => return None,
        }
    }
    None
}
