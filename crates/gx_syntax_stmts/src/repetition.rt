//! Repetition: values that are parsed one after another while the next token begins one more.

ghost use Rattle.std.specs.Prelude.{◌≡◌, ◌++◌, ◌∷◌, [], Bool, List, OnOk, Result};
ghost use Rattle.gx_syntax_tokens.specs.Terminals.{Terminal};
ghost use Rattle.gx_syntax_exprs.specs.Parses.{Parses};
ghost use Rattle.gx_syntax_exprs.specs.TokenParsers.{is_next};
ghost use Rattle.gx_syntax_stmts.specs.Parts.{appended};

use gx_rows::NoMemory;
use gx_syntax_exprs::{Cursor, ParseStop};
use sqlite_items::Items;
use std::alloc::Global;

/// A way to repeat: by which token one more value begins, and how it is parsed.
pub(crate) trait Repeated {
    type Item: Drop;

    ghost starts: { Terminal → Bool };

    ghost parsed: { List Terminal → Result (Self.Item × List Terminal) (List Terminal) };

    /// Whether the next token begins one more value.
    fn is_next(cursor: &Cursor<'_>) -> bool
        ensures { result ≡ is_next starts cursor.now };

    /// Parses one more value.
    fn parse(cursor: &mut Cursor<'_>, alloc: Global) -> Result<Self::Item, ParseStop>
        ensures { Parses result cursor.new (parsed cursor.old) };
}

/// Appends an item.
pub(crate) fn append<T: Drop>(items: &mut Items<T>, item: T) -> Result<(), NoMemory>
    ensures { OnOk result (items.new ≡ items.old ++ item ∷ []) }
{
    items.push(item)?;
    Ok(())
}

/// Parses values while the next token begins one more, and appends them to `items`.
pub(crate) fn many<R: Repeated>(
    cursor: &mut Cursor<'_>,
    alloc: Global,
    items: Items<R::Item>,
) -> Result<Items<R::Item>, ParseStop>
    ensures { Parses result cursor.new (appended items R.starts R.parsed cursor.old) }
{
    let mut items = items;
    // There are fewer values than tokens.
    let most = cursor.len() + 1;
    'items: for _ in 0..most {
        if !R::is_next(cursor) {
            return Ok(items);
        }
        match R::parse(cursor, alloc) {
            Ok(item) => append(&mut items, item)?,
            Err(stop) => return Err(stop),
        }
    }
    Err(ParseStop::Refused)
}
