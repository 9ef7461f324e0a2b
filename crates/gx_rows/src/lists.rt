//! One more item of a list, as a call with one clause.
//!
//! A loop whose step is `items.push(item)?` leaves goals about the vector's own error; a loop that
//! calls `append` leaves none.

ghost use Rattle.std.specs.Prelude.{◌≡◌, ◌∷◌, ◌++◌, OnOk, []};

use crate::NoMemory;

/// Appends `item` to `items`.
///
/// # Errors
///
/// `NoMemory` if memory for the item runs out.
pub fn append<T: Drop>(items: &mut Vec<T>, item: T) -> Result<(), NoMemory>
    ensures { OnOk result (items.new.items ≡ items.old.items ++ item ∷ []) }
{
    items.push(item)?;
    Ok(())
}
