//! Results that are kept to the end of a run.

use gx_rows::NoMemory;

/// Keeps one more result.
///
/// # Errors
///
/// `NoMemory` if memory for it runs out.
pub fn keep<T: Drop>(results: &mut Vec<T>, item: T) -> Result<(), NoMemory> {
    results.push(item)?;
    Ok(())
}
