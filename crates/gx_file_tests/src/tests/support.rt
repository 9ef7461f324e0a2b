//! A text, as a value has it.

use gx_rows::{NoMemory, Text};
use std::alloc::Global;

pub(super) fn text(alloc: Global, chars: &str) -> Result<Text, NoMemory> {
    Text::of(alloc, chars)
}
