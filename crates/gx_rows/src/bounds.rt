//! How long a text and a list in a value may be. No value checks this: whoever makes one does.

/// The most bytes of a text in a value.
pub const MOST_TEXT_BYTES: usize = 1_024;

/// The most entries of a list in a value.
pub const MOST_LIST_ENTRIES: usize = 1_000_000;
