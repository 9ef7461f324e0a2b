//! Why tokens are not a script.

/// Why tokens are not a script.
#[derive(Clone, Copy, Debug, PartialEq, Eq)]
pub enum GrammarStop {
    /// How many tokens precede the first with which no script goes on; all of them, if a script
    /// goes on but does not end.
    At(usize),
    /// Out of memory.
    NoMemory,
}
