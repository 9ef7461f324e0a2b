//! Traversals: a closure applied to each item of a list in order, up to the first fault.
//!
//! Every kernel over vertices, edges, pairs of rows or triplets is a traversal. `specs/Traversal.antt`
//! says what the result of one is (`IsTraversal`), and, for a closure that computes a function, that
//! it is exactly the function's list or its first fault (`exact`). `specs/Calls.antt` says at which
//! arguments a closure is called, and `specs/Steps.antt` has the invariant of the loops. The crate
//! depends on `gx_rows` alone, and never sees what an item is.
#![tactic(auto)]

mod stop;

pub use stop::stop_at;
