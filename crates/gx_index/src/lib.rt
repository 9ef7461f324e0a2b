//! Identifiers: to their slots, as ends of edges, and as sets.
//!
//! An `Index` finds the slot of an identifier, `Ends` lists the ends of edges with the sides on
//! which each is one, and an `IdSet` answers whether an identifier is in it. Contracts see an index
//! as its list of distinct identifiers by slot, ends as an ascending list, and a set as its
//! ascending identifiers. How an index searches is not seen; ends and sets share one. The crate
//! depends on `gx_rows` and `gx_mask` alone; partitions of vertices and of edges are built on it. It
//! never sees a row.
#![tactic(auto)]

mod distinct;
mod ends;
mod id_set;
mod ids_of_set;
mod index;
mod marks;
mod search;

pub use distinct::distinct_ids;
pub use ends::Ends;
pub use id_set::IdSet;
pub use ids_of_set::IdsOfSet;
pub use index::Index;
