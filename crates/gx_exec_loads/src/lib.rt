//! The loaded rows of a script, by part.
//!
//! `LoadedParts` keeps the rows of each load statement where they are, with their positions by part:
//! of vertices by the part of their identifier, of edges by their place under the cut. It gives a
//! part of a load as a partition. Contracts see it as the world of the run: the script, its loaded
//! rows, the number of parts and the cut. It depends on `gx_load` for the rows, on `gx_cuts` for
//! parts and places, and on `gx_vpart` and `gx_epart` for partitions; the work of a script is built
//! on it. It never sees a plan, a file or a block.
#![tactic(auto)]

mod copies;
mod filing;
mod loaded_parts;
mod positions;

pub use loaded_parts::LoadedParts;
