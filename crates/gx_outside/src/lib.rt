//! The outside of a run: the traits `Files` and `Sink`, and fakes of both in memory.
//!
//! `Files` is a source of named files and `Sink` takes written bytes. Contracts can name the
//! contents of a source, or the bytes that a sink took, only if an implementation exposes them, as
//! the fakes `MemFiles` and `MemSink` do; of a real device nothing is known but its count of
//! faults. The crate depends on `gx_rows` for `NoMemory`. The loader reads through `Files`, the top
//! call writes through `Sink`. The crate never sees a real file or stream: those adapters are in
//! `gx_disk`.
#![tactic(auto)]

mod calls;
mod failed;
mod files;
mod mem_files;
mod mem_sink;
mod sink;
mod writing;

pub use failed::Failed;
pub use files::Files;
pub use mem_files::MemFiles;
pub use mem_sink::MemSink;
pub use sink::Sink;
pub use writing::write_all;
