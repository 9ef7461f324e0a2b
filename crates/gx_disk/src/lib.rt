//! The adapters of the traits of `gx_outside` over real files and streams.
//!
//! `DiskFiles` reads the files of the operating system, and `Stream` writes to a stream of the process.
//! Of both contracts know the count of faults alone: the contents of a file and the bytes that a stream
//! shows are unknown. The program `gx` makes them and passes them to the top call, which sees the traits
//! only.
#![tactic(auto)]

mod disk_files;
mod stream;

pub use disk_files::DiskFiles;
pub use stream::Stream;
