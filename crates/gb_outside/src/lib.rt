//! The outside as three traits: files, a source of bytes and a sink of bytes. Those in memory tell what
//! they hold, and fail where they are told to; those over the system tell nothing. A fault of the outside
//! shows in a count that never falls, so an error that the program makes up by itself is refused.
#![tactic(auto)]

mod memory;
mod system;
mod traits;
mod whole;

pub use memory::{Calls, HeldFile, HeldFiles, MemFiles, MemSink, MemSource, Numbers};
pub use system::{OsFiles, StdSink, StdSource};
pub use traits::{Failed, Files, Sink, Source};
pub use whole::{LENGTH_LIMIT, PIECE, ReadRefused, read_whole, write_all};
