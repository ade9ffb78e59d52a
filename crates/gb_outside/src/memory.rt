//! Files, a source and a sink in memory. They tell all that they hold, and fail at the calls that they are told to.
ghost use Rattle.std.specs.Prelude.{◌≡◌, min, length, take};

mod calls;
mod files;
mod sink;
mod source;

pub use calls::{Calls, Numbers};
pub use files::{HeldFile, HeldFiles, MemFiles};
pub use sink::MemSink;
pub use source::MemSource;

/// Copies the front of `from` into the front of `into`, as much as fits, and says how many bytes that is.
fn copy_front(from: &[u8], into: &mut [u8]) -> usize
    ensures count { result ≡ min (length from.now) (length into.new) }
    ensures front { take result into.new ≡ take result from.now }
{
    let count = from.len().min(into.len());
    into[..count].copy_from_slice(&from[..count]);
    count
}
