ghost use Rattle.std.specs.Prelude.{◌≡◌, ◌<◌, ◌≤◌, Err, vec_len, IfOk, IfSome, OnOk, OnErr};
ghost use Rattle.std.specs.Io.KnownBytes.{Appends};
ghost use Rattle.gb_outside.specs.Counts.{HasRisen};
ghost use Rattle.gb_outside.specs.HeldBytes.{bytes_of};
ghost use Rattle.gb_outside.specs.Appended.{AppendsFront};
ghost use Rattle.gb_outside.specs.Whole.{whole_of, Gives};
ghost use Rattle.gb_outside.specs.declared.whole.ReadRefused.TheVariants.{NoMemory};

use crate::{Failed, Files, Sink};
use std::alloc::{AllocError, Global};

/// A file that has this many bytes or more is too long to be read whole.
pub const LENGTH_LIMIT: usize = 1_048_577;

/// The most bytes that are read at once.
pub const PIECE: usize = 4096;

/// Why a file wasn't read whole.
#[derive(Clone, Copy)]
pub enum ReadRefused {
    /// Memory for the bytes ran out.
    NoMemory,
    /// No file has the name.
    Missing,
    /// A read failed, or the file couldn't be opened.
    ReadFault,
    /// The file has `LENGTH_LIMIT` bytes or more.
    Length,
}

impl From<AllocError> for ReadRefused {
    ghost from_gives = { λ _ refused. refused ≡ NoMemory };

    fn from(_: AllocError) -> ReadRefused {
        ReadRefused::NoMemory
    }
}

/// Reads the whole file of this name, in pieces of at most `PIECE` bytes, none of them past byte
/// `LENGTH_LIMIT`. Where that many bytes were taken, the file is refused for its length.
pub fn read_whole<F: Files>(
    alloc: Global,
    files: &mut F,
    name: &str,
) -> Result<Vec<u8>, ReadRefused>
    ensures never_falls { F.faults files.old ≤ F.faults files.new }
    ensures unchanged { F.held files.new ≡ F.held files.old }
    ensures fault { result ≡ Err ReadRefused.ReadFault
        → HasRisen (F.faults files.old) (F.faults files.new) }
    ensures within { IfOk result (λ bytes. vec_len bytes < LENGTH_LIMIT) }

    // Where the files tell what they hold, the answer is the one that this gives, but for a fault
    // and want of memory.
    ensures whole { IfSome (F.held files.old)
        (λ held. Gives (whole_of (bytes_of name.now held)) result) }
{
    let mut bytes = Vec::new(alloc);
    let mut piece = [0; PIECE];
    while bytes.len() < LENGTH_LIMIT {
        let at = bytes.len();
        let room = PIECE.min(LENGTH_LIMIT - at);
        match files.read_at(name, at as u64, &mut piece[..room]) {
            Ok(Some(0)) => return Ok(bytes),
            Ok(Some(taken)) => bytes.extend_from_slice(&piece[..taken])?,
            Ok(None) => return Err(ReadRefused::Missing),
            Err(Failed) => return Err(ReadRefused::ReadFault),
        }
    }
    Err(ReadRefused::Length)
}

/// Writes all the bytes, in as many pieces as the sink takes. It fails where a write fails, and where
/// the sink takes nothing; then a front of the bytes was written. It takes no memory.
pub fn write_all<K: Sink>(out: &mut K, bytes: &[u8]) -> Result<(), Failed>
    ensures never_falls { K.faults out.old ≤ K.faults out.new }
    ensures fault { OnErr result (HasRisen (K.faults out.old) (K.faults out.new)) }
    ensures all { OnOk result (Appends (K.written out.old) (K.written out.new) bytes.now) }
    ensures front { OnErr result (AppendsFront (K.written out.old) (K.written out.new) bytes.now) }
{
    let mut at = 0;
    while at < bytes.len() {
        let taken = out.write(&bytes[at..])?;
        if taken == 0 {
            return Err(Failed);
        }
        at += taken;
    }
    Ok(())
}
