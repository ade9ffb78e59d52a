//! The system's files and streams, a few lines each. A source and a sink tell what their stream tells,
//! and those of the system tell nothing of content: that a call reads or writes what the system has is
//! trusted. Each error of the system is counted as a fault.
ghost use Rattle.std.specs.Prelude.{◌≡◌, ◌≤◌, length, IfOk, IfSome};

use crate::{Failed, Files, Sink, Source};
use std::fs;
use std::io::{self, ErrorKind, Read, Seek, SeekFrom, Write};

/// The files of the system.
#[derive(Drop)]
pub struct OsFiles<R> {
    system: R,
    faults: u64,
}

impl<R: std::rt::Files> OsFiles<R> {
    /// No fault yet.
    pub fn new(system: R) -> OsFiles<R>
        ensures { ⟦<OsFiles<R> as Files>⟧.faults result ≡ 0 }
    {
        OsFiles { system, faults: 0 }
    }
}

fn read_file<R: std::rt::Files>(
    system: &R,
    name: &str,
    at: u64,
    into: &mut [u8],
) -> io::Result<Option<usize>>
    ensures { IfOk result (λ answer. IfSome answer (λ n. n ≤ length into.new)) }
{
    let mut file = match fs::open(system, name) {
        Ok(file) => file,
        Err(error) if error.kind() == ErrorKind::NotFound => return Ok(None),
        Err(error) => return Err(error),
    };
    file.seek(SeekFrom::Start(at))?;
    Ok(Some(file.read(into)?))
}

impl<R: std::rt::Files> Files for OsFiles<R> {
    ghost use Rattle.std.specs.Prelude.{None};

    ghost faults = { λ it. it.faults };

    ghost held = { λ _. None };

    fn read_at(&mut self, name: &str, at: u64, into: &mut [u8]) -> Result<Option<usize>, Failed> {
        let answer = read_file(&self.system, name, at, into);
        if answer.is_err() {
            self.faults = self.faults.saturating_add(1);
        }
        answer.map_err(|_| Failed)
    }
}

/// The bytes of a reader, such as standard input.
#[derive(Drop)]
pub struct StdSource<R> {
    stream: R,
    faults: u64,
}

impl<R: Read> StdSource<R> {
    /// No fault yet.
    pub fn new(stream: R) -> StdSource<R>
        ensures left { ⟦<StdSource<R> as Source>⟧.left result ≡ R.remaining stream }
        ensures faults { ⟦<StdSource<R> as Source>⟧.faults result ≡ 0 }
    {
        StdSource { stream, faults: 0 }
    }
}

impl<R: Read> Source for StdSource<R> {
    ghost faults = { λ it. it.faults };

    ghost left = { λ it. R.remaining it.stream };

    fn read(&mut self, into: &mut [u8]) -> Result<usize, Failed> {
        let answer = self.stream.read(into);
        if answer.is_err() {
            self.faults = self.faults.saturating_add(1);
        }
        answer.map_err(|_| Failed)
    }
}

/// The place that a writer writes to, such as standard output. A writer that takes nothing of a piece has failed.
#[derive(Drop)]
pub struct StdSink<W> {
    stream: W,
    faults: u64,
}

impl<W: Write> StdSink<W> {
    /// No fault yet.
    pub fn new(stream: W) -> StdSink<W>
        ensures written { ⟦<StdSink<W> as Sink>⟧.written result ≡ W.contents stream }
        ensures faults { ⟦<StdSink<W> as Sink>⟧.faults result ≡ 0 }
    {
        StdSink { stream, faults: 0 }
    }
}

impl<W: Write> Sink for StdSink<W> {
    ghost faults = { λ it. it.faults };

    ghost written = { λ it. W.contents it.stream };

    fn write(&mut self, piece: &[u8]) -> Result<usize, Failed> {
        match self.stream.write(piece) {
            Ok(count) if count > 0 || piece.is_empty() => Ok(count),
            _ => {
                self.faults = self.faults.saturating_add(1);
                Err(Failed)
            }
        }
    }
}
