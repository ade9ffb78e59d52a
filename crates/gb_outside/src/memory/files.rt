ghost use Rattle.std.specs.Prelude.{◌≡◌, ◌≤◌, length, None, Ok, Some, IfOk, IfSome, OnErr, is_err, option_copied};
ghost use Rattle.gb_outside.specs.Counts.{HasRisen};
ghost use Rattle.gb_outside.specs.HeldBytes.{bytes_of, ReadsHeld};

use super::{Calls, Numbers, copy_front};
use crate::{Failed, Files};
use sqlite_items::Items;
use std::marker::Model;

/// A name with the bytes of its file.
#[derive(Drop)]
pub struct HeldFile {
    name: String,
    bytes: Vec<u8>,
}

impl Model for HeldFile {
    ghost use Rattle.std.specs.Prelude.{ℕ, List, string_bytes};

    ghost Value = { List ℕ × List ℕ };

    ghost view = { λ file. (string_bytes file.name, file.bytes.items) };
}

impl HeldFile {
    ghost use Rattle.std.specs.Prelude.{string_bytes, bytes_eq};

    /// The file of this name.
    pub fn new(name: String, bytes: Vec<u8>) -> HeldFile
        ensures { result ≡ (string_bytes name, bytes.items) }
    {
        HeldFile { name, bytes }
    }

    /// Whether the file has this name.
    pub fn has_name(&self, name: &str) -> bool
        ensures { result ≡ bytes_eq self.now.0 name.now }
    {
        self.name.as_str() == name
    }

    /// The bytes of the file.
    pub fn bytes(&self) -> &[u8]
        ensures { result.now ≡ self.now.1 }
    {
        self.bytes.as_slice()
    }
}

/// Files by name. Of two files of one name the first counts.
pub type HeldFiles = Items<HeldFile>;

fn find_bytes<'a>(files: &'a [HeldFile], name: &str) -> Option<&'a [u8]>
    ensures { option_copied result ≡ bytes_of name.now files.now }
{
    let file = files.iter().find(|file| file.has_name(name))?;
    Some(file.bytes())
}

/// Files in memory, which fail at the calls that they are told to.
#[derive(Drop)]
pub struct MemFiles {
    pub files: HeldFiles,
    pub calls: Calls,
}

impl MemFiles {
    ghost use Rattle.gb_outside.specs.Calls.{no_calls};

    /// These files, and no call yet.
    pub fn new(held: HeldFiles, failing: Numbers) -> MemFiles
        ensures held { result.files ≡ held }
        ensures calls { result.calls ≡ no_calls failing }
    {
        MemFiles {
            files: held,
            calls: Calls::new(failing),
        }
    }
}

impl Files for MemFiles {
    ghost use Rattle.std.specs.Prelude.{Some};
    ghost use Rattle.gb_outside.specs.Calls.{fails_next, after_call};

    ghost faults = { λ it. it.calls.faults };

    ghost held = { λ it. Some it.files };

    fn read_at(&mut self, name: &str, at: u64, into: &mut [u8]) -> Result<Option<usize>, Failed>
        // It fails exactly at the listed calls.
        ensures listed { is_err result ≡ fails_next self.old.calls }
        ensures after { self.new.calls ≡ after_call self.old.calls (is_err result) }

        // What the trait promises.
        ensures never_falls { self.old.calls.faults ≤ self.new.calls.faults }
        ensures fault { OnErr result (HasRisen self.old.calls.faults self.new.calls.faults) }
        ensures none { result ≡ Ok None → self.new.calls.faults ≡ self.old.calls.faults }
        ensures within { IfOk result (λ answer. IfSome answer (λ n. n ≤ length into.new)) }
        ensures unchanged { self.new.files ≡ self.old.files }
        ensures bytes { ReadsHeld (bytes_of name.now self.old.files) at result into.new }
    {
        self.calls.begin()?;
        let Some(bytes) = find_bytes(self.files.as_slice(), name) else {
            return Ok(None);
        };
        let start = bytes.len().min(at as usize);
        Ok(Some(copy_front(&bytes[start..], into)))
    }
}
