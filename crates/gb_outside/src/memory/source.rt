ghost use Rattle.std.specs.Prelude.{◌≡◌, ◌≤◌, length, Some, IfOk, OnErr, is_err};
ghost use Rattle.std.specs.Io.KnownBytes.{ReadConsumes};
ghost use Rattle.gb_outside.specs.Counts.{HasRisen};

use super::{Calls, Numbers, copy_front};
use crate::{Failed, Source};
use std::marker::Model;

/// A source in memory, which fails at the calls that it is told to.
#[derive(Drop)]
pub struct MemSource {
    bytes: Vec<u8>,
    taken: usize,
    calls: Calls,
}

impl Model for MemSource {
    ghost use Rattle.std.specs.Prelude.{◌≤◌, drop, vec_len};
    ghost use Rattle.gb_outside.specs.InMemory.{LeftBytes};

    ghost Value = { LeftBytes };

    ghost view = { λ it. record { left = drop it.taken it.bytes.items; calls = it.calls } };

    ghost invariant = { λ it. it.taken ≤ vec_len it.bytes };
}

impl MemSource {
    ghost use Rattle.gb_outside.specs.Calls.{no_calls};

    /// A source of these bytes, and no call yet.
    pub fn new(left: Vec<u8>, failing: Numbers) -> MemSource
        ensures { result ≡ record { left = left.items; calls = no_calls failing } }
    {
        MemSource {
            bytes: left,
            taken: 0,
            calls: Calls::new(failing),
        }
    }
}

impl Source for MemSource {
    ghost use Rattle.std.specs.Prelude.{Some};
    ghost use Rattle.gb_outside.specs.Calls.{fails_next, after_call};

    ghost faults = { λ it. it.calls.faults };

    ghost left = { λ it. Some it.left };

    fn read(&mut self, into: &mut [u8]) -> Result<usize, Failed>
        // It fails exactly at the listed calls.
        ensures listed { is_err result ≡ fails_next self.old.calls }
        ensures after { self.new.calls ≡ after_call self.old.calls (is_err result) }

        // What the trait promises.
        ensures never_falls { self.old.calls.faults ≤ self.new.calls.faults }
        ensures fault { OnErr result (HasRisen self.old.calls.faults self.new.calls.faults) }
        ensures within { IfOk result (λ n. n ≤ length into.new) }
        ensures bytes { ReadConsumes (Some self.old.left) (Some self.new.left) result into.new }
    {
        self.calls.begin()?;
        let count = copy_front(&self.bytes[self.taken..], into);
        self.taken += count;
        Ok(count)
    }
}
