ghost use Rattle.std.specs.Prelude.{◌≡◌, ◌+◌, ◌<◌, ◌≤◌, ◌==◌, ◌&&◌, ◌||◌, [], length, min, nat_lt, Some, Ok, IfOk, OnErr, MatchResult, is_err};
ghost use Rattle.std.specs.Io.KnownBytes.{WriteAppends};
ghost use Rattle.gb_outside.specs.Counts.{HasRisen};

use super::{Calls, Numbers};
use crate::{Failed, Sink};
use std::alloc::{AllocError, Global};
use std::marker::Model;

/// A sink in memory, whose room is made once: no write takes memory. It fails where a piece finds no
/// room, and at the calls that it is told to.
#[derive(Drop)]
pub struct MemSink {
    bytes: Vec<u8>,
    room: usize,
    calls: Calls,
}

impl Model for MemSink {
    ghost use Rattle.std.specs.Prelude.{◌+◌, ◌≤◌, vec_len, vec_capacity};
    ghost use Rattle.gb_outside.specs.InMemory.{WrittenBytes};

    ghost Value = { WrittenBytes };

    ghost view = { λ it. record { written = it.bytes.items; room = it.room; calls = it.calls } };

    ghost invariant = { λ it. vec_len it.bytes + it.room ≤ vec_capacity it.bytes };
}

impl MemSink {
    ghost use Rattle.gb_outside.specs.Calls.{no_calls};

    /// A sink that takes `room` bytes in all, and no call yet.
    pub fn new(alloc: Global, room: usize, failing: Numbers) -> Result<MemSink, AllocError>
        ensures { IfOk result
            (λ sink. sink ≡ record { written = []; room = room; calls = no_calls failing }) }
    {
        Ok(MemSink {
            bytes: Vec::with_capacity(alloc, room)?,
            room,
            calls: Calls::new(failing),
        })
    }

    /// What was written.
    pub fn written(&self) -> &[u8]
        ensures { result.now ≡ self.now.written }
    {
        self.bytes.as_slice()
    }
}

impl Sink for MemSink {
    ghost use Rattle.std.specs.Prelude.{Some};
    ghost use Rattle.gb_outside.specs.Calls.{fails_next, after_call};

    ghost faults = { λ it. it.calls.faults };

    ghost written = { λ it. Some it.written };

    fn write(&mut self, piece: &[u8]) -> Result<usize, Failed>
        // It fails exactly at the listed calls, and where a piece finds no room.
        ensures fails { is_err result
            ≡ (fails_next self.old.calls || (self.old.room == 0 && nat_lt 0 (length piece.now))) }
        ensures after { self.new.calls ≡ after_call self.old.calls (is_err result) }
        ensures count { IfOk result (λ n. n ≡ min (length piece.now) self.old.room) }
        ensures room { MatchResult result
            (λ n. self.new.room + n ≡ self.old.room) (λ _. self.new.room ≡ self.old.room) }

        // What the trait promises.
        ensures never_falls { self.old.calls.faults ≤ self.new.calls.faults }
        ensures fault { OnErr result (HasRisen self.old.calls.faults self.new.calls.faults) }
        ensures stuck { result ≡ Ok 0 → 0 < length piece.now
            → HasRisen self.old.calls.faults self.new.calls.faults }
        ensures within { IfOk result (λ n. n ≤ length piece.now) }
        ensures bytes { WriteAppends (Some self.old.written) (Some self.new.written) result piece.now }
    {
        self.calls.begin()?;
        let count = piece.len().min(self.room);
        if count == 0 && !piece.is_empty() {
            return Err(self.calls.fail());
        }
        self.bytes.extend_from_slice(&piece[..count]).unwrap();
        self.room -= count;
        Ok(count)
    }
}
