//! The outside. Each trait counts its faults in a number that never falls, so that a call which fails
//! can be told from one that gives up: `Failed` comes only where the count rose. A count that stands at
//! the last value of a counter of 64 bits counts as risen.
ghost use Rattle.std.specs.Prelude.{◌≡◌, ℕ, ◌<◌, ◌≤◌, List, length, Option, Some, None, Ok, IfOk, IfSome, OnErr};
ghost use Rattle.std.specs.Io.KnownBytes.{ReadConsumes, WriteAppends};
ghost use Rattle.gb_outside.specs.Counts.{HasRisen};
ghost use Rattle.gb_outside.specs.HeldBytes.{bytes_of, ReadsHeld};

/// A call of the outside that failed. Nothing was read or written by it.
#[derive(Clone, Copy)]
pub struct Failed;

/// Files that are read by name.
pub trait Files {
    /// How many faults there were so far.
    ghost faults: { Self → ℕ };

    /// The files that are held, names with their bytes, where that is told.
    ghost held: { Self → Option (List (List ℕ × List ℕ)) };

    /// Reads the bytes of the file from byte `at` on into the front of `into`, and says how many: none,
    /// where `into` isn't empty, only at the end of the file. `None` says that no file has this name. What
    /// stands in `into` behind the bytes isn't said. Nothing that is held changes.
    fn read_at(&mut self, name: &str, at: u64, into: &mut [u8]) -> Result<Option<usize>, Failed>
        ensures never_falls { faults self.old ≤ faults self.new }
        ensures fault { OnErr result (HasRisen (faults self.old) (faults self.new)) }
        ensures none { result ≡ Ok None → faults self.new ≡ faults self.old }
        ensures within { IfOk result (λ answer. IfSome answer (λ n. n ≤ length into.new)) }
        ensures unchanged { held self.new ≡ held self.old }
        ensures bytes { IfSome (held self.old)
            (λ files. ReadsHeld (bytes_of name.now files) at result into.new) };
}

/// Bytes that are read from front to end.
pub trait Source {
    /// How many faults there were so far.
    ghost faults: { Self → ℕ };

    /// The bytes that are left, where that is told.
    ghost left: { Self → Option (List ℕ) };

    /// Takes a front of the bytes that are left into the front of `into`, and says how many: none, where
    /// `into` isn't empty, only at the end. What stands in `into` behind the bytes isn't said. After a
    /// failure nothing was taken.
    fn read(&mut self, into: &mut [u8]) -> Result<usize, Failed>
        ensures never_falls { faults self.old ≤ faults self.new }
        ensures fault { OnErr result (HasRisen (faults self.old) (faults self.new)) }
        ensures within { IfOk result (λ n. n ≤ length into.new) }
        ensures bytes { ReadConsumes (left self.old) (left self.new) result into.new };
}

/// A place to write bytes to, one piece behind the other.
pub trait Sink {
    /// How many faults there were so far.
    ghost faults: { Self → ℕ };

    /// The bytes that were written so far, where that is told.
    ghost written: { Self → Option (List ℕ) };

    /// Writes a front of `piece` behind what was written, and says how many bytes: none, where `piece`
    /// isn't empty, only where there was a fault. After a failure nothing was written.
    fn write(&mut self, piece: &[u8]) -> Result<usize, Failed>
        ensures never_falls { faults self.old ≤ faults self.new }
        ensures fault { OnErr result (HasRisen (faults self.old) (faults self.new)) }
        ensures stuck { result ≡ Ok 0 → 0 < length piece.now
            → HasRisen (faults self.old) (faults self.new) }
        ensures within { IfOk result (λ n. n ≤ length piece.now) }
        ensures bytes { WriteAppends (written self.old) (written self.new) result piece.now };
}
