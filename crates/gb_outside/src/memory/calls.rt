ghost use Rattle.std.specs.Prelude.{◌≡◌, ◌≤◌, OnErr, is_err};
ghost use Rattle.gb_outside.specs.Counts.{HasRisen, next_count};

use crate::Failed;
use sqlite_items::Items;

/// Numbers of calls, from 1.
pub type Numbers = Items<u64>;

/// The calls of an object in memory. Both counts stay at their last value.
#[derive(Drop)]
pub struct Calls {
    /// How many calls there were.
    pub made: u64,
    /// The numbers of the calls that fail.
    pub failing: Numbers,
    /// How many calls failed.
    pub faults: u64,
}

impl Calls {
    ghost use Rattle.gb_outside.specs.Calls.{no_calls, fails_next, after_call};

    /// No call yet.
    pub fn new(failing: Numbers) -> Calls
        ensures { result ≡ no_calls failing }
    {
        Calls {
            made: 0,
            failing,
            faults: 0,
        }
    }

    /// Counts one call more, which fails where its number is listed.
    pub fn begin(&mut self) -> Result<(), Failed>
        ensures listed { is_err result ≡ fails_next self.old }
        ensures after { self.new ≡ after_call self.old (is_err result) }
        ensures never_falls { self.old.faults ≤ self.new.faults }
        ensures fault { OnErr result (HasRisen self.old.faults self.new.faults) }
    {
        self.made = self.made.saturating_add(1);
        if self.failing.as_slice().contains(&self.made) {
            return Err(self.fail());
        }
        Ok(())
    }

    /// Counts a fault.
    pub fn fail(&mut self) -> Failed
        ensures after { self.new ≡ record self.old { faults = next_count self.old.faults } }
        ensures never_falls { self.old.faults ≤ self.new.faults }
        ensures fault { HasRisen self.old.faults self.new.faults }
    {
        self.faults = self.faults.saturating_add(1);
        Failed
    }
}
