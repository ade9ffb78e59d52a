// What evaluation answers.

ghost use Rattle.std.specs.Prelude.{◌≡◌};
ghost use Rattle.gb_core.specs.declared.value.Value.TheVariants.{Num};
ghost use Rattle.gb_eval.specs.Findings.{Finds, Gives, fraction_in, number_in, of_number, of_truth, shown, shown_table, table_in, truth_in, truth_of_number, value_in};

use gb_core::refusal::{Refused, Why};
use gb_core::value::Value;
use gb_dist::frac::Frac;
use gb_dist::table::Table;
use gb_dist::whole::Overflow;
use std::alloc::{AllocError, AllocFailed};

/// A value of a finite type, a whole number, a fraction in lowest terms, or a distribution.
pub enum Answer {
    Value(Value),
    Whole(i128),
    Fraction(Frac),
    Table(Table),
}

impl Drop for Answer {
    fn drop(self) {
        match self {
            Answer::Value(a) => drop(a),
            Answer::Whole(_) => {}
            Answer::Fraction(_) => {}
            Answer::Table(a) => drop(a),
        }
    }
}

impl Answer {
    fn into_value(self) -> Result<Value, Stop>
        ensures { Finds (value_in (shown self)) result }
    {
        match self {
            Answer::Value(v) => Ok(v),
            _ => Err(Stop::Unknown),
        }
    }

    fn into_table(self) -> Result<Table, Stop>
        ensures { Gives shown_table (table_in (shown self)) result }
    {
        match self {
            Answer::Table(table) => Ok(table),
            _ => Err(Stop::Unknown),
        }
    }
}

/// Why evaluation stops: for want of memory, at a part that is opaque to it, or at an operation on whole numbers whose result
/// isn't below 2^127 in size.
#[derive(Clone, Copy)]
pub enum Stop {
    NoMemory,
    Unknown,
    Overflow(Overflow),
}

impl From<AllocError> for Stop {
    ghost use Rattle.gb_eval.specs.declared.answer.Stop.TheVariants.{NoMemory};

    ghost from_gives = { λ _ e. e ≡ NoMemory };

    fn from(_refused: AllocError) -> Stop {
        Stop::NoMemory
    }
}

impl<T: Drop> From<AllocFailed<T>> for Stop {
    ghost use Rattle.gb_eval.specs.declared.answer.Stop.TheVariants.{NoMemory};

    ghost from_gives = { λ _ e. e ≡ NoMemory };

    fn from(_refused: AllocFailed<T>) -> Stop {
        Stop::NoMemory
    }
}

impl From<Overflow> for Stop {
    ghost use Rattle.gb_eval.specs.declared.answer.Stop.TheVariants.{Overflow};

    ghost from_gives = { λ o e. e ≡ Overflow o };

    fn from(overflow: Overflow) -> Stop {
        Stop::Overflow(overflow)
    }
}

impl From<Refused> for Stop {
    ghost use Rattle.gb_eval.specs.Findings.{stop_of};

    ghost from_gives = { λ r e. e ≡ stop_of r };

    fn from(refused: Refused) -> Stop {
        match &refused {
            Refused::NoMemory => Stop::NoMemory,
            Refused::Script {
                why: Why::Overflow { left, right },
                ..
            } => Stop::Overflow(Overflow {
                left: *left,
                right: *right,
            }),
            _ => Stop::Unknown,
        }
    }
}

/// A truth value: 1 for true, 0 for false.
pub fn of_truth(truth: bool) -> Answer
    ensures { shown result ≡ of_truth truth }
{
    Answer::Value(Value::Num(u64::from(truth)))
}

/// The number that an answer is.
pub fn number_in(a: &Answer) -> Result<u64, Stop>
    ensures { Finds (number_in (shown a.now)) result }
{
    match a {
        Answer::Value(Value::Num(n)) => Ok(*n),
        _ => Err(Stop::Unknown),
    }
}

/// The truth that an answer is.
pub fn truth_in(a: &Answer) -> Result<bool, Stop>
    ensures { Finds (truth_in (shown a.now)) result }
{
    match number_in(a)? {
        0 => Ok(false),
        1 => Ok(true),
        _ => Err(Stop::Unknown),
    }
}

/// The value that an answer is.
pub fn value_in(a: Answer) -> Result<Value, Stop>
    ensures { Finds (value_in (shown a)) result }
{
    a.into_value()
}

/// The fraction that an answer is.
pub fn fraction_in(a: &Answer) -> Result<Frac, Stop>
    ensures { Finds (fraction_in (shown a.now)) result }
{
    match a {
        Answer::Fraction(f) => Ok(*f),
        _ => Err(Stop::Unknown),
    }
}

/// The distribution that an answer is.
pub fn table_in(a: Answer) -> Result<Table, Stop>
    ensures { Gives shown_table (table_in (shown a)) result }
{
    a.into_table()
}
