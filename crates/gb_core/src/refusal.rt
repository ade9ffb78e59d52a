// Refusals.

ghost use Rattle.std.specs.Prelude.{◌≡◌};
ghost use Rattle.gb_core.specs.Refusal.{code_of, is_script, moved, placed, script_of};

use crate::name::Name;
use crate::place::Place;
use crate::value::{Card, Values};
use crate::var::Var;
use std::alloc::{AllocError, AllocFailed};

/// Why a call gives no answer.
pub enum Refused {
    NoMemory,
    ReadFault,
    Script { why: Why, place: Place },
}

impl Drop for Refused {
    fn drop(self) {
        match self {
            Refused::NoMemory | Refused::ReadFault => {}
            Refused::Script { why, place: _ } => drop(why),
        }
    }
}

impl Refused {
    /// Whether a script is refused, and neither memory ran out nor a read failed.
    pub fn is_script(&self) -> bool
        ensures { result ≡ is_script self.now }
    {
        matches!(self, Refused::Script { .. })
    }

    /// Why a script is refused, and where. None where memory ran out or a read failed.
    pub fn into_script(self) -> Option<(Why, Place)>
        ensures { result ≡ script_of self }
    {
        match self {
            Refused::Script { why, place } => Some((why, place)),
            Refused::NoMemory | Refused::ReadFault => None,
        }
    }

    /// This refusal at another place.
    pub fn moved(self, to: Place) -> Refused
        ensures { result ≡ moved self to }
    {
        match self {
            Refused::Script { why, place: _ } => Refused::Script { why, place: to },
            other => other,
        }
    }

    /// This refusal, or, where it has no place of its own, one at this place. Lines count from 1, so no place has line 0.
    pub fn placed(self, at: Place) -> Refused
        ensures { result ≡ placed self at }
    {
        match self {
            Refused::Script { why, place } if place.line == 0 => Refused::Script { why, place: at },
            other => other,
        }
    }
}

/// Why a script is refused, with what the refusal tells of it.
pub enum Why {
    /// A byte starts no token.
    Character,
    /// No command goes on with this token.
    Syntax,
    /// The nesting is too deep.
    Depth,
    /// The file is too long.
    Length,
    UnknownName(Name),
    DoubleName(Name),
    TypeMismatch,
    /// A distribution over too many values.
    TypeTooLarge,
    /// A module lacks this procedure of a module type.
    ModuleType(Name),
    /// A module touches this excluded variable.
    Restriction(Var),
    /// A module makes more calls than a bound allows.
    QueryBound { count: Card, bound: u128 },
    /// A procedure calls this oracle, which its signature doesn't name.
    Oracle(Name),
    /// A loop of this procedure has no proof that it ends.
    UnprovedLoop(Name),
    /// The goal hasn't the form that a rule needs.
    Shape,
    /// An argument is out of its range or of another kind.
    Argument,
    /// A side condition fails at this variable.
    SideCondition(Var),
    /// A claim is false under this assignment to its variables, in order.
    False(Values),
    /// A claim is too wide to be tried and not valid by equality.
    Undecided { width: Card, atoms: u64 },
    /// Stated multiples leave this rest: its constant part, and whether another term is left.
    NotLinear { num: i128, den: i128, other: bool },
    /// A whole-number operation with these operands is out of range.
    Overflow { left: i128, right: i128 },
    OpenGoals(u64),
    NoGoal,
    /// A clone realises no such axiom.
    Unrealised(Name),
    CloneMismatch(Name),
    Unclosed,
    /// A word of the language that this prover leaves out.
    LeftOut,
    /// A file can't be required.
    Require(Name),
    /// This limit is passed.
    TooMany(u64),
    /// A variable is sampled from a distribution that loses weight.
    NotLossless(Var),
}

impl Drop for Why {
    fn drop(self) {
        match self {
            Why::Character
            | Why::Syntax
            | Why::Depth
            | Why::Length
            | Why::TypeMismatch
            | Why::TypeTooLarge
            | Why::Shape
            | Why::Argument
            | Why::NoGoal
            | Why::Unclosed
            | Why::LeftOut => {}
            Why::QueryBound { count: _, bound: _ } => {}
            Why::Undecided { width: _, atoms: _ } => {}
            Why::NotLinear {
                num: _,
                den: _,
                other: _,
            } => {}
            Why::Overflow { left: _, right: _ } => {}
            Why::OpenGoals(_) => {}
            Why::TooMany(_) => {}
            Why::UnknownName(name) => drop(name),
            Why::DoubleName(name) => drop(name),
            Why::ModuleType(name) => drop(name),
            Why::Oracle(name) => drop(name),
            Why::UnprovedLoop(name) => drop(name),
            Why::Unrealised(name) => drop(name),
            Why::CloneMismatch(name) => drop(name),
            Why::Require(name) => drop(name),
            Why::Restriction(var) => drop(var),
            Why::SideCondition(var) => drop(var),
            Why::NotLossless(var) => drop(var),
            Why::False(values) => drop(values),
        }
    }
}

/// The code of a refusal, 1 to 29.
pub fn code(why: &Why) -> u8
    ensures { result ≡ code_of why.now }
{
    match why {
        Why::Character => 1,
        Why::Syntax => 2,
        Why::Depth => 3,
        Why::Length => 4,
        Why::UnknownName(_) => 5,
        Why::DoubleName(_) => 6,
        Why::TypeMismatch => 7,
        Why::TypeTooLarge => 8,
        Why::ModuleType(_) => 9,
        Why::Restriction(_) => 10,
        Why::QueryBound { .. } => 11,
        Why::Oracle(_) => 12,
        Why::UnprovedLoop(_) => 13,
        Why::Shape => 14,
        Why::Argument => 15,
        Why::SideCondition(_) => 16,
        Why::False(_) => 17,
        Why::Undecided { .. } => 18,
        Why::NotLinear { .. } => 19,
        Why::Overflow { .. } => 20,
        Why::OpenGoals(_) => 21,
        Why::NoGoal => 22,
        Why::Unrealised(_) => 23,
        Why::CloneMismatch(_) => 24,
        Why::Unclosed => 25,
        Why::LeftOut => 26,
        Why::Require(_) => 27,
        Why::TooMany(_) => 28,
        Why::NotLossless(_) => 29,
    }
}

impl From<AllocError> for Refused {
    ghost use Rattle.gb_core.specs.declared.refusal.Refused.TheVariants.{NoMemory};

    ghost from_gives = { λ _ e. e ≡ NoMemory };

    fn from(_refused: AllocError) -> Refused {
        Refused::NoMemory
    }
}

impl<T: Drop> From<AllocFailed<T>> for Refused {
    ghost use Rattle.gb_core.specs.declared.refusal.Refused.TheVariants.{NoMemory};

    ghost from_gives = { λ _ e. e ≡ NoMemory };

    fn from(_refused: AllocFailed<T>) -> Refused {
        Refused::NoMemory
    }
}
