// Refusals with their places.

ghost use Rattle.std.specs.Prelude.{◌≡◌};
ghost use Rattle.gb_goal.specs.Answers.{Refuses};

use gb_core::name::Name;
use gb_core::place::Place;
use gb_core::refusal::{Refused, Why};
use std::alloc::Global;

/// A form hasn't the wanted type.
pub fn mismatch(place: Place) -> Refused
    ensures { result ≡ Refused.Script Why.TypeMismatch place }
{
    Refused::Script {
        why: Why::TypeMismatch,
        place,
    }
}

/// A part of another kind than the one that may stand there.
pub fn argument(place: Place) -> Refused
    ensures { result ≡ Refused.Script Why.Argument place }
{
    Refused::Script {
        why: Why::Argument,
        place,
    }
}

/// A form of the language that isn't built yet.
pub fn not_built(place: Place) -> Refused
    ensures { result ≡ Refused.Script Why.Syntax place }
{
    Refused::Script {
        why: Why::Syntax,
        place,
    }
}

/// A name that isn't in scope.
pub fn unknown(alloc: Global, name: &Name, place: Place) -> Refused
    ensures { Refuses (Why.UnknownName name.now) place result }
{
    match name.copy(alloc) {
        Ok(name) => Refused::Script {
            why: Why::UnknownName(name),
            place,
        },
        Err(_) => Refused::NoMemory,
    }
}

/// A name that is declared twice in one scope.
pub fn double(alloc: Global, name: &Name, place: Place) -> Refused
    ensures { Refuses (Why.DoubleName name.now) place result }
{
    match name.copy(alloc) {
        Ok(name) => Refused::Script {
            why: Why::DoubleName(name),
            place,
        },
        Err(_) => Refused::NoMemory,
    }
}

/// More than a limit allows. The place is for the caller to put in.
pub fn too_many(limit: u64) -> Refused
    ensures { result ≡ Refused.Script (Why.TooMany limit) (record { file = 0; line = 0; col = 0 }) }
{
    Refused::Script {
        why: Why::TooMany(limit),
        place: Place {
            file: 0,
            line: 0,
            col: 0,
        },
    }
}
