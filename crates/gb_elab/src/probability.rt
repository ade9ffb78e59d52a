// Probabilities.

ghost use Rattle.std.specs.Prelude.{◌≡◌, IfOk};
ghost use Rattle.std.specs.Option.{option_copied};
ghost use Rattle.gb_goal.specs.Answers.{Answers};
ghost use Rattle.gb_names.specs.Environment.{environment};
ghost use Rattle.gb_elab.specs.Probability.{chance, chance_here};

use gb_core::Shared;
use gb_core::place::Place;
use gb_core::refusal::Refused;
use gb_core::ty::Ty;
use gb_names::allowed::stands;
use gb_names::refusals::argument;
use gb_names::setting::{Language, Setting};
use gb_terms::make;
use gb_terms::module::ProcRef;
use gb_terms::op::Side;
use gb_terms::term::{Form, Head, RealTerm, Terms};
use std::alloc::{AllocError, Global};

/// Refuses a probability where none may stand, and one where another type is wanted.
pub fn chance_here(at: &Setting<'_>, want: Option<&Ty>, place: Place) -> Result<(), Refused>
    ensures { Answers (chance_here (environment at.now) (option_copied want.entry) place) result }
{
    match at.language {
        Language::Formula => stands(at, want, place, &Ty::Real),
        _ => Err(argument(place)),
    }
}

/// The probability of an event after a procedure with these arguments, from a memory.
pub fn chance(
    alloc: Global,
    procedure: Shared<ProcRef>,
    memory: Side,
    arguments: Terms,
    event: Form,
) -> Result<RealTerm, AllocError>
    ensures { IfOk result (λ made. made ≡ chance procedure memory arguments event) }
{
    let mut args = arguments;
    args.push(event)?;
    let ty = Shared::new(alloc, Ty::Real)?;
    make::term(alloc, Head::Pr(procedure, memory), args, ty)
}
