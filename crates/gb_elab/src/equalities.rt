// Equalities of variables of two programs.

ghost use Rattle.std.specs.Prelude.{◌≡◌, [], ◌∷◌, if◌then◌else◌};
ghost use Rattle.std.specs.Option.{option_copied};
ghost use Rattle.gb_core.specs.declared.refusal.Why.TheVariants.{TypeMismatch};
ghost use Rattle.gb_core.specs.SameTypes.{ty_eq};
ghost use Rattle.gb_terms.specs.Make.{applied};
ghost use Rattle.gb_goal.specs.Answers.{Answers};
ghost use Rattle.gb_names.specs.Wanted.{type_of_term};
ghost use Rattle.gb_goal.specs.Answers.Answer.{given, refused};
ghost use Rattle.gb_names.specs.Environment.{environment};
ghost use Rattle.gb_elab.specs.Equalities.{equalities, equality, equation, equation_of, with_equalities};

use crate::globs::same_globals;
use gb_core::name::Name;
use gb_core::place::Place;
use gb_core::refusal::Refused;
use gb_core::same::same_types;
use gb_core::ty::Ty;
use gb_names::allowed::truth;
use gb_names::bindings::Binding;
use gb_names::names::{path, sided};
use gb_names::refusals::{argument, mismatch, not_built};
use gb_names::setting::Setting;
use gb_script::head::Head;
use gb_script::tree::Node;
use gb_terms::make;
use gb_terms::op::{Op, Side};
use gb_terms::term::{Form, Term};
use std::alloc::Global;

/// The equality of a variable of two programs.
#[tactic(auto, unfolding(crate::specs::Equalities::equality))]
fn equality(
    alloc: Global,
    at: &Setting<'_>,
    bound: &[Binding],
    name: &Name,
    place: Place,
) -> Result<Form, Refused>
    ensures { Answers (equality (environment at.now) bound.now name.now place) result }
{
    let left = sided(alloc, at, bound, name, Side::Left, place)?;
    let right = sided(alloc, at, bound, name, Side::Right, place)?;
    equated(alloc, left, right, place)
}

/// The equality of two terms, which are to be of one type.
fn equated(alloc: Global, left: Term, right: Term, place: Place) -> Result<Form, Refused>
    ensures { Answers (if ty_eq (type_of_term right) (type_of_term left) then given (applied Op.Equal (left ∷ right ∷ []) Ty.Bool) else refused TypeMismatch place) result }
{
    if same_types(right.ty.get(), left.ty.get()) {
        Ok(make::equality(alloc, left, right)?)
    } else {
        Err(mismatch(place))
    }
}

/// What `={..}` says of one thing.
fn equation(alloc: Global, at: &Setting<'_>, bound: &[Binding], x: &Node) -> Result<Form, Refused>
    ensures { Answers (equation_of (environment at.now) bound.now x.now) result }
{
    equation_at(
        alloc,
        at,
        bound,
        x.head,
        &x.text,
        x.parts.as_slice(),
        x.place,
    )
}

/// .. from its head, its text, its parts and its place.
fn equation_at(
    alloc: Global,
    at: &Setting<'_>,
    bound: &[Binding],
    head: Head,
    text: &Name,
    parts: &[Node],
    place: Place,
) -> Result<Form, Refused>
    ensures { Answers (equation (environment at.now) bound.now head text.now parts.now place) result }
{
    match head {
        Head::Name => equality(alloc, at, bound, text, place),
        Head::Path => equality(alloc, at, bound, &path(alloc, parts)?, place),
        Head::EquatedGlob => match parts {
            [module] => same_globals(alloc, at, bound, module),
            _ => Err(not_built(place)),
        },
        _ => Err(not_built(place)),
    }
}

/// Equations of two programs, joined to the left.
#[tactic(auto, unfolding(crate::specs::Equalities::equalities, crate::specs::Equalities::joined))]
pub fn equalities(
    alloc: Global,
    at: &Setting<'_>,
    bound: &[Binding],
    list: &[Node],
    want: Option<&Ty>,
    place: Place,
) -> Result<Form, Refused>
    ensures { Answers (equalities (environment at.now) bound.now list.now (option_copied want.entry) place) result }
{
    if at.on_side(Side::Left).is_none() {
        return Err(argument(place));
    }
    truth(want, place)?;
    match list {
        [] => Ok(make::boolean(alloc, true)?),
        [x, rest @ ..] => {
            let first = equation(alloc, at, bound, x)?;
            with_equalities(alloc, at, bound, first, rest)
        }
    }
}

/// A form and, to its right, further equations.
fn with_equalities(
    alloc: Global,
    at: &Setting<'_>,
    bound: &[Binding],
    first: Form,
    list: &[Node],
) -> Result<Form, Refused>
    ensures { Answers (with_equalities (environment at.now) bound.now first list.now) result }
{
    let mut form = first;
    for x in list {
        let next = equation(alloc, at, bound, x)?;
        form = make::conjunction(alloc, form, next)?;
    }
    Ok(form)
}
