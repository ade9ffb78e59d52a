// Forms that bind an outcome of a distribution.

ghost use Rattle.std.specs.Prelude.{◌≡◌, [], if◌then◌else◌, IfOk};
ghost use Rattle.std.specs.Option.{option_copied};
ghost use Rattle.gb_core.specs.declared.refusal.Why.TheVariants.{TypeTooLarge};
ghost use Rattle.gb_core.specs.declared.ty.Ty.TheVariants.{Distr};
ghost use Rattle.gb_goal.specs.Answers.{Answers, ◌>>=◌ as ◌and_then◌};
ghost use Rattle.gb_goal.specs.Answers.Answer.{given, refused};
ghost use Rattle.gb_terms.specs.declared.term.Head.TheVariants.{Builtin};
ghost use Rattle.gb_terms.specs.Make.{node};
ghost use Rattle.gb_names.specs.Allowed.{stands};
ghost use Rattle.gb_names.specs.Environment.{environment};
ghost use Rattle.gb_operators.specs.Kinds.{is_small};
ghost use Rattle.gb_operators.specs.Drawn.{drawn_head, drawn_result, outcome_wanted, source_wanted, uniform, value_wanted};

use crate::kinds::{is_of_values, is_small, outcome};
use crate::made::leaf;
use crate::operators::{fraction, outcome_wanted, wanted_type};
use gb_core::Shared;
use gb_core::place::Place;
use gb_core::refusal::{Refused, Why};
use gb_core::ty::Ty;
use gb_names::allowed::{distribution_here, stands};
use gb_names::refusals::not_built;
use gb_names::setting::Setting;
use gb_names::types::type_of;
use gb_script::tree::Node;
use gb_terms::op::Op;
use gb_terms::term::{Head, Term};
use std::alloc::{AllocError, Global};

/// A form that binds an outcome of a distribution.
#[derive(Clone, Copy)]
pub enum Drawn {
    /// The measure of an event.
    Measure,
    /// The image of the distribution.
    Image,
    /// The part of the distribution where a test holds.
    Restriction,
}

/// The type that is wanted of the distribution, where the form may stand.
pub fn source_wanted(
    alloc: Global,
    drawn: Drawn,
    at: &Setting<'_>,
    want: Option<&Ty>,
    place: Place,
) -> Result<Option<Shared<Ty>>, Refused>
    ensures { Answers (source_wanted drawn (environment at.now) (option_copied want.entry) place) result }
{
    match drawn {
        Drawn::Measure => {
            fraction(at, want, place)?;
            Ok(None)
        }
        Drawn::Image => {
            distribution_here(at, place)?;
            outcome_wanted(want, place)?;
            Ok(None)
        }
        Drawn::Restriction => {
            distribution_here(at, place)?;
            outcome_wanted(want, place)?;
            wanted_type(alloc, want)
        }
    }
}

/// The type that is wanted of what the outcome is led to.
pub fn value_wanted(
    alloc: Global,
    drawn: Drawn,
    want: Option<&Ty>,
) -> Result<Option<Shared<Ty>>, AllocError>
    ensures { IfOk result (λ made. made ≡ value_wanted drawn (option_copied want.entry)) }
{
    match drawn {
        Drawn::Measure | Drawn::Restriction => Ok(Some(Shared::new(alloc, Ty::Bool)?)),
        Drawn::Image => outcome_of(want),
    }
}

/// The type of the outcomes of a wanted distribution.
fn outcome_of(want: Option<&Ty>) -> Result<Option<Shared<Ty>>, AllocError>
    ensures { IfOk result (λ made. made ≡ outcome_wanted (option_copied want.entry)) }
{
    match want {
        Some(ty) => match outcome(ty) {
            Some(inner) => Ok(Some(inner.share()?)),
            None => Ok(None),
        },
        None => Ok(None),
    }
}

/// The type of the form, by those of the distribution and of what the outcome is led to.
pub fn drawn_result(
    alloc: Global,
    drawn: Drawn,
    source: &Shared<Ty>,
    value: &Shared<Ty>,
) -> Result<Option<Shared<Ty>>, AllocError>
    ensures { IfOk result (λ made. made ≡ drawn_result drawn source.now value.now) }
{
    match drawn {
        Drawn::Measure => Ok(Some(Shared::new(alloc, Ty::Real)?)),
        Drawn::Restriction => Ok(Some(source.share()?)),
        Drawn::Image => {
            if is_of_values(value.get()) {
                let image = Ty::Distr(value.share()?);
                Ok(Some(Shared::new(alloc, image)?))
            } else {
                Ok(None)
            }
        }
    }
}

/// What stands at the top of the form.
pub fn drawn_head(drawn: Drawn) -> Head
    ensures { result ≡ drawn_head drawn }
{
    match drawn {
        Drawn::Measure => Head::Mu,
        Drawn::Image => Head::Map,
        Drawn::Restriction => Head::Restrict,
    }
}

/// The uniform distribution over the values of a type.
///
/// # Errors
///
/// `Argument` where a program samples nothing; `TypeMismatch` where another type is wanted; those of `type_of`; `TypeTooLarge` of
/// more than 65,536 values, or of a type whose number of values is open.
pub fn uniform(
    alloc: Global,
    at: &Setting<'_>,
    parts: &[Node],
    want: Option<&Ty>,
    place: Place,
) -> Result<Term, Refused>
    ensures { Answers (uniform parts.now place (environment at.now) (option_copied want.entry)) result }
{
    match parts {
        [written] => {
            distribution_here(at, place)?;
            outcome_wanted(want, place)?;
            let outcomes = type_of(alloc, at.scope, written)?;
            uniform_over(alloc, at, outcomes, want, place)
        }
        _ => Err(not_built(place)),
    }
}

/// .. of this type.
fn uniform_over(
    alloc: Global,
    at: &Setting<'_>,
    outcomes: Shared<Ty>,
    want: Option<&Ty>,
    place: Place,
) -> Result<Term, Refused>
    ensures { Answers (stands (environment at.now) (option_copied want.entry) place (Distr outcomes) and_then λ _. if is_small outcomes then given (node (Builtin Op.Uniform) [] (Distr outcomes)) else refused TypeTooLarge place) result }
{
    let small = is_small(outcomes.get());
    let ty = Shared::new(alloc, Ty::Distr(outcomes))?;
    stands(at, want, place, ty.get())?;
    if small {
        leaf(alloc, Head::Builtin(Op::Uniform), ty)
    } else {
        Err(too_large(place))
    }
}

/// A distribution over too many values.
pub fn too_large(place: Place) -> Refused
    ensures { result ≡ Refused.Script Why.TypeTooLarge place }
{
    Refused::Script {
        why: Why::TypeTooLarge,
        place,
    }
}
