// What a form may be where it stands.

ghost use Rattle.std.specs.Prelude.{◌≡◌, []};
ghost use Rattle.std.specs.Option.{option_copied};
ghost use Rattle.gb_core.specs.declared.ty.Ty.TheVariants.{Distr};
ghost use Rattle.gb_terms.specs.declared.term.Head.TheVariants.{Builtin};
ghost use Rattle.gb_terms.specs.Make.{node};
ghost use Rattle.gb_goal.specs.Answers.{Answers};
ghost use Rattle.gb_names.specs.Wanted.{truth};
ghost use Rattle.gb_goal.specs.Answers.Answer.{given};
ghost use Rattle.gb_names.specs.Environment.{environment};
ghost use Rattle.gb_names.specs.Allowed.{coin, distribution_here, formula, is_distribution, is_program, judgment, may_be_drawn, may_have, memory_here, stands};

use crate::refusals::{argument, mismatch};
use crate::setting::{Language, Setting};
use crate::types::{fits, wanted};
use gb_core::Shared;
use gb_core::place::Place;
use gb_core::refusal::Refused;
use gb_core::ty::Ty;
use gb_terms::make;
use gb_terms::op::Op;
use gb_terms::term::{Head, Term};
use std::alloc::Global;

/// Refuses a truth where another type is wanted.
pub fn truth(want: Option<&Ty>, place: Place) -> Result<(), Refused>
    ensures { Answers (truth (option_copied want.entry) place) result }
{
    if fits(&Ty::Bool, want) {
        Ok(())
    } else {
        Err(mismatch(place))
    }
}

/// Whether a form is a program's.
pub fn is_program(language: Language) -> bool
    ensures { result ≡ is_program language }
{
    match language {
        Language::Program | Language::Sampled => true,
        Language::Formula | Language::Function | Language::Operator => false,
    }
}

/// Refuses a truth that no program expression is, and one where another type is wanted.
pub fn formula(at: &Setting<'_>, want: Option<&Ty>, place: Place) -> Result<(), Refused>
    ensures { Answers (formula (environment at.now) (option_copied want.entry) place) result }
{
    if is_program(at.language) {
        Err(argument(place))
    } else {
        truth(want, place)
    }
}

/// Refuses a judgment where none may stand, and one where another type is wanted.
pub fn judgment(at: &Setting<'_>, want: Option<&Ty>, place: Place) -> Result<(), Refused>
    ensures { Answers (judgment (environment at.now) (option_copied want.entry) place) result }
{
    match at.language {
        Language::Formula => truth(want, place),
        _ => Err(argument(place)),
    }
}

/// Refuses a memory that is bound where no judgment may stand.
pub fn memory_here(at: &Setting<'_>, place: Place) -> Result<(), Refused>
    ensures { Answers (memory_here (environment at.now) place) result }
{
    match at.language {
        Language::Formula => Ok(()),
        _ => Err(argument(place)),
    }
}

/// Whether a distribution may stand in a form of this language.
fn may_be_drawn(language: Language) -> bool
    ensures { result ≡ may_be_drawn language }
{
    match language {
        Language::Program => false,
        _ => true,
    }
}

/// Refuses a distribution in a program that samples nothing there.
pub fn distribution_here(at: &Setting<'_>, place: Place) -> Result<(), Refused>
    ensures { Answers (distribution_here (environment at.now) place) result }
{
    if may_be_drawn(at.language) {
        Ok(())
    } else {
        Err(argument(place))
    }
}

/// Whether a form of this type may stand in a language.
fn may_have(language: Language, ty: &Ty) -> bool
    ensures { result ≡ may_have language ty.now }
{
    match ty {
        Ty::Int | Ty::Real => !is_program(language),
        Ty::Distr(_) => may_be_drawn(language),
        _ => true,
    }
}

/// Refuses a form that has this type by its shape: `Argument` where none may stand, `TypeMismatch` where another type is
/// wanted.
pub fn stands(at: &Setting<'_>, want: Option<&Ty>, place: Place, ty: &Ty) -> Result<(), Refused>
    ensures { Answers (stands (environment at.now) (option_copied want.entry) place ty.now) result }
{
    if !may_have(at.language, ty) {
        Err(argument(place))
    } else if fits(ty, want) {
        Ok(())
    } else {
        Err(mismatch(place))
    }
}

/// The typed tree of the fair coin. A program has it where it samples.
pub fn coin(
    alloc: Global,
    at: &Setting<'_>,
    want: Option<&Ty>,
    place: Place,
) -> Result<Term, Refused>
    ensures { Answers (coin (environment at.now) (option_copied want.entry) place) result }
{
    distribution_here(at, place)?;
    wanted(fair_coin(alloc), want, place)
}

/// The fair coin.
fn fair_coin(alloc: Global) -> Result<Term, Refused>
    ensures { Answers (given (node (Builtin Op.Coin) [] (Distr Ty.Bool))) result }
{
    let outcomes = make::truth_ty(alloc)?;
    let ty = Shared::new(alloc, Ty::Distr(outcomes))?;
    Ok(make::leaf(alloc, Head::Builtin(Op::Coin), ty)?)
}

/// Whether a type is one of distributions.
pub fn is_distribution(ty: &Ty) -> bool
    ensures { result ≡ is_distribution ty.now }
{
    match ty {
        Ty::Distr(_) => true,
        _ => false,
    }
}
