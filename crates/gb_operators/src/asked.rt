// What is asked of the parts of forms, from left to right.

ghost use Rattle.std.specs.Prelude.{◌≡◌, IfOk};
ghost use Rattle.std.specs.Option.{option_copied};
ghost use Rattle.gb_goal.specs.Answers.{Answers, Gives, ◌>>=◌ as ◌and_then◌};
ghost use Rattle.gb_goal.specs.Answers.Answer.{given};
ghost use Rattle.gb_names.specs.Environment.{environment};
ghost use Rattle.gb_operators.specs.declared.domain.Domain.TheVariants.{Exactly};
ghost use Rattle.gb_operators.specs.declared.rules.Asked.TheVariants.{Form, Function};
ghost use Rattle.gb_operators.specs.Drawn.{value_wanted};
ghost use Rattle.gb_operators.specs.Operators.{operand_wanted};
ghost use Rattle.gb_operators.specs.Rules.{annotated_asked, argument_asked, asked, branches_asked, drawn_asked, entry_asked, factors, mass_asked, member_asked, of_type, parts_wanted, product_asked, quotient_asked, sides_asked, sum_asked, tuple_asked, values};

use crate::domain::Domain;
use crate::drawn::{Drawn, source_wanted, value_wanted};
use crate::kinds::{components, element, entries, is_of_values, outcome};
use crate::operators::{
    Infix, Prefix, first_wanted, fraction, operand_wanted, owned, shaped, takes, wanted_type,
};
use crate::rules::{Asked, Rule};
use gb_core::Shared;
use gb_core::place::Place;
use gb_core::refusal::Refused;
use gb_core::ty::Ty;
use gb_names::allowed::{distribution_here, stands, truth};
use gb_names::refusals::{argument, mismatch};
use gb_names::setting::Setting;
use gb_terms::term::Term;
use std::alloc::{AllocError, Global};

/// The most parts of a tuple.
const PARTS: usize = 8;

/// A part that is asked to be of this type.
fn of_type(ty: &Shared<Ty>) -> Result<Asked, Refused>
    ensures { Answers (of_type ty.now) result }
{
    Ok(Asked::Form(Some(ty.share()?)))
}

/// .. of a type that has no other owner yet.
fn of_new_type(alloc: Global, ty: Ty) -> Result<Asked, Refused>
    ensures { Answers (of_type ty) result }
{
    Ok(Asked::Form(Some(Shared::new(alloc, ty)?)))
}

/// The types that are wanted of the parts of a tuple: none, where no type is wanted.
fn parts_wanted<'a>(want: Option<&'a Ty>, count: usize, place: Place) -> Result<&'a [Ty], Refused>
    ensures { Gives (λ ts. ts.now) (parts_wanted (option_copied want.entry) count place) result }
{
    let Some(ty) = want else {
        return Ok(&[]);
    };
    match components(ty) {
        Some(parts) if parts.len() == count => Ok(parts),
        _ => Err(mismatch(place)),
    }
}

/// Refuses parts that have no values.
pub fn values(typed: &[Term], place: Place) -> Result<(), Refused>
    ensures { Answers (values typed.now place) result }
{
    for t in typed {
        if !is_of_values(t.ty.get()) {
            return Err(mismatch(place));
        }
    }
    Ok(())
}

/// What is asked of a part of a tuple of so many parts.
fn tuple_asked(
    alloc: Global,
    count: usize,
    want: Option<&Ty>,
    place: Place,
    part: Place,
    typed: &[Term],
) -> Result<Asked, Refused>
    ensures { Answers (tuple_asked count (option_copied want.entry) place part typed.now) result }
{
    let wanted = parts_wanted(want, count, place)?;
    values(typed, place)?;
    if typed.len() == PARTS {
        return Err(argument(part));
    }
    Ok(Asked::Form(wanted_type(alloc, wanted.get(typed.len()))?))
}

/// What is asked of an operand.
fn operand_asked(
    alloc: Global,
    prefix: Prefix,
    at: &Setting<'_>,
    want: Option<&Ty>,
    place: Place,
) -> Result<Asked, Refused>
    ensures { Answers (operand_wanted prefix (environment at.now) (option_copied want.entry) place and_then λ v. given (Form v)) result }
{
    Ok(Asked::Form(operand_wanted(alloc, prefix, at, want, place)?))
}

/// What is asked of a side of an operator.
fn sides_asked(
    alloc: Global,
    operator: Infix,
    want: Option<&Ty>,
    place: Place,
    typed: &[Term],
) -> Result<Asked, Refused>
    ensures { Answers (sides_asked operator (option_copied want.entry) place typed.now) result }
{
    match typed {
        [] => {
            shaped(operator.operands, want, place)?;
            Ok(Asked::Form(first_wanted(alloc, operator.operands, want)?))
        }
        [first, ..] => {
            if takes(operator.operands, first.ty.get()) {
                of_type(&first.ty)
            } else {
                Err(mismatch(place))
            }
        }
    }
}

/// What is asked of a side of a quotient.
fn quotient_asked(
    alloc: Global,
    at: &Setting<'_>,
    want: Option<&Ty>,
    place: Place,
) -> Result<Asked, Refused>
    ensures { Answers (quotient_asked (environment at.now) (option_copied want.entry) place) result }
{
    fraction(at, want, place)?;
    of_new_type(alloc, Ty::Real)
}

/// What is asked of a side of `\in`.
fn member_asked(
    backwards: bool,
    want: Option<&Ty>,
    place: Place,
    typed: &[Term],
) -> Result<Asked, Refused>
    ensures { Answers (member_asked backwards (option_copied want.entry) place typed.now) result }
{
    match typed {
        [] => {
            truth(want, place)?;
            Ok(Asked::Form(None))
        }
        [first, ..] => {
            if backwards {
                match element(first.ty.get()) {
                    Some(ty) => of_type(ty),
                    None => Err(mismatch(place)),
                }
            } else {
                Ok(Asked::Form(None))
            }
        }
    }
}

/// What is asked of a test and two branches.
fn branches_asked(alloc: Global, want: Option<&Ty>, typed: &[Term]) -> Result<Asked, Refused>
    ensures { Answers (branches_asked (option_copied want.entry) typed.now) result }
{
    match typed {
        [] => of_new_type(alloc, Ty::Bool),
        [_] => Ok(Asked::Branch(wanted_type(alloc, want)?)),
        [_, first, ..] => Ok(Asked::Branch(Some(first.ty.share()?))),
    }
}

/// What is asked of a map, then of its keys and values.
fn entry_asked(
    alloc: Global,
    want: Option<&Ty>,
    place: Place,
    typed: &[Term],
) -> Result<Asked, Refused>
    ensures { Answers (entry_asked (option_copied want.entry) place typed.now) result }
{
    match typed {
        [] => Ok(Asked::Form(wanted_type(alloc, want)?)),
        [map, rest @ ..] => match entries(map.ty.get()) {
            Some((key, value)) => of_type(if rest.is_empty() { key } else { value }),
            None => Err(mismatch(place)),
        },
    }
}

/// What is asked of a distribution, and of the function of its outcome.
fn drawn_asked(
    alloc: Global,
    drawn: Drawn,
    at: &Setting<'_>,
    want: Option<&Ty>,
    place: Place,
    typed: &[Term],
) -> Result<Asked, Refused>
    ensures { Answers (drawn_asked drawn (environment at.now) (option_copied want.entry) place typed.now) result }
{
    match typed {
        [] => Ok(Asked::Source(source_wanted(alloc, drawn, at, want, place)?)),
        [source, ..] => match outcome(source.ty.get()) {
            Some(ty) => Ok(function_asked(alloc, drawn, ty, want)?),
            None => Err(mismatch(place)),
        },
    }
}

/// What is asked of the function of an outcome of this type.
fn function_asked(
    alloc: Global,
    drawn: Drawn,
    outcomes: &Shared<Ty>,
    want: Option<&Ty>,
) -> Result<Asked, AllocError>
    ensures { IfOk result (λ made. made ≡ Function (Exactly outcomes.now) (value_wanted drawn (option_copied want.entry))) }
{
    let outcomes = outcomes.share()?;
    let value = value_wanted(alloc, drawn, want)?;
    Ok(Asked::Function(Domain::Exactly(outcomes), value))
}

/// What is asked of a distribution and a value.
fn mass_asked(
    at: &Setting<'_>,
    want: Option<&Ty>,
    place: Place,
    typed: &[Term],
) -> Result<Asked, Refused>
    ensures { Answers (mass_asked (environment at.now) (option_copied want.entry) place typed.now) result }
{
    match typed {
        [] => {
            fraction(at, want, place)?;
            Ok(Asked::Form(None))
        }
        [source, ..] => match outcome(source.ty.get()) {
            Some(ty) => of_type(ty),
            None => Err(mismatch(place)),
        },
    }
}

/// What is asked of an argument of an operator of the script.
fn argument_asked(params: &[Shared<Ty>], place: Place, typed: &[Term]) -> Result<Asked, Refused>
    ensures { Answers (argument_asked params.now place typed.now) result }
{
    match params.get(typed.len()) {
        Some(ty) => of_type(ty),
        None => Err(mismatch(place)),
    }
}

/// The types of the outcomes of both sides of a product of distributions, where the whole one is wanted.
fn factors<'a>(ty: &'a Ty, place: Place) -> Result<(&'a Ty, &'a Ty), Refused>
    ensures { Gives (λ f. (f.0.now, f.1.now)) (factors ty.now place) result }
{
    let Some(pair) = outcome(ty) else {
        return Err(mismatch(place));
    };
    match components(pair.get()) {
        Some([first, second]) => Ok((first, second)),
        _ => Err(mismatch(place)),
    }
}

/// What is asked of a side of a product of distributions.
fn product_asked(
    alloc: Global,
    at: &Setting<'_>,
    want: Option<&Ty>,
    place: Place,
    typed: &[Term],
) -> Result<Asked, Refused>
    ensures { Answers (product_asked (environment at.now) (option_copied want.entry) place typed.now) result }
{
    distribution_here(at, place)?;
    let Some(ty) = want else {
        return Ok(Asked::Source(None));
    };
    let (first, second) = factors(ty, place)?;
    let outcomes = owned(alloc, if typed.is_empty() { first } else { second })?;
    Ok(Asked::Source(Some(Shared::new(alloc, Ty::Distr(outcomes))?)))
}

/// What is asked of the function of a sum.
fn sum_asked(
    alloc: Global,
    below: u32,
    at: &Setting<'_>,
    want: Option<&Ty>,
    place: Place,
) -> Result<Asked, Refused>
    ensures { Answers (sum_asked below (environment at.now) (option_copied want.entry) place) result }
{
    fraction(at, want, place)?;
    let value = Shared::new(alloc, Ty::Real)?;
    Ok(Asked::Function(Domain::Below(below), Some(value)))
}

/// What is asked of a form of a type that the text gives.
fn annotated_asked(
    ty: &Shared<Ty>,
    at: &Setting<'_>,
    want: Option<&Ty>,
    place: Place,
) -> Result<Asked, Refused>
    ensures { Answers (annotated_asked ty.now (environment at.now) (option_copied want.entry) place) result }
{
    stands(at, want, place, ty.get())?;
    of_type(ty)
}

/// What is asked of the part at a place, behind those that are typed.
///
/// # Errors
///
/// `Argument` where the form may not stand and of the ninth part of a tuple, `TypeMismatch` where another type is wanted, and
/// where the parts that are typed have types that no operator of this kind takes.
#[tactic(auto, unfolding(crate::specs::Rules::asked))]
pub fn asked(
    alloc: Global,
    rule: &Rule,
    at: &Setting<'_>,
    want: Option<&Ty>,
    place: Place,
    part: Place,
    typed: &[Term],
) -> Result<Asked, Refused>
    ensures { Answers (asked rule.now (environment at.now) (option_copied want.entry) place part typed.now) result }
{
    match rule {
        Rule::Annotated(ty) => annotated_asked(ty, at, want, place),
        Rule::Tuple(count) => tuple_asked(alloc, *count, want, place, part, typed),
        Rule::Part(_, _) => Ok(Asked::Form(None)),
        Rule::If => branches_asked(alloc, want, typed),
        Rule::Get => entry_asked(alloc, None, place, typed),
        Rule::Set => entry_asked(alloc, want, place, typed),
        Rule::One(prefix) => operand_asked(alloc, *prefix, at, want, place),
        Rule::Two(operator) => sides_asked(alloc, *operator, want, place, typed),
        Rule::Quotient(_, _) => quotient_asked(alloc, at, want, place),
        Rule::Member(backwards) => member_asked(*backwards, want, place, typed),
        Rule::User(_, operator) => { argument_asked(operator.params.as_slice(), place, typed) }
        Rule::Product => product_asked(alloc, at, want, place, typed),
        Rule::Drawn(drawn) => drawn_asked(alloc, *drawn, at, want, place, typed),
        Rule::Mass => mass_asked(at, want, place, typed),
        Rule::Sum(below) => sum_asked(alloc, *below, at, want, place),
    }
}
