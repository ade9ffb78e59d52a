// What built-in names mean alone.

ghost use Rattle.std.specs.Prelude.{[]};
ghost use Rattle.std.specs.Option.{option_copied};
ghost use Rattle.gb_goal.specs.Answers.{Answers};
ghost use Rattle.gb_goal.specs.Answers.Answer.{given};
ghost use Rattle.gb_terms.specs.Make.{applied, truth_literal};
ghost use Rattle.gb_operators.specs.Constants.{constant, literal};

use crate::kinds::{entries, inside_option};
use crate::made::leaf;
use crate::operators::owned;
use gb_core::place::Place;
use gb_core::refusal::Refused;
use gb_core::ty::Ty;
use gb_core::value::Value;
use gb_goal::scope::Constant;
use gb_names::names::{Known, unit};
use gb_names::refusals::mismatch;
use gb_names::types::wanted;
use gb_terms::make;
use gb_terms::op::Op;
use gb_terms::term::{Head, Term};
use std::alloc::Global;

/// What a built-in name means alone.
///
/// # Errors
///
/// `TypeMismatch` where another type is wanted, where none is wanted of `None` and `empty`, and of an operator, which lacks its
/// arguments.
pub fn constant(
    alloc: Global,
    known: Known,
    want: Option<&Ty>,
    place: Place,
) -> Result<Term, Refused>
    ensures { Answers (constant known (option_copied want.entry) place) result }
{
    match known {
        Known::True => wanted(truth(alloc, true), want, place),
        Known::False => wanted(truth(alloc, false), want, place),
        Known::Unit => wanted(unit(alloc), want, place),
        Known::None => match want {
            Some(ty) if inside_option(ty).is_some() => open_constant(alloc, Op::None, ty),
            _ => Err(mismatch(place)),
        },
        Known::Empty => match want {
            Some(ty) if entries(ty).is_some() => open_constant(alloc, Op::Empty, ty),
            _ => Err(mismatch(place)),
        },
        _ => Err(mismatch(place)),
    }
}

fn truth(alloc: Global, value: bool) -> Result<Term, Refused>
    ensures { Answers (given (truth_literal value)) result }
{
    Ok(make::boolean(alloc, value)?)
}

/// A constant of any type of some shape.
fn open_constant(alloc: Global, op: Op, ty: &Ty) -> Result<Term, Refused>
    ensures { Answers (given (applied op [] ty.now)) result }
{
    let ty = owned(alloc, ty)?;
    leaf(alloc, Head::Builtin(op), ty)
}

/// A constant of an enumeration.
pub fn literal(alloc: Global, constant: &Constant) -> Result<Term, Refused>
    ensures { Answers (given (literal constant.now)) result }
{
    let ty = constant.ty.share()?;
    let value = Value::Num(constant.number);
    leaf(alloc, Head::Lit(value), ty)
}
