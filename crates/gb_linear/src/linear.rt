// The linear forms of terms.

ghost use Rattle.std.specs.Prelude.{◌≡◌, IfOk};
ghost use Rattle.gb_goal.specs.Answers.{Answers};
ghost use Rattle.gb_goal.specs.Answers.Answer.{given};
ghost use Rattle.gb_linear.specs.Linear.{at_forms, is_int, joining, linear, numeral, plain, prefixed, product_of, quotient_of};
ghost use Rattle.gb_closing.specs.declared.numbers.Sign.TheVariants.{Minus};
ghost use Rattle.gb_closing.specs.Numbers.{zero};
ghost use Rattle.gb_linear.specs.Forms.{combined, of_number};
ghost use Rattle.gb_terms.specs.declared.term.Term.{out-Term};

use crate::forms::{LinearForm, alone, combined, is_constant, of_number, scaled};
use crate::numbers::{Stands, inverse, is_divisor};
use gb_closing::numbers::Sign;
use gb_core::refusal::Refused;
use gb_core::ty::Ty;
use gb_dist::frac::Frac;
use gb_terms::op::Op;
use gb_terms::term::{Head, Term};
use std::alloc::{AllocError, Global};

fn is_int(ty: &Ty) -> bool
    ensures { result ≡ is_int ty.now }
{
    matches!(ty, Ty::Int)
}

/// A numeral; one that is out of range isn't taken apart.
#[tactic(auto, using(crate::proofs::Taken::small_numeral, crate::proofs::Taken::large_numeral))]
fn numeral(alloc: Global, number: i128, t: &Term) -> Result<LinearForm, AllocError>
    ensures { IfOk result (λ made. made ≡ numeral number t.now) }
{
    if number.unsigned_abs() < 1 << 127 {
        Ok(of_number(alloc, Frac::of_whole(number)))
    } else {
        alone(alloc, t)
    }
}

/// A product with a side in which no term is left; any other one isn't taken apart.
fn product_of(
    alloc: Global,
    a: &LinearForm,
    b: &LinearForm,
    t: &Term,
) -> Result<LinearForm, Refused>
    ensures { Answers (product_of a.now b.now t.now) result }
{
    if is_constant(a) {
        scaled(alloc, Stands::Left, a.constant, b)
    } else if is_constant(b) {
        scaled(alloc, Stands::Right, b.constant, a)
    } else {
        Ok(alone(alloc, t)?)
    }
}

/// A quotient by a whole number above 0, as the product with its inverse.
fn quotient_of(
    alloc: Global,
    a: &LinearForm,
    b: &LinearForm,
    t: &Term,
) -> Result<LinearForm, Refused>
    ensures { Answers (quotient_of a.now b.now t.now) result }
{
    if is_constant(b) && is_divisor(b.constant) {
        let factor = inverse(b.constant)?;
        scaled(alloc, Stands::Right, factor, a)
    } else {
        Ok(alone(alloc, t)?)
    }
}

/// Such an operator at the forms of its sides.
fn at_forms(
    alloc: Global,
    op: Op,
    a: &LinearForm,
    b: &LinearForm,
    t: &Term,
) -> Result<LinearForm, Refused>
    ensures { Answers (at_forms op a.now b.now t.now) result }
{
    match op {
        Op::Plus => combined(alloc, Sign::Plus, a, b),
        Op::Minus => combined(alloc, Sign::Minus, a, b),
        Op::Times => product_of(alloc, a, b, t),
        Op::Divide => quotient_of(alloc, a, b, t),
        _ => Ok(alone(alloc, t)?),
    }
}

/// A term that isn't taken apart, unless it is a numeral.
fn plain(alloc: Global, t: &Term) -> Result<LinearForm, Refused>
    ensures { Answers (given (plain (out-Term t.now).head t.now)) result }
{
    match t.head.get() {
        Head::Whole(number) => Ok(numeral(alloc, *number, t)?),
        _ => Ok(alone(alloc, t)?),
    }
}

/// What becomes of the argument of a head with one.
#[derive(Clone, Copy)]
pub enum Prefix {
    /// It is taken from 0.
    Opposite,
    /// A whole number as a real.
    Same,
    Other,
}

fn prefixed(head: &Head, ty: &Ty) -> Prefix
    ensures { result ≡ prefixed head.now ty.now }
{
    match head {
        Head::Builtin(Op::Negate) => Prefix::Opposite,
        Head::Builtin(Op::ToReal) if is_int(ty) => Prefix::Same,
        _ => Prefix::Other,
    }
}

/// The operator that joins two arguments, where it is taken apart.
fn joining(head: &Head) -> Option<Op>
    ensures { result ≡ joining head.now }
{
    match head {
        Head::Builtin(Op::Plus) => Some(Op::Plus),
        Head::Builtin(Op::Minus) => Some(Op::Minus),
        Head::Builtin(Op::Times) => Some(Op::Times),
        Head::Builtin(Op::Divide) => Some(Op::Divide),
        _ => None,
    }
}

/// A form taken from 0.
fn opposite(alloc: Global, a: &LinearForm) -> Result<LinearForm, Refused>
    ensures { Answers (combined Minus (of_number zero) a.now) result }
{
    let nothing = of_number(alloc, Frac::of_whole(0));
    combined(alloc, Sign::Minus, &nothing, a)
}

/// The linear form of a term; operands are computed from left to right.
pub fn linear(alloc: Global, t: &Term) -> Result<LinearForm, Refused>
    ensures { Answers (linear t.now) result }
{
    let args = t.args.as_slice();
    if args.len() == 1 {
        return match prefixed(t.head.get(), args[0].ty.get()) {
            Prefix::Opposite => {
                let a = linear(alloc, &args[0])?;
                opposite(alloc, &a)
            }
            Prefix::Same => linear(alloc, &args[0]),
            Prefix::Other => plain(alloc, t),
        };
    }
    if args.len() == 2 {
        return match joining(t.head.get()) {
            Some(op) => {
                let a = linear(alloc, &args[0])?;
                let b = linear(alloc, &args[1])?;
                at_forms(alloc, op, &a, &b, t)
            }
            None => plain(alloc, t),
        };
    }
    plain(alloc, t)
}
