// Arithmetic.

ghost use Rattle.std.specs.Prelude.{◌≡◌, ◌<◌, ◌^◌, List};
ghost use Rattle.gb_core.specs.declared.ty.Ty.TheVariants as Ty;
ghost use Rattle.gb_terms.specs.declared.op.Op.TheVariants as Op;
ghost use Rattle.gb_dist.specs.Fractions.{Fraction};
ghost use Rattle.gb_dist.specs.Operations.{Operation, outcome};
ghost use Rattle.gb_eval.specs.Findings.{Finds, Gives, after, shown};
ghost use Rattle.gb_eval.specs.Findings.Finding.{fraction};
ghost use Rattle.gb_eval.specs.Operators.{absolute_of, arithmetic, as_fraction, chance, fraction_at, is_divisor, modulo, number_at, opposite, order, real_in, same, whole_at, whole_fraction};

use crate::answer::{Answer, Stop, fraction_in, number_in};
use gb_closing::counted::difference as difference_modulo;
use gb_core::same::same_value;
use gb_core::ty::Ty;
use gb_core::value::Value;
use gb_dist::frac::{Frac, abs, add, cmp, div_lit, mul, sub};
use gb_dist::whole::{Overflow, difference, product, sum};
use gb_terms::op::Op;
use std::cmp::Ordering;

/// An operator at two whole numbers.
fn whole_at(op: Op, a: i128, b: i128) -> Result<Answer, Stop>
    ensures { Gives shown (whole_at op a b) result }
{
    let number = match op {
        Op::Plus => sum(a, b)?,
        Op::Minus => difference(a, b)?,
        Op::Times => product(a, b)?,
        _ => return Err(Stop::Unknown),
    };
    Ok(Answer::Whole(number))
}

fn is_divisor(b: Frac) -> bool
    ensures { result ≡ is_divisor b }
{
    b.den() == 1 && b.num() > 0
}

/// A fraction, unless an operation was out of range.
fn of_fraction(computed: Result<Frac, Overflow>) -> Result<Answer, Stop>
    ensures { (os : List Operation) (a : Fraction) → computed ≡ outcome os a → Gives shown (after os (fraction a)) result }
{
    match computed {
        Ok(found) => Ok(Answer::Fraction(found)),
        Err(overflow) => Err(Stop::Overflow(overflow)),
    }
}

/// An operator at two fractions.
fn fraction_at(op: Op, a: Frac, b: Frac) -> Result<Answer, Stop>
    ensures { Gives shown (fraction_at op a b) result }
{
    match op {
        Op::Plus => of_fraction(add(a, b)),
        Op::Minus => of_fraction(sub(a, b)),
        Op::Times => of_fraction(mul(a, b)),
        Op::Divide if is_divisor(b) => of_fraction(div_lit(a, b.num())),
        _ => Err(Stop::Unknown),
    }
}

/// A number modulo a bound, where it isn't 0.
fn modulo(bound: u32, number: u128) -> Result<Answer, Stop>
    ensures { Gives shown (modulo bound number) result }
{
    if bound == 0 {
        return Err(Stop::Unknown);
    }
    let rest = number % u128::from(bound);
    Ok(Answer::Value(Value::Num(rest as u64)))
}

/// Arithmetic modulo the bound of a type.
fn at_bound(op: Op, bound: u32, a: u64, b: u64) -> Result<Answer, Stop>
    requires { (op ≡ Op.Xor → ⊥) }
    ensures { Gives shown (number_at op (Ty.Mod bound) a b) result }
{
    let left = u128::from(a);
    let right = u128::from(b);
    match op {
        Op::Plus => modulo(bound, left + right),
        Op::Minus => modulo(bound, difference_modulo(bound, a, b)),
        Op::Times => modulo(bound, left * right),
        _ => Err(Stop::Unknown),
    }
}

/// An operator at two numbers of a type: arithmetic modulo its bound, and exclusive or of bits.
fn number_at(op: Op, ty: &Ty, a: u64, b: u64) -> Result<Answer, Stop>
    ensures { Gives shown (number_at op ty.now a b) result }
{
    if op == Op::Xor {
        return Ok(Answer::Value(Value::Num(a ^ b)));
    }
    match ty {
        Ty::Mod(bound) => at_bound(op, *bound, a, b),
        _ => Err(Stop::Unknown),
    }
}

/// An operator of arithmetic at two operands.
pub fn arithmetic(op: Op, ty: &Ty, a: &Answer, b: &Answer) -> Result<Answer, Stop>
    ensures { Gives shown (arithmetic op ty.now (shown a.now) (shown b.now)) result }
{
    match (a, b) {
        (Answer::Whole(m), Answer::Whole(n)) => whole_at(op, *m, *n),
        (Answer::Fraction(x), Answer::Fraction(y)) => fraction_at(op, *x, *y),
        (Answer::Value(_), Answer::Value(_)) => {
            let m = number_in(a)?;
            let n = number_in(b)?;
            number_at(op, ty, m, n)
        }
        _ => Err(Stop::Unknown),
    }
}

/// How two numbers compare.
pub fn order(a: &Answer, b: &Answer) -> Result<Ordering, Stop>
    ensures { Finds (order (shown a.now) (shown b.now)) result }
{
    match (a, b) {
        (Answer::Whole(m), Answer::Whole(n)) => Ok(m.cmp(n)),
        (Answer::Fraction(x), Answer::Fraction(y)) => Ok(cmp(*x, *y)?),
        (Answer::Value(_), Answer::Value(_)) => {
            let m = number_in(a)?;
            let n = number_in(b)?;
            Ok(m.cmp(&n))
        }
        _ => Err(Stop::Unknown),
    }
}

/// Whether two answers are the same.
#[tactic(auto, using(crate::proofs::Places::same_values))]
pub fn same(a: &Answer, b: &Answer) -> Result<bool, Stop>
    ensures { Finds (same (shown a.now) (shown b.now)) result }
{
    match (a, b) {
        (Answer::Value(v), Answer::Value(w)) => Ok(same_value(v, w)),
        (Answer::Whole(m), Answer::Whole(n)) => Ok(m == n),
        (Answer::Fraction(x), Answer::Fraction(y)) => {
            let order = cmp(*x, *y)?;
            Ok(order.is_eq())
        }
        _ => Err(Stop::Unknown),
    }
}

/// A number taken from 0.
pub fn opposite(a: &Answer) -> Result<Answer, Stop>
    ensures { Gives shown (opposite (shown a.now)) result }
{
    match a {
        Answer::Whole(n) => whole_at(Op::Minus, 0, *n),
        Answer::Fraction(x) => fraction_at(Op::Minus, Frac::of_whole(0), *x),
        _ => Err(Stop::Unknown),
    }
}

/// A number as a fraction. The least one that 128 bits hold is none.
#[tactic(auto, using(crate::proofs::Places::small_whole, crate::proofs::Places::large_whole))]
fn whole_fraction(number: i128) -> Result<Answer, Stop>
    ensures { Gives shown (whole_fraction number) result }
{
    if number.unsigned_abs() < 1 << 127 {
        Ok(Answer::Fraction(Frac::of_whole(number)))
    } else {
        Err(Stop::Unknown)
    }
}

/// A whole number as a fraction.
pub fn as_fraction(a: &Answer) -> Result<Answer, Stop>
    ensures { Gives shown (as_fraction (shown a.now)) result }
{
    match a {
        Answer::Whole(n) => whole_fraction(*n),
        _ => {
            let n = number_in(a)?;
            whole_fraction(i128::from(n))
        }
    }
}

/// A real, or a whole number as a fraction of denominator 1.
pub fn real_in(a: &Answer) -> Result<Frac, Stop>
    ensures { Finds (real_in (shown a.now)) result }
{
    match a {
        Answer::Whole(n) => {
            let found = whole_fraction(*n)?;
            fraction_in(&found)
        }
        _ => fraction_in(a),
    }
}

/// A fraction without its sign.
pub fn absolute_of(a: &Answer) -> Result<Answer, Stop>
    ensures { Gives shown (absolute_of (shown a.now)) result }
{
    match a {
        Answer::Fraction(x) => Ok(Answer::Fraction(abs(*x))),
        _ => Err(Stop::Unknown),
    }
}

/// A weight over a denominator.
pub fn chance(weight: u128, total: u128) -> Result<Answer, Stop>
    requires weight { weight < 2 ^ 127 }
    requires total { total < 2 ^ 127 }
    ensures { Gives shown (chance weight total) result }
{
    if total == 0 {
        return Err(Stop::Unknown);
    }
    of_fraction(div_lit(Frac::of_whole(weight as i128), total as i128))
}
