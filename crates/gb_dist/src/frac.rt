// Fractions in lowest terms.

ghost use Rattle.std.specs.Prelude.{◌≡◌, ◌∷◌, [], ◌*◌, ◌^◌, ◌<◌, ◌<ℤ◌, pos, true, unsigned_abs, IfOk};
ghost use Rattle.gb_dist.specs.Fractions.{IsBounded, IsLowest, IsSame, absolute, minus, of_whole, order, over, plus, reduced, times};
ghost use Rattle.gb_dist.specs.Operations.{crossings, is_small, minus_steps, outcome, over_steps, plus_steps, product_of, times_steps};

use crate::whole::{Overflow, difference, gcd, product, sum};
use std::cmp::Ordering;
use std::marker::Model;

/// A fraction in lowest terms: its denominator is above 0, and both parts are below 2^127 in size.
#[derive(Clone, Copy)]
pub struct Frac {
    num: i128,
    den: i128,
}

impl Model for Frac {
    ghost use Rattle.std.specs.Prelude.{ℕ, ℤ, pos, unsigned_abs, ◌<ℤ◌};
    ghost use Rattle.gb_dist.specs.Fractions.{IsBounded};

    ghost Value = { ℤ × ℕ };

    ghost view = { λ a. (a.num, unsigned_abs a.den) };

    ghost invariant = { λ a. (pos 0 <ℤ a.den) × IsBounded (a.num, unsigned_abs a.den) };

    ghost inverse = { λ v. record { num = v.0; den = pos v.1 } };
}

impl Frac {
    /// A whole number as a fraction.
    pub fn of_whole(number: i128) -> Frac
        requires { unsigned_abs number < 2 ^ 127 }
        ensures { result ≡ of_whole number }
    {
        Frac {
            num: number,
            den: 1,
        }
    }

    /// The numerator.
    pub fn num(self) -> i128
        ensures value { result ≡ self.0 }
        ensures bounded { IsBounded self }
    {
        self.num
    }

    /// The denominator.
    pub fn den(self) -> i128
        ensures value { result ≡ pos self.1 }
        ensures bounded { IsBounded self }
    {
        self.den
    }
}

/// The fraction of two whole numbers, in lowest terms.
fn reduced(num: i128, den: i128) -> Frac
    requires num { is_small num ≡ true }
    requires den { pos 0 <ℤ den }
    ensures { result ≡ reduced (num, unsigned_abs den) }
{
    let shared = gcd(num.unsigned_abs(), den.unsigned_abs()) as i128;
    Frac {
        num: num / shared,
        den: den / shared,
    }
}

/// The fraction of a whole number and a product of two, in lowest terms.
fn over(num: i128, left: i128, right: i128) -> Result<Frac, Overflow>
    requires num { is_small num ≡ true }
    requires left { pos 0 <ℤ left }
    requires right { pos 0 <ℤ right }
    ensures { result ≡ outcome (product_of left right ∷ []) (reduced (num, unsigned_abs left * unsigned_abs right)) }
{
    let den = product(left, right)?;
    Ok(reduced(num, den))
}

/// The sum of two fractions.
///
/// # Errors
/// The operands of the first product or sum out of range: the cross products, their sum, then the product of the denominators.
pub fn add(a: Frac, b: Frac) -> Result<Frac, Overflow>
    ensures exact { result ≡ outcome (plus_steps a b) (reduced (plus a b)) }
    ensures same { IfOk result (λ r. IsSame r (plus a b)) }
{
    let left = product(a.num(), b.den())?;
    let right = product(b.num(), a.den())?;
    let num = sum(left, right)?;
    over(num, a.den(), b.den())
}

/// The difference of two fractions.
///
/// # Errors
/// The operands of the first operation out of range: the cross products, their difference, then the product of the denominators.
pub fn sub(a: Frac, b: Frac) -> Result<Frac, Overflow>
    ensures exact { result ≡ outcome (minus_steps a b) (reduced (minus a b)) }
    ensures same { IfOk result (λ r. IsSame r (minus a b)) }
{
    let left = product(a.num(), b.den())?;
    let right = product(b.num(), a.den())?;
    let num = difference(left, right)?;
    over(num, a.den(), b.den())
}

/// The product of two fractions.
///
/// # Errors
/// The operands of the first product out of range: that of the numerators, then that of the denominators.
pub fn mul(a: Frac, b: Frac) -> Result<Frac, Overflow>
    ensures exact { result ≡ outcome (times_steps a b) (reduced (times a b)) }
    ensures same { IfOk result (λ r. IsSame r (times a b)) }
{
    let num = product(a.num(), b.num())?;
    over(num, a.den(), b.den())
}

/// The quotient of a fraction by a whole number.
///
/// # Errors
/// The operands of the product of the denominator and the number, where it is out of range.
pub fn div_lit(a: Frac, n: i128) -> Result<Frac, Overflow>
    requires { pos 0 <ℤ n }
    ensures exact { result ≡ outcome (over_steps a n) (reduced (over a n)) }
    ensures same { IfOk result (λ r. IsSame r (over a n)) }
{
    over(a.num(), a.den(), n)
}

/// How two fractions compare.
///
/// # Errors
/// The operands of the first cross product out of range.
pub fn cmp(a: Frac, b: Frac) -> Result<Ordering, Overflow>
    ensures { result ≡ outcome (crossings a b) (order a b) }
{
    let first = product(a.num(), b.den())?;
    let second = product(b.num(), a.den())?;
    Ok(first.cmp(&second))
}

/// A fraction without its sign.
pub fn abs(a: Frac) -> Frac
    ensures { result ≡ absolute a }
{
    Frac {
        num: a.num.abs(),
        den: a.den,
    }
}
