// Whole numbers below 2^127 in size.

ghost use Rattle.std.specs.Prelude.{◌≡◌, ◌≤◌, ◌<◌};
ghost use Rattle.gb_dist.specs.Fractions.{gcd};
ghost use Rattle.gb_dist.specs.Operations.{Gives, difference_of, product_of, small_or, sum_of};

/// The operands of a whole-number operation whose result isn't below 2^127 in size.
#[derive(Clone, Copy)]
pub struct Overflow {
    pub left: i128,
    pub right: i128,
}

/// The number where it is below 2^127 in size, or else the operands that it came from.
fn small_or(value: Option<i128>, left: i128, right: i128) -> Result<i128, Overflow>
    ensures { result ≡ small_or (record { left = left; right = right }) value }
{
    match value {
        Some(number) if number != i128::MIN => Ok(number),
        _ => Err(Overflow { left, right }),
    }
}

/// The product, or its operands where it is too large.
pub fn product(left: i128, right: i128) -> Result<i128, Overflow>
    ensures { Gives (product_of left right) result }
{
    small_or(left.checked_mul(right), left, right)
}

/// The sum, or its operands where it is too large.
pub fn sum(left: i128, right: i128) -> Result<i128, Overflow>
    ensures { Gives (sum_of left right) result }
{
    small_or(left.checked_add(right), left, right)
}

/// The difference, or its operands where it is too large.
pub fn difference(left: i128, right: i128) -> Result<i128, Overflow>
    ensures { Gives (difference_of left right) result }
{
    small_or(left.checked_sub(right), left, right)
}

/// The greatest common divisor, by Euclid's algorithm.
pub fn gcd(a: u128, b: u128) -> u128
    ensures value { result ≡ gcd a b }
    ensures above { 0 < b → 0 < result }
    ensures below { 0 < b → result ≤ b }
{
    let mut x = a;
    let mut y = b;
    while y != 0 {
        let rest = x % y;
        x = y;
        y = rest;
    }
    x
}
