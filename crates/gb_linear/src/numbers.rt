// Operations on exact fractions, each with its refusal.

ghost use Rattle.std.specs.Prelude.{◌≡◌, true};
ghost use Rattle.gb_goal.specs.Answers.{Answers};
ghost use Rattle.gb_linear.specs.Numbers.{inverse, is_divisor, is_positive, is_zero, multiplied, product};

use gb_closing::numbers::in_range;
use gb_core::refusal::Refused;
use gb_dist::frac::{Frac, div_lit, mul};

/// On which side of a number a factor stands.
#[derive(Clone, Copy)]
pub enum Stands {
    Left,
    Right,
}

fn product(a: Frac, b: Frac) -> Result<Frac, Refused>
    ensures { Answers (product a b) result }
{
    in_range(mul(a, b))
}

/// A number times a factor.
pub fn multiplied(on: Stands, factor: Frac, a: Frac) -> Result<Frac, Refused>
    ensures { Answers (multiplied on factor a) result }
{
    match on {
        Stands::Left => product(factor, a),
        Stands::Right => product(a, factor),
    }
}

pub fn is_zero(a: Frac) -> bool
    ensures { result ≡ is_zero a }
{
    a.num() == 0
}

pub fn is_positive(a: Frac) -> bool
    ensures { result ≡ is_positive a }
{
    a.num() > 0
}

/// Whether a number is whole and above 0.
pub fn is_divisor(a: Frac) -> bool
    ensures { result ≡ is_divisor a }
{
    a.den() == 1 && is_positive(a)
}

/// 1 over a whole number above 0.
pub fn inverse(a: Frac) -> Result<Frac, Refused>
    requires { is_divisor a ≡ true }
    ensures { Answers (inverse a) result }
{
    in_range(div_lit(Frac::of_whole(1), a.num()))
}
