// Operations on exact fractions, each with its refusal, and which multipliers may stand.

ghost use Rattle.std.specs.Prelude.{◌≡◌};
ghost use Rattle.gb_core.specs.declared.refusal.Why.TheVariants as Why;
ghost use Rattle.gb_goal.specs.Answers.{Answers, nowhere};
ghost use Rattle.gb_closing.specs.Numbers.{in_range, is_negative, is_proper, may_have, operated};

use gb_core::place::Place;
use gb_core::refusal::{Refused, Why};
use gb_dist::frac::{Frac, add, sub};
use gb_dist::whole::Overflow;

/// A sum or a difference.
#[derive(Clone, Copy)]
pub enum Sign {
    Plus,
    Minus,
}

/// A refusal, for which the caller has the place.
pub fn refusal(why: Why) -> Refused
    ensures { result ≡ Refused.Script why nowhere }
{
    let place = Place {
        file: 0,
        line: 0,
        col: 0,
    };
    Refused::Script { why, place }
}

/// A number, or the operands of the operation that is out of range.
pub fn in_range(computed: Result<Frac, Overflow>) -> Result<Frac, Refused>
    ensures { Answers (in_range computed) result }
{
    match computed {
        Ok(number) => Ok(number),
        Err(Overflow { left, right }) => Err(refusal(Why::Overflow { left, right })),
    }
}

/// A sum or a difference.
pub fn operated(sign: Sign, a: Frac, b: Frac) -> Result<Frac, Refused>
    ensures { Answers (operated sign a b) result }
{
    match sign {
        Sign::Plus => in_range(add(a, b)),
        Sign::Minus => in_range(sub(a, b)),
    }
}

pub fn is_negative(a: Frac) -> bool
    ensures { result ≡ is_negative a }
{
    a.num() < 0
}

/// Whether the denominator is above 0.
pub fn is_proper(a: Frac) -> bool
    ensures { result ≡ is_proper a }
{
    a.den() > 0
}

/// Whether a multiplier is a number with a denominator above 0, and not below 0 where the hypothesis isn't an equation.
pub fn may_have(equal: bool, factor: Option<Frac>) -> bool
    ensures { result ≡ may_have equal factor }
{
    match factor {
        Some(factor) => is_proper(factor) && (equal || !is_negative(factor)),
        None => false,
    }
}
