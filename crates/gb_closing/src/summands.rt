// Terms with coefficients, and those that a second sum has besides.

ghost use Rattle.std.specs.Prelude.{◌≡◌, IfOk};
ghost use Rattle.gb_goal.specs.Answers.{Answers};
ghost use Rattle.gb_closing.specs.Summands.{behind, besides};

use crate::numbers::{Sign, operated};
use gb_core::refusal::Refused;
use gb_dist::frac::Frac;
use gb_terms::term::Term;
use sqlite_items::Items;
use std::alloc::{AllocError, Global};

/// A term with its coefficient.
#[derive(Drop)]
pub struct Summand {
    pub term: Term,
    pub coefficient: Frac,
}

pub type Summands = Items<Summand>;

/// The term with this coefficient.
pub fn with_coefficient(t: &Term, coefficient: Frac) -> Result<Summand, AllocError>
    ensures { IfOk result (λ made. made ≡ record { term = t.now; coefficient = coefficient }) }
{
    let term = t.share()?;
    Ok(Summand { term, coefficient })
}

/// The summands that the second form has besides.
pub fn besides(
    alloc: Global,
    sign: Sign,
    first: Summands,
    second: &[Summand],
) -> Result<Summands, Refused>
    ensures { Answers (behind first (besides sign second.now)) result }
{
    let mut out = first;
    for y in second {
        let number = operated(sign, Frac::of_whole(0), y.coefficient)?;
        let summand = with_coefficient(&y.term, number)?;
        out.push(summand)?;
    }
    Ok(out)
}
