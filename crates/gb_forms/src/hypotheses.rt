// Goals with other hypotheses.

ghost use Rattle.std.specs.Prelude.{◌≡◌, IfOk};

use gb_core::SharedItems;
use gb_goal::sequent::{Hyp, Sequent};
use gb_terms::term::Form;
use std::alloc::AllocError;

/// The goal with other hypotheses and another conclusion.
pub fn with_hypotheses(
    goal: &Sequent,
    hyps: SharedItems<Hyp>,
    conclusion: Form,
) -> Result<Sequent, AllocError>
    ensures { IfOk result (λ made. made ≡ record goal.now { hyps = hyps; conclusion = conclusion }) }
{
    let mut other = goal.with_conclusion(conclusion)?;
    other.hyps = hyps;
    Ok(other)
}
