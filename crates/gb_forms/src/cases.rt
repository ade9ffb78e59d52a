// The goals of a case distinction.

ghost use Rattle.std.specs.Prelude.{◌≡◌, [], ◌∷◌, IfOk};
ghost use Rattle.gb_typing.specs.Forms.{implies_form, not_form};

use gb_goal::sequent::{Sequent, Sequents};
use gb_terms::make::{implication, negation};
use gb_terms::term::Form;
use sqlite_items::Items;
use std::alloc::{AllocError, Global};

/// The goal with each of two conclusions.
pub fn two(alloc: Global, goal: &Sequent, first: Form, second: Form) -> Result<Sequents, AllocError>
    ensures { IfOk result (λ goals. goals ≡ record goal.now { conclusion = first } ∷ record goal.now { conclusion = second } ∷ []) }
{
    let first = goal.with_conclusion(first)?;
    let second = goal.with_conclusion(second)?;
    Ok(Items::from_vec(vec![in alloc; first, second]?))
}

/// A conclusion under a premise.
fn under(alloc: Global, premise: Form, goal: &Sequent) -> Result<Form, AllocError>
    ensures { IfOk result (λ made. made ≡ implies_form premise goal.now.conclusion) }
{
    let conclusion = goal.conclusion.share()?;
    implication(alloc, premise, conclusion)
}

/// The conclusion where a form is true, and where it isn't.
pub fn cases(alloc: Global, form: &Form, goal: &Sequent) -> Result<Sequents, AllocError>
    ensures { IfOk result (λ goals. goals ≡ record goal.now { conclusion = implies_form form.now goal.now.conclusion }
        ∷ record goal.now { conclusion = implies_form (not_form form.now) goal.now.conclusion } ∷ []) }
{
    let first = under(alloc, form.share()?, goal)?;
    let other = negation(alloc, form.share()?)?;
    let second = under(alloc, other, goal)?;
    two(alloc, goal, first, second)
}
