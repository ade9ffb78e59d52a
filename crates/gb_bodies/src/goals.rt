//! Goals that several rules make.

ghost use Rattle.std.specs.Prelude.{◌≡◌, [], ◌∷◌, IfOk};
ghost use Rattle.gb_goal.specs.Goal.{form_of};
ghost use Rattle.gb_goal.specs.Goal.Code.{body};
ghost use Rattle.gb_goal.specs.Goal.Goal.{equiv};
ghost use Rattle.gb_bodies.specs.Conseq.{leads, pair_leads};

use gb_goal::goal::equiv;
use gb_goal::sequent::{Sequent, Sequents};
use gb_prog::forms::{every, every_pair, implied};
use gb_prog::subgoals::{shared_body, two_goals};
use gb_terms::op::Side;
use gb_terms::term::{Form, Instr};
use std::alloc::{AllocError, Global};

/// One form leads to the other in every memory.
pub fn leads(alloc: Global, pre: &Form, post: &Form) -> Result<Form, AllocError>
    ensures { IfOk result (λ made. made ≡ form_of (leads pre.now post.now)) }
{
    let form = implied(alloc, pre, post)?;
    every(alloc, Side::Own, form)
}

/// One form leads to the other on every two memories.
pub fn pair_leads(alloc: Global, pre: &Form, post: &Form) -> Result<Form, AllocError>
    ensures { IfOk result (λ made. made ≡ form_of (pair_leads pre.now post.now)) }
{
    let form = implied(alloc, pre, post)?;
    every_pair(alloc, form)
}

/// The equivalence of two bodies from a condition to another.
pub fn of_two(
    alloc: Global,
    left: &[Instr],
    right: &[Instr],
    pre: &Form,
    post: Form,
) -> Result<Form, AllocError>
    ensures { IfOk result (λ made. made ≡ form_of (equiv (body left.now) (body right.now) pre.now post)) }
{
    let pre = pre.share()?;
    let left = shared_body(alloc, left)?;
    let right = shared_body(alloc, right)?;
    equiv(alloc, left, right, pre, post)
}

/// Three goals with the context of `goal` and these conclusions.
pub fn three_goals(
    alloc: Global,
    goal: &Sequent,
    first: Form,
    second: Form,
    third: Form,
) -> Result<Sequents, AllocError>
    ensures { IfOk result (λ goals. goals ≡ record goal.now { conclusion = first }
        ∷ record goal.now { conclusion = second } ∷ record goal.now { conclusion = third } ∷ []) }
{
    let mut goals = two_goals(alloc, goal, first, second)?;
    let last = goal.with_conclusion(third)?;
    goals.push(last)?;
    Ok(goals)
}
