//! Goals with other statements in their bodies.

ghost use Rattle.std.specs.Prelude.{◌≡◌, IfOk};
ghost use Rattle.gb_goal.specs.Answers.{Answers};
ghost use Rattle.gb_goal.specs.Answers.Answer.{given};
ghost use Rattle.gb_goal.specs.Goal.{form_of};
ghost use Rattle.gb_goal.specs.Rows.{each_concluding};
ghost use Rattle.gb_prog.specs.OneBody.{one_seen};
ghost use Rattle.gb_trans.specs.Transformed.{with_body};

use gb_core::SharedItems;
use gb_core::refusal::Refused;
use gb_goal::sequent::{Sequent, Sequents};
use gb_prog::one_body::{OneBody, filled};
use gb_prog::subgoals::one_goal;
use gb_terms::term::{Form, Instrs};
use std::alloc::{AllocError, Global};

/// The judgment with these statements in place of a body of it.
pub fn judged(alloc: Global, one: &OneBody<'_>, list: Instrs) -> Result<Form, AllocError>
    ensures { IfOk result (λ made. made ≡ form_of (let o = one_seen one.now in o.goal list o.pre o.post)) }
{
    let list = SharedItems::new(alloc, list)?;
    let pre = one.pre.share()?;
    let post = one.post.share()?;
    filled(alloc, one.around, list, pre, post)
}

/// The goal with these statements in place of a body of it.
pub fn with_body(
    alloc: Global,
    goal: &Sequent,
    one: &OneBody<'_>,
    list: Instrs,
) -> Result<Sequents, Refused>
    ensures { Answers (each_concluding goal.now (with_body (λ o. given list) (one_seen one.now))) result }
{
    let conclusion = judged(alloc, one, list)?;
    Ok(one_goal(alloc, goal, conclusion)?)
}
