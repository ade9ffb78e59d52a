//! The rule `case`, on bodies.

ghost use Rattle.std.specs.Prelude.{◌≡◌, if◌then◌else◌, IfOk};
ghost use Rattle.gb_terms.specs.declared.term.Term.{Term};
ghost use Rattle.gb_typing.specs.Context.{Context};
ghost use Rattle.gb_goal.specs.Answers.{Answers};
ghost use Rattle.gb_goal.specs.Answers.Answer.{given};
ghost use Rattle.gb_goal.specs.Goal.{form_of};
ghost use Rattle.gb_goal.specs.Rows.{answered, each_concluding};
ghost use Rattle.gb_typing.specs.Forms.{and_form, not_form};
ghost use Rattle.gb_typing.specs.Rules.{IsSoundRule};
ghost use Rattle.gb_bodies.specs.Case.{case_one, case_row, IsTypedCase};
ghost use Rattle.gb_prog.specs.OneBody.{filled, one_seen};

use gb_core::refusal::Refused;
use gb_goal::goal::goal_of;
use gb_goal::sequent::{Sequent, Sequents};
use gb_prog::one_body::{OneBody, filled, one_body};
use gb_prog::subgoals::{no_shape, shared_body, two_goals};
use gb_steps::step::Acts;
use gb_terms::make::{conjunction, negation};
use gb_terms::term::Form;
use std::alloc::{AllocError, Global};

/// The goal with a form beside its precondition.
fn with_premise(alloc: Global, one: &OneBody<'_>, form: Form) -> Result<Form, AllocError>
    ensures { IfOk result (λ made. made ≡ form_of (filled one.now.around one.now.list.now (and_form one.now.pre.now form) one.now.post.now)) }
{
    let pre = one.pre.share()?;
    let pre = conjunction(alloc, pre, form)?;
    let post = one.post.share()?;
    let list = shared_body(alloc, one.list)?;
    filled(alloc, one.around, list, pre, post)
}

/// The subgoals on a goal as one of its bodies sees it.
fn case_one(
    alloc: Global,
    goal: &Sequent,
    one: &OneBody<'_>,
    form: &Form,
) -> Result<Sequents, AllocError>
    ensures { IfOk result (λ goals. each_concluding goal.now (case_one form.now (one_seen one.now)) ≡ given goals) }
{
    let fails = negation(alloc, form.share()?)?;
    let no = with_premise(alloc, one, fails)?;
    let holds = form.share()?;
    let yes = with_premise(alloc, one, holds)?;
    two_goals(alloc, goal, yes, no)
}

/// The subgoals of `case` on bodies: the goal where a form holds before, and the goal where it doesn't. Refused with `Shape` at any other
/// goal.
pub fn case(alloc: Global, goal: &Sequent, form: &Form) -> Result<Sequents, Refused>
    ensures { Answers (answered (case_row form.now) goal.now) result }
{
    let seen = goal_of(&goal.conclusion);
    match one_body(Acts::All, seen) {
        Some(one) => Ok(case_one(alloc, goal, &one, form)?),
        None => match one_body(Acts::Left, seen) {
            Some(one) => Ok(case_one(alloc, goal, &one, form)?),
            None => Err(no_shape()),
        },
    }
}

/// `case` is sound.
pub fn case_is_sound()
    ensures { (c : Context) (f : Term) → IsSoundRule c (case_row f) (IsTypedCase c f) }
{}
