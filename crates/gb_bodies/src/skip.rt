//! The rule `skip`.

ghost use Rattle.std.specs.Prelude.{◌≡◌, [], IfOk};
ghost use Rattle.gb_prog.specs.Compared.{certain_or_not};
ghost use Rattle.gb_typing.specs.Context.{Context};
ghost use Rattle.gb_typing.specs.Forms.{every, implies_form};
ghost use Rattle.gb_goal.specs.Answers.{Answers};
ghost use Rattle.gb_goal.specs.Goal.Code.{body};
ghost use Rattle.gb_goal.specs.Goal.Goal.{hoare, phoare, equiv};
ghost use Rattle.gb_goal.specs.Rows.{answered, each_concluding};
ghost use Rattle.gb_typing.specs.Rules.{IsSoundRule, no_arguments};
ghost use Rattle.gb_bodies.specs.Skip.{skip_row};

use crate::goals::{leads, pair_leads};
use gb_core::refusal::Refused;
use gb_goal::goal::{Code, Goal, goal_of};
use gb_goal::sequent::{Sequent, Sequents};
use gb_prog::compared::certain_or_not;
use gb_prog::forms::every;
use gb_prog::subgoals::{no_shape, one_goal};
use gb_terms::make::implication;
use gb_terms::op::{Rel, Side};
use gb_terms::term::{Form, RealTerm};
use std::alloc::{AllocError, Global};

/// What is left of an empty body.
fn of_one(alloc: Global, goal: &Sequent, pre: &Form, post: &Form) -> Result<Sequents, Refused>
    ensures { Answers (each_concluding goal.now (skip_row (hoare (body []) pre.now post.now))) result }
{
    let conclusion = leads(alloc, pre, post)?;
    Ok(one_goal(alloc, goal, conclusion)?)
}

/// The bound is met from where the precondition holds.
fn met(
    alloc: Global,
    rel: Rel,
    pre: &Form,
    post: &Form,
    bound: &RealTerm,
) -> Result<Form, AllocError>
    ensures { IfOk result (λ made. made ≡ every Side.Own (implies_form pre.now (certain_or_not rel post.now bound.now))) }
{
    let met = certain_or_not(alloc, rel, post, bound)?;
    let form = implication(alloc, pre.share()?, met)?;
    every(alloc, Side::Own, form)
}

/// What is left of an empty body with a probability.
fn of_chance(
    alloc: Global,
    goal: &Sequent,
    rel: Rel,
    pre: &Form,
    post: &Form,
    bound: &RealTerm,
) -> Result<Sequents, Refused>
    ensures { Answers (each_concluding goal.now (skip_row (phoare (body []) rel pre.now post.now bound.now))) result }
{
    let conclusion = met(alloc, rel, pre, post, bound)?;
    Ok(one_goal(alloc, goal, conclusion)?)
}

/// What is left of two empty bodies.
fn of_two(alloc: Global, goal: &Sequent, pre: &Form, post: &Form) -> Result<Sequents, Refused>
    ensures { Answers (each_concluding goal.now (skip_row (equiv (body []) (body []) pre.now post.now))) result }
{
    let conclusion = pair_leads(alloc, pre, post)?;
    Ok(one_goal(alloc, goal, conclusion)?)
}

/// The subgoals of `skip`: where the bodies of a judgment are empty, its precondition implies its postcondition, in every
/// memory. With a probability it implies that 1 stands so to the bound where the postcondition holds, and 0 where it doesn't. Refused with `Shape` at any other goal.
pub fn skip(alloc: Global, goal: &Sequent) -> Result<Sequents, Refused>
    ensures { Answers (answered skip_row goal.now) result }
{
    match goal_of(&goal.conclusion) {
        Goal::Hoare(Code::Body([]), pre, post) => of_one(alloc, goal, pre, post),
        Goal::Phoare(Code::Body([]), rel, pre, post, bound) => {
            of_chance(alloc, goal, rel, pre, post, bound)
        }
        Goal::Equiv(Code::Body([]), Code::Body([]), pre, post) => of_two(alloc, goal, pre, post),
        _ => Err(no_shape()),
    }
}

/// `skip` is sound.
pub fn skip_is_sound()
    ensures { (c : Context) → IsSoundRule c skip_row no_arguments }
{}
