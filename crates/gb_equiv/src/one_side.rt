//! The rule `rnd` on one side of an equivalence.

ghost use Rattle.std.specs.Prelude.{◌≡◌, IfOk};
ghost use Rattle.gb_goal.specs.Answers.{Answers};
ghost use Rattle.gb_goal.specs.Goal.{form_of};
ghost use Rattle.gb_goal.specs.Rows.{answered, each_concluding, stepped};
ghost use Rattle.gb_goal.specs.Views.{goal_seen};
ghost use Rattle.gb_typing.specs.Samplings.{sampling_of, last_sampling};
ghost use Rattle.gb_prog.specs.OneBody.{filled, one_seen, side_of};
ghost use Rattle.gb_equiv.specs.OneSide.{before_drawing, by_end, drawn_row, each_drawn, with_value};

use gb_core::copy::copy_var;
use gb_core::place::Place;
use gb_core::refusal::{Refused, Why};
use gb_forms::surely::surely_if;
use gb_full::loss::{full_operators, may_lose};
use gb_goal::goal::goal_of;
use gb_goal::scope::Scope;
use gb_goal::sequent::{Sequent, Sequents};
use gb_mods::exclusions::exclusions;
use gb_prog::forms::located;
use gb_prog::one_body::{OneBody, filled, one_body, side_of};
use gb_prog::subgoals::{no_shape, one_goal, placed, refusal};
use gb_steps::step::Acts;
use gb_terms::op::{Read, Side};
use gb_terms::term::Form;
use gb_typing::samplings::{Last, last_sampling, rest_of};
use gb_typing::supports::{for_support, nearest};
use gb_walk::change::Change;
use gb_walk::clash::first_clash;
use gb_walk::walk::changed;
use std::alloc::{AllocError, Global};

/// The postcondition of a value that is sampled on a side.
fn with_value(
    alloc: Global,
    sampling: &Last<'_>,
    side: Side,
    post: &Form,
) -> Result<Form, AllocError>
    ensures { IfOk result (λ made. made ≡ with_value side (sampling_of sampling.now) post.now) }
{
    let value = nearest(alloc, sampling.ty)?;
    let var = copy_var(alloc, sampling.target)?;
    changed(
        alloc,
        post,
        &[Change::ToTerm(Read::Program { var, side }, value)],
    )
}

/// The postcondition holds of each value that may be drawn.
fn each_drawn(
    alloc: Global,
    sampling: &Last<'_>,
    side: Side,
    post: &Form,
) -> Result<Form, AllocError>
    ensures { IfOk result (λ made. made ≡ each_drawn side (sampling_of sampling.now) post.now) }
{
    let post = with_value(alloc, sampling, side, post)?;
    let from = located(alloc, sampling.from, side)?;
    for_support(alloc, sampling.ty, &from, post)
}

/// What is to hold before a sampling on a side, so that the postcondition holds after it. Where the distribution may lose weight, some
/// value has to be drawn.
fn before_drawing(
    alloc: Global,
    scope: &Scope,
    sampling: &Last<'_>,
    side: Side,
    post: &Form,
) -> Result<Form, AllocError>
    ensures { IfOk result (λ made. made ≡ before_drawing scope.now side (sampling_of sampling.now) post.now) }
{
    let each = each_drawn(alloc, sampling, side, post)?;
    let full = full_operators(alloc, scope)?;
    let loses = may_lose(sampling.from, scope, full.as_slice());
    surely_if(alloc, loses, sampling, side, each)
}

/// The goal without the sampling that ends the body on which the rule acts.
fn by_end(
    alloc: Global,
    goal: &Sequent,
    scope: &Scope,
    one: &OneBody<'_>,
) -> Result<Sequents, Refused>
    ensures { Answers (each_concluding goal.now (by_end scope.now (one_seen one.now) (last_sampling one.now.list.now))) result }
{
    let Some(sampling) = last_sampling(one.list) else {
        return Err(no_shape());
    };
    let side = side_of(one.around);
    let excluded = exclusions(alloc, scope)?;
    if first_clash(excluded.as_slice(), &side, sampling.target, one.post).is_some() {
        let target = copy_var(alloc, sampling.target)?;
        return Err(refusal(Why::SideCondition(target)));
    }
    let conclusion = without_sampling(alloc, scope, one, &sampling)?;
    Ok(one_goal(alloc, goal, conclusion)?)
}

/// The equivalence of what stands before a sampling.
fn without_sampling(
    alloc: Global,
    scope: &Scope,
    one: &OneBody<'_>,
    sampling: &Last<'_>,
) -> Result<Form, AllocError>
    ensures { IfOk result (λ made. made ≡ form_of (filled one.now.around (sampling_of sampling.now).before one.now.pre.now
        (before_drawing scope.now (side_of one.now.around) (sampling_of sampling.now) one.now.post.now))) }
{
    let post = before_drawing(alloc, scope, sampling, side_of(one.around), one.post)?;
    let pre = one.pre.share()?;
    let rest = rest_of(alloc, sampling)?;
    filled(alloc, one.around, rest, pre, post)
}

/// The subgoal, or a refusal that has no place yet.
fn drawn(alloc: Global, goal: &Sequent, scope: &Scope, acts: Acts) -> Result<Sequents, Refused>
    ensures { Answers (answered (drawn_row scope.now acts) goal.now) result }
{
    match acts {
        Acts::All => Err(no_shape()),
        _ => match one_body(acts, goal_of(&goal.conclusion)) {
            Some(one) => by_end(alloc, goal, scope, &one),
            None => Err(no_shape()),
        },
    }
}

/// The subgoal of `rnd` on one of two bodies, which ends with a sampling: the sampling leaves, and the postcondition is asked of each
/// value that it may draw; where it may lose weight, also that some value is drawn. Refused with `Shape` at any other goal, and with
/// `SideCondition` where the postcondition reads a variable that clashes with the target.
pub fn drawn_rule(
    alloc: Global,
    goal: &Sequent,
    scope: &Scope,
    acts: Acts,
    place: Place,
) -> Result<Sequents, Refused>
    ensures { Answers (stepped (drawn_row scope.now acts) place goal.now) result }
{
    let made = drawn(alloc, goal, scope, acts);
    placed(made, place)
}
