//! The rule `byphoare`.

ghost use Rattle.std.specs.Prelude.{◌≡◌, IfOk, map};
ghost use Rattle.gb_terms.specs.declared.op.Side.TheVariants.{Own};
ghost use Rattle.gb_goal.specs.Answers.{Answers};
ghost use Rattle.gb_goal.specs.Goal.{form_of};
ghost use Rattle.gb_goal.specs.Goal.Code.{procedure};
ghost use Rattle.gb_goal.specs.Goal.Goal.{phoare};
ghost use Rattle.gb_goal.specs.Rows.{answered, concluding, each_concluding};
ghost use Rattle.gb_walk.specs.Change.{term_changed};
ghost use Rattle.gb_typing.specs.Forms.{every};
ghost use Rattle.gb_prog.specs.Likely.{as_likely};
ghost use Rattle.gb_steps.specs.Chances.{bounded_of};
ghost use Rattle.gb_steps.specs.Views.{bounded_seen};
ghost use Rattle.gb_pr.specs.ByPhoare.{by_phoare_at, by_phoare_goals, by_phoare_row};
ghost use Rattle.gb_pr.specs.Started.{started};

use crate::started::started;
use gb_core::refusal::Refused;
use gb_goal::goal::{Goal, goal_of};
use gb_goal::scope::Scope;
use gb_goal::sequent::{Sequent, Sequents};
use gb_prog::forms::{every, likely};
use gb_prog::judged::phoare_of;
use gb_prog::subgoals::{no_shape, two_goals};
use gb_steps::chances::{Bounded, bounded_of};
use gb_steps::step::Conditions;
use gb_terms::decl::TypedName;
use gb_terms::op::Side;
use gb_terms::term::{Form, Subject};
use gb_walk::walk::changed;
use sqlite_items::Items;
use std::alloc::{AllocError, Global};

/// The procedure makes the postcondition as likely as the bound says, from where the precondition holds.
fn judged(alloc: Global, said: &Conditions, bounded: &Bounded<'_>) -> Result<Form, AllocError>
    ensures { IfOk result (λ made. made ≡ form_of (phoare (procedure bounded.now.chance.procedure.now) bounded.now.rel said.now.pre said.now.post bounded.now.bound.now)) }
{
    let subject = Subject::Proc(bounded.chance.procedure.share()?);
    let pre = said.pre.share()?;
    let post = said.post.share()?;
    let bound = bounded.bound.share()?;
    phoare_of(alloc, &subject, bounded.rel, pre, post, bound)
}

/// The precondition, of the arguments and the memory of the probability.
fn holds_before(
    alloc: Global,
    params: &[TypedName],
    said: &Conditions,
    bounded: &Bounded<'_>,
) -> Result<Form, AllocError>
    ensures { IfOk result (λ made. made ≡ term_changed said.now.pre (started Own params.now (bounded_seen bounded.now).chance)) }
{
    let changes = started(alloc, Items::new(alloc), Side::Own, params, &bounded.chance)?;
    changed(alloc, &said.pre, changes.as_slice())
}

/// In every memory the postcondition makes the event as likely as the relation asks.
fn leads_to_event(
    alloc: Global,
    said: &Conditions,
    bounded: &Bounded<'_>,
) -> Result<Form, AllocError>
    ensures { IfOk result (λ made. made ≡ every Own (as_likely bounded.now.rel bounded.now.chance.event.now said.now.post)) }
{
    let form = likely(alloc, bounded.rel, bounded.chance.event, &said.post)?;
    every(alloc, Side::Own, form)
}

/// The goals of a probability of a procedure with these parameters.
fn by_phoare_goals(
    alloc: Global,
    goal: &Sequent,
    params: &[TypedName],
    said: &Conditions,
    bounded: &Bounded<'_>,
) -> Result<Sequents, AllocError>
    ensures { IfOk result (λ made. made ≡ map (concluding goal.now) (by_phoare_goals params.now said.now (bounded_seen bounded.now))) }
{
    let first = judged(alloc, said, bounded)?;
    let second = holds_before(alloc, params, said, bounded)?;
    let mut goals = two_goals(alloc, goal, first, second)?;
    let third = leads_to_event(alloc, said, bounded)?;
    goals.push(goal.with_conclusion(third)?)?;
    Ok(goals)
}

/// The goals of a form that compares a probability with a bound.
fn by_form(
    alloc: Global,
    goal: &Sequent,
    form: &Form,
    said: &Conditions,
    scope: &Scope,
) -> Result<Sequents, Refused>
    ensures { Answers (each_concluding goal.now (by_phoare_at scope.now said.now (bounded_of form.now))) result }
{
    let Some(bounded) = bounded_of(form) else {
        return Err(no_shape());
    };
    let Some(declared) = scope.procedure(alloc, bounded.chance.procedure.get())? else {
        return Err(no_shape());
    };
    let params = declared.get().params.as_slice();
    Ok(by_phoare_goals(alloc, goal, params, said, &bounded)?)
}

/// The subgoals of `byphoare` at a probability that is compared with a bound: `Pr[M.f(a) @ &m : E]` by `<=` or `=`, or behind `r <=`, which
/// counts as `>=`. First the judgment that the procedure, from where the precondition holds, makes the postcondition as likely as the bound
/// says by the same relation; then the precondition, of the arguments in the places of the parameters and of the memory of the probability;
/// and that in every memory the event implies the postcondition for `<=`, the postcondition the event for `>=`, and they are equivalent for
/// `=`. It is what `byphoare` does in EasyCrypt: a probability is what a judgment says of the one memory from which the procedure starts.
/// Refused with `Shape` at any other goal; where the bound reads in a memory, or in it or in an argument stands a probability, a judgment or
/// a quantifier over memories; and at a procedure of what isn't declared.
pub fn by_phoare_rule(
    alloc: Global,
    goal: &Sequent,
    said: &Conditions,
    scope: &Scope,
) -> Result<Sequents, Refused>
    ensures { Answers (answered (by_phoare_row scope.now said.now) goal.now) result }
{
    match goal_of(&goal.conclusion) {
        Goal::Ambient(form) => by_form(alloc, goal, form, said, scope),
        _ => Err(no_shape()),
    }
}
