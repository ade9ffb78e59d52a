//! The rule `byequiv`.

ghost use Rattle.std.specs.Prelude.{◌≡◌, ◌++◌, IfOk, map};
ghost use Rattle.gb_terms.specs.declared.op.Side.TheVariants.{Left, Right};
ghost use Rattle.gb_goal.specs.Answers.{Answers};
ghost use Rattle.gb_goal.specs.Goal.{form_of};
ghost use Rattle.gb_goal.specs.Goal.Code.{procedure};
ghost use Rattle.gb_goal.specs.Goal.Goal.{equiv};
ghost use Rattle.gb_goal.specs.Rows.{answered, concluding, each_concluding};
ghost use Rattle.gb_walk.specs.Change.{term_changed};
ghost use Rattle.gb_typing.specs.Forms.{every_pair, implies_form};
ghost use Rattle.gb_steps.specs.Chances.{chances_of};
ghost use Rattle.gb_steps.specs.Views.{compared_seen};
ghost use Rattle.gb_pr.specs.ByEquiv.{beside, by_equiv_at, by_equiv_goals, by_equiv_row};
ghost use Rattle.gb_pr.specs.Started.{started};

use crate::started::started;
use gb_core::refusal::Refused;
use gb_goal::goal::{Goal, goal_of};
use gb_goal::scope::Scope;
use gb_goal::sequent::{Sequent, Sequents};
use gb_prog::forms::{every_pair, likely, located};
use gb_prog::judged::equiv_of;
use gb_prog::subgoals::{no_shape, two_goals};
use gb_steps::chances::{Compared, chances_of};
use gb_steps::step::Conditions;
use gb_terms::decl::TypedName;
use gb_terms::make::implication;
use gb_terms::op::Side;
use gb_terms::term::{Form, Subject};
use gb_walk::walk::changed;
use sqlite_items::Items;
use std::alloc::{AllocError, Global};

/// The equivalence of both procedures.
fn related(alloc: Global, said: &Conditions, compared: &Compared<'_>) -> Result<Form, AllocError>
    ensures { IfOk result (λ made. made ≡ form_of (equiv (procedure compared.now.left.procedure.now) (procedure compared.now.right.procedure.now) said.now.pre said.now.post)) }
{
    let left = Subject::Proc(compared.left.procedure.share()?);
    let right = Subject::Proc(compared.right.procedure.share()?);
    let pre = said.pre.share()?;
    let post = said.post.share()?;
    equiv_of(alloc, &left, &right, pre, post)
}

/// The precondition, of the arguments and the memories of both probabilities.
fn holds_before(
    alloc: Global,
    left: &[TypedName],
    right: &[TypedName],
    said: &Conditions,
    compared: &Compared<'_>,
) -> Result<Form, AllocError>
    ensures { IfOk result (λ made. made ≡ term_changed said.now.pre
        (started Left left.now (compared_seen compared.now).left ++ started Right right.now (compared_seen compared.now).right)) }
{
    let changes = started(alloc, Items::new(alloc), Side::Left, left, &compared.left)?;
    let changes = started(alloc, changes, Side::Right, right, &compared.right)?;
    changed(alloc, &said.pre, changes.as_slice())
}

/// How likely one event is beside the other.
fn beside(alloc: Global, compared: &Compared<'_>) -> Result<Form, AllocError>
    ensures { IfOk result (λ made. made ≡ beside (compared_seen compared.now)) }
{
    let left = located(alloc, compared.left.event, Side::Left)?;
    let right = located(alloc, compared.right.event, Side::Right)?;
    likely(alloc, compared.rel, &left, &right)
}

/// In every two memories the postcondition relates the events as the comparison asks.
fn relates_events(
    alloc: Global,
    said: &Conditions,
    compared: &Compared<'_>,
) -> Result<Form, AllocError>
    ensures { IfOk result (λ made. made ≡ every_pair (implies_form said.now.post (beside (compared_seen compared.now)))) }
{
    let events = beside(alloc, compared)?;
    let post = said.post.share()?;
    every_pair(alloc, implication(alloc, post, events)?)
}

/// The goals of probabilities of procedures with these parameters.
fn by_equiv_goals(
    alloc: Global,
    goal: &Sequent,
    left: &[TypedName],
    right: &[TypedName],
    said: &Conditions,
    compared: &Compared<'_>,
) -> Result<Sequents, AllocError>
    ensures { IfOk result (λ made. made ≡ map (concluding goal.now) (by_equiv_goals left.now right.now said.now (compared_seen compared.now))) }
{
    let first = related(alloc, said, compared)?;
    let second = holds_before(alloc, left, right, said, compared)?;
    let mut goals = two_goals(alloc, goal, first, second)?;
    let third = relates_events(alloc, said, compared)?;
    goals.push(goal.with_conclusion(third)?)?;
    Ok(goals)
}

/// The goals of a form that compares two probabilities.
fn by_form(
    alloc: Global,
    goal: &Sequent,
    form: &Form,
    said: &Conditions,
    scope: &Scope,
) -> Result<Sequents, Refused>
    ensures { Answers (each_concluding goal.now (by_equiv_at scope.now said.now (chances_of form.now))) result }
{
    let Some(compared) = chances_of(form) else {
        return Err(no_shape());
    };
    let Some(left) = scope.procedure(alloc, compared.left.procedure.get())? else {
        return Err(no_shape());
    };
    let Some(right) = scope.procedure(alloc, compared.right.procedure.get())? else {
        return Err(no_shape());
    };
    let left = left.get().params.as_slice();
    let right = right.get().params.as_slice();
    Ok(by_equiv_goals(alloc, goal, left, right, said, &compared)?)
}

/// The subgoals of `byequiv` at two probabilities that are compared by `<=` or `=`, `Pr[M.f(a) @ &m : E]` and `Pr[N.g(b) @ &n : F]`. First
/// the equivalence of both procedures with the conditions; then the precondition, of the arguments in the places of the parameters and of
/// the memories of both probabilities; and that in every two memories the postcondition implies that the event on the left implies the one
/// on the right for `<=`, and that they are equivalent for `=`. It is what `byequiv` does in EasyCrypt: both procedures end together in
/// related memories, so that where one event holds on the left the other one holds on the right, and no less often.
/// Refused with `Shape` at any other goal; where in an argument or in an event stands a probability, a judgment or a quantifier over
/// memories; and at a procedure of what isn't declared.
pub fn by_equiv_rule(
    alloc: Global,
    goal: &Sequent,
    said: &Conditions,
    scope: &Scope,
) -> Result<Sequents, Refused>
    ensures { Answers (answered (by_equiv_row scope.now said.now) goal.now) result }
{
    match goal_of(&goal.conclusion) {
        Goal::Ambient(form) => by_form(alloc, goal, form, said, scope),
        _ => Err(no_shape()),
    }
}
