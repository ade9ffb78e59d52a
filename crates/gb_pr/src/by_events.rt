//! The rules on two probabilities of one procedure by their events, and on the bounds that every probability keeps.

ghost use Rattle.std.specs.Prelude.{◌≡◌, ◌&&◌, IfOk, map};
ghost use Rattle.gb_goal.specs.Answers.{Answers};
ghost use Rattle.gb_goal.specs.Rows.{answered, concluding, each_concluding};
ghost use Rattle.gb_prog.specs.Same.{is_same};
ghost use Rattle.gb_steps.specs.Chances.{bounded_of, chances_of};
ghost use Rattle.gb_steps.specs.Views.{chance_seen, compared_seen};
ghost use Rattle.gb_pr.specs.ByEvents.{by_events_goals, by_events_of, by_events_row, ending, is_kept, same_rel, same_start, within_of, within_row};

use gb_core::Shared;
use gb_core::refusal::Refused;
use gb_core::ty::Ty;
use gb_goal::goal::{Goal, goal_of};
use gb_goal::sequent::{Sequent, Sequents};
use gb_prog::compared::literal;
use gb_prog::forms::{every, likely};
use gb_prog::subgoals::{no_shape, one_goal};
use gb_steps::chances::{Chance, Compared, bounded_of, chances_of};
use gb_terms::make::{boolean, term};
use gb_terms::op::{Rel, Side};
use gb_terms::same::same;
use gb_terms::share::share_terms;
use gb_terms::term::{Form, Head, RealTerm, Term};
use sqlite_items::Items;
use std::alloc::{AllocError, Global};

fn same_rel(a: Rel, b: Rel) -> bool
    ensures { result ≡ same_rel a b }
{
    a == b
}

fn is_same(a: &Term, b: &Term) -> bool
    ensures { result ≡ is_same a.now b.now }
{
    same(a, b)
}

/// The probability that the procedure ends at all.
fn ending(alloc: Global, chance: &Chance<'_>) -> Result<RealTerm, AllocError>
    ensures { IfOk result (λ made. made ≡ ending (chance_seen chance.now)) }
{
    let procedure = chance.procedure.share()?;
    let mut args = share_terms(alloc, chance.arguments)?;
    args.push(boolean(alloc, true)?)?;
    let ty = Shared::new(alloc, Ty::Real)?;
    term(alloc, Head::Pr(procedure, chance.memory), args, ty)
}

/// Whether two probabilities are of one procedure, with the same arguments and from one memory.
fn same_start(alloc: Global, left: &Chance<'_>, right: &Chance<'_>) -> Result<bool, AllocError>
    ensures { IfOk result (λ yes. yes ≡ same_start (chance_seen left.now) (chance_seen right.now)) }
{
    let left = ending(alloc, left)?;
    let right = ending(alloc, right)?;
    Ok(is_same(&left, &right))
}

/// Whether two probabilities are of one procedure, with the same arguments and from one memory, and are so compared.
fn are_so_compared(alloc: Global, rel: Rel, compared: &Compared<'_>) -> Result<bool, AllocError>
    ensures { IfOk result (λ yes. yes ≡ (same_rel rel compared.now.rel && same_start (compared_seen compared.now).left (compared_seen compared.now).right)) }
{
    if !same_rel(rel, compared.rel) {
        return Ok(false);
    }
    same_start(alloc, &compared.left, &compared.right)
}

/// In every memory the events are so related as the comparison asks.
fn by_events_goals(
    alloc: Global,
    goal: &Sequent,
    compared: &Compared<'_>,
) -> Result<Sequents, AllocError>
    ensures { IfOk result (λ made. made ≡ map (concluding goal.now) (by_events_goals (compared_seen compared.now))) }
{
    let events = likely(
        alloc,
        compared.rel,
        compared.left.event,
        compared.right.event,
    )?;
    let conclusion = every(alloc, Side::Own, events)?;
    one_goal(alloc, goal, conclusion)
}

/// The goals of a form that compares two probabilities.
fn by_comparison(alloc: Global, goal: &Sequent, form: &Form, rel: Rel) -> Result<Sequents, Refused>
    ensures { Answers (each_concluding goal.now (by_events_of rel (chances_of form.now))) result }
{
    let Some(compared) = chances_of(form) else {
        return Err(no_shape());
    };
    if !are_so_compared(alloc, rel, &compared)? {
        return Err(no_shape());
    }
    Ok(by_events_goals(alloc, goal, &compared)?)
}

/// The subgoal of `rewrite Pr[mu_eq]` and `rewrite Pr[mu_sub]` at two probabilities of one procedure, with the same arguments and from
/// one memory, that are compared as the step asks: `Pr[M.f(a) @ &m : E] = Pr[M.f(a) @ &m : F]` for `mu_eq`, `<=` for `mu_sub`. In every
/// memory both events are equivalent for `=`, and the left one implies the right one for `<=`; the quantifier is left out where neither
/// reads the memory. It is what both laws do in EasyCrypt: one run of one program weighs both events, so that an event that implies
/// another one weighs no more.
/// Refused with `Shape` at any other goal; and where in an argument or in an event stands a probability, a judgment or a quantifier over
/// memories.
pub fn by_events_rule(alloc: Global, goal: &Sequent, rel: Rel) -> Result<Sequents, Refused>
    ensures { Answers (answered (by_events_row rel) goal.now) result }
{
    match goal_of(&goal.conclusion) {
        Goal::Ambient(form) => by_comparison(alloc, goal, form, rel),
        _ => Err(no_shape()),
    }
}

/// Whether a bound is one that every probability keeps, as it is asked for: 0 from below, 1 from above.
fn is_kept(asked: Rel, rel: Rel, bound: Option<i128>) -> bool
    ensures { result ≡ is_kept asked rel bound }
{
    matches!(
        (asked, rel, bound),
        (Rel::AtLeast, Rel::AtLeast, Some(0)) | (Rel::AtMost, Rel::AtMost, Some(1))
    )
}

/// No goals, where a form compares a probability with such a bound.
fn within_bound(alloc: Global, goal: &Sequent, form: &Form, rel: Rel) -> Result<Sequents, Refused>
    ensures { Answers (each_concluding goal.now (within_of rel (bounded_of form.now))) result }
{
    let Some(bounded) = bounded_of(form) else {
        return Err(no_shape());
    };
    if is_kept(rel, bounded.rel, literal(bounded.bound)) {
        return Ok(Items::new(alloc));
    }
    Err(no_shape())
}

/// No subgoals: `rewrite Pr[mu_ge0]` shows `0%r <= Pr[M.f(a) @ &m : E]`, and `rewrite Pr[mu_le1]` shows `Pr[M.f(a) @ &m : E] <= 1%r`, as both
/// laws do in EasyCrypt: no outcome weighs less than nothing, and all outcomes of a program together weigh no more than 1.
/// Refused with `Shape` at any other goal; and where in an argument stands a probability, a judgment or a quantifier over memories.
pub fn within_rule(alloc: Global, goal: &Sequent, rel: Rel) -> Result<Sequents, Refused>
    ensures { Answers (answered (within_row rel) goal.now) result }
{
    match goal_of(&goal.conclusion) {
        Goal::Ambient(form) => within_bound(alloc, goal, form, rel),
        _ => Err(no_shape()),
    }
}
