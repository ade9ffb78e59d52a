// Conclusions of which nothing is to be shown.

ghost use Rattle.std.specs.Prelude.{◌≡◌, ◌⊎◌, ◌↔◌, [], ◌∷◌, IfOk, IsTrue};
ghost use Rattle.gb_goal.specs.Answers.Answer.{given, refused};
ghost use Rattle.gb_core.specs.declared.refusal.Why.TheVariants.{Shape};
ghost use Rattle.gb_terms.specs.declared.op.Op.TheVariants.{And, Implies};
ghost use Rattle.gb_terms.specs.declared.term.Term.{out-Term};
ghost use Rattle.gb_terms.specs.declared.term.Head.TheVariants.{All, AllMemory, Builtin};
ghost use Rattle.gb_amb.specs.Closed.{IsAmong, IsClosed, IsClosedAt, IsClosedWithin, IsEvident, IsOneTwice};
ghost use Rattle.gb_amb.specs.Steps.{Decides, Returns};

use crate::assumed::is_among;
use crate::goals::{alone, no_shape};
use crate::introduced::{with_memory, with_premise, with_variable};
use crate::quantified::goal_quantifies_modules;
use gb_core::Shared;
use gb_core::name::Name;
use gb_core::place::Place;
use gb_core::refusal::Refused;
use gb_core::ty::Ty;
use gb_goal::sequent::{Sequent, Sequents};
use gb_terms::make::boolean;
use gb_terms::nodes::nodes_of;
use gb_terms::op::Op;
use gb_terms::same::same;
use gb_terms::term::{Form, Head, Term};
use sqlite_items::Items;
use std::alloc::{AllocError, Global};

/// Whether this is an equation or an equivalence of a term with itself.
fn is_one_twice(head: &Head, args: &[Term]) -> bool
    ensures { IsTrue result ↔ IsOneTwice head.now args.now }
{
    match (head, args) {
        (Head::Builtin(Op::Equal), [a, b]) => same(a, b),
        (Head::Builtin(Op::Iff), [a, b]) => same(a, b),
        _ => false,
    }
}

/// Whether the goal is evident, by the literals `true` and `false`.
fn is_evident_by(goal: &Sequent, truth: &Form, falsity: &Form) -> bool
    ensures { IsTrue result ↔ ((goal.now.conclusion ≡ truth.now) ⊎ (IsAmong goal.now.hyps falsity.now ⊎ (IsAmong goal.now.hyps goal.now.conclusion
        ⊎ IsOneTwice (out-Term goal.now.conclusion).head (out-Term goal.now.conclusion).args))) }
{
    let conclusion = &goal.conclusion;
    let hyps = goal.hyps.as_slice();
    same(conclusion, truth)
        || (is_among(hyps, falsity)
            || (is_among(hyps, conclusion)
                || is_one_twice(conclusion.head.get(), conclusion.args.as_slice())))
}

fn is_evident(alloc: Global, goal: &Sequent) -> Result<bool, AllocError>
    ensures { IfOk result (λ evident. IsTrue evident ↔ IsEvident goal.now) }
{
    let truth = boolean(alloc, true)?;
    let falsity = boolean(alloc, false)?;
    Ok(is_evident_by(goal, &truth, &falsity))
}

/// Whether the goal is closed once so many layers of its conclusion are taken apart at most.
#[cycle(closed)]
fn is_closed_within(alloc: Global, layers: u64, goal: &Sequent) -> Result<bool, AllocError>
    ensures { IfOk result (λ closed. IsTrue closed ↔ IsClosedWithin layers goal.now) }
{
    if layers == 0 {
        return is_evident(alloc, goal);
    }
    let head = goal.conclusion.head.get();
    is_closed_at(
        alloc,
        layers - 1,
        goal,
        head,
        goal.conclusion.args.as_slice(),
    )
}

/// The same of a goal with a conclusion of this head and these arguments, of which one layer is taken apart besides.
#[cycle(closed)]
fn is_closed_at(
    alloc: Global,
    layers: u64,
    goal: &Sequent,
    head: &Head,
    args: &[Term],
) -> Result<bool, AllocError>
    ensures { IfOk result (λ closed. IsTrue closed ↔ IsClosedAt (IsClosedWithin layers) goal.now head.now args.now) }
{
    match head {
        Head::All(ty) => of_value(alloc, layers, goal, ty, args),
        Head::AllMemory => of_memory(alloc, layers, goal, args),
        Head::Builtin(op) => of_operator(alloc, layers, goal, op, args),
        _ => is_evident(alloc, goal),
    }
}

/// .. with an operator in front.
#[cycle(closed)]
fn of_operator(
    alloc: Global,
    layers: u64,
    goal: &Sequent,
    op: &Op,
    args: &[Term],
) -> Result<bool, AllocError>
    ensures { IfOk result (λ closed. IsTrue closed ↔ IsClosedAt (IsClosedWithin layers) goal.now (Builtin op.now) args.now) }
{
    match op {
        Op::Implies => of_premise(alloc, layers, goal, args),
        Op::And => of_sides(alloc, layers, goal, args),
        _ => is_evident(alloc, goal),
    }
}

/// .. that is to be shown for each value of a type.
#[cycle(closed)]
fn of_value(
    alloc: Global,
    layers: u64,
    goal: &Sequent,
    ty: &Shared<Ty>,
    args: &[Term],
) -> Result<bool, AllocError>
    ensures { IfOk result (λ closed. IsTrue closed ↔ IsClosedAt (IsClosedWithin layers) goal.now (All ty.now) args.now) }
{
    match args {
        [body] => {
            if goal_quantifies_modules(goal) {
                return is_evident(alloc, goal);
            }
            let unnamed = Name::new(String::new(alloc));
            let wider = with_variable(alloc, &unnamed, ty, body, goal)?;
            is_closed_within(alloc, layers, &wider)
        }
        _ => is_evident(alloc, goal),
    }
}

/// .. for each memory.
#[cycle(closed)]
fn of_memory(alloc: Global, layers: u64, goal: &Sequent, args: &[Term]) -> Result<bool, AllocError>
    ensures { IfOk result (λ closed. IsTrue closed ↔ IsClosedAt (IsClosedWithin layers) goal.now AllMemory args.now) }
{
    match args {
        [body] => {
            if goal_quantifies_modules(goal) {
                return is_evident(alloc, goal);
            }
            let unnamed = Name::new(String::new(alloc));
            let wider = with_memory(alloc, &unnamed, body, goal)?;
            is_closed_within(alloc, layers, &wider)
        }
        _ => is_evident(alloc, goal),
    }
}

/// .. under a premise.
#[cycle(closed)]
fn of_premise(alloc: Global, layers: u64, goal: &Sequent, args: &[Term]) -> Result<bool, AllocError>
    ensures { IfOk result (λ closed. IsTrue closed ↔ IsClosedAt (IsClosedWithin layers) goal.now (Builtin Implies) args.now) }
{
    match args {
        [premise, rest] => {
            let unnamed = Name::new(String::new(alloc));
            let wider = with_premise(alloc, &unnamed, premise, rest, goal)?;
            is_closed_within(alloc, layers, &wider)
        }
        _ => is_evident(alloc, goal),
    }
}

/// .. of a conjunction.
#[cycle(closed)]
fn of_sides(alloc: Global, layers: u64, goal: &Sequent, args: &[Term]) -> Result<bool, AllocError>
    ensures { IfOk result (λ closed. IsTrue closed ↔ IsClosedAt (IsClosedWithin layers) goal.now (Builtin And) args.now) }
{
    match args {
        [left, right] => of_both(alloc, layers, goal, left, right),
        _ => is_evident(alloc, goal),
    }
}

/// .. of both sides of a conjunction.
#[cycle(closed)]
fn of_both(
    alloc: Global,
    layers: u64,
    goal: &Sequent,
    left: &Form,
    right: &Form,
) -> Result<bool, AllocError>
    ensures { IfOk result (λ closed. IsTrue closed ↔ IsClosedAt (IsClosedWithin layers) goal.now (Builtin And) (left.now ∷ right.now ∷ [])) }
{
    let first = goal.with_conclusion(left.share()?)?;
    if !is_closed_within(alloc, layers, &first)? {
        return Ok(false);
    }
    let second = goal.with_conclusion(right.share()?)?;
    is_closed_within(alloc, layers, &second)
}

/// Whether nothing is to be shown of the goal, once its conclusion is taken apart. One with more nodes than there are numbers doesn't
/// fit in memory, and so counts as a want of it.
fn is_closed(alloc: Global, goal: &Sequent) -> Result<bool, AllocError>
    ensures { IfOk result (λ closed. IsTrue closed ↔ IsClosed goal.now) }
{
    let layers = nodes_of(&goal.conclusion);
    if layers == u64::MAX {
        return Err(AllocError);
    }
    is_closed_within(alloc, layers, goal)
}

/// No goals, where nothing is to be shown; else the goal.
pub fn trivial(alloc: Global, goal: &Sequent) -> Result<Sequents, Refused>
    ensures { Returns (Decides (IsClosed goal.now) (given []) (given (goal.now ∷ []))) result }
{
    if is_closed(alloc, goal)? {
        return Ok(Items::new(alloc));
    }
    let same = goal.share()?;
    Ok(alone(alloc, same)?)
}

/// No goals, where nothing is to be shown.
pub fn done(alloc: Global, place: Place, goal: &Sequent) -> Result<Sequents, Refused>
    ensures { Returns (Decides (IsClosed goal.now) (given []) (refused Shape place)) result }
{
    if is_closed(alloc, goal)? {
        return Ok(Items::new(alloc));
    }
    Err(no_shape(place))
}
