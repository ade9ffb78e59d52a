// The rule `call` by what is known.

ghost use Rattle.std.specs.Prelude.{◌≡◌, ◌↔◌, IfOk, IsTrue, List};
ghost use Rattle.gb_goal.specs.Answers.{Answer, Answers};
ghost use Rattle.gb_goal.specs.Rows.{answered};
ghost use Rattle.gb_goal.specs.Views.{goal_seen};
ghost use Rattle.gb_goal.specs.declared.sequent.Sequent.{Sequent as Typed};
ghost use Rattle.gb_amb.specs.Steps.{Returns};
ghost use Rattle.gb_call_both.specs.Known.{CallsLast, IsAnswer, IsOfCalls, IsOfEquiv, IsOfHoare, IsOfPhoare, IsSure, behind_first, by_chances, by_conditions, contract};

use crate::call::call;
use crate::one_side::one_side;
use gb_call::last_call::last_call;
use gb_core::place::Place;
use gb_core::refusal::{Refused, Why};
use gb_goal::goal::{Code, Goal, goal_of};
use gb_goal::scope::Scope;
use gb_goal::sequent::{Sequent, Sequents};
use gb_prog::compared::literal;
use gb_prog::subgoals::{no_shape, placed};
use gb_steps::step::{Acts, Contract};
use gb_terms::module::ProcRef;
use gb_terms::op::Rel;
use gb_terms::same::{same, same_proc_ref, same_rel};
use gb_terms::term::{Form, Instr, RealTerm};
use std::alloc::{AllocError, Global};

/// Whether a body ends with a call of a procedure.
fn calls_last(body: &[Instr], procedure: &ProcRef) -> bool
    ensures { IsTrue result ↔ CallsLast body.now procedure.now }
{
    match last_call(body) {
        Some(last) => same_proc_ref(last.procedure.get(), procedure),
        None => false,
    }
}

/// Whether a judgment `hoare` of a procedure is one of what a goal calls last, where the rule acts on it.
fn is_of_hoare(acts: Acts, procedure: &ProcRef, goal: Goal<'_>) -> bool
    ensures { IsTrue result ↔ IsOfHoare acts procedure.now (goal_seen goal.entry) }
{
    match (acts, goal) {
        (Acts::All, Goal::Hoare(Code::Body(body), _, _)) => calls_last(body, procedure),
        (Acts::Left, Goal::Equiv(Code::Body(left), Code::Body(_), _, _)) => {
            calls_last(left, procedure)
        }
        (Acts::Right, Goal::Equiv(Code::Body(_), Code::Body(right), _, _)) => {
            calls_last(right, procedure)
        }
        _ => false,
    }
}

/// Whether a judgment is with probability 1.
fn is_sure(rel: Rel, bound: &RealTerm) -> bool
    ensures { IsTrue result ↔ IsSure rel bound.now }
{
    match (rel, literal(bound)) {
        (Rel::Equal, Some(number)) => number == 1,
        _ => false,
    }
}

/// The same of `phoare`, with its relation and its bound, or, on one of two bodies, with probability 1.
fn is_of_phoare(acts: Acts, procedure: &ProcRef, rel: Rel, bound: &RealTerm, goal: Goal<'_>) -> bool
    ensures { IsTrue result ↔ IsOfPhoare acts procedure.now rel bound.now (goal_seen goal.entry) }
{
    match (acts, goal) {
        (Acts::All, Goal::Phoare(Code::Body(body), other, _, _, asked)) => {
            calls_last(body, procedure) && same_rel(&rel, &other) && same(bound, asked)
        }
        (Acts::Left, Goal::Equiv(Code::Body(left), Code::Body(_), _, _)) => {
            calls_last(left, procedure) && is_sure(rel, bound)
        }
        (Acts::Right, Goal::Equiv(Code::Body(_), Code::Body(right), _, _)) => {
            calls_last(right, procedure) && is_sure(rel, bound)
        }
        _ => false,
    }
}

/// The same of `equiv`, where the rule acts on both bodies.
fn is_of_equiv(acts: Acts, left: &ProcRef, right: &ProcRef, goal: Goal<'_>) -> bool
    ensures { IsTrue result ↔ IsOfEquiv acts left.now right.now (goal_seen goal.entry) }
{
    match (acts, goal) {
        (Acts::All, Goal::Equiv(Code::Body(first), Code::Body(second), _, _)) => {
            calls_last(first, left) && calls_last(second, right)
        }
        _ => false,
    }
}

/// Whether a judgment is one of the procedures that the bodies of a goal call last on which the rule acts.
fn is_of_calls(acts: Acts, known: Goal<'_>, goal: Goal<'_>) -> bool
    ensures { IsTrue result ↔ IsOfCalls acts (goal_seen known.entry) (goal_seen goal.entry) }
{
    match known {
        Goal::Hoare(Code::Procedure(procedure), _, _) => is_of_hoare(acts, procedure, goal),
        Goal::Phoare(Code::Procedure(procedure), rel, _, _, bound) => {
            is_of_phoare(acts, procedure, rel, bound, goal)
        }
        Goal::Equiv(Code::Procedure(left), Code::Procedure(right), _, _) => {
            is_of_equiv(acts, left, right, goal)
        }
        _ => false,
    }
}

/// What a judgment says of a procedure.
fn contract(acts: Acts, pre: &Form, post: &Form) -> Result<Contract, AllocError>
    ensures { IfOk result (λ made. made ≡ contract acts pre.now post.now) }
{
    let pre = pre.share()?;
    let post = post.share()?;
    Ok(Contract { acts, pre, post })
}

/// The subgoals of `call` by the conditions of a judgment with a probability.
fn by_chances(
    alloc: Global,
    goal: &Sequent,
    acts: Acts,
    pre: &Form,
    post: &Form,
    bound: &RealTerm,
    scope: &Scope,
) -> Result<Sequents, Refused>
    ensures { Answers (answered (by_chances scope.now acts pre.now post.now bound.now) goal.now) result }
{
    let said = contract(acts, pre, post)?;
    match acts {
        Acts::All => call(alloc, goal, &said, scope),
        _ => {
            let seen = goal_of(&goal.conclusion);
            one_side(alloc, goal, scope, &said, Some(bound), seen)
        }
    }
}

/// The subgoals of `call` by the conditions of a judgment.
fn by_conditions(
    alloc: Global,
    goal: &Sequent,
    acts: Acts,
    known: Goal<'_>,
    scope: &Scope,
) -> Result<Sequents, Refused>
    ensures { Answers (answered (by_conditions scope.now acts (goal_seen known.entry)) goal.now) result }
{
    match known {
        Goal::Hoare(_, pre, post) | Goal::Equiv(_, _, pre, post) => {
            let said = contract(acts, pre, post)?;
            call(alloc, goal, &said, scope)
        }
        Goal::Phoare(_, _, pre, post, bound) => {
            by_chances(alloc, goal, acts, pre, post, bound, scope)
        }
        Goal::Ambient(_) => Err(no_shape()),
    }
}

/// All goals but the first.
fn behind_first(made: Result<Sequents, Refused>) -> Result<Sequents, Refused>
    ensures { (x : Answer (List Typed)) → Answers x made → Answers (behind_first x) result }
{
    let mut goals = made?;
    if !goals.is_empty() {
        let _first = goals.remove(0);
    }
    Ok(goals)
}

/// The subgoals of `call` by a judgment of the called procedures that is known, in order: those of `call` by its conditions without the
/// first one, which is what is known. Refused at the place of the step: with `Shape` where it is no judgment of the procedures that are
/// called last where the step acts, with the relation and the bound of the goal, or with probability 1 on one of two bodies, and else as
/// `call` is.
pub fn apply(
    alloc: Global,
    acts: Acts,
    judgment: &Form,
    place: Place,
    goal: &Sequent,
    scope: &Scope,
) -> Result<Sequents, Refused>
    ensures { Returns (IsAnswer scope.now acts judgment.now place goal.now) result }
{
    let known = goal_of(judgment);
    if !is_of_calls(acts, known, goal_of(&goal.conclusion)) {
        let why = Why::Shape;
        return Err(Refused::Script { why, place });
    }
    let made = by_conditions(alloc, goal, acts, known, scope);
    behind_first(placed(made, place))
}
