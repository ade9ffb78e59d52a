//! The rule `inline`.

ghost use Rattle.gb_goal.specs.Answers.{Answers};
ghost use Rattle.gb_goal.specs.Rows.{answered, each_concluding};
ghost use Rattle.gb_goal.specs.Views.{goal_seen};
ghost use Rattle.gb_inline.specs.Inlined as specs;

use crate::inlined::{Asking, inlined};
use gb_core::refusal::Refused;
use gb_goal::goal::{Code, Goal, goal_of};
use gb_goal::scope::Scope;
use gb_goal::sequent::{Sequent, Sequents};
use gb_prog::one_body::{Around, OneBody, one_body, side_of};
use gb_prog::subgoals::no_shape;
use gb_steps::step::{Acts, Calls};
use gb_terms::op::Side;
use gb_terms::term::{Form, Instr, Instrs};
use gb_trans::transformed::with_body;
use std::alloc::Global;

/// The equivalence with other statements in place of one body at least.
fn both_inlined<'a>(
    alloc: Global,
    goal: &Sequent,
    conditions: (&'a Form, &'a Form),
    bodies: (&'a [Instr], &'a [Instr]),
    left: Option<Instrs>,
    right: Option<Instrs>,
) -> Result<Sequents, Refused>
    ensures { Answers (each_concluding goal.now (specs.both_inlined conditions.entry.0.now conditions.entry.1.now bodies.entry.0.now bodies.entry.1.now left right)) result }
{
    let (pre, post) = conditions;
    let Some(made) = left else {
        let Some(made) = right else {
            return Err(no_shape());
        };
        let one = OneBody {
            around: Around::Right(bodies.0),
            list: bodies.1,
            pre,
            post,
        };
        return with_body(alloc, goal, &one, made);
    };
    let beside = match &right {
        Some(list) => list.as_slice(),
        None => bodies.1,
    };
    let one = OneBody {
        around: Around::Left(beside),
        list: bodies.0,
        pre,
        post,
    };
    with_body(alloc, goal, &one, made)
}

/// The subgoal on two bodies.
fn inline_both(
    alloc: Global,
    scope: &Scope,
    goal: &Sequent,
    acts: Acts,
    calls: &Calls,
    seen: Goal,
) -> Result<Sequents, Refused>
    ensures { Answers (each_concluding goal.now (specs.inline_both scope.now calls.now acts (goal_seen seen.entry))) result }
{
    match (acts, seen) {
        (Acts::All, Goal::Equiv(Code::Body(one), Code::Body(other), pre, post)) => {
            let side = Side::Left;
            let asks = Asking {
                scope,
                calls,
                side,
                pre,
                post,
            };
            let left = inlined(alloc, &asks, one)?;
            let side = Side::Right;
            let asks = Asking {
                scope,
                calls,
                side,
                pre,
                post,
            };
            let right = inlined(alloc, &asks, other)?;
            both_inlined(alloc, goal, (pre, post), (one, other), left, right)
        }
        _ => Err(no_shape()),
    }
}

/// The subgoal of `inline`: bodies stand in place of the calls that are asked for. Refused with `Shape` where the goal has no such body, or
/// where there is no such call in it, or in neither of two.
pub fn inline(
    alloc: Global,
    scope: &Scope,
    goal: &Sequent,
    acts: Acts,
    calls: &Calls,
) -> Result<Sequents, Refused>
    ensures { Answers (answered (specs.inline_row scope.now calls.now acts) goal.now) result }
{
    let seen = goal_of(&goal.conclusion);
    let Some(one) = one_body(acts, seen) else {
        return inline_both(alloc, scope, goal, acts, calls, seen);
    };
    let asks = Asking {
        scope,
        calls,
        side: side_of(one.around),
        pre: one.pre,
        post: one.post,
    };
    let Some(list) = inlined(alloc, &asks, one.list)? else {
        return Err(no_shape());
    };
    with_body(alloc, goal, &one, list)
}
