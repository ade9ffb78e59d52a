//! The rule `while`.

ghost use Rattle.std.specs.Prelude.{◌≡◌, Some, IfOk, map};
ghost use Rattle.gb_goal.specs.Answers.{Answers};
ghost use Rattle.gb_goal.specs.Goal.{form_of};
ghost use Rattle.gb_goal.specs.Rows.{answered, concluding, each_concluding, stepped};
ghost use Rattle.gb_goal.specs.Scope.{Declarations};
ghost use Rattle.gb_goal.specs.declared.sequent.Sequent.{Sequent as TypedSequent};
ghost use Rattle.gb_meaning.specs.Declared.{declared};
ghost use Rattle.gb_steps.specs.declared.step.Acts.{Acts as Programs};
ghost use Rattle.gb_terms.specs.declared.term.Term.{Term as TypedTerm};
ghost use Rattle.gb_typing.specs.Scopes.{context_of, IsTypedScope};
ghost use Rattle.gb_typing.specs.Sequents.{of_sequent, IsTypedSequent};
ghost use Rattle.gb_prog.specs.OneBody.{one_seen, side_of};
ghost use Rattle.gb_prog.specs.Ends.{IsSoundLoopRule};
ghost use Rattle.gb_loops.specs.LastLoop.{last_loop, loop_seen};
ghost use Rattle.gb_loops.specs.While.{at_end, before_loop, by_loop, is_certain, kept_weight, loop_goals, turning, while_row, IsTypedInvariant};

use crate::both_loops::{Loops, by_both};
use crate::last_loop::{Last, last_loop};
use crate::read::{all_values, read_in};
use gb_call::call::side_condition;
use gb_core::place::Place;
use gb_core::refusal::Refused;
use gb_core::var::Var;
use gb_forms::loops::{leads_out, turn_goal, written};
use gb_full::loss::first_loss;
use gb_full::lossless::full;
use gb_goal::goal::{Code, Goal, goal_of};
use gb_goal::scope::Scope;
use gb_goal::sequent::{Sequent, Sequents};
use gb_mods::exclusions::exclusions;
use gb_prog::assigned::clashing;
use gb_prog::compared::literal;
use gb_prog::forms::located;
use gb_prog::one_body::{Around, OneBody, filled, side_of};
use gb_prog::subgoals::{no_shape, placed, shared_body, two_goals};
use gb_steps::step::{Acts, Invariant};
use gb_terms::make::conjunction;
use gb_terms::op::{Rel, Side};
use gb_terms::term::{Form, Instr, RealTerm};
use sqlite_items::Items;
use std::alloc::{AllocError, Global};

/// A loop at the end of a body, with its invariant.
#[derive(Clone, Copy)]
pub struct Loop<'a> {
    pub last: Last<'a>,
    pub invariant: &'a Form,
}

/// The invariant and the guard.
fn turning(alloc: Global, side: Side, turned: &Loop<'_>) -> Result<Form, AllocError>
    ensures { IfOk result (λ made. made ≡ turning side turned.now.invariant.now (loop_seen turned.now.last)) }
{
    let guard = located(alloc, turned.last.guard, side)?;
    let invariant = turned.invariant.share()?;
    conjunction(alloc, invariant, guard)
}

/// Where the invariant holds and the guard is false, this is to hold.
fn at_end(alloc: Global, side: Side, turned: &Loop<'_>, post: &Form) -> Result<Form, AllocError>
    ensures { IfOk result (λ made. made ≡ at_end side turned.now.invariant.now (loop_seen turned.now.last) post.now) }
{
    leads_out(alloc, side, turned.last.guard, turned.invariant, post)
}

/// The invariant holds, and for all values of the variables that the loop writes, so does what is to hold at its end.
fn before_loop(
    alloc: Global,
    side: Side,
    turned: &Loop<'_>,
    post: &Form,
    ends: &Form,
    list: &[Var],
) -> Result<Form, AllocError>
    requires { ends.now ≡ at_end side turned.now.invariant.now (loop_seen turned.now.last) post.now }
    ensures { IfOk result (λ made. made ≡ before_loop side turned.now.invariant.now (loop_seen turned.now.last) post.now list.now) }
{
    let read = read_in(alloc, Items::new(alloc), side, ends, list)?;
    let all = all_values(alloc, read.as_slice(), ends)?;
    let invariant = turned.invariant.share()?;
    conjunction(alloc, invariant, all)
}

/// What stands before the loop leads to where it may begin.
fn front_goal(
    alloc: Global,
    one: &OneBody<'_>,
    list: &[Instr],
    post: Form,
) -> Result<Form, AllocError>
    ensures { IfOk result (λ made. made ≡ form_of ((one_seen one.now).goal list.now one.now.pre.now post)) }
{
    let list = shared_body(alloc, list)?;
    let pre = one.pre.share()?;
    filled(alloc, one.around, list, pre, post)
}

/// Each turn keeps the invariant, and what stands before the loop leads to where it may begin.
fn loop_goals(
    alloc: Global,
    goal: &Sequent,
    one: &OneBody<'_>,
    turned: &Loop<'_>,
    ends: &Form,
    list: &[Var],
) -> Result<Sequents, AllocError>
    requires { ends.now ≡ at_end (side_of one.now.around) turned.now.invariant.now (loop_seen turned.now.last) one.now.post.now }
    ensures { IfOk result (λ made. made ≡ map (concluding goal.now) (loop_goals (one_seen one.now) turned.now.invariant.now (loop_seen turned.now.last) list.now)) }
{
    let side = side_of(one.around);
    let pre = turning(alloc, side, turned)?;
    let body = turned.last.body.list.as_slice();
    let turn = turn_goal(alloc, side, turned.invariant, body, pre)?;
    let post = before_loop(alloc, side, turned, one.post, ends, list)?;
    let front = front_goal(alloc, one, turned.last.before, post)?;
    two_goals(alloc, goal, turn, front)
}

/// Refuses a turn that may lose weight, where none may be lost.
fn kept_weight(
    alloc: Global,
    scope: &Scope,
    lossless: bool,
    turned: &Loop<'_>,
) -> Result<(), Refused>
    ensures { Answers (kept_weight scope.now lossless (loop_seen turned.now.last)) result }
{
    if lossless {
        let lost = first_loss(alloc, scope, turned.last.body.list.as_slice())?;
        full(alloc, lost)
    } else {
        Ok(())
    }
}

/// The goals of a loop at the end of a body.
fn by_last(
    alloc: Global,
    goal: &Sequent,
    scope: &Scope,
    lossless: bool,
    one: &OneBody<'_>,
    turned: &Loop<'_>,
) -> Result<Sequents, Refused>
    ensures { Answers (each_concluding goal.now (by_loop scope.now lossless (one_seen one.now) turned.now.invariant.now (Some (loop_seen turned.now.last)))) result }
{
    let Some(list) = written(alloc, turned.last.body.list.as_slice(), scope)? else {
        return Err(no_shape());
    };
    let side = side_of(one.around);
    let ends = at_end(alloc, side, turned, one.post)?;
    let excluded = exclusions(alloc, scope)?;
    if let Some(var) = clashing(excluded.as_slice(), side, list.as_slice(), &ends) {
        return Err(side_condition(alloc, var));
    }
    kept_weight(alloc, scope, lossless, turned)?;
    Ok(loop_goals(alloc, goal, one, turned, &ends, list.as_slice())?)
}

/// The goals of the loop that a body ends with.
fn by_loop(
    alloc: Global,
    goal: &Sequent,
    scope: &Scope,
    lossless: bool,
    one: &OneBody<'_>,
    invariant: &Form,
) -> Result<Sequents, Refused>
    ensures { Answers (each_concluding goal.now (by_loop scope.now lossless (one_seen one.now) invariant.now (last_loop one.now.list.now))) result }
{
    let Some(last) = last_loop(one.list) else {
        return Err(no_shape());
    };
    let turned = Loop { last, invariant };
    by_last(alloc, goal, scope, lossless, one, &turned)
}

/// Whether a bound can be met by what is certain alone.
fn is_certain(rel: Rel, bound: &RealTerm) -> bool
    ensures { result ≡ is_certain rel bound.now }
{
    match rel {
        Rel::AtLeast => true,
        Rel::Equal => literal(bound) == Some(1),
        Rel::AtMost => false,
    }
}

/// The subgoals of `while` on a body that ends with a loop: each turn keeps the invariant, and what stands before the loop leads to where the
/// invariant holds, and where for all values of the variables that the loop writes the postcondition holds if the invariant does and the
/// guard is false. With a probability the bound has to be one that what is certain meets. Refused with `Shape` at any other goal, and at a loop
/// of which it isn't known what it writes; with `SideCondition` where a form reads a variable that clashes with one that is replaced;
/// with `NotLossless` where the loop may lose weight and may not.
pub fn while_loop(
    alloc: Global,
    goal: &Sequent,
    scope: &Scope,
    acts: Acts,
    invariant: &Form,
) -> Result<Sequents, Refused>
    ensures { Answers (answered (while_row scope.now acts invariant.now) goal.now) result }
{
    match (acts, goal_of(&goal.conclusion)) {
        (Acts::All, Goal::Hoare(Code::Body(list), pre, post)) => {
            let around = Around::Alone;
            let one = OneBody {
                around,
                list,
                pre,
                post,
            };
            by_loop(alloc, goal, scope, false, &one, invariant)
        }
        (Acts::All, Goal::Phoare(Code::Body(list), rel, pre, post, bound)) => {
            if !is_certain(rel, bound) {
                return Err(no_shape());
            }
            let around = Around::Bounded(rel, bound);
            let one = OneBody {
                around,
                list,
                pre,
                post,
            };
            by_loop(alloc, goal, scope, true, &one, invariant)
        }
        (Acts::Left, Goal::Equiv(Code::Body(list), Code::Body(right), pre, post)) => {
            let around = Around::Left(right);
            let one = OneBody {
                around,
                list,
                pre,
                post,
            };
            by_loop(alloc, goal, scope, false, &one, invariant)
        }
        (Acts::Right, Goal::Equiv(Code::Body(left), Code::Body(list), pre, post)) => {
            let around = Around::Right(left);
            let one = OneBody {
                around,
                list,
                pre,
                post,
            };
            by_loop(alloc, goal, scope, false, &one, invariant)
        }
        (Acts::All, Goal::Equiv(Code::Body(left), Code::Body(right), pre, post)) => {
            let (Some(left), Some(right)) = (last_loop(left), last_loop(right)) else {
                return Err(no_shape());
            };
            let loops = Loops {
                left,
                right,
                invariant,
                pre,
                post,
            };
            by_both(alloc, goal, scope, &loops)
        }
        _ => Err(no_shape()),
    }
}

/// The subgoals of a step of `while` at a place, in order. Refused as `while_loop` says, at this place.
pub fn apply(
    alloc: Global,
    kept: &Invariant,
    place: Place,
    goal: &Sequent,
    scope: &Scope,
) -> Result<Sequents, Refused>
    ensures { Answers (stepped (while_row scope.now kept.now.acts kept.now.kept) place goal.now) result }
{
    let made = while_loop(alloc, goal, scope, kept.acts, &kept.kept);
    placed(made, place)
}

/// `while` is sound over each typed scope, at the goal of each typed sequent, where the loops end that the goal reaches.
pub fn while_is_sound()
    ensures { (ds : Declarations) → IsTypedScope (declared ds) → (q : TypedSequent) (t : IsTypedSequent (context_of (declared ds)) q) (a : Programs) (v : TypedTerm) →
        IsSoundLoopRule (declared ds) (of_sequent (context_of (declared ds)) q t.frames) (while_row ds a v) (IsTypedInvariant (of_sequent (context_of (declared ds)) q t.frames) v) }
{}
