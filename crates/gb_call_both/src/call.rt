//! The rule `call` on two bodies, by what a procedure on each side is said to do, on one of them, and on one body.

ghost use Rattle.std.specs.Prelude.{◌≡◌, IfOk, map};
ghost use Rattle.std.specs.Option.{option_copied, option_map};
ghost use Rattle.gb_goal.specs.Answers.{Answers};
ghost use Rattle.gb_goal.specs.Goal.{form_of};
ghost use Rattle.gb_goal.specs.Goal.Code.{body, procedure};
ghost use Rattle.gb_goal.specs.Goal.Goal.{equiv};
ghost use Rattle.gb_goal.specs.Rows.{answered, concluding, each_concluding};
ghost use Rattle.gb_goal.specs.Scope.{Declarations};
ghost use Rattle.gb_goal.specs.declared.sequent.Sequent.{Sequent as TypedSequent};
ghost use Rattle.gb_meaning.specs.Declared.{declared};
ghost use Rattle.gb_steps.specs.declared.step.Contract.{Contract as Said};
ghost use Rattle.gb_typing.specs.Scopes.{context_of, IsTypedScope};
ghost use Rattle.gb_typing.specs.Sequents.{of_sequent, IsTypedSequent};
ghost use Rattle.gb_typing.specs.Rules.{IsSoundRuleIn};
ghost use Rattle.gb_walk.specs.Clash.{variables_read};
ghost use Rattle.gb_call.specs.Call.{callee_of, callee_seen, left_of, outcome};
ghost use Rattle.gb_call.specs.LastCall.{call_seen};
ghost use Rattle.gb_call.specs.Outcomes.{globals_seen, outcome_seen};
ghost use Rattle.gb_call.specs.Written.{with_types};
ghost use Rattle.gb_call_both.specs.Call.{before_both, both_goals, by_both_globals, by_callees, call_row, clash_after_both, of_callees, IsTypedContract};

use crate::both::{Passed, after_both, of_both_arguments};
use crate::one_side::one_side;
use gb_call::call::{Callee, MANY, called, callee_of, known_call, read_after, side_condition};
use gb_call::last_call::{Last, last_call};
use gb_call::outcomes::{Outcome, clashing_after};
use gb_call::written::TypedGlobal;
use gb_core::refusal::Refused;
use gb_core::var::Var;
use gb_forms::calls::Reads;
use gb_goal::goal::{Code, Goal, equiv, goal_of};
use gb_goal::scope::Scope;
use gb_goal::sequent::{Sequent, Sequents};
use gb_mods::exclusions::exclusions;
use gb_prog::judged::equiv_of;
use gb_prog::subgoals::{no_shape, shared_body, two_goals};
use gb_steps::step::{Acts, Contract};
use gb_terms::make::conjunction;
use gb_terms::op::Side;
use gb_terms::term::{Form, Subject};
use gb_walk::clash::Excluded;
use std::alloc::{AllocError, Global};

/// A call, what is read after it on its side, and the globals that it writes and that are read.
#[derive(Clone, Copy)]
struct ReadCall<'a> {
    callee: &'a Callee<'a>,
    reads: &'a Reads,
    globals: &'a [TypedGlobal],
}

/// What the call changes on a side.
fn outcome<'a>(side: Side, called: &ReadCall<'a>) -> Outcome<'a>
    ensures { outcome_seen result ≡ outcome side (callee_seen called.now.callee.now) (globals_seen called.now.globals.now) }
{
    let callee = called.callee;
    let declared = callee.declared;
    Outcome {
        side,
        targets: callee.call.targets,
        result: &declared.result,
        globals: called.globals,
    }
}

/// What is passed to a callee.
fn passed<'a>(callee: &Callee<'a>) -> Passed<'a>
    ensures params { result.params.now ≡ (callee_seen callee.now).declared.params }
    ensures arguments { result.arguments.now ≡ (callee_seen callee.now).call.arguments }
{
    let declared = callee.declared;
    Passed {
        params: declared.params.as_slice(),
        arguments: callee.call.arguments,
    }
}

/// The precondition holds of the arguments of both, and the postcondition leads to what is to hold after both.
fn before_both(
    alloc: Global,
    left: &ReadCall<'_>,
    right: &ReadCall<'_>,
    contract: &Contract,
    post: &Form,
) -> Result<Form, AllocError>
    requires left_said { left.now.reads.now.said ≡ variables_read Side.Left contract.now.post }
    requires left_later { left.now.reads.now.after ≡ variables_read Side.Left post.now }
    requires right_said { right.now.reads.now.said ≡ variables_read Side.Right contract.now.post }
    requires right_later { right.now.reads.now.after ≡ variables_read Side.Right post.now }
    ensures { IfOk result (λ made. made ≡
        before_both (callee_seen left.now.callee.now) (globals_seen left.now.globals.now) (callee_seen right.now.callee.now) (globals_seen right.now.globals.now) contract.now post.now) }
{
    let here = passed(left.callee);
    let there = passed(right.callee);
    let holds = of_both_arguments(alloc, &here, &there, &contract.pre)?;
    let first = outcome(Side::Left, left);
    let second = outcome(Side::Right, right);
    let said = &contract.post;
    let leads = after_both(alloc, &first, left.reads, &second, right.reads, said, post)?;
    conjunction(alloc, holds, leads)
}

/// The procedures do what is said of them.
fn do_both(
    alloc: Global,
    left: &Callee<'_>,
    right: &Callee<'_>,
    contract: &Contract,
) -> Result<Form, AllocError>
    ensures { IfOk result (λ made. made ≡
        form_of (equiv (procedure (callee_seen left.now).call.procedure) (procedure (callee_seen right.now).call.procedure) contract.now.pre contract.now.post)) }
{
    let left = left.call.procedure.share()?;
    let right = right.call.procedure.share()?;
    let pre = contract.pre.share()?;
    let post = contract.post.share()?;
    let (first, second) = (Subject::Proc(left), Subject::Proc(right));
    equiv_of(alloc, &first, &second, pre, post)
}

/// What stands before the calls leads to where they may be called.
fn lead_both(
    alloc: Global,
    left: &Callee<'_>,
    right: &Callee<'_>,
    pre: &Form,
    post: Form,
) -> Result<Form, AllocError>
    ensures { IfOk result (λ made. made ≡ form_of (equiv (body (callee_seen left.now).call.before) (body (callee_seen right.now).call.before) pre.now post)) }
{
    let first = shared_body(alloc, left.call.before)?;
    let second = shared_body(alloc, right.call.before)?;
    let pre = pre.share()?;
    equiv(alloc, first, second, pre, post)
}

/// The subgoals of two calls.
fn both_goals(
    alloc: Global,
    goal: &Sequent,
    left: &ReadCall<'_>,
    right: &ReadCall<'_>,
    contract: &Contract,
    pre: &Form,
    post: &Form,
) -> Result<Sequents, AllocError>
    requires left_said { left.now.reads.now.said ≡ variables_read Side.Left contract.now.post }
    requires left_later { left.now.reads.now.after ≡ variables_read Side.Left post.now }
    requires right_said { right.now.reads.now.said ≡ variables_read Side.Right contract.now.post }
    requires right_later { right.now.reads.now.after ≡ variables_read Side.Right post.now }
    ensures { IfOk result (λ made. made ≡ map (concluding goal.now)
        (both_goals (callee_seen left.now.callee.now) (globals_seen left.now.globals.now) (callee_seen right.now.callee.now) (globals_seen right.now.globals.now) contract.now pre.now post.now)) }
{
    let before = before_both(alloc, left, right, contract, post)?;
    let first = do_both(alloc, left.callee, right.callee, contract)?;
    let second = lead_both(alloc, left.callee, right.callee, pre, before)?;
    two_goals(alloc, goal, first, second)
}

/// The subgoals of two calls of which it is known what is read after them.
fn by_both_globals(
    alloc: Global,
    goal: &Sequent,
    scope: &Scope,
    contract: &Contract,
    pre: &Form,
    post: &Form,
    left: &Callee<'_>,
    right: &Callee<'_>,
) -> Result<Sequents, Refused>
    ensures { Answers (each_concluding goal.now (by_both_globals (callee_seen left.now) (callee_seen right.now) contract.now pre.now post.now
        (with_types scope.now (left_of Side.Left (callee_seen left.now) contract.now post.now)) (with_types scope.now (left_of Side.Right (callee_seen right.now) contract.now post.now)))) result }
{
    let Some(here) = read_after(alloc, Side::Left, scope, left, contract, post)? else {
        return Err(no_shape());
    };
    let Some(there) = read_after(alloc, Side::Right, scope, right, contract, post)? else {
        return Err(no_shape());
    };
    let left = ReadCall {
        callee: left,
        reads: &here.reads,
        globals: here.globals.as_slice(),
    };
    let right = ReadCall {
        callee: right,
        reads: &there.reads,
        globals: there.globals.as_slice(),
    };
    Ok(both_goals(alloc, goal, &left, &right, contract, pre, post)?)
}

/// The least variable of a left side, or written global, with which another one clashes where it is replaced, on either side.
#[tactic(auto, using(crate::proofs::BothSteps::least_both))]
fn clash_after_both<'a>(
    exclusions: &[Excluded],
    left: &Callee<'a>,
    right: &Callee<'a>,
    contract: &Contract,
    post: &Form,
) -> Option<&'a Var>
    ensures { option_copied result ≡ clash_after_both exclusions.now (callee_seen left.now) (callee_seen right.now) contract.now post.now }
{
    let said = &contract.post;
    let found = clashing_after(
        None,
        exclusions,
        Side::Left,
        left.call.targets,
        left.written,
        said,
        post,
    );
    clashing_after(
        found,
        exclusions,
        Side::Right,
        right.call.targets,
        right.written,
        said,
        post,
    )
}

/// The subgoals of calls of two procedures.
fn by_callees(
    alloc: Global,
    goal: &Sequent,
    scope: &Scope,
    contract: &Contract,
    pre: &Form,
    post: &Form,
    left: &Callee<'_>,
    right: &Callee<'_>,
) -> Result<Sequents, Refused>
    ensures { Answers (each_concluding goal.now (by_callees scope.now contract.now pre.now post.now (callee_seen left.now) (callee_seen right.now))) result }
{
    if left.call.targets.len() >= MANY {
        return Err(no_shape());
    }
    if right.call.targets.len() >= MANY {
        return Err(no_shape());
    }
    let excluded = exclusions(alloc, scope)?;
    if let Some(var) = clash_after_both(excluded.as_slice(), left, right, contract, post) {
        return Err(side_condition(alloc, var));
    }
    by_both_globals(alloc, goal, scope, contract, pre, post, left, right)
}

/// The subgoals on two bodies that end with these calls.
fn of_callees(
    alloc: Global,
    goal: &Sequent,
    scope: &Scope,
    contract: &Contract,
    pre: &Form,
    post: &Form,
    left: Option<Last<'_>>,
    right: Option<Last<'_>>,
) -> Result<Sequents, Refused>
    ensures { Answers (each_concluding goal.now (of_callees scope.now contract.now pre.now post.now
        (callee_of scope.now (option_map call_seen left.entry)) (callee_of scope.now (option_map call_seen right.entry)))) result }
{
    let Some(left) = known_call(alloc, scope, left)? else {
        return Err(no_shape());
    };
    let Some(right) = known_call(alloc, scope, right)? else {
        return Err(no_shape());
    };
    let (left, right) = (callee_of(&left), callee_of(&right));
    by_callees(alloc, goal, scope, contract, pre, post, &left, &right)
}

/// The subgoals of `call` on a body that ends with a call, on two such bodies, or on one of two: the procedures do what is said of them, and what stands
/// before the calls leads to where its precondition holds of the arguments, and its postcondition leads to what is to hold after the calls,
/// for all results and all values of the globals that the procedures write. Refused with `Shape` at any other goal, and at a procedure of
/// which it isn't known what it writes; with `SideCondition` where a form reads a variable that clashes with one that is replaced; with
/// `NotLossless` where a probability is judged and what stands before the call may lose weight, but for `<=`, and where the procedure that one
/// of two bodies calls may lose weight.
pub fn call(
    alloc: Global,
    goal: &Sequent,
    contract: &Contract,
    scope: &Scope,
) -> Result<Sequents, Refused>
    ensures { Answers (answered (call_row scope.now contract.now) goal.now) result }
{
    let seen = goal_of(&goal.conclusion);
    match (seen, contract.acts) {
        (Goal::Equiv(Code::Body(left), Code::Body(right), pre, post), Acts::All) => {
            let (left, right) = (last_call(left), last_call(right));
            of_callees(alloc, goal, scope, contract, pre, post, left, right)
        }
        (Goal::Equiv(Code::Body(_), Code::Body(_), _, _), _) => {
            one_side(alloc, goal, scope, contract, None, seen)
        }
        _ => called(alloc, goal, scope, contract, seen),
    }
}

/// `call` is sound over each typed scope, at the goal of each typed sequent.
pub fn call_is_sound()
    ensures { (ds : Declarations) → IsTypedScope (declared ds) → (q : TypedSequent) (t : IsTypedSequent (context_of (declared ds)) q) (s : Said) →
        IsSoundRuleIn (declared ds) (of_sequent (context_of (declared ds)) q t.frames) (call_row ds s) (IsTypedContract (of_sequent (context_of (declared ds)) q t.frames) s) }
{}
