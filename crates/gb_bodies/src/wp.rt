//! The rule `wp`.

ghost use Rattle.std.specs.Prelude.{◌≡◌, ◌≤◌, length};
ghost use Rattle.gb_steps.specs.declared.step.Acts.{Acts as Programs};
ghost use Rattle.gb_goal.specs.Answers.{Answers};
ghost use Rattle.gb_goal.specs.Goal.Code.{body};
ghost use Rattle.gb_goal.specs.Rows.{answered, each_concluding};
ghost use Rattle.gb_goal.specs.Scope.{Declarations};
ghost use Rattle.gb_goal.specs.Views.{goal_seen};
ghost use Rattle.gb_meaning.specs.Declared.{declared};
ghost use Rattle.gb_typing.specs.Context.{Context};
ghost use Rattle.gb_typing.specs.Forms.{located};
ghost use Rattle.gb_typing.specs.Rules.{IsSoundRuleIn, no_arguments};
ghost use Rattle.gb_typing.specs.Scopes.{IsTypedScope};
ghost use Rattle.gb_prog.specs.Assigned.{assigned_form, clashing};
ghost use Rattle.gb_prog.specs.OneBody.{one_seen};
ghost use Rattle.gb_bodies.specs.Wp.{are_straight, before, before_all, front, is_straight, staying, unless_clash, wp_both, wp_one, wp_row};

use crate::goals::of_two;
use gb_core::copy::copy_var;
use gb_core::refusal::{Refused, Why};
use gb_core::var::Var;
use gb_forms::branches::by_test;
use gb_goal::goal::{Code, Goal, goal_of};
use gb_goal::scope::Scope;
use gb_goal::sequent::{Sequent, Sequents};
use gb_mods::exclusions::exclusions;
use gb_prog::assigned::{assigned_form, clashing};
use gb_prog::forms::located;
use gb_prog::one_body::{OneBody, filled, one_body, side_of};
use gb_prog::subgoals::{no_shape, one_goal, refusal, shared_body};
use gb_steps::step::Acts;
use gb_terms::op::Side;
use gb_terms::term::{Form, Instr, Term};
use gb_walk::clash::Excluded;
use std::alloc::Global;

/// More variables than a tuple has parts.
const MANY: usize = 9;

/// Whether a statement is an assignment to at most 8 variables, or a branch whose sides are made of such statements.
#[cycle(straight)]
fn is_straight(statement: &Instr) -> bool
    ensures { result ≡ is_straight statement.now }
{
    match statement {
        Instr::Assign(targets, _) => targets.len() < MANY,
        Instr::If(_, yes, no) => {
            are_straight(yes.list.as_slice()) && are_straight(no.list.as_slice())
        }
        _ => false,
    }
}

#[cycle(straight)]
fn are_straight(list: &[Instr]) -> bool
    ensures { result ≡ are_straight list.now }
{
    for statement in list {
        if !is_straight(statement) {
            return false;
        }
    }
    true
}

/// How many statements stay of a body: a statement leaves it if it is without chance, and all behind it leave.
fn staying(list: &[Instr]) -> usize
    ensures count { result ≡ staying list.now }
    ensures within { result ≤ length list.now }
{
    for k in 0..list.len() {
        let at = list.len() - 1 - k;
        if !is_straight(&list[at]) {
            return at + 1;
        }
    }
    0
}

/// What a form becomes in front of an assignment.
fn before_assign(
    alloc: Global,
    exclusions: &[Excluded],
    side: Side,
    targets: &[Var],
    value: &Term,
    post: &Form,
) -> Result<Form, Refused>
    ensures { Answers (unless_clash (clashing exclusions.now side targets.now post.now) (assigned_form side targets.now value.now post.now)) result }
{
    if let Some(target) = clashing(exclusions, side, targets, post) {
        let target = copy_var(alloc, target)?;
        return Err(refusal(Why::SideCondition(target)));
    }
    Ok(assigned_form(alloc, side, targets, value, post)?)
}

/// What has to hold before a statement without chance, so that a form holds after it.
#[cycle(wp)]
fn before(
    alloc: Global,
    exclusions: &[Excluded],
    side: Side,
    statement: &Instr,
    post: &Form,
) -> Result<Form, Refused>
    ensures { Answers (before exclusions.now side statement.now post.now) result }
{
    match statement {
        Instr::Assign(targets, value) => {
            before_assign(alloc, exclusions, side, targets.as_slice(), value, post)
        }
        Instr::If(test, yes, no) => {
            let yes = before_all(alloc, exclusions, side, yes.list.as_slice(), post)?;
            let no = before_all(alloc, exclusions, side, no.list.as_slice(), post)?;
            let test = located(alloc, test, side)?;
            Ok(by_test(alloc, test, yes, no)?)
        }
        _ => Err(no_shape()),
    }
}

/// The same of statements one after another.
#[cycle(wp)]
fn before_all(
    alloc: Global,
    exclusions: &[Excluded],
    side: Side,
    list: &[Instr],
    post: &Form,
) -> Result<Form, Refused>
    ensures { Answers (before_all exclusions.now side list.now post.now) result }
{
    let mut form = post.share()?;
    for k in 0..list.len() {
        let at = list.len() - 1 - k;
        form = before(alloc, exclusions, side, &list[at], &form)?;
    }
    Ok(form)
}

/// The subgoal on one body.
fn wp_one(
    alloc: Global,
    goal: &Sequent,
    exclusions: &[Excluded],
    one: &OneBody<'_>,
) -> Result<Sequents, Refused>
    ensures { Answers (each_concluding goal.now (wp_one exclusions.now (one_seen one.now))) result }
{
    let (front, ending) = one.list.split_at(staying(one.list));
    let post = before_all(alloc, exclusions, side_of(one.around), ending, one.post)?;
    let pre = one.pre.share()?;
    let list = shared_body(alloc, front)?;
    let conclusion = filled(alloc, one.around, list, pre, post)?;
    Ok(one_goal(alloc, goal, conclusion)?)
}

/// The subgoal on two bodies.
fn wp_both(
    alloc: Global,
    goal: &Sequent,
    exclusions: &[Excluded],
    acts: Acts,
    seen: Goal,
) -> Result<Sequents, Refused>
    ensures { Answers (each_concluding goal.now (wp_both exclusions.now acts (goal_seen seen.entry))) result }
{
    match (acts, seen) {
        (Acts::All, Goal::Equiv(Code::Body(left), Code::Body(right), pre, post)) => {
            let (left, left_ending) = left.split_at(staying(left));
            let (right, right_ending) = right.split_at(staying(right));
            let post = before_all(alloc, exclusions, Side::Left, left_ending, post)?;
            let post = before_all(alloc, exclusions, Side::Right, right_ending, &post)?;
            let conclusion = of_two(alloc, left, right, pre, post)?;
            Ok(one_goal(alloc, goal, conclusion)?)
        }
        _ => Err(no_shape()),
    }
}

/// The subgoal of `wp`: the assignments that end each body, and the branches between such, leave it, and the postcondition becomes
/// what has to hold before them. Refused with `Shape` where the goal has no such bodies, and with `SideCondition` where a form reads a
/// variable that clashes with one that is assigned.
pub fn wp(alloc: Global, goal: &Sequent, scope: &Scope, acts: Acts) -> Result<Sequents, Refused>
    ensures { Answers (answered (wp_row scope.now acts) goal.now) result }
{
    let excluded = exclusions(alloc, scope)?;
    let seen = goal_of(&goal.conclusion);
    match one_body(acts, seen) {
        Some(one) => wp_one(alloc, goal, excluded.as_slice(), &one),
        None => wp_both(alloc, goal, excluded.as_slice(), acts, seen),
    }
}

/// `wp`, and `wp` on one of two programs, are sound over each typed scope.
pub fn wp_is_sound()
    ensures { (ds : Declarations) → IsTypedScope (declared ds) → (c : Context) (a : Programs) → IsSoundRuleIn (declared ds) c (wp_row ds a) no_arguments }
{}
