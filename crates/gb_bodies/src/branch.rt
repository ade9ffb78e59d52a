//! The rule `if`.

ghost use Rattle.std.specs.Prelude.{◌≡◌, ◌++◌, if◌then◌else◌, Some, IfOk};
ghost use Rattle.std.specs.Option.{option_map};
ghost use Rattle.gb_steps.specs.declared.step.Acts.{Acts as Programs};
ghost use Rattle.gb_goal.specs.Answers.{Answers};
ghost use Rattle.gb_goal.specs.Answers.Answer.{given};
ghost use Rattle.gb_goal.specs.Goal.{form_of};
ghost use Rattle.gb_goal.specs.Goal.Code.{body};
ghost use Rattle.gb_goal.specs.Goal.Goal.{equiv};
ghost use Rattle.gb_goal.specs.Rows.{answered, each_concluding};
ghost use Rattle.gb_goal.specs.Views.{goal_seen};
ghost use Rattle.gb_typing.specs.Context.{Context};
ghost use Rattle.gb_typing.specs.Forms.{and_form, equal_form, every_pair, implies_form, located, not_form};
ghost use Rattle.gb_typing.specs.Rules.{IsSoundRule, no_arguments};
ghost use Rattle.gb_bodies.specs.If.{branch_seen, first_branch, if_both, if_row, of_both, of_one, where_false, where_true};
ghost use Rattle.gb_prog.specs.OneBody.{filled, side_of};

use crate::goals::three_goals;
use gb_core::SharedItems;
use gb_core::refusal::Refused;
use gb_goal::goal::{Code, Goal, equiv, goal_of};
use gb_goal::sequent::{Sequent, Sequents};
use gb_prog::forms::{every_pair, located};
use gb_prog::one_body::{Around, OneBody, filled, one_body, side_of};
use gb_prog::subgoals::{no_shape, two_goals};
use gb_steps::step::Acts;
use gb_terms::make::{conjunction, equality, implication, negation};
use gb_terms::op::Side;
use gb_terms::share::share_instrs;
use gb_terms::term::{Cmd, Form, Instr, Term};
use std::alloc::{AllocError, Global};

/// A branch, and what follows it.
#[derive(Clone, Copy)]
pub struct Branch<'a> {
    pub test: &'a Term,
    pub if_true: &'a Cmd,
    pub if_false: &'a Cmd,
    pub rest: &'a [Instr],
}

/// The branch that a body begins with.
fn first_branch(body: &[Instr]) -> Option<Branch<'_>>
    ensures { option_map branch_seen result ≡ first_branch body.now }
{
    match body {
        [Instr::If(test, if_true, if_false), rest @ ..] => Some(Branch {
            test,
            if_true,
            if_false,
            rest,
        }),
        _ => None,
    }
}

/// Statements and further ones behind them.
fn behind(alloc: Global, first: &[Instr], rest: &[Instr]) -> Result<SharedItems<Instr>, AllocError>
    ensures { IfOk result (λ made. made ≡ first.now ++ rest.now) }
{
    let mut list = share_instrs(alloc, first)?;
    let rest = share_instrs(alloc, rest)?;
    list.append(rest)?;
    SharedItems::new(alloc, list)
}

/// A precondition and the test of a branch, or its negation.
fn tested(
    alloc: Global,
    pre: &Form,
    branch: &Branch<'_>,
    side: Side,
    holds: bool,
) -> Result<Form, AllocError>
    ensures { IfOk result (λ made. made ≡
        and_form pre.now (if holds then located side branch.now.test.now else not_form (located side branch.now.test.now))) }
{
    let mut test = located(alloc, branch.test, side)?;
    if !holds {
        test = negation(alloc, test)?;
    }
    conjunction(alloc, pre.share()?, test)
}

/// The goal with the chosen side of a branch in its place.
fn chosen(
    alloc: Global,
    one: &OneBody<'_>,
    branch: &Branch<'_>,
    holds: bool,
) -> Result<Form, AllocError>
    ensures { IfOk result (λ made. made ≡ form_of (filled one.now.around
        (if holds then where_true (branch_seen branch.now) else where_false (branch_seen branch.now))
        (and_form one.now.pre.now (if holds then located (side_of one.now.around) branch.now.test.now else not_form (located (side_of one.now.around) branch.now.test.now)))
        one.now.post.now)) }
{
    let side = if holds {
        branch.if_true
    } else {
        branch.if_false
    };
    let list = behind(alloc, side.list.as_slice(), branch.rest)?;
    let pre = tested(alloc, one.pre, branch, side_of(one.around), holds)?;
    let post = one.post.share()?;
    filled(alloc, one.around, list, pre, post)
}

/// The goals of both sides of a branch.
fn one_branch(alloc: Global, goal: &Sequent, one: &OneBody<'_>) -> Result<Sequents, Refused>
    ensures { Answers (each_concluding goal.now (of_one (λ is p. filled one.now.around is p one.now.post.now) (side_of one.now.around) one.now.pre.now
        (first_branch one.now.list.now))) result }
{
    let Some(branch) = first_branch(one.list) else {
        return Err(no_shape());
    };
    let yes = chosen(alloc, one, &branch, true)?;
    let no = chosen(alloc, one, &branch, false)?;
    Ok(two_goals(alloc, goal, yes, no)?)
}

/// The tests of two branches are equal from each two related memories.
fn agreeing(
    alloc: Global,
    left: &Branch<'_>,
    right: &Branch<'_>,
    pre: &Form,
) -> Result<Form, AllocError>
    ensures { IfOk result (λ made. made ≡ every_pair (implies_form pre.now (equal_form (located Side.Left left.now.test.now) (located Side.Right right.now.test.now)))) }
{
    let here = located(alloc, left.test, Side::Left)?;
    let there = located(alloc, right.test, Side::Right)?;
    let equal = equality(alloc, here, there)?;
    let form = implication(alloc, pre.share()?, equal)?;
    every_pair(alloc, form)
}

/// The equivalence with the chosen sides of two branches in their places.
fn chosen_both(
    alloc: Global,
    left: &Branch<'_>,
    right: &Branch<'_>,
    pre: &Form,
    post: &Form,
    holds: bool,
) -> Result<Form, AllocError>
    ensures { IfOk result (λ made. made ≡ form_of (if holds
        then equiv (body (where_true (branch_seen left.now))) (body (where_true (branch_seen right.now))) (and_form pre.now (located Side.Left left.now.test.now)) post.now
        else equiv (body (where_false (branch_seen left.now))) (body (where_false (branch_seen right.now))) (and_form pre.now (not_form (located Side.Left left.now.test.now))) post.now)) }
{
    let (here, there) = if holds {
        (left.if_true, right.if_true)
    } else {
        (left.if_false, right.if_false)
    };
    let pre = tested(alloc, pre, left, Side::Left, holds)?;
    let post = post.share()?;
    let here = behind(alloc, here.list.as_slice(), left.rest)?;
    let there = behind(alloc, there.list.as_slice(), right.rest)?;
    equiv(alloc, here, there, pre, post)
}

/// The goals of two branches whose tests are equal.
fn both_branches(
    alloc: Global,
    goal: &Sequent,
    left: &Branch<'_>,
    right: &Branch<'_>,
    pre: &Form,
    post: &Form,
) -> Result<Sequents, AllocError>
    ensures { IfOk result (λ goals. each_concluding goal.now (of_both pre.now post.now (Some (branch_seen left.now, branch_seen right.now))) ≡ given goals) }
{
    let agreeing = agreeing(alloc, left, right, pre)?;
    let yes = chosen_both(alloc, left, right, pre, post, true)?;
    let no = chosen_both(alloc, left, right, pre, post, false)?;
    three_goals(alloc, goal, agreeing, yes, no)
}

/// The goals of the branches that two bodies begin with, where a step acts on two.
fn two_branches(alloc: Global, goal: &Sequent, acts: Acts, seen: Goal) -> Result<Sequents, Refused>
    ensures { Answers (each_concluding goal.now (if_both acts (goal_seen seen.entry))) result }
{
    match (acts, seen) {
        (Acts::All, Goal::Equiv(Code::Body(left), Code::Body(right), pre, post)) => {
            match (first_branch(left), first_branch(right)) {
                (Some(left), Some(right)) => {
                    Ok(both_branches(alloc, goal, &left, &right, pre, post)?)
                }
                _ => Err(no_shape()),
            }
        }
        _ => Err(no_shape()),
    }
}

/// The subgoals of `if`: each side of the branch that a body begins with, where its test is true and where it is false. On two
/// bodies the tests are to be equal. Refused with `Shape` where no branch stands first.
pub fn if_rule(alloc: Global, goal: &Sequent, acts: Acts) -> Result<Sequents, Refused>
    ensures { Answers (answered (if_row acts) goal.now) result }
{
    let seen = goal_of(&goal.conclusion);
    match one_body(acts, seen) {
        Some(one) => one_branch(alloc, goal, &one),
        None => two_branches(alloc, goal, acts, seen),
    }
}

/// `if`, and `if` on one of two programs, are sound.
pub fn if_is_sound()
    ensures { (c : Context) (a : Programs) → IsSoundRule c (if_row a) no_arguments }
{}
