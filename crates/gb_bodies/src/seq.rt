//! The rule `seq`.

ghost use Rattle.std.specs.Prelude.{◌≡◌, IfOk};
ghost use Rattle.gb_terms.specs.declared.term.Term.{Term};
ghost use Rattle.gb_steps.specs.declared.step.Cut.{Cut as Position};
ghost use Rattle.gb_steps.specs.declared.step.Cut.TheVariants.{One, Two};
ghost use Rattle.gb_goal.specs.Answers.{Answers};
ghost use Rattle.gb_goal.specs.Goal.Code.{body};
ghost use Rattle.gb_goal.specs.Goal.Goal.{hoare, equiv};
ghost use Rattle.gb_goal.specs.Goal.{form_of};
ghost use Rattle.gb_goal.specs.Rows.{answered, each_concluding};
ghost use Rattle.gb_typing.specs.Context.{Context};
ghost use Rattle.gb_typing.specs.Rules.{IsSoundRule};
ghost use Rattle.gb_bodies.specs.Seq.{seq_row, IsTypedCut};

use crate::goals::of_two;
use gb_core::refusal::{Refused, Why};
use gb_forms::cuts::cut_bodies;
use gb_goal::goal::{Code, Goal, goal_of, hoare};
use gb_goal::sequent::{Sequent, Sequents};
use gb_prog::subgoals::{no_shape, refusal, shared_body, two_goals};
use gb_steps::step::Cut;
use gb_terms::term::{Form, Instr};
use std::alloc::{AllocError, Global};

/// The judgment of one body from a condition to another.
fn of_one(alloc: Global, list: &[Instr], pre: &Form, post: &Form) -> Result<Form, AllocError>
    ensures { IfOk result (λ made. made ≡ form_of (hoare (body list.now) pre.now post.now)) }
{
    let list = shared_body(alloc, list)?;
    let pre = pre.share()?;
    let post = post.share()?;
    hoare(alloc, list, pre, post)
}

/// The goals of the parts of a body.
fn one_cut(
    alloc: Global,
    goal: &Sequent,
    count: u128,
    list: &[Instr],
    pre: &Form,
    between: &Form,
    post: &Form,
) -> Result<Sequents, Refused>
    ensures { Answers (each_concluding goal.now (seq_row (One count) between.now (hoare (body list.now) pre.now post.now))) result }
{
    if count > list.len() as u128 {
        return Err(refusal(Why::Argument));
    }
    let (first, rest) = list.split_at(count as usize);
    let first = of_one(alloc, first, pre, between)?;
    let rest = of_one(alloc, rest, between, post)?;
    Ok(two_goals(alloc, goal, first, rest)?)
}

/// The goals of the parts of two bodies.
fn two_cut(
    alloc: Global,
    goal: &Sequent,
    counts: (u128, u128),
    lists: (&[Instr], &[Instr]),
    pre: &Form,
    between: &Form,
    post: &Form,
) -> Result<Sequents, Refused>
    ensures { Answers (each_concluding goal.now (seq_row (Two counts.0 counts.1) between.now (equiv (body lists.entry.0.now) (body lists.entry.1.now) pre.now post.now))) result }
{
    let (here, there) = counts;
    let (left, right) = lists;
    if here > left.len() as u128 || there > right.len() as u128 {
        return Err(refusal(Why::Argument));
    }
    let (first, rest) = cut_bodies(left, right, here as usize, there as usize);
    let first = of_two(alloc, first.left, first.right, pre, between.share()?)?;
    let rest = of_two(alloc, rest.left, rest.right, between, post.share()?)?;
    Ok(two_goals(alloc, goal, first, rest)?)
}

/// The subgoals of `seq`: what is said between the parts of each body holds after the first, and the rest leads from there to the
/// postcondition. Refused with `Shape` where the goal hasn't as many bodies as the cut, and with `Argument` where a part is longer
/// than its body.
pub fn seq(
    alloc: Global,
    goal: &Sequent,
    position: Cut,
    between: &Form,
) -> Result<Sequents, Refused>
    ensures { Answers (answered (seq_row position between.now) goal.now) result }
{
    match (position, goal_of(&goal.conclusion)) {
        (Cut::One(count), Goal::Hoare(Code::Body(list), pre, post)) => {
            one_cut(alloc, goal, count, list, pre, between, post)
        }
        (Cut::Two(here, there), Goal::Equiv(Code::Body(left), Code::Body(right), pre, post)) => {
            let lists = (left, right);
            two_cut(alloc, goal, (here, there), lists, pre, between, post)
        }
        _ => Err(no_shape()),
    }
}

/// `seq k : (R)` and `seq k l : (R)` are sound.
pub fn seq_is_sound()
    ensures { (c : Context) (k : Position) (r : Term) → IsSoundRule c (seq_row k r) (IsTypedCut c k r) }
{}
