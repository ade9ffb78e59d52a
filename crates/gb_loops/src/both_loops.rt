// `while` on two bodies.

ghost use Rattle.std.specs.Prelude.{◌≡◌, filter, Some, IfOk, map};
ghost use Rattle.std.specs.Option.{option_copied};
ghost use Rattle.gb_goal.specs.Answers.{Answers};
ghost use Rattle.gb_goal.specs.Goal.{form_of};
ghost use Rattle.gb_goal.specs.Goal.Code.{body};
ghost use Rattle.gb_goal.specs.Goal.Goal.{equiv};
ghost use Rattle.gb_goal.specs.Rows.{concluding, each_concluding};
ghost use Rattle.gb_typing.specs.Forms.{implies_form};
ghost use Rattle.gb_walk.specs.Clash.{least_from};
ghost use Rattle.gb_prog.specs.Assigned.{is_clashing};
ghost use Rattle.gb_loops.specs.LastLoop.{loop_seen};
ghost use Rattle.gb_loops.specs.While.{at_both_ends, before_both, both_goals, by_both, clashing_both, in_step, turning_both};

use crate::last_loop::Last;
use crate::read::{all_values, read_in};
use gb_call::call::side_condition;
use gb_core::refusal::Refused;
use gb_core::var::Var;
use gb_forms::loops::written;
use gb_goal::goal::equiv;
use gb_goal::scope::Scope;
use gb_goal::sequent::{Sequent, Sequents};
use gb_mods::exclusions::exclusions;
use gb_prog::forms::located;
use gb_prog::subgoals::{no_shape, shared_body, two_goals};
use gb_terms::make::{conjunction, equality, implication, negation};
use gb_terms::op::Side;
use gb_terms::term::{Form, Instr};
use gb_walk::clash::{Excluded, first_clash, lesser};
use sqlite_items::Items;
use std::alloc::{AllocError, Global};

/// The loops at the ends of two bodies, their invariant, and the conditions of the bodies.
#[derive(Clone, Copy)]
pub struct Loops<'a> {
    pub left: Last<'a>,
    pub right: Last<'a>,
    pub invariant: &'a Form,
    pub pre: &'a Form,
    pub post: &'a Form,
}

/// The invariant holds, and the guards are equal.
fn in_step(alloc: Global, loops: &Loops<'_>) -> Result<Form, AllocError>
    ensures { IfOk result (λ made. made ≡ in_step loops.now.invariant.now (loop_seen loops.now.left) (loop_seen loops.now.right)) }
{
    let here = located(alloc, loops.left.guard, Side::Left)?;
    let there = located(alloc, loops.right.guard, Side::Right)?;
    let equal = equality(alloc, here, there)?;
    let invariant = loops.invariant.share()?;
    conjunction(alloc, invariant, equal)
}

/// The invariant and both guards.
fn turning_both(alloc: Global, loops: &Loops<'_>) -> Result<Form, AllocError>
    ensures { IfOk result (λ made. made ≡ turning_both loops.now.invariant.now (loop_seen loops.now.left) (loop_seen loops.now.right)) }
{
    let here = located(alloc, loops.left.guard, Side::Left)?;
    let invariant = loops.invariant.share()?;
    let left = conjunction(alloc, invariant, here)?;
    let there = located(alloc, loops.right.guard, Side::Right)?;
    conjunction(alloc, left, there)
}

/// The invariant holds and both guards are false.
fn ended(alloc: Global, loops: &Loops<'_>) -> Result<Form, AllocError>
    ensures { IfOk result (λ made. implies_form made loops.now.post.now ≡ at_both_ends loops.now.invariant.now (loop_seen loops.now.left) (loop_seen loops.now.right) loops.now.post.now) }
{
    let here = located(alloc, loops.left.guard, Side::Left)?;
    let here = negation(alloc, here)?;
    let invariant = loops.invariant.share()?;
    let left = conjunction(alloc, invariant, here)?;
    let there = located(alloc, loops.right.guard, Side::Right)?;
    let there = negation(alloc, there)?;
    conjunction(alloc, left, there)
}

/// Where the invariant holds and both guards are false, the postcondition is to hold.
fn at_both_ends(alloc: Global, loops: &Loops<'_>) -> Result<Form, AllocError>
    ensures { IfOk result (λ made. made ≡ at_both_ends loops.now.invariant.now (loop_seen loops.now.left) (loop_seen loops.now.right) loops.now.post.now) }
{
    let ended = ended(alloc, loops)?;
    let post = loops.post.share()?;
    implication(alloc, ended, post)
}

/// The loops are in step, and for all values of the variables that they write, the postcondition holds where they end.
fn before_both(
    alloc: Global,
    loops: &Loops<'_>,
    ends: &Form,
    left: &[Var],
    right: &[Var],
) -> Result<Form, AllocError>
    requires { ends.now ≡ at_both_ends loops.now.invariant.now (loop_seen loops.now.left) (loop_seen loops.now.right) loops.now.post.now }
    ensures { IfOk result (λ made. made ≡ before_both loops.now.invariant.now (loop_seen loops.now.left) (loop_seen loops.now.right) loops.now.post.now left.now right.now) }
{
    let read = read_in(alloc, Items::new(alloc), Side::Left, ends, left)?;
    let read = read_in(alloc, read, Side::Right, ends, right)?;
    let all = all_values(alloc, read.as_slice(), ends)?;
    let in_step = in_step(alloc, loops)?;
    conjunction(alloc, in_step, all)
}

/// The equivalence of two lists of statements.
fn of_two(
    alloc: Global,
    left: &[Instr],
    right: &[Instr],
    pre: Form,
    post: Form,
) -> Result<Form, AllocError>
    ensures { IfOk result (λ made. made ≡ form_of (equiv (body left.now) (body right.now) pre post)) }
{
    let left = shared_body(alloc, left)?;
    let right = shared_body(alloc, right)?;
    equiv(alloc, left, right, pre, post)
}

/// Turns beside each other keep the loops in step, and what stands before the loops leads to where they may begin.
fn both_goals(
    alloc: Global,
    goal: &Sequent,
    loops: &Loops<'_>,
    ends: &Form,
    left: &[Var],
    right: &[Var],
) -> Result<Sequents, AllocError>
    requires { ends.now ≡ at_both_ends loops.now.invariant.now (loop_seen loops.now.left) (loop_seen loops.now.right) loops.now.post.now }
    ensures { IfOk result (λ made. made ≡ map (concluding goal.now) (both_goals loops.now.invariant.now loops.now.pre.now loops.now.post.now (loop_seen loops.now.left) (loop_seen loops.now.right) left.now right.now)) }
{
    let (here, there) = (loops.left, loops.right);
    let pre = turning_both(alloc, loops)?;
    let post = in_step(alloc, loops)?;
    let turn = of_two(
        alloc,
        here.body.list.as_slice(),
        there.body.list.as_slice(),
        pre,
        post,
    )?;
    let post = before_both(alloc, loops, ends, left, right)?;
    let front = of_two(alloc, here.before, there.before, loops.pre.share()?, post)?;
    two_goals(alloc, goal, turn, front)
}

/// The lesser of what was found before and the least of these variables with which another one clashes that the form reads.
fn clashing_from<'a>(
    found: Option<&'a Var>,
    exclusions: &[Excluded],
    side: Side,
    list: &'a [Var],
    form: &Form,
) -> Option<&'a Var>
    ensures { option_copied result ≡ least_from (option_copied found.entry) (filter (is_clashing exclusions.now side form.now) list.now) }
{
    let mut least = found;
    for variable in list {
        if first_clash(exclusions, &side, variable, form).is_some() {
            least = lesser(least, variable);
        }
    }
    least
}

/// The least variable that is replaced and with which another one clashes that the form reads in its memory.
fn clashing_both<'a>(
    exclusions: &[Excluded],
    left: &'a [Var],
    right: &'a [Var],
    form: &Form,
) -> Option<&'a Var>
    ensures { option_copied result ≡ clashing_both exclusions.now left.now right.now form.now }
{
    let found = clashing_from(None, exclusions, Side::Left, left, form);
    clashing_from(found, exclusions, Side::Right, right, form)
}

/// The goals of the loops at the ends of two bodies.
pub fn by_both(
    alloc: Global,
    goal: &Sequent,
    scope: &Scope,
    loops: &Loops<'_>,
) -> Result<Sequents, Refused>
    ensures { Answers (each_concluding goal.now (by_both scope.now loops.now.invariant.now loops.now.pre.now loops.now.post.now (Some (loop_seen loops.now.left)) (Some (loop_seen loops.now.right)))) result }
{
    let Some(left) = written(alloc, loops.left.body.list.as_slice(), scope)? else {
        return Err(no_shape());
    };
    let Some(right) = written(alloc, loops.right.body.list.as_slice(), scope)? else {
        return Err(no_shape());
    };
    let ends = at_both_ends(alloc, loops)?;
    let (left, right) = (left.as_slice(), right.as_slice());
    let excluded = exclusions(alloc, scope)?;
    if let Some(var) = clashing_both(excluded.as_slice(), left, right, &ends) {
        return Err(side_condition(alloc, var));
    }
    Ok(both_goals(alloc, goal, loops, &ends, left, right)?)
}
