//! The rule `swap`.

ghost use Rattle.std.specs.Prelude.{◌≡◌, ◌≤◌, ◌+◌, ◌++◌, length, IfOk};
ghost use Rattle.std.specs.Option.{option_copied};
ghost use Rattle.gb_goal.specs.Answers.{Answers};
ghost use Rattle.gb_goal.specs.Rows.{answered};
ghost use Rattle.gb_goal.specs.Scope.{Declarations};
ghost use Rattle.gb_goal.specs.declared.sequent.Sequent.{Sequent as TypedSequent};
ghost use Rattle.gb_meaning.specs.Declared.{declared};
ghost use Rattle.gb_steps.specs.declared.step.Acts.{Acts as Said};
ghost use Rattle.gb_steps.specs.declared.step.Passing.{Passing as Passed};
ghost use Rattle.gb_typing.specs.Rules.{IsSoundRuleIn, no_arguments};
ghost use Rattle.gb_typing.specs.Scopes.{context_of, IsTypedScope};
ghost use Rattle.gb_typing.specs.Sequents.{of_sequent, IsTypedSequent};
ghost use Rattle.gb_mods.specs.Exclusions as excluding;
ghost use Rattle.gb_trans.specs.Effects as effect;
ghost use Rattle.gb_trans.specs.Swap.{apart, exchange, moved, swap_row, swapped, unless_crossing};

use crate::effects::{crossing, effects_of};
use crate::transformed::with_body;
use gb_core::copy::copy_var;
use gb_core::refusal::{Refused, Why};
use gb_core::var::Var;
use gb_goal::goal::goal_of;
use gb_goal::scope::Scope;
use gb_goal::sequent::{Sequent, Sequents};
use gb_mods::exclusions::exclusions;
use gb_prog::one_body::one_body;
use gb_prog::subgoals::{no_shape, refusal};
use gb_steps::step::{Acts, Passing};
use gb_terms::share::share_instrs;
use gb_terms::term::{Instr, Instrs};
use sqlite_items::Items;
use std::alloc::{AllocError, Global};

/// Statements behind others.
pub fn with_statements(alloc: Global, found: Instrs, list: &[Instr]) -> Result<Instrs, AllocError>
    ensures { IfOk result (λ made. made ≡ found ++ list.now) }
{
    let more = share_instrs(alloc, list)?;
    let mut all = found;
    all.append(more)?;
    Ok(all)
}

/// Two parts in each other's places.
fn exchanged(
    alloc: Global,
    before: &[Instr],
    first: &[Instr],
    second: &[Instr],
    rest: &[Instr],
) -> Result<Instrs, AllocError>
    ensures { IfOk result (λ made. made ≡ before.now ++ (second.now ++ (first.now ++ rest.now))) }
{
    let all = with_statements(alloc, Items::new(alloc), before)?;
    let all = with_statements(alloc, all, second)?;
    let all = with_statements(alloc, all, first)?;
    with_statements(alloc, all, rest)
}

/// Refuses the variable that was found, if any.
pub fn unless_crossing(alloc: Global, found: Option<&Var>) -> Result<(), Refused>
    ensures { Answers (unless_crossing (option_copied found.entry)) result }
{
    match found {
        Some(x) => Err(refusal(Why::SideCondition(copy_var(alloc, x)?))),
        None => Ok(()),
    }
}

/// Refuses two parts of which one writes a variable with which another one clashes that the other part reads or writes, with the least
/// such variable.
fn check_apart(
    alloc: Global,
    scope: &Scope,
    first: &[Instr],
    second: &[Instr],
) -> Result<(), Refused>
    ensures { Answers (apart (excluding.exclusions scope.now) (effect.effects_of scope.now first.now) (effect.effects_of scope.now second.now)) result }
{
    let excluded = exclusions(alloc, scope)?;
    let Some(one) = effects_of(alloc, scope, first)? else {
        return Err(no_shape());
    };
    let Some(other) = effects_of(alloc, scope, second)? else {
        return Err(no_shape());
    };
    unless_crossing(alloc, crossing(excluded.as_slice(), &one, &other))
}

/// The body in which two parts, of so many statements behind others, have exchanged their places.
fn exchange(
    alloc: Global,
    scope: &Scope,
    list: &[Instr],
    before: usize,
    first: usize,
    second: usize,
) -> Result<Instrs, Refused>
    requires { before + first + second ≤ length list.now }
    ensures { Answers (exchange scope.now before first second list.now) result }
{
    let (front, behind) = list.split_at(before);
    let (one, behind) = behind.split_at(first);
    let (other, rest) = behind.split_at(second);
    check_apart(alloc, scope, one, other)?;
    Ok(exchanged(alloc, front, one, other, rest)?)
}

/// The body in which the statement at a place that it has is moved.
fn moved(alloc: Global, scope: &Scope, swap: Passing, list: &[Instr]) -> Result<Instrs, Refused>
    requires within { swap.at ≤ length list.now }
    requires from_one { 1 ≤ swap.at }
    ensures { Answers (moved scope.now swap list.now) result }
{
    let before = swap.at - 1;
    if swap.front {
        if before < swap.by {
            return Err(refusal(Why::Argument));
        }
        let left = before - swap.by;
        return exchange(alloc, scope, list, left as usize, swap.by as usize, 1);
    }
    if list.len() as u128 - swap.at < swap.by {
        return Err(refusal(Why::Argument));
    }
    exchange(alloc, scope, list, before as usize, 1, swap.by as usize)
}

/// The body in which a statement is moved. Refused with `Argument` where it isn't there or leaves the body.
fn swapped(alloc: Global, scope: &Scope, swap: Passing, list: &[Instr]) -> Result<Instrs, Refused>
    ensures { Answers (swapped scope.now swap list.now) result }
{
    if swap.at < 1 || (list.len() as u128) < swap.at {
        return Err(refusal(Why::Argument));
    }
    moved(alloc, scope, swap, list)
}

/// The subgoal of `swap`: a statement of a body passes others. Refused with `Shape` where the goal has no such body, with `Argument`
/// where the statement isn't there or leaves the body, and with `SideCondition` where it doesn't commute with one that it passes.
pub fn swap(
    alloc: Global,
    scope: &Scope,
    goal: &Sequent,
    acts: Acts,
    swap: Passing,
) -> Result<Sequents, Refused>
    ensures { Answers (answered (swap_row scope.now acts swap) goal.now) result }
{
    let Some(one) = one_body(acts, goal_of(&goal.conclusion)) else {
        return Err(no_shape());
    };
    let list = swapped(alloc, scope, swap, one.list)?;
    with_body(alloc, goal, &one, list)
}

/// `swap` is sound over each typed scope, at the goal of each typed sequent.
pub fn swap_is_sound()
    ensures { (ds : Declarations) → IsTypedScope (declared ds) → (q : TypedSequent) (t : IsTypedSequent (context_of (declared ds)) q) (a : Said) (w : Passed) →
        IsSoundRuleIn (declared ds) (of_sequent (context_of (declared ds)) q t.frames) (swap_row ds a w) no_arguments }
{}
