// The rule `kill`.

ghost use Rattle.std.specs.Prelude.{◌≡◌, ◌++◌, IfOk};
ghost use Rattle.gb_goal.specs.Answers.{Answers};
ghost use Rattle.gb_goal.specs.Rows.{answered};
ghost use Rattle.gb_prog.specs.OneBody.{one_seen};
ghost use Rattle.gb_mods.specs.Exclusions as excluding;
ghost use Rattle.gb_trans.specs.Effects as effect;
ghost use Rattle.gb_trans.specs.Places.{placed_seen};
ghost use Rattle.gb_trans.specs.Kill.{kill_row, killed, may_go, read_behind, unread};

use crate::effects::{effects_of, least_met};
use crate::places::{Placed, statement_at};
use crate::reads::{reads_of, variables_read};
use crate::swap::{unless_crossing, with_statements};
use crate::transformed::with_body;
use gb_core::refusal::{Refused, Why};
use gb_core::var::Vars;
use gb_full::loss::first_loss;
use gb_full::lossless::full;
use gb_goal::goal::goal_of;
use gb_goal::scope::Scope;
use gb_goal::sequent::{Sequent, Sequents};
use gb_mods::exclusions::exclusions;
use gb_prog::one_body::{OneBody, one_body, side_of};
use gb_prog::subgoals::{no_shape, refusal};
use gb_steps::step::Acts;
use gb_terms::op::Side;
use gb_terms::term::{Form, Instr, Instrs};
use sqlite_items::Items;
use std::alloc::{AllocError, Global};
use std::slice::from_ref;

/// The variables that statements read, and a form behind them through a memory.
fn read_behind(
    alloc: Global,
    scope: &Scope,
    list: &[Instr],
    side: &Side,
    form: &Form,
) -> Result<Option<Vars>, AllocError>
    ensures { IfOk result (λ made. made ≡ read_behind scope.now list.now side.now form.now) }
{
    let Some(found) = reads_of(alloc, scope, list)? else {
        return Ok(None);
    };
    let all = variables_read(alloc, found, form, side)?;
    Ok(Some(all))
}

/// Refuses statements that write what is read behind them, with the least such variable.
fn check_behind(
    alloc: Global,
    scope: &Scope,
    list: &[Instr],
    one: &OneBody<'_>,
    rest: &[Instr],
) -> Result<(), Refused>
    ensures { Answers (let o = one_seen one.now in unread (excluding.exclusions scope.now) (read_behind scope.now rest.now o.side o.post) (effect.effects_of scope.now list.now)) result }
{
    let side = side_of(one.around);
    let excluded = exclusions(alloc, scope)?;
    let Some(read) = read_behind(alloc, scope, rest, &side, one.post)? else {
        return Err(no_shape());
    };
    let Some(effects) = effects_of(alloc, scope, list)? else {
        return Err(no_shape());
    };
    let written = effects.written.as_slice();
    let met = least_met(None, excluded.as_slice(), written, read.as_slice());
    unless_crossing(alloc, met)
}

/// Refuses a statement that writes what is read behind it, or may lose weight.
fn may_go(alloc: Global, scope: &Scope, one: &OneBody<'_>, at: &Placed<'_>) -> Result<(), Refused>
    ensures { Answers (may_go scope.now (one_seen one.now) (placed_seen at.now)) result }
{
    let alone = from_ref(at.statement);
    check_behind(alloc, scope, alone, one, at.rest)?;
    let lost = first_loss(alloc, scope, alone)?;
    full(alloc, lost)
}

/// The body without the statement at a place.
fn without(alloc: Global, at: &Placed<'_>) -> Result<Instrs, AllocError>
    ensures { IfOk result (λ made. made ≡ (let k = placed_seen at.now in k.before ++ k.rest)) }
{
    let list = with_statements(alloc, Items::new(alloc), at.before)?;
    with_statements(alloc, list, at.rest)
}

/// The body without the statement at a place, where it may go.
fn killed(alloc: Global, scope: &Scope, at: u128, one: &OneBody<'_>) -> Result<Instrs, Refused>
    ensures { Answers (killed scope.now at (one_seen one.now)) result }
{
    let Some(found) = statement_at(at, one.list) else {
        return Err(refusal(Why::Argument));
    };
    may_go(alloc, scope, one, &found)?;
    Ok(without(alloc, &found)?)
}

/// The subgoal of `kill`: a body without one of its statements. Refused with `Shape` where the goal has no such body, with `Argument` where the
/// statement isn't there, with `SideCondition` where it writes what the statements behind it or the postcondition read, and with
/// `NotLossless` where it may lose weight.
pub fn kill(
    alloc: Global,
    scope: &Scope,
    goal: &Sequent,
    acts: Acts,
    at: u128,
) -> Result<Sequents, Refused>
    ensures { Answers (answered (kill_row scope.now acts at) goal.now) result }
{
    let Some(one) = one_body(acts, goal_of(&goal.conclusion)) else {
        return Err(no_shape());
    };
    let list = killed(alloc, scope, at, &one)?;
    with_body(alloc, goal, &one, list)
}
