// The rules `rcondt` and `rcondf`.

ghost use Rattle.std.specs.Prelude.{◌≡◌, ◌++◌, Some, IfOk};
ghost use Rattle.std.specs.Option.{option_map};
ghost use Rattle.gb_goal.specs.Answers.{Answers};
ghost use Rattle.gb_goal.specs.Answers.Answer.{given};
ghost use Rattle.gb_goal.specs.Goal.{form_of};
ghost use Rattle.gb_goal.specs.Goal.Code.{body};
ghost use Rattle.gb_goal.specs.Goal.Goal.{hoare};
ghost use Rattle.gb_goal.specs.Rows.{answered, each_concluding};
ghost use Rattle.gb_terms.specs.declared.term.Instr.{out-Instr};
ghost use Rattle.gb_prog.specs.OneBody.{one_seen};
ghost use Rattle.gb_trans.specs.Places.{placed_seen};
ghost use Rattle.gb_forms.specs.Decided.{deciding};
ghost use Rattle.gb_trans.specs.Decided.{decided, decided_row, decision, decision_goals, decision_seen, left_seen};

use crate::places::{Placed, statement_at};
use crate::swap::with_statements;
use crate::transformed::judged;
use gb_core::refusal::{Refused, Why};
use gb_forms::decided::deciding;
use gb_goal::goal;
use gb_goal::goal::goal_of;
use gb_goal::sequent::{Sequent, Sequents};
use gb_prog::one_body::{OneBody, one_body};
use gb_prog::subgoals::{no_shape, refusal, shared_body, two_goals};
use gb_steps::step::Acts;
use gb_terms::term::{Cmd, Form, Instr, Instrs, Term};
use sqlite_items::Items;
use std::alloc::{AllocError, Global};
use std::slice::from_ref;

/// A guard, and what its statement comes to where the guard is known.
#[derive(Clone, Copy)]
pub struct Guarded<'a> {
    pub guard: &'a Term,
    pub left: Left<'a>,
}

/// What is left of a statement: one side of a branch, a turn of a loop with the loop behind it, or nothing.
#[derive(Clone, Copy)]
pub enum Left<'a> {
    Side(&'a Cmd),
    Turn(&'a Cmd),
    Nothing,
}

/// What a statement comes to where its guard is true, or false. None of a statement without a guard.
pub fn decision(holds: bool, statement: &Instr) -> Option<Guarded<'_>>
    ensures { option_map (decision_seen statement.now) result ≡ decision holds statement.now (out-Instr statement.now) }
{
    match statement {
        Instr::If(guard, yes, no) => {
            let side = if holds { yes } else { no };
            let left = Left::Side(side);
            Some(Guarded { guard, left })
        }
        Instr::While(guard, _, body) => {
            let left = if holds {
                Left::Turn(body)
            } else {
                Left::Nothing
            };
            Some(Guarded { guard, left })
        }
        _ => None,
    }
}

/// Statements, and what is left of the one at a place behind them.
fn with_left(
    alloc: Global,
    found: Instrs,
    statement: &Instr,
    left: Left<'_>,
) -> Result<Instrs, AllocError>
    ensures { IfOk result (λ made. made ≡ found ++ left_seen statement.now left.entry) }
{
    match left {
        Left::Side(side) => with_statements(alloc, found, side.list.as_slice()),
        Left::Turn(body) => {
            let list = with_statements(alloc, found, body.list.as_slice())?;
            with_statements(alloc, list, from_ref(statement))
        }
        Left::Nothing => Ok(found),
    }
}

/// The body with what is left of a statement in its place.
fn with_decision(alloc: Global, at: &Placed<'_>, left: Left<'_>) -> Result<Instrs, AllocError>
    ensures { IfOk result (λ made. made ≡ (let k = placed_seen at.now in k.before ++ (left_seen k.statement left.entry ++ k.rest))) }
{
    let list = with_statements(alloc, Items::new(alloc), at.before)?;
    let list = with_left(alloc, list, at.statement, left)?;
    with_statements(alloc, list, at.rest)
}

/// The judgment that the guard is as it is said after what stands before the statement.
pub fn guard_judged(
    alloc: Global,
    holds: bool,
    pre: &Form,
    before: &[Instr],
    guard: &Term,
) -> Result<Form, AllocError>
    ensures { IfOk result (λ made. made ≡ form_of (hoare (body before.now) pre.now (deciding holds guard.now))) }
{
    let said = deciding(alloc, holds, guard)?;
    let before = shared_body(alloc, before)?;
    let pre = pre.share()?;
    goal::hoare(alloc, before, pre, said)
}

/// The goal with what is left of a statement in its place.
pub fn goal_left(
    alloc: Global,
    one: &OneBody<'_>,
    at: &Placed<'_>,
    left: Left<'_>,
) -> Result<Form, AllocError>
    ensures { IfOk result (λ made. made ≡ form_of (let o = one_seen one.now in let k = placed_seen at.now in
        o.goal (k.before ++ (left_seen k.statement left.entry ++ k.rest)) o.pre o.post)) }
{
    let list = with_decision(alloc, at, left)?;
    judged(alloc, one, list)
}

/// The goals where the guard of the statement at a place is as it is said.
fn decision_goals(
    alloc: Global,
    goal: &Sequent,
    holds: bool,
    one: &OneBody<'_>,
    at: &Placed<'_>,
    known: &Guarded<'_>,
) -> Result<Sequents, AllocError>
    ensures { IfOk result (λ made. given made ≡ each_concluding goal.now (let k = placed_seen at.now in decision_goals holds (one_seen one.now) k (Some (decision_seen k.statement known.now)))) }
{
    let first = guard_judged(alloc, holds, one.pre, at.before, known.guard)?;
    let second = goal_left(alloc, one, at, known.left)?;
    two_goals(alloc, goal, first, second)
}

/// The same of a place that the body may not have, and of a statement that may have no guard.
fn decided(
    alloc: Global,
    goal: &Sequent,
    at: u128,
    holds: bool,
    one: &OneBody<'_>,
) -> Result<Sequents, Refused>
    ensures { Answers (each_concluding goal.now (decided at holds (one_seen one.now))) result }
{
    let Some(found) = statement_at(at, one.list) else {
        return Err(refusal(Why::Argument));
    };
    let Some(known) = decision(holds, found.statement) else {
        return Err(no_shape());
    };
    Ok(decision_goals(alloc, goal, holds, one, &found, &known)?)
}

/// The subgoals of `rcondt` and `rcondf`: the guard of the statement at a place is always true, or false, where it stands; and the goal with
/// what is left of the statement. Refused with `Shape` where the goal is no judgment of one body, or where the statement has no guard, and
/// with `Argument` where it isn't there.
pub fn decide(
    alloc: Global,
    goal: &Sequent,
    acts: Acts,
    at: u128,
    holds: bool,
) -> Result<Sequents, Refused>
    ensures { Answers (answered (decided_row at holds acts) goal.now) result }
{
    match acts {
        Acts::All => match one_body(Acts::All, goal_of(&goal.conclusion)) {
            Some(one) => decided(alloc, goal, at, holds, &one),
            None => Err(no_shape()),
        },
        _ => Err(no_shape()),
    }
}
