// The rules `rcondt` and `rcondf` on one of two programs.

ghost use Rattle.std.specs.Prelude.{◌≡◌, [], ◌∷◌, ◌++◌, Some, IfOk};
ghost use Rattle.std.specs.List.{list_any};
ghost use Rattle.std.specs.Option.{option_map};
ghost use Rattle.gb_goal.specs.Answers.{Answers};
ghost use Rattle.gb_goal.specs.Answers.Answer.{given};
ghost use Rattle.gb_goal.specs.Goal as view;
ghost use Rattle.gb_goal.specs.Views.{goal_seen};
ghost use Rattle.gb_prog.specs.OneBody.{one_seen};
ghost use Rattle.gb_call_both.specs.OneSide.{head_speaks, speaks};
ghost use Rattle.gb_trans.specs.Places.{placed_seen};
ghost use Rattle.gb_trans.specs.Decided.{decision_seen};
ghost use Rattle.gb_trans.specs.Beside as beside;

use crate::decided::{Guarded, decision, goal_left, guard_judged};
use crate::names::memory_name;
use crate::places::{Placed, statement_at};
use gb_amb::quantified::refuse_goal_modules;
use gb_core::SharedItems;
use gb_core::copy::copy_names;
use gb_core::name::Name;
use gb_core::place::Place;
use gb_core::refusal::{Refused, Why};
use gb_goal::goal::{Goal, goal_of};
use gb_goal::scope::Scope;
use gb_goal::sequent::{Sequent, Sequents};
use gb_prog::one_body::{OneBody, one_body, side_of};
use gb_prog::subgoals::{no_shape, placed, refusal};
use gb_steps::step::Acts;
use gb_terms::op::Side;
use gb_terms::term::{Form, Head, Term};
use gb_walk::change::Change;
use gb_walk::walk::changed;
use sqlite_items::Items;
use std::alloc::{AllocError, Global};

/// Whether this head speaks of programs, or of every memory.
fn head_speaks(head: &Head) -> bool
    ensures { result ≡ head_speaks head.now }
{
    match head {
        Head::AllMemory | Head::SomeMemory => true,
        Head::Pr(..) | Head::Hoare(_) | Head::Phoare(..) | Head::Equiv(..) => true,
        _ => false,
    }
}

/// Whether a form speaks of programs, or of every memory.
#[cycle(speaking)]
#[tactic(auto, using(gb_call_both::proofs::SideSteps::speaks_out))]
fn speaks(term: &Term) -> bool
    ensures { result ≡ speaks term.now }
{
    head_speaks(term.head.get()) || any_speaks(term.args.as_slice())
}

#[cycle(speaking)]
fn any_speaks(list: &[Term]) -> bool
    ensures { result ≡ list_any speaks list.now }
{
    for term in list {
        if speaks(term) {
            return true;
        }
    }
    false
}

/// The other one of two memories.
fn other(side: Side) -> Side
    ensures { result ≡ beside.other side }
{
    match side {
        Side::Left => Side::Right,
        Side::Right => Side::Left,
        same => same,
    }
}

/// A length as the number of a place. A list that is longer doesn't fit in memory, and so counts as a want of it.
fn place_after(length: usize) -> Result<u32, AllocError>
    ensures { IfOk result (λ place. place ≡ length) }
{
    u32::try_from(length).or(Err(AllocError))
}

/// What is said of two memories, of the own one and of a memory of the context in place of the other one.
fn beside(alloc: Global, side: Side, place: u32, form: &Form) -> Result<Form, AllocError>
    ensures { IfOk result (λ made. made ≡ beside.beside side place form.now) }
{
    let changes = [
        Change::ToSide(side, Side::Own),
        Change::ToSide(other(side), Side::Memory(place)),
    ];
    changed(alloc, form, &changes)
}

/// Memories, and one more behind them.
fn memories_with(alloc: Global, list: &[Name], name: Name) -> Result<SharedItems<Name>, AllocError>
    ensures { IfOk result (λ made. made ≡ list.now ++ name ∷ []) }
{
    let mut more = copy_names(alloc, list)?;
    more.push(name)?;
    SharedItems::new(alloc, more)
}

/// The goal of this conclusion in the context with a memory more.
fn with_memory(
    alloc: Global,
    scope: &Scope,
    goal: &Sequent,
    conclusion: Form,
) -> Result<Sequent, AllocError>
    ensures { IfOk result (λ made. made ≡ record goal.now { memories = goal.now.memories ++ beside.memory_name scope.now goal.now ∷ []; conclusion = conclusion }) }
{
    let name = memory_name(alloc, scope, goal)?;
    let memories = memories_with(alloc, goal.memories.as_slice(), name)?;
    let mut more = goal.with_conclusion(conclusion)?;
    more.memories = memories;
    Ok(more)
}

/// The judgment that the guard is as it is said, from where the precondition holds beside the memory at a place of the context.
fn judged_beside(
    alloc: Global,
    goal: &Sequent,
    holds: bool,
    one: &OneBody<'_>,
    at: &Placed<'_>,
    guard: &Term,
) -> Result<Form, AllocError>
    ensures { IfOk result (λ made. made ≡ beside.judged_beside holds goal.now (one_seen one.now) (placed_seen at.now) guard.now) }
{
    let place = place_after(goal.memories.len())?;
    let pre = beside(alloc, side_of(one.around), place, one.pre)?;
    guard_judged(alloc, holds, &pre, at.before, guard)
}

/// The goals where the guard of the statement at a place is as it is said.
fn by_decision(
    alloc: Global,
    scope: &Scope,
    goal: &Sequent,
    holds: bool,
    one: &OneBody<'_>,
    at: &Placed<'_>,
    known: &Guarded<'_>,
) -> Result<Sequents, AllocError>
    ensures { IfOk result (λ made. given made ≡ (let k = placed_seen at.now in beside.by_decision scope.now holds goal.now (one_seen one.now) k (Some (decision_seen k.statement known.now)))) }
{
    let judged = judged_beside(alloc, goal, holds, one, at, known.guard)?;
    let first = with_memory(alloc, scope, goal, judged)?;
    let left = goal_left(alloc, one, at, known.left)?;
    let second = goal.with_conclusion(left)?;
    Ok(Items::from_vec(vec![in alloc; first, second]?))
}

/// The same of a place that the body may not have, and of a statement that may have no guard.
fn at_place(
    alloc: Global,
    scope: &Scope,
    goal: &Sequent,
    at: u128,
    holds: bool,
    one: &OneBody<'_>,
) -> Result<Sequents, Refused>
    ensures { Answers (beside.at_place scope.now at holds goal.now (one_seen one.now)) result }
{
    let Some(found) = statement_at(at, one.list) else {
        return Err(refusal(Why::Argument));
    };
    let Some(known) = decision(holds, found.statement) else {
        return Err(no_shape());
    };
    Ok(by_decision(alloc, scope, goal, holds, one, &found, &known)?)
}

/// One of two bodies.
fn one_of_two<'a>(acts: Acts, goal: Goal<'a>) -> Option<OneBody<'a>>
    ensures { option_map one_seen result ≡ beside.one_of_two acts (goal_seen goal.entry) }
{
    match acts {
        Acts::All => None,
        _ => one_body(acts, goal),
    }
}

/// The subgoals at a goal without quantifiers over modules, of which the precondition may speak of programs.
fn on_one(
    alloc: Global,
    scope: &Scope,
    goal: &Sequent,
    acts: Acts,
    at: u128,
    holds: bool,
) -> Result<Sequents, Refused>
    ensures { Answers (beside.on_body scope.now at holds goal.now (beside.one_of_two acts (view.goal_of goal.now.conclusion))) result }
{
    let Some(one) = one_of_two(acts, goal_of(&goal.conclusion)) else {
        return Err(no_shape());
    };
    if speaks(one.pre) {
        return Err(no_shape());
    }
    at_place(alloc, scope, goal, at, holds, &one)
}

/// The subgoals of `rcondt` and `rcondf` on one of two programs: the guard of the statement at a place is always true, or false, where it
/// stands, beside a memory of the other program that the context has more; and the goal with what is left of the statement. Refused, at the
/// step, with `Shape` where the goal is no equivalence of bodies, where the precondition speaks of programs, where the statement has no
/// guard, or beside a quantifier over modules; and with `Argument` where the statement isn't there.
pub fn apply(
    alloc: Global,
    acts: Acts,
    at: u128,
    holds: bool,
    place: Place,
    goal: &Sequent,
    scope: &Scope,
) -> Result<Sequents, Refused>
    ensures { Answers (beside.beside_answer scope.now at holds acts place goal.now) result }
{
    refuse_goal_modules(place, goal)?;
    let made = on_one(alloc, scope, goal, acts, at, holds);
    placed(made, place)
}
