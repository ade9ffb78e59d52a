//! The goals that rules give, and their refusals.

ghost use Rattle.std.specs.Prelude.{◌≡◌, List, [], ◌∷◌, IfOk};
ghost use Rattle.gb_core.specs.declared.refusal.Why.TheVariants.{Shape};
ghost use Rattle.gb_goal.specs.Answers.{nowhere, placed_at, Answers, Answer};
ghost use Rattle.gb_goal.specs.declared.sequent.Sequent.{Sequent as Goal};

use gb_core::SharedItems;
use gb_core::place::Place;
use gb_core::refusal::{Refused, Why};
use gb_goal::sequent::{Sequent, Sequents};
use gb_terms::share::share_instrs;
use gb_terms::term::{Form, Instr};
use sqlite_items::Items;
use std::alloc::{AllocError, Global};

/// The one goal with the context of `goal` and this conclusion.
pub fn one_goal(alloc: Global, goal: &Sequent, conclusion: Form) -> Result<Sequents, AllocError>
    ensures { IfOk result (λ goals. goals ≡ record goal.now { conclusion = conclusion } ∷ []) }
{
    let mut goals = Items::new(alloc);
    goals.push(goal.with_conclusion(conclusion)?)?;
    Ok(goals)
}

/// Two goals with the context of `goal` and these conclusions.
pub fn two_goals(
    alloc: Global,
    goal: &Sequent,
    first: Form,
    second: Form,
) -> Result<Sequents, AllocError>
    ensures { IfOk result (λ goals. goals ≡ record goal.now { conclusion = first } ∷ record goal.now { conclusion = second } ∷ []) }
{
    let mut goals = one_goal(alloc, goal, first)?;
    goals.push(goal.with_conclusion(second)?)?;
    Ok(goals)
}

/// Statements as a body that goals may share.
pub fn shared_body(alloc: Global, list: &[Instr]) -> Result<SharedItems<Instr>, AllocError>
    ensures { IfOk result (λ made. made ≡ list.now) }
{
    let list = share_instrs(alloc, list)?;
    SharedItems::new(alloc, list)
}

/// A refusal that has no place of its own.
pub fn refusal(why: Why) -> Refused
    ensures { result ≡ Refused.Script why nowhere }
{
    let place = Place {
        file: 0,
        line: 0,
        col: 0,
    };
    Refused::Script { why, place }
}

/// The goal hasn't the form that a rule needs.
pub fn no_shape() -> Refused
    ensures { result ≡ Refused.Script Shape nowhere }
{
    refusal(Why::Shape)
}

/// A refusal without a place of its own stands at this one. Lines count from 1.
pub fn placed(made: Result<Sequents, Refused>, at: Place) -> Result<Sequents, Refused>
    ensures { (answer : Answer (List Goal)) → Answers answer made → Answers (placed_at at answer) result }
{
    match made {
        Ok(goals) => Ok(goals),
        Err(refused) => Err(refused.placed(at)),
    }
}
