// The goals that steps make by a form that is known.

ghost use Rattle.std.specs.Prelude.{◌≡◌, [], ◌∷◌, ◌++◌, IfOk};
ghost use Rattle.gb_amb.specs.Parts.{concluding};
ghost use Rattle.gb_amb.specs.Steps.{Returns};
ghost use Rattle.gb_amb.specs.Uses.{IsAnswer, IsByPremises, is_implication};

use crate::goals::{alone, assuming, no_shape};
use gb_core::place::Place;
use gb_core::refusal::Refused;
use gb_goal::sequent::{Sequent, Sequents};
use gb_steps::step::UseRule;
use gb_terms::op::Op;
use gb_terms::same::same;
use gb_terms::term::{Form, Head};
use sqlite_items::Items;
use std::alloc::{AllocError, Global};

/// Goals, and behind them the goal with another conclusion.
fn with_goal(goals: Sequents, goal: &Sequent, conclusion: &Form) -> Result<Sequents, AllocError>
    ensures { IfOk result (λ made. made ≡ goals ++ concluding goal.now conclusion.now ∷ []) }
{
    let mut goals = goals;
    let conclusion = conclusion.share()?;
    let last = goal.with_conclusion(conclusion)?;
    goals.push(last)?;
    Ok(goals)
}

fn is_implication(head: &Head) -> bool
    ensures { result ≡ is_implication head.now }
{
    matches!(head, Head::Builtin(Op::Implies))
}

/// The goals by the premises under which a form says the conclusion, behind others.
#[cycle(by_premises)]
#[tactic(auto, using(crate::proofs::UsedPremises::by_conclusion))]
fn by_premises(
    form: &Form,
    place: Place,
    goal: &Sequent,
    goals: Sequents,
) -> Result<Sequents, Refused>
    ensures { Returns (IsByPremises goals form.now place goal.now) result }
{
    if same(form, &goal.conclusion) {
        return Ok(goals);
    }
    if !is_implication(form.head.get()) {
        return Err(no_shape(place));
    }
    match form.args.as_slice() {
        [premise, said] => {
            let goals = with_goal(goals, goal, premise)?;
            by_premises(said, place, goal, goals)
        }
        _ => Err(no_shape(place)),
    }
}

/// The goals that a step gives by the form that it uses, in order. Refused at the place of the step, with `Shape`, where the form
/// doesn't say the conclusion, under premises or without them.
pub fn apply(
    alloc: Global,
    rule: &UseRule,
    place: Place,
    goal: &Sequent,
) -> Result<Sequents, Refused>
    ensures { Returns (IsAnswer rule.now place goal.now) result }
{
    match rule {
        UseRule::Apply(form) => by_premises(form, place, goal, Items::new(alloc)),
        UseRule::Have(name, form) => {
            let goal = assuming(alloc, goal, name, form)?;
            Ok(alone(alloc, goal)?)
        }
    }
}
