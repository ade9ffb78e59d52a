// The step on conclusions that a rule names.

ghost use Rattle.std.specs.Prelude.{◌≡◌, [], ◌∷◌, IfOk};
ghost use Rattle.gb_goal.specs.Answers.Answer.{given, refused};
ghost use Rattle.gb_core.specs.declared.refusal.Why.TheVariants.{Shape};
ghost use Rattle.gb_goal.specs.Answers.{Answers};
ghost use Rattle.gb_amb.specs.Parts.{concluding};
ghost use Rattle.gb_amb.specs.Steps.{assuming, by_cases, Decides, IsAnswer, Returns};
ghost use Rattle.gb_amb.specs.Closed.{IsAmong};

use crate::assumed::is_among;
use crate::closed::{done, trivial};
use crate::goals;
use crate::goals::no_shape;
use crate::introduced::introduced;
use crate::parts::by_parts;
use crate::witness::{memory_witnessed, witnessed};
use gb_core::name::Name;
use gb_core::place::Place;
use gb_core::refusal::Refused;
use gb_forms::cases::cases;
use gb_goal::goal::judges_bodies;
use gb_goal::sequent::{Sequent, Sequents};
use gb_steps::step::AmbientRule;
use gb_terms::term::Form;
use sqlite_items::Items;
use std::alloc::{AllocError, Global};

fn by_cases(alloc: Global, form: &Form, place: Place, goal: &Sequent) -> Result<Sequents, Refused>
    ensures { Answers (by_cases form.now place goal.now) result }
{
    if judges_bodies(&goal.conclusion) {
        return Err(no_shape(place));
    }
    Ok(cases(alloc, form, goal)?)
}

/// A form to be shown, and the goal in which it is a hypothesis.
fn have(alloc: Global, name: &Name, form: &Form, goal: &Sequent) -> Result<Sequents, AllocError>
    ensures { IfOk result (λ goals. goals ≡ concluding goal.now form.now ∷ assuming goal.now name.now form.now ∷ []) }
{
    let shown = form.share()?;
    let mut goals = goals::one(alloc, goal, shown)?;
    let wider = goals::assuming(alloc, goal, name, form)?;
    goals.push(wider)?;
    Ok(goals)
}

/// No goals, where the conclusion is a hypothesis.
fn assumption(alloc: Global, place: Place, goal: &Sequent) -> Result<Sequents, Refused>
    ensures { Returns (Decides (IsAmong goal.now.hyps goal.now.conclusion) (given []) (refused Shape place)) result }
{
    if is_among(goal.hyps.as_slice(), &goal.conclusion) {
        return Ok(Items::new(alloc));
    }
    Err(no_shape(place))
}

/// The goals that a step on the conclusion gives, in order. Refused at the place of the step, with `Shape`, where the goal hasn't
/// the form that the step needs.
pub fn apply(
    alloc: Global,
    rule: &AmbientRule,
    place: Place,
    goal: &Sequent,
) -> Result<Sequents, Refused>
    ensures { Returns (IsAnswer rule.now place goal.now) result }
{
    match rule {
        AmbientRule::Assumption => assumption(alloc, place, goal),
        AmbientRule::Case(form) => by_cases(alloc, form, place, goal),
        AmbientRule::Have(name, form) => Ok(have(alloc, name, form, goal)?),
        AmbientRule::Introduce(_) | AmbientRule::IntroduceMemory(_) => {
            introduced(alloc, rule, place, goal)
        }
        AmbientRule::Witness(term) => witnessed(alloc, term, place, goal),
        AmbientRule::WitnessMemory(memory) => memory_witnessed(alloc, *memory, place, goal),
        AmbientRule::Trivial => trivial(alloc, goal),
        AmbientRule::Done => done(alloc, place, goal),
        _ => by_parts(alloc, rule, place, goal),
    }
}
