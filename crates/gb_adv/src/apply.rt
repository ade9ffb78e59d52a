// The rule that a proof step names.

ghost use Rattle.gb_goal.specs.Answers.{Answers};
ghost use Rattle.gb_goal.specs.Rows.{answered, stepped};
ghost use Rattle.gb_adv.specs.Rows.{abstract_row};

use crate::call::call;
use crate::procedures::proc;
use crate::until::call_until;
use gb_core::place::Place;
use gb_core::refusal::Refused;
use gb_goal::scope::Scope;
use gb_goal::sequent::{Sequent, Sequents};
use gb_prog::subgoals::placed;
use gb_steps::step::AbstractRule;
use std::alloc::Global;

/// The subgoals of a rule.
fn answer(
    alloc: Global,
    rule: &AbstractRule,
    goal: &Sequent,
    scope: &Scope,
) -> Result<Sequents, Refused>
    ensures { Answers (answered (abstract_row scope.now rule.now) goal.now) result }
{
    match rule {
        AbstractRule::Call(kept) => call(alloc, goal, kept, scope),
        AbstractRule::CallUntil(until) => call_until(alloc, goal, until, scope),
        AbstractRule::Proc(kept) => proc(alloc, goal, kept, scope),
    }
}

/// The subgoals of such a rule at a goal, in order. Refused as the rule says, at the place of the step.
pub fn apply(
    alloc: Global,
    rule: &AbstractRule,
    place: Place,
    goal: &Sequent,
    scope: &Scope,
) -> Result<Sequents, Refused>
    ensures { Answers (stepped (abstract_row scope.now rule.now) place goal.now) result }
{
    let made = answer(alloc, rule, goal, scope);
    placed(made, place)
}
