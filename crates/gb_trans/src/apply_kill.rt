//! The rule that a proof step names.

ghost use Rattle.gb_goal.specs.Answers.{Answers};
ghost use Rattle.gb_goal.specs.Rows.{answered};
ghost use Rattle.gb_trans.specs.KillRows.{killing_row};

use crate::apply_guard::guarded;
use crate::kill::kill;
use gb_core::refusal::Refused;
use gb_goal::scope::Scope;
use gb_goal::sequent::{Sequent, Sequents};
use gb_steps::step::{Acts, Transformation};
use std::alloc::Global;

/// The subgoals of a rule that puts other statements into the programs on which it acts.
pub fn killing(
    alloc: Global,
    acts: Acts,
    rule: &Transformation,
    goal: &Sequent,
    scope: &Scope,
) -> Result<Sequents, Refused>
    ensures { Answers (answered (killing_row scope.now acts rule.now) goal.now) result }
{
    match rule {
        Transformation::Kill(at) => kill(alloc, scope, goal, acts, *at),
        _ => guarded(alloc, acts, rule, goal, scope),
    }
}
