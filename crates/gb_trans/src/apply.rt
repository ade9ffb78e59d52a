//! The rule that a proof step names.

ghost use Rattle.gb_goal.specs.Answers.{Answers};
ghost use Rattle.gb_goal.specs.Rows.{answered};
ghost use Rattle.gb_trans.specs.Rows.{transformation_row};

use crate::swap::swap;
use gb_core::refusal::Refused;
use gb_goal::scope::Scope;
use gb_goal::sequent::{Sequent, Sequents};
use gb_prog::subgoals::no_shape;
use gb_steps::step::{Acts, Transformation};
use std::alloc::Global;

/// The subgoals of a rule that puts other statements into the programs on which it acts.
pub fn transform(
    alloc: Global,
    acts: Acts,
    rule: &Transformation,
    goal: &Sequent,
    scope: &Scope,
) -> Result<Sequents, Refused>
    ensures { Answers (answered (transformation_row scope.now acts rule.now) goal.now) result }
{
    match rule {
        Transformation::Swap(passing) => swap(alloc, scope, goal, acts, *passing),
        _ => Err(no_shape()),
    }
}
