//! The rule that a proof step names.

ghost use Rattle.gb_goal.specs.Answers.{Answers};
ghost use Rattle.gb_goal.specs.Rows.{answered};
ghost use Rattle.gb_trans.specs.GuardRows.{guard_row};

use crate::apply::transform;
use crate::decided::decide;
use crate::unrolled::unroll;
use gb_core::refusal::Refused;
use gb_goal::scope::Scope;
use gb_goal::sequent::{Sequent, Sequents};
use gb_steps::step::{Acts, Transformation};
use std::alloc::Global;

/// The subgoals of a rule that puts other statements into the programs on which it acts.
pub fn guarded(
    alloc: Global,
    acts: Acts,
    rule: &Transformation,
    goal: &Sequent,
    scope: &Scope,
) -> Result<Sequents, Refused>
    ensures { Answers (answered (guard_row scope.now acts rule.now) goal.now) result }
{
    match rule {
        Transformation::Decided(at, holds) => decide(alloc, goal, acts, *at, *holds),
        Transformation::Unroll(at) => unroll(alloc, goal, acts, *at),
        _ => transform(alloc, acts, rule, goal, scope),
    }
}
