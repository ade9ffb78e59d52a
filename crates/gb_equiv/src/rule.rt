// The rule that a proof step names.

ghost use Rattle.gb_goal.specs.Answers.{Answers};
ghost use Rattle.gb_goal.specs.Rows.{stepped};
ghost use Rattle.gb_equiv.specs.Rows.{rule_row};

use crate::one_side::drawn_rule;
use crate::rnd::rnd_rule;
use crate::symmetry::symmetry;
use crate::transitivity::transitivity;
use gb_core::refusal::{Refused, Why};
use gb_goal::scope::Scope;
use gb_goal::sequent::{Sequent, Sequents};
use gb_steps::step::{RelationalRule, Rule, Step};
use std::alloc::Global;

/// The subgoals of a relational rule at a goal, in order. Refused as the rule says, at the place of the step.
pub fn apply(alloc: Global, step: &Step, goal: &Sequent, scope: &Scope) -> Result<Sequents, Refused>
    ensures { Answers (stepped (rule_row scope.now step.now.rule) step.now.place goal.now) result }
{
    match &step.rule {
        Rule::Relational(RelationalRule::Rnd(maps)) => rnd_rule(
            alloc,
            goal,
            scope,
            maps.as_slice(),
            step.place,
        ),
        Rule::Relational(RelationalRule::Symmetry) => symmetry(alloc, goal, step.place),
        Rule::Relational(RelationalRule::Drawn(acts)) => {
            drawn_rule(alloc, goal, scope, *acts, step.place)
        }
        Rule::Relational(RelationalRule::Transitivity(between)) => {
            transitivity(alloc, goal, between, step.place)
        }
        _ => Err(Refused::Script {
            why: Why::Shape,
            place: step.place,
        }),
    }
}
