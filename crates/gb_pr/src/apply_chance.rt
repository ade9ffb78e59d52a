// The rule that a proof step names.

ghost use Rattle.gb_goal.specs.Answers.{Answers};
ghost use Rattle.gb_goal.specs.Rows.{answered, stepped};
ghost use Rattle.gb_pr.specs.ChanceRows.{rule_row};

use crate::hoare::hoare_rule;
use crate::rnd::rnd_rule;
use gb_core::refusal::Refused;
use gb_goal::scope::Scope;
use gb_goal::sequent::{Sequent, Sequents};
use gb_prog::subgoals::{no_shape, placed};
use gb_steps::step::{ChanceRule, Rule, Step};
use std::alloc::Global;

/// The subgoals of a rule. Refused with `Shape` at a rule of another family.
fn answer(alloc: Global, rule: &Rule, goal: &Sequent, scope: &Scope) -> Result<Sequents, Refused>
    ensures { Answers (answered (rule_row scope.now rule.now) goal.now) result }
{
    match rule {
        Rule::Chance(ChanceRule::Rnd) => rnd_rule(alloc, goal, scope),
        Rule::Chance(ChanceRule::Hoare) => hoare_rule(alloc, goal, scope),
        _ => Err(no_shape()),
    }
}

/// The subgoals of such a rule at a goal, in order. Refused as the rule says, at the place of the step.
pub fn apply(alloc: Global, step: &Step, goal: &Sequent, scope: &Scope) -> Result<Sequents, Refused>
    ensures { Answers (stepped (rule_row scope.now step.now.rule) step.now.place goal.now) result }
{
    let made = answer(alloc, &step.rule, goal, scope);
    placed(made, step.place)
}
