// The rule that a proof step names.

ghost use Rattle.gb_goal.specs.Answers.{Answers};
ghost use Rattle.gb_goal.specs.Rows.{answered, stepped};
ghost use Rattle.gb_bodies.specs.Rows.{rule_row};

use crate::branch::if_rule;
use crate::case::case;
use crate::conseq::conseq;
use crate::proc::proc;
use crate::seq::seq;
use crate::skip::skip;
use crate::wp::wp;
use gb_core::refusal::Refused;
use gb_goal::scope::Scope;
use gb_goal::sequent::{Sequent, Sequents};
use gb_prog::subgoals::{no_shape, placed};
use gb_steps::step::{BodyRule, Rule, Step};
use std::alloc::Global;

/// The subgoals of a rule. Refused with `Shape` at a rule of another family.
fn answer(alloc: Global, rule: &Rule, goal: &Sequent, scope: &Scope) -> Result<Sequents, Refused>
    ensures { Answers (answered (rule_row scope.now rule.now) goal.now) result }
{
    match rule {
        Rule::OnBodies(BodyRule::Proc) => proc(alloc, goal, scope),
        Rule::OnBodies(BodyRule::Skip) => skip(alloc, goal),
        Rule::OnBodies(BodyRule::Seq(position, between)) => seq(alloc, goal, *position, between),
        Rule::OnBodies(BodyRule::If(acts)) => if_rule(alloc, goal, *acts),
        Rule::OnBodies(BodyRule::Wp(acts)) => wp(alloc, goal, scope, *acts),
        Rule::OnBodies(BodyRule::Case(form)) => case(alloc, goal, form),
        Rule::OnBodies(BodyRule::Conseq(weakened)) => conseq(alloc, goal, weakened),
        _ => Err(no_shape()),
    }
}

/// The subgoals of a rule on programs at a goal, in order. Refused at the place of the step, with `Shape`, where the goal hasn't
/// the form that the rule needs, and at each rule of another family.
pub fn apply(alloc: Global, step: &Step, goal: &Sequent, scope: &Scope) -> Result<Sequents, Refused>
    ensures { Answers (stepped (rule_row scope.now step.now.rule) step.now.place goal.now) result }
{
    let made = answer(alloc, &step.rule, goal, scope);
    placed(made, step.place)
}
