// The typing of the laws of events.

ghost use Rattle.gb_goal.specs.Answers.{Answers};
ghost use Rattle.gb_steps.specs.First.{first_procedure};
ghost use Rattle.gb_elab_mod.specs.Steps.{event_law_rule, splitting_rule};

use crate::contract::said_after;
use gb_core::name::Name;
use gb_core::place::Place;
use gb_core::refusal::Refused;
use gb_goal::interface::procedure_type;
use gb_goal::scope::Scope;
use gb_goal::sequent::Sequent;
use gb_names::refusals::not_built;
use gb_script::tree::Node;
use gb_steps::first::first_procedure;
use gb_steps::step::{BodyRule, EventLaw, ProbabilityRule, RewriteRule, Rule};
use gb_terms::op::Rel;
use std::alloc::Global;

/// The rule of a law of events without an argument, by its name: one that rewrites a probability of the conclusion, or one that shows
/// a comparison of probabilities.
///
/// # Errors
///
/// `Syntax` of a law that isn't built.
pub fn event_law_rule(name: &Name, place: Place) -> Result<Rule, Refused>
    ensures { Answers (event_law_rule name.now place) result }
{
    let name = name.as_str();
    if name == "mu_or" {
        Ok(Rule::Rewrite(RewriteRule::Law(EventLaw::Or)))
    } else if name == "mu_not" {
        Ok(Rule::Rewrite(RewriteRule::Law(EventLaw::Not)))
    } else if name == "mu_false" {
        Ok(Rule::Rewrite(RewriteRule::Law(EventLaw::False)))
    } else if name == "mu_eq" {
        Ok(Rule::Probability(ProbabilityRule::ByEvents(Rel::Equal)))
    } else if name == "mu_sub" {
        Ok(Rule::Probability(ProbabilityRule::ByEvents(Rel::AtMost)))
    } else if name == "mu_ge0" {
        Ok(Rule::Probability(ProbabilityRule::Within(Rel::AtLeast)))
    } else if name == "mu_le1" {
        Ok(Rule::Probability(ProbabilityRule::Within(Rel::AtMost)))
    } else {
        Err(not_built(place))
    }
}

/// The rule by which the first probability of the conclusion is split by an event, which reads the result of its procedure. Where
/// there is no probability, or its procedure isn't declared, the event has no type, and the rule refuses the goal.
///
/// # Errors
///
/// Those of typing.
#[tactic(auto, unfolding(crate::specs::Steps::splitting_rule))]
pub fn splitting_rule(
    alloc: Global,
    scope: &Scope,
    goal: &Sequent,
    event: &Node,
) -> Result<Rule, Refused>
    ensures { Answers (splitting_rule scope.now goal.now event.now (first_procedure goal.now.conclusion)) result }
{
    let Some(procedure) = first_procedure(&goal.conclusion) else {
        return Ok(Rule::OnBodies(BodyRule::Unfit));
    };
    if procedure_type(scope, None, procedure.get()).is_none() {
        return Ok(Rule::OnBodies(BodyRule::Unfit));
    }
    let procedure = procedure.share()?;
    let event = said_after(alloc, scope, goal, event, procedure.get())?;
    Ok(Rule::Rewrite(RewriteRule::Law(EventLaw::Split(procedure, event))))
}
