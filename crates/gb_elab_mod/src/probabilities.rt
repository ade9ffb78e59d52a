// The typing of `byphoare` and `byequiv`, which go from probabilities to judgments.

ghost use Rattle.gb_goal.specs.Answers.{Answers};
ghost use Rattle.gb_steps.specs.Chances.{bounded_of, chances_of};
ghost use Rattle.gb_elab_mod.specs.OnPrograms.{by_equiv_rule, by_phoare_rule, by_rule};

use crate::contract::{Said, related, said_around};
use gb_core::name::Name;
use gb_core::place::Place;
use gb_core::refusal::Refused;
use gb_goal::scope::Scope;
use gb_goal::sequent::Sequent;
use gb_names::refusals::not_built;
use gb_script::tree::Node;
use gb_steps::chances::{bounded_of, chances_of};
use gb_steps::step::{BodyRule, Conditions, ProbabilityRule, Rule};
use std::alloc::Global;

/// The typed step of `byphoare`: its conditions are of the procedure whose probability the conclusion compares with a bound.
fn by_phoare_rule(
    alloc: Global,
    scope: &Scope,
    goal: &Sequent,
    said: Said<'_>,
) -> Result<Rule, Refused>
    ensures { Answers (by_phoare_rule scope.now goal.now said.entry.pre.now said.entry.post.now (bounded_of goal.now.conclusion)) result }
{
    let Some(bounded) = bounded_of(&goal.conclusion) else {
        return Ok(Rule::OnBodies(BodyRule::Unfit));
    };
    let procedure = bounded.chance.procedure.get();
    let (pre, post) = said_around(alloc, scope, goal, said, procedure)?;
    Ok(Rule::Probability(ProbabilityRule::ByPhoare(Conditions { pre, post })))
}

/// The typed step of `byequiv`: its conditions are of both procedures whose probabilities the conclusion compares.
fn by_equiv_rule(
    alloc: Global,
    scope: &Scope,
    goal: &Sequent,
    said: Said<'_>,
) -> Result<Rule, Refused>
    ensures { Answers (by_equiv_rule scope.now goal.now said.entry.pre.now said.entry.post.now (chances_of goal.now.conclusion)) result }
{
    let Some(compared) = chances_of(&goal.conclusion) else {
        return Ok(Rule::OnBodies(BodyRule::Unfit));
    };
    let left = compared.left.procedure.get();
    let right = compared.right.procedure.get();
    let (pre, post) = related(alloc, scope, goal, said, left, right)?;
    Ok(Rule::Probability(ProbabilityRule::ByEquiv(Conditions { pre, post })))
}

/// The typed step of this name that goes from probabilities to a judgment with these conditions. At another conclusion than the
/// name asks for they have no type, and the step refuses the goal.
///
/// # Errors
///
/// `Syntax` of a step that isn't built, and those of typing.
pub fn by_rule(
    alloc: Global,
    scope: &Scope,
    goal: &Sequent,
    name: &Name,
    pre: &Node,
    post: &Node,
    place: Place,
) -> Result<Rule, Refused>
    ensures { Answers (by_rule scope.now goal.now name.now pre.now post.now place) result }
{
    let said = Said { pre, post };
    if name.as_str() == "byphoare" {
        by_phoare_rule(alloc, scope, goal, said)
    } else if name.as_str() == "byequiv" {
        by_equiv_rule(alloc, scope, goal, said)
    } else {
        Err(not_built(place))
    }
}
