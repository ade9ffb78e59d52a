// Steps that put equals for equals.

ghost use Rattle.std.specs.Prelude.{◌≡◌};
ghost use Rattle.gb_goal.specs.Answers.{Answers, ◌>>=◌ as ◌and_then◌};
ghost use Rattle.gb_goal.specs.Answers.Answer.{given};
ghost use Rattle.gb_script.specs.Tree.{text_of, place_of};
ghost use Rattle.gb_elab_mod.specs.Multiples as multiples;
ghost use Rattle.gb_elab_mod.specs.Uses as uses;

use crate::conclusions::is_taken;
use crate::multiples::{hypothesis_at, no_such};
use crate::uses::{hypothesis, name_of, used};
use gb_core::name::Name;
use gb_core::place::Place;
use gb_core::refusal::Refused;
use gb_goal::scope::{Entry, Scope};
use gb_goal::sequent::Sequent;
use gb_script::tree::Node;
use gb_steps::step::{RewriteRule, Rule};
use std::alloc::Global;

/// The rule that puts the right side of what is known for its left side.
pub fn rewriting(alloc: Global, scope: &Scope, goal: &Sequent, tree: &Node) -> Result<Rule, Refused>
    ensures { Answers (uses.used scope.now goal.now tree.now and_then (λ f. given (Rule.Rewrite (RewriteRule.Forward f)))) result }
{
    let known = used(alloc, scope, goal, tree)?;
    Ok(Rule::Rewrite(RewriteRule::Forward(known)))
}

/// The rule that puts the left side of what is known for its right side.
pub fn rewriting_back(
    alloc: Global,
    scope: &Scope,
    goal: &Sequent,
    tree: &Node,
) -> Result<Rule, Refused>
    ensures { Answers (uses.used scope.now goal.now tree.now and_then (λ f. given (Rule.Rewrite (RewriteRule.Back f)))) result }
{
    let known = used(alloc, scope, goal, tree)?;
    Ok(Rule::Rewrite(RewriteRule::Back(known)))
}

/// The rule that puts the right side of a hypothesis for its left side.
pub fn rewriting_by_name(
    alloc: Global,
    scope: &Scope,
    goal: &Sequent,
    name: &Node,
) -> Result<Rule, Refused>
    ensures { Answers (uses.hypothesis scope.now goal.now (text_of name.now) (place_of name.now) and_then (λ f. given (Rule.Rewrite (RewriteRule.Forward f)))) result }
{
    let known = hypothesis(alloc, scope, goal, &name.text, name.place)?;
    Ok(Rule::Rewrite(RewriteRule::Forward(known)))
}

/// The rule by which a hypothesis is used up for a variable.
pub fn substitution(
    alloc: Global,
    scope: &Scope,
    goal: &Sequent,
    name: &Node,
) -> Result<Rule, Refused>
    ensures { Answers (multiples.hypothesis_at scope.now goal.now (text_of name.now) (place_of name.now) and_then (λ i. given (Rule.Rewrite (RewriteRule.Subst i)))) result }
{
    let hyp = hypothesis_at(alloc, scope, goal, &name.text, name.place)?;
    Ok(Rule::Rewrite(RewriteRule::Subst(hyp)))
}

/// Whether an operator of the script with a body has this name, and nothing of the context.
fn is_defined(scope: &Scope, goal: &Sequent, name: &Name) -> bool
    ensures { result ≡ uses.is_defined scope.now goal.now name.now }
{
    !is_taken(goal, name) && matches!(scope.entry(name), Some(Entry::Operator(_)))
}

/// Refuses a name that no operator with a body has.
fn check_defined(
    alloc: Global,
    scope: &Scope,
    goal: &Sequent,
    name: Name,
    place: Place,
) -> Result<Name, Refused>
    ensures { Answers (uses.defined_named scope.now goal.now name place) result }
{
    if is_defined(scope, goal, &name) {
        Ok(name)
    } else {
        Err(no_such(alloc, scope, goal, &name, place))
    }
}

/// The rule by which an operator is unfolded.
pub fn opening(alloc: Global, scope: &Scope, goal: &Sequent, tree: &Node) -> Result<Rule, Refused>
    ensures { Answers (uses.defined_operator scope.now goal.now tree.now and_then (λ x. given (Rule.Rewrite (RewriteRule.Unfold x)))) result }
{
    let name = name_of(alloc, tree)?;
    let operator = check_defined(alloc, scope, goal, name, tree.place)?;
    Ok(Rule::Rewrite(RewriteRule::Unfold(operator)))
}
