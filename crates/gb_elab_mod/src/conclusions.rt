// The typing of steps on conclusions.

ghost use Rattle.std.specs.Prelude.{◌≡◌, Some, bytes_eq};
ghost use Rattle.std.specs.List.{list_any};
ghost use Rattle.gb_goal.specs.Answers.{Answers, ◌>>=◌ as ◌and_then◌};
ghost use Rattle.gb_goal.specs.Answers.Answer.{given};
ghost use Rattle.gb_elab_mod.specs.Steps.{case_rule, conclusion_rule, have_rule, sided_case_rule};
ghost use Rattle.gb_elab_mod.specs.Taken.{is_taken, new_name};

use crate::cut::case_of_bodies;
use gb_core::name::Name;
use gb_core::place::Place;
use gb_core::refusal::Refused;
use gb_core::same::same_name;
use gb_core::ty::Ty;
use gb_elab::form::term;
use gb_goal::goal::judges_bodies;
use gb_goal::scope::Scope;
use gb_goal::sequent::{Hyp, Sequent};
use gb_names::refusals::{double, not_built};
use gb_script::tree::Node;
use gb_steps::step::{Acts, AmbientRule, BodyRule, Rule};
use gb_terms::decl::TypedName;
use gb_terms::module::Bind;
use std::alloc::Global;

/// The steps on a conclusion that stand alone.
pub fn conclusion_rule(text: &Name, place: Place) -> Result<Rule, Refused>
    ensures { Answers (conclusion_rule text.now place and_then λ r. given (Rule.Ambient r)) result }
{
    match text.as_str() {
        "split" => Ok(Rule::Ambient(AmbientRule::Split)),
        "left" => Ok(Rule::Ambient(AmbientRule::Left)),
        "right" => Ok(Rule::Ambient(AmbientRule::Right)),
        "assumption" => Ok(Rule::Ambient(AmbientRule::Assumption)),
        "trivial" => Ok(Rule::Ambient(AmbientRule::Trivial)),
        "//" => Ok(Rule::Ambient(AmbientRule::Trivial)),
        "done" => Ok(Rule::Ambient(AmbientRule::Done)),
        _ => Err(not_built(place)),
    }
}

fn is_variable(list: &[TypedName], name: &Name) -> bool
    ensures { result ≡ list_any (λ x. bytes_eq name.now x.name) list.now }
{
    list.iter().any(|x| same_name(name, &x.name))
}

fn is_memory(list: &[Name], name: &Name) -> bool
    ensures { result ≡ list_any (λ m. bytes_eq name.now m) list.now }
{
    list.iter().any(|m| same_name(name, m))
}

fn is_module(list: &[Bind], name: &Name) -> bool
    ensures { result ≡ list_any (λ b. bytes_eq name.now b.name) list.now }
{
    list.iter().any(|b| same_name(name, &b.name))
}

/// Whether a hypothesis has this name.
pub fn is_hypothesis(list: &[Hyp], name: &Name) -> bool
    ensures { result ≡ list_any (λ h. bytes_eq name.now h.name) list.now }
{
    list.iter().any(|h| same_name(name, &h.name))
}

/// Whether the name is that of a variable, a memory, a module or a hypothesis of the goal.
pub fn is_taken(goal: &Sequent, name: &Name) -> bool
    ensures { result ≡ is_taken goal.now name.now }
{
    is_variable(goal.logical.as_slice(), name)
        || (is_memory(goal.memories.as_slice(), name)
            || (is_module(goal.modules.as_slice(), name)
                || is_hypothesis(goal.hyps.as_slice(), name)))
}

/// Refuses a name that the context of a goal has already, or an abstract module which its lemma binds.
pub fn check_new(
    alloc: Global,
    scope: &Scope,
    goal: &Sequent,
    name: &Name,
    place: Place,
) -> Result<(), Refused>
    ensures { Answers (new_name scope.now goal.now name.now place) result }
{
    if is_taken(goal, name) || scope.abstract_module(name).is_some() {
        Err(double(alloc, name, place))
    } else {
        Ok(())
    }
}

/// The rule that works by cases on a form, on a judgment of bodies or on another conclusion.
fn case_rule(alloc: Global, scope: &Scope, goal: &Sequent, form: &Node) -> Result<Rule, Refused>
    ensures { Answers (case_rule scope.now goal.now form.now) result }
{
    if judges_bodies(&goal.conclusion) {
        return case_of_bodies(alloc, scope, goal, form);
    }
    let form = term(alloc, scope, goal, form, Some(&Ty::Bool))?;
    Ok(Rule::Ambient(AmbientRule::Case(form)))
}

/// The same of a step that acts on these programs. On one side it fits no goal.
pub fn sided_case_rule(
    alloc: Global,
    scope: &Scope,
    goal: &Sequent,
    acts: Acts,
    form: &Node,
) -> Result<Rule, Refused>
    ensures { Answers (sided_case_rule scope.now goal.now acts form.now) result }
{
    match acts {
        Acts::All => case_rule(alloc, scope, goal, form),
        _ => Ok(Rule::OnBodies(BodyRule::Unfit)),
    }
}

/// The rule that shows a form first.
pub fn have_rule(
    alloc: Global,
    scope: &Scope,
    goal: &Sequent,
    name: &Node,
    form: &Node,
) -> Result<Rule, Refused>
    ensures { Answers (have_rule scope.now goal.now name.now form.now) result }
{
    check_new(alloc, scope, goal, &name.text, name.place)?;
    let name = name.text.copy(alloc)?;
    let form = term(alloc, scope, goal, form, Some(&Ty::Bool))?;
    Ok(Rule::Ambient(AmbientRule::Have(name, form)))
}
