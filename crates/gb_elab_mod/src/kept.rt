// What steps say that oracles of abstract procedures keep.

ghost use Rattle.std.specs.Prelude.{◌≡◌};
ghost use Rattle.gb_goal.specs.Answers.{Answers, ◌>>=◌ as ◌and_then◌};
ghost use Rattle.gb_goal.specs.Answers.Answer.{given};
ghost use Rattle.gb_goal.specs.Views.{goal_seen};
ghost use Rattle.gb_elab_mod.specs.OnPrograms.{calls_by, calls_until, kept_of, kept_on, procedures_by, until_of, until_on};

use crate::forms::{form_on_one, form_on_two};
use gb_core::refusal::Refused;
use gb_goal::goal::{Goal, goal_of};
use gb_goal::scope::Scope;
use gb_goal::sequent::Sequent;
use gb_script::tree::Node;
use gb_steps::step::{AbstractRule, Acts, BodyRule, Rule, Until};
use gb_terms::term::Form;
use std::alloc::Global;

/// What oracles keep, at a judgment that is seen so. None at goals that give it no type.
#[tactic(auto, unfolding(crate::specs::OnPrograms::kept_of))]
fn kept_of(
    alloc: Global,
    scope: &Scope,
    goal: &Sequent,
    kept: &Node,
    seen: Goal<'_>,
) -> Result<Option<Form>, Refused>
    ensures { Answers (kept_of scope.now goal.now kept.now (goal_seen seen.entry)) result }
{
    match seen {
        Goal::Hoare(..) => {
            let form = form_on_one(alloc, scope, goal, &[], kept)?;
            Ok(Some(form))
        }
        Goal::Equiv(..) => {
            let form = form_on_two(alloc, scope, goal, &[], &[], kept)?;
            Ok(Some(form))
        }
        _ => Ok(None),
    }
}

/// The same of a step that acts on these programs.
fn kept_on(
    alloc: Global,
    scope: &Scope,
    goal: &Sequent,
    acts: Acts,
    kept: &Node,
) -> Result<Option<Form>, Refused>
    ensures { Answers (kept_on scope.now goal.now acts kept.now) result }
{
    match acts {
        Acts::All => kept_of(alloc, scope, goal, kept, goal_of(&goal.conclusion)),
        _ => Ok(None),
    }
}

/// The typed step of `call` by what oracles keep.
///
/// # Errors
///
/// Those of the form, which reads no locals of programs.
pub fn calls_rule(
    alloc: Global,
    scope: &Scope,
    goal: &Sequent,
    acts: Acts,
    kept: &Node,
) -> Result<Rule, Refused>
    ensures { Answers (kept_on scope.now goal.now acts kept.now and_then λ f. given (calls_by f)) result }
{
    match kept_on(alloc, scope, goal, acts, kept)? {
        Some(kept) => Ok(Rule::Abstract(AbstractRule::Call(kept))),
        None => Ok(Rule::OnBodies(BodyRule::Unfit)),
    }
}

/// The typed step of `proc` by what oracles keep.
///
/// # Errors
///
/// Those of the form, which reads no locals of programs.
pub fn procedures_rule(
    alloc: Global,
    scope: &Scope,
    goal: &Sequent,
    acts: Acts,
    kept: &Node,
) -> Result<Rule, Refused>
    ensures { Answers (kept_on scope.now goal.now acts kept.now and_then λ f. given (procedures_by f)) result }
{
    match kept_on(alloc, scope, goal, acts, kept)? {
        Some(kept) => Ok(Rule::Abstract(AbstractRule::Proc(kept))),
        None => Ok(Rule::OnBodies(BodyRule::Unfit)),
    }
}

/// What oracles keep until an event has come about, and the event, at a judgment that is seen so. None at goals that give them no type.
#[tactic(auto, unfolding(crate::specs::OnPrograms::until_of))]
fn until_of(
    alloc: Global,
    scope: &Scope,
    goal: &Sequent,
    event: &Node,
    kept: &Node,
    seen: Goal<'_>,
) -> Result<Option<Until>, Refused>
    ensures { Answers (until_of scope.now goal.now event.now kept.now (goal_seen seen.entry)) result }
{
    let Goal::Equiv(..) = seen else {
        return Ok(None);
    };
    let event = form_on_one(alloc, scope, goal, &[], event)?;
    let kept = form_on_two(alloc, scope, goal, &[], &[], kept)?;
    Ok(Some(Until { event, kept }))
}

/// The same of a step that acts on these programs.
fn until_on(
    alloc: Global,
    scope: &Scope,
    goal: &Sequent,
    acts: Acts,
    event: &Node,
    kept: &Node,
) -> Result<Option<Until>, Refused>
    ensures { Answers (until_on scope.now goal.now acts event.now kept.now) result }
{
    match acts {
        Acts::All => until_of(alloc, scope, goal, event, kept, goal_of(&goal.conclusion)),
        _ => Ok(None),
    }
}

/// The typed step of `call` by what oracles keep until an event has come about.
///
/// # Errors
///
/// Those of both forms, which read no locals of programs.
pub fn calls_until(
    alloc: Global,
    scope: &Scope,
    goal: &Sequent,
    acts: Acts,
    event: &Node,
    kept: &Node,
) -> Result<Rule, Refused>
    ensures { Answers (until_on scope.now goal.now acts event.now kept.now and_then λ u. given (calls_until u)) result }
{
    match until_on(alloc, scope, goal, acts, event, kept)? {
        Some(until) => Ok(Rule::Abstract(AbstractRule::CallUntil(until))),
        None => Ok(Rule::OnBodies(BodyRule::Unfit)),
    }
}
