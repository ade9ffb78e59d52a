// The limits on what a script builds.

ghost use Rattle.std.specs.Prelude.{◌≡◌, ◌++◌, drop, map, sum, Some};
ghost use Rattle.std.specs.List.{list_any};
ghost use Rattle.gb_terms.specs.Nodes.{saturated};
ghost use Rattle.gb_goal.specs.Nodes.{sequent_nodes};
ghost use Rattle.gb_goal.specs.Scope.{declarations_in};
ghost use Rattle.gb_theory.specs.Limits.{declaration_limit, is_large, has_large_form, goal_limit, each_limit, all_limit, limited};

use gb_core::place::Place;
use gb_core::refusal::{Refused, Why};
use gb_goal::scope::Scope;
use gb_goal::sequent::{Hyp, Sequent, nodes};
use gb_steps::goals::Goals;
use gb_terms::nodes::nodes_of;
use gb_terms::term::Form;

pub const DECLARATIONS: usize = 4_096;

pub const OPEN_GOALS: usize = 1_024;

pub const HYPOTHESES: usize = 256;

pub const FORM_NODES: u64 = 65_536;

pub const ALL_NODES: u64 = 1_048_576;

fn too_many(limit: u64, place: Place) -> Result<(), Refused>
    ensures { result ≡ limited (Some limit) place }
{
    Err(Refused::Script {
        why: Why::TooMany(limit),
        place,
    })
}

/// Refuses one declaration more where the scope has as many as it may have.
pub fn check_declarations(scope: &Scope, place: Place) -> Result<(), Refused>
    ensures { result ≡ limited (declaration_limit (declarations_in scope.now)) place }
{
    if scope.declarations() >= DECLARATIONS {
        return too_many(DECLARATIONS as u64, place);
    }
    Ok(())
}

fn is_large(form: &Form) -> bool
    ensures { result ≡ is_large form.now }
{
    nodes_of(form) > FORM_NODES
}

fn any_large(hyps: &[Hyp]) -> bool
    ensures { result ≡ list_any (λ h. is_large h.form) hyps.now }
{
    hyps.iter().any(|h| is_large(&h.form))
}

fn has_large_form(goal: &Sequent) -> bool
    ensures { result ≡ has_large_form goal.now }
{
    is_large(&goal.conclusion) || any_large(goal.hyps.as_slice())
}

/// Refuses a goal with too many hypotheses or too large a form.
pub fn check_goal(goal: &Sequent, place: Place) -> Result<(), Refused>
    ensures { result ≡ limited (goal_limit goal.now) place }
{
    if goal.hyps.len() > HYPOTHESES {
        return too_many(HYPOTHESES as u64, place);
    }
    if has_large_form(goal) {
        return too_many(FORM_NODES, place);
    }
    Ok(())
}

/// Refuses goals that a rule gives where one of them passes a limit.
pub fn check_each(goals: &[Sequent], place: Place) -> Result<(), Refused>
    ensures { result ≡ limited (each_limit goals.now) place }
{
    for goal in goals {
        check_goal(goal, place)?;
    }
    Ok(())
}

fn nodes_of_all(goals: &[Sequent]) -> u64
    ensures { result ≡ saturated (sum (map sequent_nodes goals.now)) }
{
    let mut total = 0u64;
    for goal in goals {
        total = total.saturating_add(nodes(goal));
    }
    total
}

/// Refuses the goals that would be open after a step, which puts these in the place of the first one, where they are too
/// many or too large together.
pub fn check_all(next: &[Sequent], goals: &Goals, place: Place) -> Result<(), Refused>
    ensures { result ≡ limited (all_limit (next.now ++ drop 1 goals.now)) place }
{
    let behind = goals.len().saturating_sub(1);
    if next.len().saturating_add(behind) > OPEN_GOALS {
        return too_many(OPEN_GOALS as u64, place);
    }
    if nodes_of_all(next).saturating_add(goals.nodes_behind(1)) > ALL_NODES {
        return too_many(ALL_NODES, place);
    }
    Ok(())
}
