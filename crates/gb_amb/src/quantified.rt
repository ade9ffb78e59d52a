// Forms in which a quantifier over modules stands.

ghost use Rattle.std.specs.Prelude.{◌≡◌, if◌then◌else◌};
ghost use Rattle.std.specs.List.{list_any};
ghost use Rattle.gb_core.specs.declared.refusal.Why.TheVariants.{Shape};
ghost use Rattle.gb_goal.specs.Answers.{Answers};
ghost use Rattle.gb_goal.specs.Answers.Answer.{given, refused};
ghost use Rattle.gb_amb.specs.Quantified.{goal_quantifies_modules, is_module_quantifier, quantifies_modules};

use crate::goals::no_shape;
use gb_core::place::Place;
use gb_core::refusal::Refused;
use gb_goal::sequent::{Hyp, Sequent};
use gb_terms::term::{Head, Term};

fn is_module_quantifier(head: &Head) -> bool
    ensures { result ≡ is_module_quantifier head.now }
{
    matches!(head, Head::AllModule(_))
}

/// Whether a quantifier over modules stands in a form.
#[cycle(quantifies_modules)]
#[tactic(auto, using(crate::proofs::Fronts::modules_out))]
pub fn quantifies_modules(form: &Term) -> bool
    ensures { result ≡ quantifies_modules form.now }
{
    is_module_quantifier(form.head.get()) || quantify_modules(form.args.as_slice())
}

#[cycle(quantifies_modules)]
#[tactic(auto, using(crate::proofs::Fronts::modules_out))]
fn quantify_modules(list: &[Term]) -> bool
    ensures { result ≡ list_any quantifies_modules list.now }
{
    for t in list {
        if quantifies_modules(t) {
            return true;
        }
    }
    false
}

fn in_hypotheses(hyps: &[Hyp]) -> bool
    ensures { result ≡ list_any (λ h. quantifies_modules h.form) hyps.now }
{
    for h in hyps {
        if quantifies_modules(&h.form) {
            return true;
        }
    }
    false
}

/// Whether a quantifier over modules stands in the conclusion or in a hypothesis.
pub fn goal_quantifies_modules(goal: &Sequent) -> bool
    ensures { result ≡ goal_quantifies_modules goal.now }
{
    quantifies_modules(&goal.conclusion) || in_hypotheses(goal.hyps.as_slice())
}

/// Refuses a goal with a quantifier over modules in the conclusion or in a hypothesis.
pub fn refuse_goal_modules(place: Place, goal: &Sequent) -> Result<(), Refused>
    ensures { Answers (if goal_quantifies_modules goal.now then refused Shape place else given tt) result }
{
    if goal_quantifies_modules(goal) {
        return Err(no_shape(place));
    }
    Ok(())
}
