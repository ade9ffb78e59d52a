// The goals of rules that put equals for equals.

ghost use Rattle.std.specs.Prelude.{◌≡◌, [], ◌∷◌, map, IfOk};
ghost use Rattle.std.specs.Option.{option_copied, option_map};
ghost use Rattle.gb_goal.specs.Answers.{Answers};
ghost use Rattle.gb_eval.specs.Script.{body_named};
ghost use Rattle.gb_rewrite.specs.Equations.{equivalence_of, exchanged};
ghost use Rattle.gb_rewrite.specs.Rewriting.{by_event_law, hypothesis_rewritten, others, rewrite_answer, rewriting, substituting, opening, using_up, without};

use crate::bodies::unfolded_everywhere;
use crate::equations::{equivalence_of, used_up_by};
use crate::events::by_first;
use crate::rewritten::{rewritten, stands};
use crate::unfolded::names;
use gb_amb::goals::{alone, no_shape, one};
use gb_amb::quantified::{quantifies_modules, refuse_goal_modules};
use gb_core::SharedItems;
use gb_core::name::Name;
use gb_core::place::Place;
use gb_core::refusal::Refused;
use gb_forms::hypotheses::with_hypotheses;
use gb_goal::scope::{Entry, Scope};
use gb_goal::sequent::{Hyp, Sequent, Sequents};
use gb_steps::step::{EventLaw, RewriteRule};
use gb_terms::term::{Form, Term};
use sqlite_items::Items;
use std::alloc::{AllocError, Global};

/// The goal with the second one of two terms in place of each first one in the conclusion. Refused with `Shape` where there are no such
/// terms, where none stands there, or where it isn't built.
fn rewriting(
    alloc: Global,
    pair: Option<(&Term, &Term)>,
    place: Place,
    goal: &Sequent,
) -> Result<Sequents, Refused>
    ensures { Answers (rewriting place goal.now (option_map (λ p. (p.0.now, p.1.now)) pair.entry)) result }
{
    let Some((replaced, by)) = pair else {
        return Err(no_shape(place));
    };
    if quantifies_modules(&goal.conclusion) || !stands(&goal.conclusion, replaced) {
        return Err(no_shape(place));
    }
    let conclusion = rewritten(alloc, &goal.conclusion, replaced, by)?;
    Ok(one(alloc, goal, conclusion)?)
}

/// The sides of a known equation or equivalence, the right one first.
fn sides_back(known: &Form) -> Option<(&Term, &Term)>
    ensures { option_map (λ p. (p.0.now, p.1.now)) result ≡ option_map exchanged (equivalence_of known.now) }
{
    match equivalence_of(known) {
        Some((left, right)) => Some((right, left)),
        None => None,
    }
}

fn hypothesis_rewritten(
    alloc: Global,
    replaced: &Term,
    by: &Term,
    hyp: &Hyp,
) -> Result<Hyp, AllocError>
    ensures { IfOk result (λ made. made ≡ hypothesis_rewritten (replaced.now, by.now) hyp.now) }
{
    let form = rewritten(alloc, &hyp.form, replaced, by)?;
    let name = hyp.name.copy(alloc)?;
    Ok(Hyp { name, form })
}

/// The hypotheses but the one at a place, with one term in place of another one.
fn others(
    alloc: Global,
    hyp: usize,
    replaced: &Term,
    by: &Term,
    hyps: &[Hyp],
) -> Result<SharedItems<Hyp>, AllocError>
    ensures { IfOk result (λ made. made ≡ map (hypothesis_rewritten (replaced.now, by.now)) (others hyp hyps.now)) }
{
    let mut made: Items<Hyp> = Items::new(alloc);
    for i in 0..hyps.len() {
        if i != hyp {
            let other = hypothesis_rewritten(alloc, replaced, by, &hyps[i])?;
            made.push(other)?;
        }
    }
    SharedItems::new(alloc, made)
}

/// The goal without a hypothesis, with one term in place of another one everywhere.
fn without(
    alloc: Global,
    hyp: usize,
    replaced: &Term,
    by: &Term,
    goal: &Sequent,
) -> Result<Sequent, AllocError>
    ensures { IfOk result (λ made. made ≡ without hyp goal.now (replaced.now, by.now)) }
{
    let hyps = others(alloc, hyp, replaced, by, goal.hyps.as_slice())?;
    let conclusion = rewritten(alloc, &goal.conclusion, replaced, by)?;
    with_hypotheses(goal, hyps, conclusion)
}

/// The goal without a hypothesis, with one term in place of another one everywhere. Refused where there are no such terms.
fn using_up(
    alloc: Global,
    hyp: usize,
    pair: Option<(&Term, &Term)>,
    place: Place,
    goal: &Sequent,
) -> Result<Sequents, Refused>
    ensures { Answers (using_up hyp place goal.now (option_map (λ p. (p.0.now, p.1.now)) pair.entry)) result }
{
    let Some((replaced, by)) = pair else {
        return Err(no_shape(place));
    };
    refuse_goal_modules(place, goal)?;
    let without = without(alloc, hyp, replaced, by, goal)?;
    Ok(alone(alloc, without)?)
}

/// The goal without a hypothesis that is an equation, by which a variable is replaced everywhere: the right side by the left one, or
/// else the left side by the right one. Refused with `Shape` where neither is a variable that doesn't occur in the other one, or
/// where it isn't built.
fn substituting(
    alloc: Global,
    hyp: usize,
    place: Place,
    goal: &Sequent,
) -> Result<Sequents, Refused>
    ensures { Answers (substituting hyp place goal.now) result }
{
    match goal.hyps.as_slice().get(hyp) {
        Some(used) => using_up(alloc, hyp, used_up_by(&used.form), place, goal),
        None => Err(no_shape(place)),
    }
}

/// The body of the operator of this name.
fn body_named<'a>(scope: &'a Scope, name: &Name) -> Option<&'a Term>
    ensures { option_copied result ≡ body_named scope.now name.now }
{
    match scope.entry(name) {
        Some(Entry::Operator(operator)) => Some(&operator.body),
        _ => None,
    }
}

/// The goal with the body of an operator of the script in place of each application of it. Refused with `Shape` where none stands in the
/// conclusion, or where it isn't built.
fn opening(
    alloc: Global,
    scope: &Scope,
    name: &Name,
    place: Place,
    goal: &Sequent,
) -> Result<Sequents, Refused>
    ensures { Answers (opening scope.now name.now place goal.now) result }
{
    let Some(body) = body_named(scope, name) else {
        return Err(no_shape(place));
    };
    if quantifies_modules(&goal.conclusion) || !names(&goal.conclusion, name) {
        return Err(no_shape(place));
    }
    let conclusion = unfolded_everywhere(alloc, &goal.conclusion, name, body)?;
    Ok(one(alloc, goal, conclusion)?)
}

/// The goal with what a law of events puts in the place of the first probability of the conclusion that it speaks of. Refused with `Shape`
/// where it speaks of none, or where it isn't built.
fn by_event_law(
    alloc: Global,
    scope: &Scope,
    law: &EventLaw,
    place: Place,
    goal: &Sequent,
) -> Result<Sequents, Refused>
    ensures { Answers (by_event_law scope.now law.now place goal.now) result }
{
    if quantifies_modules(&goal.conclusion) {
        return Err(no_shape(place));
    }
    match by_first(alloc, scope, law, &goal.conclusion)? {
        Some(conclusion) => Ok(one(alloc, goal, conclusion)?),
        None => Err(no_shape(place)),
    }
}

/// The goals of a step that puts equals for equals. Refused at the place of the step, with `Shape`, where what it uses is no equation and
/// no equivalence, where nothing gives way, where no operator stands there to be unfolded, where a law of events speaks of no probability
/// there, or where it isn't built.
pub fn apply(
    alloc: Global,
    rule: &RewriteRule,
    place: Place,
    goal: &Sequent,
    scope: &Scope,
) -> Result<Sequents, Refused>
    ensures { Answers (rewrite_answer scope.now rule.now place goal.now) result }
{
    match rule {
        RewriteRule::Forward(known) => rewriting(alloc, equivalence_of(known), place, goal),
        RewriteRule::Back(known) => rewriting(alloc, sides_back(known), place, goal),
        RewriteRule::Subst(hyp) => substituting(alloc, *hyp, place, goal),
        RewriteRule::Unfold(name) => opening(alloc, scope, name, place, goal),
        RewriteRule::Law(law) => by_event_law(alloc, scope, law, place, goal),
    }
}
