// The goals that steps on conclusions give.

ghost use Rattle.std.specs.Prelude.{◌≡◌, [], ◌∷◌, ◌++◌, map, IfOk};
ghost use Rattle.gb_goal.specs.declared.sequent.Hyp.{Hyp as Hypothesis};
ghost use Rattle.gb_core.specs.declared.refusal.Why.TheVariants.{Shape};
ghost use Rattle.gb_amb.specs.Parts.{concluding};
ghost use Rattle.gb_amb.specs.Steps.{assuming};

use gb_core::SharedItems;
use gb_core::name::Name;
use gb_core::place::Place;
use gb_core::refusal::{Refused, Why};
use gb_goal::sequent::{Hyp, Sequent, Sequents};
use gb_terms::term::Form;
use sqlite_items::Items;
use std::alloc::{AllocError, Global};

/// The goal hasn't the form that a step needs.
pub fn no_shape(place: Place) -> Refused
    ensures { result ≡ Refused.Script Shape place }
{
    Refused::Script {
        why: Why::Shape,
        place,
    }
}

/// A goal alone.
pub fn alone(alloc: Global, goal: Sequent) -> Result<Sequents, AllocError>
    ensures { IfOk result (λ goals. goals ≡ goal ∷ []) }
{
    let mut goals = Items::new(alloc);
    goals.push(goal)?;
    Ok(goals)
}

/// The goal with another conclusion, alone.
pub fn one(alloc: Global, goal: &Sequent, conclusion: Form) -> Result<Sequents, AllocError>
    ensures { IfOk result (λ goals. goals ≡ concluding goal.now conclusion ∷ []) }
{
    let goal = goal.with_conclusion(conclusion)?;
    alone(alloc, goal)
}

/// A hypothesis with one owner more.
fn shared(alloc: Global, hyp: &Hyp) -> Result<Hyp, AllocError>
    ensures { IfOk result (λ made. made ≡ hyp.now) }
{
    let name = hyp.name.copy(alloc)?;
    let form = hyp.form.share()?;
    Ok(Hyp { name, form })
}

/// Hypotheses, and one more behind them.
fn with_hypothesis(
    alloc: Global,
    hyps: &[Hyp],
    name: &Name,
    form: &Form,
) -> Result<SharedItems<Hyp>, AllocError>
    ensures { IfOk result (λ made. made ≡ hyps.now ++ record { name = name.now; form = form.now } ∷ []) }
{
    let mut more: Items<Hyp> = Items::new(alloc);
    for hyp in hyps {
        let hyp = shared(alloc, hyp)?;
        more.push(hyp)?;
    }
    let name = name.copy(alloc)?;
    let form = form.share()?;
    more.push(Hyp { name, form })?;
    SharedItems::new(alloc, more)
}

/// The goal with one hypothesis more, behind the others.
pub fn assuming(
    alloc: Global,
    goal: &Sequent,
    name: &Name,
    form: &Form,
) -> Result<Sequent, AllocError>
    ensures { IfOk result (λ made. made ≡ assuming goal.now name.now form.now) }
{
    let hyps = with_hypothesis(alloc, goal.hyps.as_slice(), name, form)?;
    let mut more = goal.share()?;
    more.hyps = hyps;
    Ok(more)
}
