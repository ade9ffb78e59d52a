// The rule `rnd` on one body: a sampling at its end.

ghost use Rattle.std.specs.Prelude.{◌≡◌, ◌∷◌, [], IfOk};
ghost use Rattle.gb_core.specs.declared.refusal.Refused.TheVariants.{Script};
ghost use Rattle.gb_core.specs.declared.refusal.Why.TheVariants.{Shape, SideCondition};
ghost use Rattle.gb_goal.specs.Answers.{Answers, Refuses, placed_at};
ghost use Rattle.gb_goal.specs.Goal.{form_of};
ghost use Rattle.gb_goal.specs.Rows.{each_concluding};
ghost use Rattle.gb_typing.specs.Samplings.{sampling_of, last_sampling};
ghost use Rattle.gb_equiv.specs.Drawn.{without_sampling, by_end};

use gb_core::copy::copy_var;
use gb_core::place::Place;
use gb_core::refusal::{Refused, Why};
use gb_core::var::Var;
use gb_forms::drawn::each_drawn;
use gb_goal::goal::hoare;
use gb_goal::sequent::{Sequent, Sequents};
use gb_terms::op::Side;
use gb_terms::term::{Form, Instr};
use gb_typing::samplings::{Last, last_sampling, rest_of};
use gb_walk::clash::{Excluded, first_clash};
use sqlite_items::Items;
use std::alloc::{AllocError, Global};

/// The goal hasn't the form that the step needs.
pub fn no_such_shape(place: Place) -> Refused
    ensures { result ≡ Script Shape place }
{
    Refused::Script {
        why: Why::Shape,
        place,
    }
}

/// The postcondition reads a variable that clashes with this one.
pub fn clashing(alloc: Global, var: &Var, place: Place) -> Refused
    ensures { Refuses (SideCondition var.now) place result }
{
    match copy_var(alloc, var) {
        Ok(var) => Refused::Script {
            why: Why::SideCondition(var),
            place,
        },
        Err(_) => Refused::NoMemory,
    }
}

/// The goal with another conclusion, alone.
pub fn alone(alloc: Global, goal: &Sequent, conclusion: Form) -> Result<Sequents, AllocError>
    ensures { IfOk result (λ goals. goals ≡ record goal.now { conclusion = conclusion } ∷ []) }
{
    let goal = goal.with_conclusion(conclusion)?;
    let mut goals = Items::new(alloc);
    goals.push(goal)?;
    Ok(goals)
}

/// The judgment of what stands before a sampling.
fn without_sampling(
    alloc: Global,
    sampling: &Last<'_>,
    pre: &Form,
    post: &Form,
) -> Result<Form, AllocError>
    ensures { IfOk result (λ made. made ≡ form_of (without_sampling (sampling_of sampling.now) pre.now post.now)) }
{
    let post = each_drawn(alloc, sampling, post)?;
    let pre = pre.share()?;
    let rest = rest_of(alloc, sampling)?;
    hoare(alloc, rest, pre, post)
}

/// On a body that ends with a sampling: it leaves. Refused with `Shape` on another body, and with `SideCondition` where the
/// postcondition reads a variable that clashes with the target.
pub fn drawn_rule(
    alloc: Global,
    goal: &Sequent,
    exclusions: &[Excluded],
    body: &[Instr],
    pre: &Form,
    post: &Form,
    place: Place,
) -> Result<Sequents, Refused>
    ensures { Answers (placed_at place (each_concluding goal.now (by_end exclusions.now pre.now post.now (last_sampling body.now)))) result }
{
    let Some(sampling) = last_sampling(body) else {
        return Err(no_such_shape(place));
    };
    if first_clash(exclusions, &Side::Own, sampling.target, post).is_some() {
        return Err(clashing(alloc, sampling.target, place));
    }
    let conclusion = without_sampling(alloc, &sampling, pre, post)?;
    Ok(alone(alloc, goal, conclusion)?)
}
