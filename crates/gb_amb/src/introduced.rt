// What stands in front of a conclusion, taken into the context.

ghost use Rattle.std.specs.Prelude.{◌≡◌, [], ◌∷◌, ◌++◌, IfOk};
ghost use Rattle.gb_goal.specs.Answers.{Answers};
ghost use Rattle.gb_walk.specs.declared.change.Change.TheVariants.{OfBound};
ghost use Rattle.gb_walk.specs.Change.{term_changed};
ghost use Rattle.gb_amb.specs.Introduced.{introduced, introduced_at, next_variable, with_memory, with_premise, with_variable};

use crate::goals::{alone, assuming, no_shape};
use crate::quantified::goal_quantifies_modules;
use gb_core::copy::copy_names;
use gb_core::name::Name;
use gb_core::place::Place;
use gb_core::refusal::Refused;
use gb_core::ty::Ty;
use gb_core::{Shared, SharedItems};
use gb_goal::sequent::{Sequent, Sequents};
use gb_steps::step::AmbientRule;
use gb_terms::decl::TypedName;
use gb_terms::make::logical;
use gb_terms::op::{Op, Side};
use gb_terms::share::copy_typed;
use gb_terms::term::{Form, Head, Term};
use gb_walk::change::Change;
use gb_walk::walk::changed;
use sqlite_items::Items;
use std::alloc::{AllocError, Global};

/// A length as the number of a place. A list that is longer doesn't fit in memory, and so counts as a want of it.
fn place_after(length: usize) -> Result<u32, AllocError>
    ensures { IfOk result (λ place. place ≡ length) }
{
    u32::try_from(length).or(Err(AllocError))
}

/// A form with one change made.
pub fn changed_once(alloc: Global, form: &Form, change: Change) -> Result<Form, AllocError>
    ensures { IfOk result (λ made. made ≡ term_changed form.now (change ∷ [])) }
{
    let mut changes = Items::new(alloc);
    changes.push(change)?;
    changed(alloc, form, changes.as_slice())
}

/// The body of a quantifier over values, about the variable behind those of the context.
fn about_variable(
    alloc: Global,
    ty: &Shared<Ty>,
    body: &Form,
    goal: &Sequent,
) -> Result<Form, AllocError>
    ensures { IfOk result (λ made. made ≡ term_changed body.now (OfBound 0 (next_variable goal.now ty.now) ∷ [])) }
{
    let place = place_after(goal.logical.len())?;
    let variable = logical(alloc, place, ty.share()?)?;
    changed_once(alloc, body, Change::OfBound(0, variable))
}

/// Variables, and one more behind them.
fn variables_with(
    alloc: Global,
    list: &[TypedName],
    name: &Name,
    ty: &Shared<Ty>,
) -> Result<SharedItems<TypedName>, AllocError>
    ensures { IfOk result (λ made. made ≡ list.now ++ record { name = name.now; ty = ty.now } ∷ []) }
{
    let mut more = copy_typed(alloc, list)?;
    let name = name.copy(alloc)?;
    let ty = ty.share()?;
    more.push(TypedName { name, ty })?;
    SharedItems::new(alloc, more)
}

/// The goal of the body of a quantifier over values, with a variable more.
pub fn with_variable(
    alloc: Global,
    name: &Name,
    ty: &Shared<Ty>,
    body: &Form,
    goal: &Sequent,
) -> Result<Sequent, AllocError>
    ensures { IfOk result (λ made. made ≡ with_variable goal.now name.now ty.now body.now) }
{
    let conclusion = about_variable(alloc, ty, body, goal)?;
    let logical = variables_with(alloc, goal.logical.as_slice(), name, ty)?;
    let mut more = goal.with_conclusion(conclusion)?;
    more.logical = logical;
    Ok(more)
}

/// Memories, and one more behind them.
fn memories_with(alloc: Global, list: &[Name], name: &Name) -> Result<SharedItems<Name>, AllocError>
    ensures { IfOk result (λ made. made ≡ list.now ++ name.now ∷ []) }
{
    let mut more = copy_names(alloc, list)?;
    let name = name.copy(alloc)?;
    more.push(name)?;
    SharedItems::new(alloc, more)
}

/// The goal of the body of a quantifier over memories, with a memory more.
pub fn with_memory(
    alloc: Global,
    name: &Name,
    body: &Form,
    goal: &Sequent,
) -> Result<Sequent, AllocError>
    ensures { IfOk result (λ made. made ≡ with_memory goal.now name.now body.now) }
{
    let place = place_after(goal.memories.len())?;
    let change = Change::ToSide(Side::Bound(0), Side::Memory(place));
    let conclusion = changed_once(alloc, body, change)?;
    let memories = memories_with(alloc, goal.memories.as_slice(), name)?;
    let mut more = goal.with_conclusion(conclusion)?;
    more.memories = memories;
    Ok(more)
}

/// The goal of the rest of an implication, with the premise as a hypothesis more.
pub fn with_premise(
    alloc: Global,
    name: &Name,
    premise: &Form,
    rest: &Form,
    goal: &Sequent,
) -> Result<Sequent, AllocError>
    ensures { IfOk result (λ made. made ≡ with_premise goal.now name.now premise.now rest.now) }
{
    let conclusion = rest.share()?;
    assuming(alloc, &goal.with_conclusion(conclusion)?, name, premise)
}

fn by_head(
    alloc: Global,
    rule: &AmbientRule,
    place: Place,
    goal: &Sequent,
    head: &Head,
    args: &[Term],
) -> Result<Sequents, Refused>
    ensures { Answers (introduced_at rule.now place goal.now head.now args.now) result }
{
    match (rule, head, args) {
        (AmbientRule::Introduce(name), Head::All(ty), [body]) => {
            if goal_quantifies_modules(goal) {
                return Err(no_shape(place));
            }
            let wider = with_variable(alloc, name, ty, body, goal)?;
            Ok(alone(alloc, wider)?)
        }
        (AmbientRule::Introduce(name), Head::Builtin(Op::Implies), [premise, rest]) => {
            let wider = with_premise(alloc, name, premise, rest, goal)?;
            Ok(alone(alloc, wider)?)
        }
        (AmbientRule::IntroduceMemory(name), Head::AllMemory, [body]) => {
            if goal_quantifies_modules(goal) {
                return Err(no_shape(place));
            }
            let wider = with_memory(alloc, name, body, goal)?;
            Ok(alone(alloc, wider)?)
        }
        _ => Err(no_shape(place)),
    }
}

/// The goal of the conclusion without its leading quantifier or premise, which is in the context then. Refused with `Shape` where
/// none stands there, or a quantifier over modules stands in front of a formula behind it or of a hypothesis.
pub fn introduced(
    alloc: Global,
    rule: &AmbientRule,
    place: Place,
    goal: &Sequent,
) -> Result<Sequents, Refused>
    ensures { Answers (introduced rule.now place goal.now) result }
{
    let head = goal.conclusion.head.get();
    by_head(
        alloc,
        rule,
        place,
        goal,
        head,
        goal.conclusion.args.as_slice(),
    )
}
