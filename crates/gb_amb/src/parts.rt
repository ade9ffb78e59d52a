// The parts of a conclusion that are to be shown.

ghost use Rattle.std.specs.Prelude.{◌≡◌, [], ◌∷◌, IfOk};
ghost use Rattle.gb_goal.specs.Answers.{Answers};
ghost use Rattle.gb_typing.specs.Forms.{implies_form};
ghost use Rattle.gb_core.specs.declared.ty.Ty.TheVariants.{Bool as bool_ty, Real as real_ty};
ghost use Rattle.gb_terms.specs.declared.op.Op.TheVariants.{Negate};
ghost use Rattle.gb_terms.specs.declared.term.Head.TheVariants.{All, AllMemory};
ghost use Rattle.gb_terms.specs.Make.{applied, node};
ghost use Rattle.gb_amb.specs.Parts.{at_most_form, bounded_at, by_parts, by_premise, each_concluding, parts_at};

use crate::goals::{no_shape, one};
use crate::quantified::quantifies_modules;
use gb_core::Shared;
use gb_core::place::Place;
use gb_core::refusal::Refused;
use gb_core::ty::Ty;
use gb_forms::cases::two;
use gb_goal::sequent::{Sequent, Sequents};
use gb_steps::step::AmbientRule;
use gb_terms::make::{binary, forall, implication, over, truth_ty, unary};
use gb_terms::op::Op;
use gb_terms::term::{Form, Head, Term};
use std::alloc::{AllocError, Global};

fn implies(alloc: Global, premise: &Form, conclusion: &Form) -> Result<Form, AllocError>
    ensures { IfOk result (λ made. made ≡ implies_form premise.now conclusion.now) }
{
    let premise = premise.share()?;
    let conclusion = conclusion.share()?;
    implication(alloc, premise, conclusion)
}

fn both(alloc: Global, goal: &Sequent, a: &Form, b: &Form) -> Result<Sequents, AllocError>
    ensures { IfOk result (λ goals. goals ≡ record goal.now { conclusion = a.now } ∷ record goal.now { conclusion = b.now } ∷ []) }
{
    let first = a.share()?;
    let second = b.share()?;
    two(alloc, goal, first, second)
}

/// Two goals: each of two premises implies its own conclusion.
fn implications(
    alloc: Global,
    goal: &Sequent,
    a: &Form,
    b: &Form,
    after_a: &Form,
    after_b: &Form,
) -> Result<Sequents, AllocError>
    ensures { IfOk result (λ goals. goals ≡ record goal.now { conclusion = implies_form a.now after_a.now } ∷ record goal.now { conclusion = implies_form b.now after_b.now } ∷ []) }
{
    let first = implies(alloc, a, after_a)?;
    let second = implies(alloc, b, after_b)?;
    two(alloc, goal, first, second)
}

/// The conclusion under a premise and, before it, another one.
fn under_both(
    alloc: Global,
    goal: &Sequent,
    a: &Form,
    b: &Form,
    conclusion: &Form,
) -> Result<Sequents, AllocError>
    ensures { IfOk result (λ goals. goals ≡ record goal.now { conclusion = implies_form a.now (implies_form b.now conclusion.now) } ∷ []) }
{
    let inner = implies(alloc, b, conclusion)?;
    let form = implies(alloc, a, &inner)?;
    one(alloc, goal, form)
}

/// The conclusion under a premise, for each value of a type.
fn for_each_value(
    alloc: Global,
    goal: &Sequent,
    ty: &Shared<Ty>,
    a: &Form,
    conclusion: &Form,
) -> Result<Sequents, AllocError>
    ensures { IfOk result (λ goals. goals ≡ record goal.now { conclusion = node (All ty.now) (implies_form a.now conclusion.now ∷ []) bool_ty } ∷ []) }
{
    let body = implies(alloc, a, conclusion)?;
    let form = forall(alloc, ty.share()?, body)?;
    one(alloc, goal, form)
}

/// The conclusion under a premise, for each memory.
fn for_each_memory(
    alloc: Global,
    goal: &Sequent,
    a: &Form,
    conclusion: &Form,
) -> Result<Sequents, AllocError>
    ensures { IfOk result (λ goals. goals ≡ record goal.now { conclusion = node AllMemory (implies_form a.now conclusion.now ∷ []) bool_ty } ∷ []) }
{
    let body = implies(alloc, a, conclusion)?;
    let truth = truth_ty(alloc)?;
    let form = over(alloc, Head::AllMemory, body, truth)?;
    one(alloc, goal, form)
}

fn alone(alloc: Global, goal: &Sequent, form: &Form) -> Result<Sequents, AllocError>
    ensures { IfOk result (λ goals. goals ≡ record goal.now { conclusion = form.now } ∷ []) }
{
    let form = form.share()?;
    one(alloc, goal, form)
}

/// The goals of a conclusion under a premise of this head and these arguments.
fn by_premise(
    alloc: Global,
    rule: &AmbientRule,
    place: Place,
    goal: &Sequent,
    head: &Head,
    args: &[Term],
    conclusion: &Form,
) -> Result<Sequents, Refused>
    ensures { Answers (each_concluding goal.now (by_premise rule.now place head.now args.now conclusion.now)) result }
{
    match (rule, head, args) {
        (AmbientRule::Discard, _, _) => Ok(alone(alloc, goal, conclusion)?),
        (AmbientRule::Unpack, Head::Builtin(Op::And), [a, b]) => {
            Ok(under_both(alloc, goal, a, b, conclusion)?)
        }
        (AmbientRule::Unpack, Head::Some(ty), [a]) => {
            if quantifies_modules(conclusion) {
                return Err(no_shape(place));
            }
            Ok(for_each_value(alloc, goal, ty, a, conclusion)?)
        }
        (AmbientRule::Unpack, Head::SomeMemory, [a]) => {
            if quantifies_modules(conclusion) {
                return Err(no_shape(place));
            }
            Ok(for_each_memory(alloc, goal, a, conclusion)?)
        }
        (AmbientRule::Branch, Head::Builtin(Op::Or), [a, b]) => {
            Ok(implications(alloc, goal, a, b, conclusion, conclusion)?)
        }
        _ => Err(no_shape(place)),
    }
}

fn at_most(alloc: Global, a: Term, bound: &Term) -> Result<Form, AllocError>
    ensures { IfOk result (λ made. made ≡ at_most_form a bound.now) }
{
    let bound = bound.share()?;
    let truth = truth_ty(alloc)?;
    binary(alloc, Op::AtMost, a, bound, truth)
}

fn opposite(alloc: Global, real: &Term) -> Result<Term, AllocError>
    ensures { IfOk result (λ made. made ≡ applied Negate (real.now ∷ []) real_ty) }
{
    let real = real.share()?;
    let ty = Shared::new(alloc, Ty::Real)?;
    unary(alloc, Op::Negate, real, ty)
}

/// A real and its opposite are at most a bound.
fn both_signs(
    alloc: Global,
    goal: &Sequent,
    real: &Term,
    bound: &Term,
) -> Result<Sequents, AllocError>
    ensures { IfOk result (λ goals. goals ≡ record goal.now { conclusion = at_most_form real.now bound.now }
        ∷ record goal.now { conclusion = at_most_form (applied Negate (real.now ∷ []) real_ty) bound.now } ∷ []) }
{
    let first = at_most(alloc, real.share()?, bound)?;
    let second = at_most(alloc, opposite(alloc, real)?, bound)?;
    two(alloc, goal, first, second)
}

/// The goals of a bound on a term of this head and these arguments.
fn bounded(
    alloc: Global,
    place: Place,
    goal: &Sequent,
    head: &Head,
    args: &[Term],
    bound: &Term,
) -> Result<Sequents, Refused>
    ensures { Answers (each_concluding goal.now (bounded_at place head.now args.now bound.now)) result }
{
    match (head, args) {
        (Head::Builtin(Op::Abs), [real]) => Ok(both_signs(alloc, goal, real, bound)?),
        _ => Err(no_shape(place)),
    }
}

fn by_head(
    alloc: Global,
    rule: &AmbientRule,
    place: Place,
    goal: &Sequent,
    head: &Head,
    args: &[Term],
) -> Result<Sequents, Refused>
    ensures { Answers (each_concluding goal.now (parts_at rule.now place head.now args.now)) result }
{
    match (rule, head, args) {
        (AmbientRule::Split, Head::Builtin(Op::And), [a, b]) => Ok(both(alloc, goal, a, b)?),
        (AmbientRule::Split, Head::Builtin(Op::Iff), [a, b]) => {
            Ok(implications(alloc, goal, a, b, b, a)?)
        }
        (AmbientRule::Split, Head::Builtin(Op::AtMost), [a, b]) => {
            bounded(alloc, place, goal, a.head.get(), a.args.as_slice(), b)
        }
        (AmbientRule::Left, Head::Builtin(Op::Or), [a, _]) => Ok(alone(alloc, goal, a)?),
        (AmbientRule::Right, Head::Builtin(Op::Or), [_, b]) => Ok(alone(alloc, goal, b)?),
        _ => Err(no_shape(place)),
    }
}

/// The goals with the parts of the conclusion in its place: those of an implication by its premise, and of others by themselves. Refused
/// with `Shape` where it hasn't the form that the step needs.
pub fn by_parts(
    alloc: Global,
    rule: &AmbientRule,
    place: Place,
    goal: &Sequent,
) -> Result<Sequents, Refused>
    ensures { Answers (by_parts rule.now place goal.now) result }
{
    match (goal.conclusion.head.get(), goal.conclusion.args.as_slice()) {
        (Head::Builtin(Op::Implies), [premise, conclusion]) => by_premise(
            alloc,
            rule,
            place,
            goal,
            premise.head.get(),
            premise.args.as_slice(),
            conclusion,
        ),
        (head, args) => by_head(alloc, rule, place, goal, head, args),
    }
}
