//! The rule `transitivity`.

ghost use Rattle.std.specs.Prelude.{◌≡◌, ◌∷◌, [], IfOk, map};
ghost use Rattle.gb_goal.specs.Answers.{Answers};
ghost use Rattle.gb_goal.specs.Goal.{code_of, form_of};
ghost use Rattle.gb_goal.specs.Goal.Code.{procedure};
ghost use Rattle.gb_goal.specs.Goal.Goal.{equiv};
ghost use Rattle.gb_goal.specs.Rows.{answered, concluding, stepped};
ghost use Rattle.gb_typing.specs.Forms.{every_pair, implies_form};
ghost use Rattle.gb_forms.specs.Between.{from_left, some_between, to_right};
ghost use Rattle.gb_equiv.specs.Transitivity.{every_between, through, transitivity_row};

use gb_core::place::Place;
use gb_core::refusal::Refused;
use gb_forms::between::{from_left, reads_between, some_between, to_right};
use gb_goal::sequent::{Sequent, Sequents};
use gb_prog::forms::{every_pair, implied};
use gb_prog::judged::{Judged, equiv_of, judgment};
use gb_prog::subgoals::{no_shape, placed, two_goals};
use gb_steps::step::Between;
use gb_terms::make::{implication, over, truth_ty};
use gb_terms::term::{Form, Head, Subject};
use std::alloc::{AllocError, Global};

/// If both relations hold of a memory between, the form holds.
fn by_memory(alloc: Global, left: &Form, right: &Form, form: &Form) -> Result<Form, AllocError>
    ensures { IfOk result (λ made. made ≡ implies_form (from_left left.now) (implies_form (to_right right.now) form.now)) }
{
    let second = to_right(alloc, right)?;
    let rest = implication(alloc, second, form.share()?)?;
    let first = from_left(alloc, left)?;
    implication(alloc, first, rest)
}

/// Whatever the memory between is for which both relations hold, the form holds.
fn every_between(alloc: Global, left: &Form, right: &Form, form: &Form) -> Result<Form, AllocError>
    ensures { IfOk result (λ made. made ≡ every_between left.now right.now form.now) }
{
    if !reads_between(left, right) {
        let rest = implied(alloc, right, form)?;
        return implication(alloc, left.share()?, rest);
    }
    let body = by_memory(alloc, left, right, form)?;
    let ty = truth_ty(alloc)?;
    over(alloc, Head::AllMemory, body, ty)
}

/// From each two related memories there is one between.
fn leads_through(alloc: Global, pre: &Form, between: &Between) -> Result<Form, AllocError>
    ensures { IfOk result (λ made. made ≡ every_pair (implies_form pre.now (some_between between.now.left_pre between.now.right_pre))) }
{
    let some = some_between(alloc, &between.left_pre, &between.right_pre)?;
    every_pair(alloc, implied(alloc, pre, &some)?)
}

/// What is related by way of a memory between is related.
fn leads_back(alloc: Global, between: &Between, post: &Form) -> Result<Form, AllocError>
    ensures { IfOk result (λ made. made ≡ every_pair (every_between between.now.left_post between.now.right_post post.now)) }
{
    let every = every_between(alloc, &between.left_post, &between.right_post, post)?;
    every_pair(alloc, every)
}

/// The equivalence of two programs from a condition to another.
fn half(
    alloc: Global,
    left: &Subject,
    right: &Subject,
    pre: &Form,
    post: &Form,
) -> Result<Form, AllocError>
    ensures { IfOk result (λ made. made ≡ form_of (equiv (code_of left.now) (code_of right.now) pre.now post.now)) }
{
    let pre = pre.share()?;
    let post = post.share()?;
    equiv_of(alloc, left, right, pre, post)
}

/// The goals that two programs are equivalent to a procedure between.
fn halves(
    alloc: Global,
    goal: &Sequent,
    between: &Between,
    left: &Subject,
    right: &Subject,
) -> Result<Sequents, AllocError>
    ensures { IfOk result (λ made. made ≡ map (concluding goal.now) (equiv (code_of left.now) (procedure between.now.procedure) between.now.left_pre between.now.left_post
        ∷ equiv (procedure between.now.procedure) (code_of right.now) between.now.right_pre between.now.right_post ∷ [])) }
{
    let there = Subject::Proc(between.procedure.share()?);
    let first = half(alloc, left, &there, &between.left_pre, &between.left_post)?;
    let second = half(
        alloc,
        &there,
        right,
        &between.right_pre,
        &between.right_post,
    )?;
    two_goals(alloc, goal, first, second)
}

/// The goals of two programs by way of a procedure between.
fn through(
    alloc: Global,
    goal: &Sequent,
    between: &Between,
    left: &Subject,
    right: &Subject,
    pre: &Form,
    post: &Form,
) -> Result<Sequents, AllocError>
    ensures { IfOk result (λ made. made ≡ map (concluding goal.now) (through between.now (code_of left.now) (code_of right.now) pre.now post.now)) }
{
    let first = leads_through(alloc, pre, between)?;
    let second = leads_back(alloc, between, post)?;
    let mut goals = two_goals(alloc, goal, first, second)?;
    let more = halves(alloc, goal, between, left, right)?;
    goals.append(more)?;
    Ok(goals)
}

/// The subgoals, or a refusal that has no place yet.
fn by_way(alloc: Global, goal: &Sequent, between: &Between) -> Result<Sequents, Refused>
    ensures { Answers (answered (transitivity_row between.now) goal.now) result }
{
    match judgment(&goal.conclusion) {
        Judged::Equiv(left @ Subject::Proc(_), right @ Subject::Proc(_), pre, post) => {
            Ok(through(alloc, goal, between, left, right, pre, post)?)
        }
        _ => Err(no_shape()),
    }
}

/// The subgoals of `transitivity` on an equivalence of procedures: from each two related memories there is one between; what is related by
/// way of a memory between is related; and the procedures are equivalent to the one between. Refused with `Shape` at any other goal.
pub fn transitivity(
    alloc: Global,
    goal: &Sequent,
    between: &Between,
    place: Place,
) -> Result<Sequents, Refused>
    ensures { Answers (stepped (transitivity_row between.now) place goal.now) result }
{
    let made = by_way(alloc, goal, between);
    placed(made, place)
}
