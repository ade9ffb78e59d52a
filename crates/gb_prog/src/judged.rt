//! Judgments as they stand in a form, also those on procedures.

ghost use Rattle.std.specs.Prelude.{◌≡◌, IfOk};
ghost use Rattle.gb_goal.specs.Goal.{code_of, form_of, goal_of};
ghost use Rattle.gb_goal.specs.Goal.Goal.{hoare, phoare, equiv};
ghost use Rattle.gb_prog.specs.Judged.{goal_judged};

use gb_terms::make::{term, truth_ty};
use gb_terms::op::Rel;
use gb_terms::term::{Form, Head, RealTerm, Subject};
use sqlite_items::Items;
use std::alloc::{AllocError, Global};

/// A judgment with what it speaks of, its precondition, its postcondition and its bound; or another form.
#[derive(Clone, Copy)]
pub enum Judged<'a> {
    Hoare(&'a Subject, &'a Form, &'a Form),
    Phoare(&'a Subject, Rel, &'a Form, &'a Form, &'a RealTerm),
    Equiv(&'a Subject, &'a Subject, &'a Form, &'a Form),
    Other(&'a Form),
}

/// The judgment that a form is.
pub fn judgment(form: &Form) -> Judged<'_>
    ensures { goal_judged result ≡ goal_of form.now }
{
    match (form.head.get(), form.args.as_slice()) {
        (Head::Hoare(subject), [pre, post]) => Judged::Hoare(subject, pre, post),
        (Head::Phoare(subject, rel), [pre, post, bound]) => {
            Judged::Phoare(subject, *rel, pre, post, bound)
        }
        (Head::Equiv(left, right), [pre, post]) => Judged::Equiv(left, right, pre, post),
        _ => Judged::Other(form),
    }
}

/// The judgment that the postcondition always holds.
#[tactic(auto, using(gb_typing::proofs::Shapes::subject_back))]
pub fn hoare_of(alloc: Global, subject: &Subject, pre: Form, post: Form) -> Result<Form, AllocError>
    ensures { IfOk result (λ made. made ≡ form_of (hoare (code_of subject.now) pre post)) }
{
    let mut args = Items::new(alloc);
    args.push(pre)?;
    args.push(post)?;
    let ty = truth_ty(alloc)?;
    let subject = subject.share()?;
    term(alloc, Head::Hoare(subject), args, ty)
}

/// The judgment of how likely the postcondition is.
#[tactic(auto, using(gb_typing::proofs::Shapes::subject_back))]
pub fn phoare_of(
    alloc: Global,
    subject: &Subject,
    rel: Rel,
    pre: Form,
    post: Form,
    bound: RealTerm,
) -> Result<Form, AllocError>
    ensures { IfOk result (λ made. made ≡ form_of (phoare (code_of subject.now) rel pre post bound)) }
{
    let mut args = Items::new(alloc);
    args.push(pre)?;
    args.push(post)?;
    args.push(bound)?;
    let ty = truth_ty(alloc)?;
    let subject = subject.share()?;
    term(alloc, Head::Phoare(subject, rel), args, ty)
}

/// The equivalence of two programs.
#[tactic(auto, using(gb_typing::proofs::Shapes::subject_back))]
pub fn equiv_of(
    alloc: Global,
    left: &Subject,
    right: &Subject,
    pre: Form,
    post: Form,
) -> Result<Form, AllocError>
    ensures { IfOk result (λ made. made ≡ form_of (equiv (code_of left.now) (code_of right.now) pre post)) }
{
    let mut args = Items::new(alloc);
    args.push(pre)?;
    args.push(post)?;
    let ty = truth_ty(alloc)?;
    let left = left.share()?;
    let right = right.share()?;
    term(alloc, Head::Equiv(left, right), args, ty)
}
