//! The rule `hoare`.

ghost use Rattle.std.specs.Prelude.{◌≡◌, map, IfOk};
ghost use Rattle.gb_goal.specs.Answers.{Answers};
ghost use Rattle.gb_goal.specs.Goal.{code_of, form_of};
ghost use Rattle.gb_goal.specs.Goal.Goal.{hoare, phoare};
ghost use Rattle.gb_goal.specs.Rows.{answered, concluding, each_concluding};
ghost use Rattle.gb_goal.specs.Scope.{Declarations};
ghost use Rattle.gb_goal.specs.declared.sequent.Sequent.{Sequent as TypedSequent};
ghost use Rattle.gb_meaning.specs.Declared.{declared};
ghost use Rattle.gb_typing.specs.Scopes.{context_of, IsTypedScope};
ghost use Rattle.gb_typing.specs.Sequents.{of_sequent, IsTypedSequent};
ghost use Rattle.gb_typing.specs.Rules.{IsSoundRuleIn, no_arguments};
ghost use Rattle.gb_prog.specs.Compared.{literal};
ghost use Rattle.gb_full.specs.Loss.{code_loss};
ghost use Rattle.gb_pr.specs.Hoare.{at_least_goals, at_most_goals, exactly, hoare_row, never};

use gb_core::refusal::Refused;
use gb_full::loss::subject_loss;
use gb_full::lossless::full;
use gb_goal::scope::Scope;
use gb_goal::sequent::{Sequent, Sequents};
use gb_prog::compared::{literal, number_compared};
use gb_prog::subgoals::{no_shape, one_goal, two_goals};
use gb_terms::make::{negation, term, truth_ty};
use gb_terms::op::Rel;
use gb_terms::term::{Form, Head, RealTerm, Subject};
use sqlite_items::Items;
use std::alloc::{AllocError, Global};

/// A judgment with a probability, but for how it stands to the bound.
#[derive(Clone, Copy)]
pub struct Judged<'a> {
    pub subject: &'a Subject,
    pub pre: &'a Form,
    pub post: &'a Form,
    pub bound: &'a RealTerm,
}

/// The judgment that a postcondition always holds.
#[tactic(auto, using(gb_typing::proofs::Shapes::subject_back))]
fn always(alloc: Global, judged: &Judged<'_>, post: Form) -> Result<Form, AllocError>
    ensures { IfOk result (λ made. made ≡ form_of (hoare (code_of judged.now.subject.now) judged.now.pre.now post)) }
{
    let pre = judged.pre.share()?;
    let args = Items::from_vec(vec![in alloc; pre, post]?);
    let ty = truth_ty(alloc)?;
    let subject = judged.subject.share()?;
    term(alloc, Head::Hoare(subject), args, ty)
}

/// The judgment that the postcondition never holds.
fn never(alloc: Global, judged: &Judged<'_>) -> Result<Form, AllocError>
    ensures { IfOk result (λ made. made ≡ form_of (never (code_of judged.now.subject.now) judged.now.pre.now judged.now.post.now)) }
{
    let post = negation(alloc, judged.post.share()?)?;
    always(alloc, judged, post)
}

/// The postcondition never holds, or always, where the probability is 0, or 1.
fn exactly(
    alloc: Global,
    goal: &Sequent,
    judged: &Judged<'_>,
    scope: &Scope,
) -> Result<Sequents, Refused>
    ensures { Answers (each_concluding goal.now (exactly (code_of judged.now.subject.now) judged.now.pre.now judged.now.post.now
        (code_loss scope.now (code_of judged.now.subject.now)) (literal judged.now.bound.now))) result }
{
    match literal(judged.bound) {
        Some(0) => {
            let conclusion = never(alloc, judged)?;
            Ok(one_goal(alloc, goal, conclusion)?)
        }
        Some(1) => {
            full(alloc, subject_loss(alloc, scope, judged.subject)?)?;
            let conclusion = always(alloc, judged, judged.post.share()?)?;
            Ok(one_goal(alloc, goal, conclusion)?)
        }
        _ => Err(no_shape()),
    }
}

/// The postcondition never holds, and the bound isn't below 0.
fn at_most(alloc: Global, goal: &Sequent, judged: &Judged<'_>) -> Result<Sequents, AllocError>
    ensures { IfOk result (λ goals. goals ≡ map (concluding goal.now) (at_most_goals (code_of judged.now.subject.now) judged.now.pre.now judged.now.post.now judged.now.bound.now)) }
{
    let conclusion = never(alloc, judged)?;
    let bound = number_compared(alloc, Rel::AtMost, 0, judged.bound)?;
    two_goals(alloc, goal, conclusion, bound)
}

/// The postcondition always holds, and the bound isn't above 1.
fn at_least(alloc: Global, goal: &Sequent, judged: &Judged<'_>) -> Result<Sequents, AllocError>
    ensures { IfOk result (λ goals. goals ≡ map (concluding goal.now) (at_least_goals (code_of judged.now.subject.now) judged.now.pre.now judged.now.post.now judged.now.bound.now)) }
{
    let conclusion = always(alloc, judged, judged.post.share()?)?;
    let bound = number_compared(alloc, Rel::AtLeast, 1, judged.bound)?;
    two_goals(alloc, goal, conclusion, bound)
}

/// The subgoals of a judgment with a probability that stands so to the bound.
fn by_relation(
    alloc: Global,
    goal: &Sequent,
    rel: Rel,
    judged: &Judged<'_>,
    scope: &Scope,
) -> Result<Sequents, Refused>
    ensures { Answers (each_concluding goal.now (hoare_row scope.now (phoare (code_of judged.now.subject.now) rel judged.now.pre.now judged.now.post.now judged.now.bound.now))) result }
{
    match rel {
        Rel::AtMost => Ok(at_most(alloc, goal, judged)?),
        Rel::AtLeast => {
            full(alloc, subject_loss(alloc, scope, judged.subject)?)?;
            Ok(at_least(alloc, goal, judged)?)
        }
        Rel::Equal => exactly(alloc, goal, judged, scope),
    }
}

/// The subgoals of `hoare` on a judgment with a probability: `<=` follows where the postcondition never holds and the bound isn't below 0,
/// `>=` where it always holds and the bound isn't above 1, and `=` with the literal `0%r` or `1%r` where it never or always holds. Where it
/// is to hold always no weight may be lost: else refused with `NotLossless` at the first variable, and with `Shape` at a call of a
/// procedure of which nothing is known. Refused with `Shape` at any other goal.
pub fn hoare_rule(alloc: Global, goal: &Sequent, scope: &Scope) -> Result<Sequents, Refused>
    ensures { Answers (answered (hoare_row scope.now) goal.now) result }
{
    let form = &goal.conclusion;
    match (form.head.get(), form.args.as_slice()) {
        (Head::Phoare(subject, rel), [pre, post, bound]) => {
            let judged = Judged {
                subject,
                pre,
                post,
                bound,
            };
            by_relation(alloc, goal, *rel, &judged, scope)
        }
        _ => Err(no_shape()),
    }
}

/// `hoare` is sound over each typed scope, at the goal of each typed sequent.
pub fn hoare_is_sound()
    ensures { (ds : Declarations) → IsTypedScope (declared ds) → (q : TypedSequent) (t : IsTypedSequent (context_of (declared ds)) q) →
        IsSoundRuleIn (declared ds) (of_sequent (context_of (declared ds)) q t.frames) (hoare_row ds) no_arguments }
{}
