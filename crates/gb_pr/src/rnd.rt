//! The rule `rnd` on a judgment with a probability.

ghost use Rattle.std.specs.Prelude.{◌≡◌, IfOk};
ghost use Rattle.gb_goal.specs.Answers.{Answers};
ghost use Rattle.gb_goal.specs.Goal.{form_of};
ghost use Rattle.gb_goal.specs.Rows.{answered, each_concluding};
ghost use Rattle.gb_goal.specs.Scope.{Declarations};
ghost use Rattle.gb_goal.specs.declared.sequent.Sequent.{Sequent as TypedSequent};
ghost use Rattle.gb_meaning.specs.Declared.{declared};
ghost use Rattle.gb_typing.specs.Rules.{IsSoundRuleIn, no_arguments};
ghost use Rattle.gb_typing.specs.Scopes.{context_of, IsTypedScope};
ghost use Rattle.gb_typing.specs.Sequents.{of_sequent, IsTypedSequent};
ghost use Rattle.gb_typing.specs.Samplings.{sampling_of, last_sampling};
ghost use Rattle.gb_forms.specs.Drawn.{with_value};
ghost use Rattle.gb_pr.specs.Rnd.{by_end, measured, rnd_row, without_sampling};

use gb_core::Shared;
use gb_core::copy::copy_var;
use gb_core::refusal::{Refused, Why};
use gb_core::ty::Ty;
use gb_full::loss::first_loss;
use gb_full::lossless::{Judged, of_rest};
use gb_goal::goal::{Code, Goal, goal_of, hoare};
use gb_goal::scope::Scope;
use gb_goal::sequent::{Sequent, Sequents};
use gb_mods::exclusions::exclusions;
use gb_prog::compared::compared;
use gb_prog::subgoals::{no_shape, refusal};
use gb_terms::make::term;
use gb_terms::op::{Read, Side};
use gb_terms::term::{Form, Head, Instr, RealTerm};
use gb_typing::samplings::{Last, last_sampling, rest_of};
use gb_typing::supports::nearest;
use gb_walk::change::Change;
use gb_walk::clash::first_clash;
use gb_walk::walk::changed;
use sqlite_items::Items;
use std::alloc::{AllocError, Global};

/// The postcondition of the sampled value.
fn with_value(alloc: Global, sampling: &Last<'_>, post: &Form) -> Result<Form, AllocError>
    ensures { IfOk result (λ made. made ≡ with_value (sampling_of sampling.now) post.now) }
{
    let value = nearest(alloc, sampling.ty)?;
    let var = copy_var(alloc, sampling.target)?;
    let side = Side::Own;
    changed(
        alloc,
        post,
        &[Change::ToTerm(Read::Program { var, side }, value)],
    )
}

/// How likely the postcondition is of a sampled value.
fn measured(alloc: Global, sampling: &Last<'_>, post: &Form) -> Result<RealTerm, AllocError>
    ensures { IfOk result (λ made. made ≡ measured (sampling_of sampling.now) post.now) }
{
    let event = with_value(alloc, sampling, post)?;
    let from = sampling.from.share()?;
    let args = Items::from_vec(vec![in alloc; from, event]?);
    let real = Shared::new(alloc, Ty::Real)?;
    term(alloc, Head::Mu, args, real)
}

/// The judgment that the probability that is left stands so to the bound wherever the rest of the body ends.
fn without_sampling(
    alloc: Global,
    sampling: &Last<'_>,
    judged: &Judged<'_>,
) -> Result<Form, AllocError>
    ensures { IfOk result (λ made. made ≡ form_of (without_sampling (sampling_of sampling.now) judged.now.rel judged.now.pre.now judged.now.post.now judged.now.bound.now)) }
{
    let chance = measured(alloc, sampling, judged.post)?;
    let bound = judged.bound.share()?;
    let post = compared(alloc, judged.rel, chance, bound)?;
    let pre = judged.pre.share()?;
    let rest = rest_of(alloc, sampling)?;
    hoare(alloc, rest, pre, post)
}

/// The goals without the sampling that ends the body.
fn by_end(
    alloc: Global,
    goal: &Sequent,
    scope: &Scope,
    body: &[Instr],
    judged: &Judged<'_>,
) -> Result<Sequents, Refused>
    ensures { Answers (each_concluding goal.now (by_end scope.now judged.now.rel judged.now.pre.now judged.now.post.now judged.now.bound.now (last_sampling body.now))) result }
{
    let Some(sampling) = last_sampling(body) else {
        return Err(no_shape());
    };
    let excluded = exclusions(alloc, scope)?;
    if first_clash(
        excluded.as_slice(),
        &Side::Own,
        sampling.target,
        judged.post,
    )
    .is_some()
    {
        let target = copy_var(alloc, sampling.target)?;
        return Err(refusal(Why::SideCondition(target)));
    }
    let conclusion = without_sampling(alloc, &sampling, judged)?;
    let lost = first_loss(alloc, scope, sampling.before)?;
    of_rest(alloc, goal, lost, judged, conclusion)
}

/// The subgoals of `rnd` on a judgment with a probability of a body that ends with a sampling: the sampling leaves, and the measure of
/// the postcondition stands so to the bound wherever the rest ends. Where the rest, or what it calls, may lose weight, the bound of `<=` isn't below 0, and
/// the other relations are refused with `NotLossless`. Refused with `Shape` at any other goal, and with `SideCondition` where the
/// postcondition reads a variable that clashes with the target.
pub fn rnd_rule(alloc: Global, goal: &Sequent, scope: &Scope) -> Result<Sequents, Refused>
    ensures { Answers (answered (rnd_row scope.now) goal.now) result }
{
    match goal_of(&goal.conclusion) {
        Goal::Phoare(Code::Body(body), rel, pre, post, bound) => {
            let judged = Judged {
                rel,
                pre,
                post,
                bound,
            };
            by_end(alloc, goal, scope, body, &judged)
        }
        _ => Err(no_shape()),
    }
}

/// `rnd` is sound on a judgment with a probability, over each typed scope, at the goal of each typed sequent.
pub fn rnd_is_sound()
    ensures { (ds : Declarations) → IsTypedScope (declared ds) → (q : TypedSequent) (t : IsTypedSequent (context_of (declared ds)) q) →
        IsSoundRuleIn (declared ds) (of_sequent (context_of (declared ds)) q t.frames) (rnd_row ds) no_arguments }
{}
