// The rule `rnd`: two samplings at the end, coupled by a function and its inverse.

ghost use Rattle.std.specs.Prelude.{◌≡◌, ◌∷◌, [], Some, IfOk};
ghost use Rattle.std.specs.Option.{option_copied, option_zip};
ghost use Rattle.gb_goal.specs.Answers.{Answers, placed_at};
ghost use Rattle.gb_goal.specs.Goal.{form_of};
ghost use Rattle.gb_goal.specs.Rows.{each_concluding, stepped};
ghost use Rattle.gb_terms.specs.declared.op.Side.TheVariants.{Own};
ghost use Rattle.gb_walk.specs.declared.change.Change.TheVariants.{ToSide};
ghost use Rattle.gb_walk.specs.Change.{term_changed};
ghost use Rattle.gb_typing.specs.Samplings.{sampling_of, last_sampling};
ghost use Rattle.gb_equiv.specs.Rnd.{maps, with_values, post_before, without_samplings, clash_of, by_ends, rnd_row};

use crate::drawn::{alone, clashing, drawn_rule, no_such_shape};
use gb_core::Shared;
use gb_core::place::Place;
use gb_core::refusal::Refused;
use gb_core::same::same_types;
use gb_core::ty::Ty;
use gb_core::var::Var;
use gb_forms::coupled::{Coupled, Maps, Sampled, coupled_post};
use gb_forms::drawn::target_change;
use gb_goal::goal::{Code, Goal, equiv, goal_of};
use gb_goal::scope::Scope;
use gb_goal::sequent::{Sequent, Sequents};
use gb_mods::exclusions::exclusions;
use gb_terms::op::Side;
use gb_terms::term::{Form, Instr, Term};
use gb_typing::samplings::{Last, last_sampling, rest_of};
use gb_typing::supports::nearest;
use gb_walk::change::Change;
use gb_walk::clash::{Excluded, first_clash};
use gb_walk::walk::changed;
use std::alloc::{AllocError, Global};

/// Two bodies and what is said before and after them.
#[derive(Clone, Copy)]
struct Bodies<'a> {
    left: &'a [Instr],
    right: &'a [Instr],
    pre: &'a Form,
    post: &'a Form,
}

/// The identity between the values of one type.
fn identity(
    alloc: Global,
    left: &Shared<Ty>,
    right: &Shared<Ty>,
) -> Result<Option<Maps>, AllocError>
    ensures { IfOk result (λ made. made ≡ maps [] left.now right.now) }
{
    if !same_types(left.get(), right.get()) {
        return Ok(None);
    }
    let forth = nearest(alloc, left)?;
    let back = nearest(alloc, right)?;
    Ok(Some(Maps { forth, back }))
}

/// These functions.
fn shared_maps(forth: &Term, back: &Term) -> Result<Option<Maps>, AllocError>
    ensures { IfOk result (λ made. made ≡ Some (record { forth = forth.now; back = back.now })) }
{
    let forth = forth.share()?;
    let back = back.share()?;
    Ok(Some(Maps { forth, back }))
}

/// The functions between the values: none is the identity, which needs one type, and one is its own inverse.
#[tactic(auto, using(crate::proofs::Maps::too_many))]
fn maps(
    alloc: Global,
    given: &[Term],
    left: &Shared<Ty>,
    right: &Shared<Ty>,
) -> Result<Option<Maps>, AllocError>
    ensures { IfOk result (λ made. made ≡ maps given.now left.now right.now) }
{
    match given {
        [] => identity(alloc, left, right),
        [both] => shared_maps(both, both),
        [forth, back] => shared_maps(forth, back),
        _ => Ok(None),
    }
}

/// A sampling, read on a side of an equivalence.
fn read_on(alloc: Global, sampling: &Last<'_>, side: Side) -> Result<Sampled, AllocError>
    ensures { IfOk result (λ made. made ≡ record { from = term_changed sampling.now.from.now (ToSide Own side ∷ []); ty = sampling.now.ty.now }) }
{
    let from = changed(alloc, sampling.from, &[Change::ToSide(Side::Own, side)])?;
    let ty = sampling.ty.share()?;
    Ok(Sampled { from, ty })
}

/// The postcondition with the sampled value in place of the left target, and its image in place of the right one.
fn with_values(
    alloc: Global,
    left: &Last<'_>,
    right: &Last<'_>,
    maps: &Maps,
    post: &Form,
) -> Result<Form, AllocError>
    ensures { IfOk result (λ made. made ≡ with_values (sampling_of left.now) (sampling_of right.now) maps.now post.now) }
{
    let value = nearest(alloc, left.ty)?;
    let image = maps.forth.share()?;
    let first = target_change(alloc, left, Side::Left, value)?;
    let second = target_change(alloc, right, Side::Right, image)?;
    changed(alloc, post, &[first, second])
}

/// The postcondition before the two samplings.
fn post_before(
    alloc: Global,
    left: &Last<'_>,
    right: &Last<'_>,
    maps: Maps,
    post: &Form,
) -> Result<Form, AllocError>
    ensures { IfOk result (λ made. made ≡ post_before (sampling_of left.now) (sampling_of right.now) maps post.now) }
{
    let post = with_values(alloc, left, right, &maps, post)?;
    let left = read_on(alloc, left, Side::Left)?;
    let right = read_on(alloc, right, Side::Right)?;
    coupled_post(alloc, &Coupled { left, right, maps }, post)
}

/// The equivalence of what stands before the two samplings, with the postcondition of their coupling.
fn without_samplings(
    alloc: Global,
    left: &Last<'_>,
    right: &Last<'_>,
    maps: Maps,
    pre: &Form,
    post: &Form,
) -> Result<Form, AllocError>
    ensures { IfOk result (λ made. made ≡ form_of (without_samplings (sampling_of left.now) (sampling_of right.now) maps pre.now post.now)) }
{
    let post = post_before(alloc, left, right, maps, post)?;
    let pre = pre.share()?;
    let left = rest_of(alloc, left)?;
    let right = rest_of(alloc, right)?;
    equiv(alloc, left, right, pre, post)
}

/// The target that the postcondition reads beside a variable that clashes with it: the left one, or else the right one.
fn clash_of<'a>(
    exclusions: &[Excluded],
    left: &Last<'a>,
    right: &Last<'a>,
    post: &Form,
) -> Option<&'a Var>
    ensures { option_copied result ≡ clash_of exclusions.now (sampling_of left.now) (sampling_of right.now) post.now }
{
    match first_clash(exclusions, &Side::Left, left.target, post) {
        Some(_) => Some(left.target),
        None => match first_clash(exclusions, &Side::Right, right.target, post) {
            Some(_) => Some(right.target),
            None => None,
        },
    }
}

/// On an equivalence of two bodies that end with a sampling: both leave, and the postcondition becomes that of the
/// coupled samplings.
fn coupled_rule(
    alloc: Global,
    goal: &Sequent,
    exclusions: &[Excluded],
    given: &[Term],
    of: Bodies<'_>,
    place: Place,
) -> Result<Sequents, Refused>
    ensures { Answers (placed_at place (each_concluding goal.now (by_ends exclusions.now given.now of.entry.pre.now of.entry.post.now (option_zip (last_sampling of.entry.left.now) (last_sampling of.entry.right.now))))) result }
{
    let (Some(left), Some(right)) = (last_sampling(of.left), last_sampling(of.right)) else {
        return Err(no_such_shape(place));
    };
    let Some(maps) = maps(alloc, given, left.ty, right.ty)? else {
        return Err(no_such_shape(place));
    };
    if let Some(var) = clash_of(exclusions, &left, &right, of.post) {
        return Err(clashing(alloc, var, place));
    }
    let conclusion = without_samplings(alloc, &left, &right, maps, of.pre, of.post)?;
    Ok(alone(alloc, goal, conclusion)?)
}

/// On an equivalence of two bodies that end with a sampling: both leave, and the postcondition becomes that of the
/// coupled samplings. On a judgment of one body that ends with a sampling, without a function: it leaves, and the
/// postcondition is asked of each value that it may draw. Refused with `Shape` on another goal, at types that differ
/// without a function, and for more than two functions, and with `SideCondition` where the postcondition reads a variable
/// that clashes with a target.
pub fn rnd_rule(
    alloc: Global,
    goal: &Sequent,
    scope: &Scope,
    given: &[Term],
    place: Place,
) -> Result<Sequents, Refused>
    ensures { Answers (stepped (rnd_row scope.now given.now) place goal.now) result }
{
    let excluded = exclusions(alloc, scope)?;
    match (goal_of(&goal.conclusion), given) {
        (Goal::Equiv(Code::Body(left), Code::Body(right), pre, post), _) => {
            let of = Bodies {
                left,
                right,
                pre,
                post,
            };
            coupled_rule(alloc, goal, excluded.as_slice(), given, of, place)
        }
        (Goal::Hoare(Code::Body(body), pre, post), []) => {
            drawn_rule(alloc, goal, excluded.as_slice(), body, pre, post, place)
        }
        _ => Err(no_such_shape(place)),
    }
}
