// What a turn of a loop does, where it ends, and what statements write.

ghost use Rattle.std.specs.Prelude.{◌≡◌, IfOk};
ghost use Rattle.gb_goal.specs.Goal.{form_of};
ghost use Rattle.gb_typing.specs.Forms.{and_form, implies_form, located, not_form};
ghost use Rattle.gb_forms.specs.Loops.{turn_goal, written};

use gb_core::var::Vars;
use gb_goal::goal::{equiv, hoare};
use gb_goal::scope::Scope;
use gb_mods::called::{all_reached, calls};
use gb_mods::order::joined;
use gb_mods::written::{targets, written_by};
use gb_prog::forms::located;
use gb_prog::subgoals::shared_body;
use gb_terms::make::{conjunction, implication, negation};
use gb_terms::op::Side;
use gb_terms::term::{Form, Instr, Term};
use sqlite_items::Items;
use std::alloc::{AllocError, Global};

/// Where the invariant holds and the guard is false, this is to hold.
pub fn leads_out(
    alloc: Global,
    side: Side,
    guard: &Term,
    invariant: &Form,
    post: &Form,
) -> Result<Form, AllocError>
    ensures { IfOk result (λ made. made ≡ implies_form (and_form invariant.now (not_form (located side guard.now))) post.now) }
{
    let guard = located(alloc, guard, side)?;
    let guard = negation(alloc, guard)?;
    let invariant = invariant.share()?;
    let ended = conjunction(alloc, invariant, guard)?;
    let post = post.share()?;
    implication(alloc, ended, post)
}

/// What a turn does, in the memory of the loop.
pub fn turn_goal(
    alloc: Global,
    side: Side,
    invariant: &Form,
    list: &[Instr],
    pre: Form,
) -> Result<Form, AllocError>
    ensures { IfOk result (λ made. made ≡ form_of (turn_goal side invariant.now list.now pre)) }
{
    let list = shared_body(alloc, list)?;
    let empty = shared_body(alloc, &[])?;
    let post = invariant.share()?;
    match side {
        Side::Left => equiv(alloc, list, empty, pre, post),
        Side::Right => equiv(alloc, empty, list, pre, post),
        _ => hoare(alloc, list, pre, post),
    }
}

/// The variables that statements write, in order, and through all procedures that they call. None where it isn't known what one of
/// these stands for.
#[tactic(auto, unfolding(crate::specs::Loops::written))]
pub fn written(alloc: Global, list: &[Instr], scope: &Scope) -> Result<Option<Vars>, AllocError>
    ensures { IfOk result (λ made. made ≡ written scope.now list.now) }
{
    let called = calls(alloc, Items::new(alloc), list)?;
    let Some(all) = all_reached(alloc, scope, called)? else {
        return Ok(None);
    };
    let Some(found) = written_by(alloc, scope, all.as_slice())? else {
        return Ok(None);
    };
    let globals = joined(alloc, found.as_slice(), Items::new(alloc))?;
    let own = targets(alloc, Items::new(alloc), list)?;
    let ordered = joined(alloc, own.as_slice(), globals)?;
    Ok(Some(ordered))
}
