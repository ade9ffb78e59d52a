//! What is said before two calls of one procedure of an abstract module of what is to hold after both.

ghost use Rattle.std.specs.Prelude.{◌≡◌, ◌++◌, ◌||◌, length, map, IfOk};
ghost use Rattle.std.specs.List.{list_any};
ghost use Rattle.gb_core.specs.declared.var.Var.TheVariants.{Glob as Whole, Local};
ghost use Rattle.gb_meaning.specs.Memory.{result_name};
ghost use Rattle.gb_walk.specs.Clash.{variables_read};
ghost use Rattle.gb_call.specs.Outcomes.{is_among, outcome_seen};
ghost use Rattle.gb_call_both.specs.BothOutcomes.{bound_seen, globals_of, left_side_of};
ghost use Rattle.gb_adv.specs.Returns.{after_calls, after_where, inside_result, of_returns, owner_changes, owner_of, returns_seen, values};

use crate::equations::{owner_ty, owner_variable};
use gb_call::outcomes::{Outcome, bound, reads_result, result_variable};
use gb_call_both::both::{
    AllMeant, Meant, for_all, globals_of, left_side_within, to_bound_values, with_result,
};
use gb_core::name::Name;
use gb_forms::calls::{Reads, is_among};
use gb_terms::make::implication;
use gb_terms::op::{Read, Side};
use gb_terms::term::Form;
use gb_walk::change::{Change, Changes};
use gb_walk::walk::changed;
use sqlite_items::Items;
use std::alloc::{AllocError, Global};

/// What two calls may change: all that is the module's own, alike; the left sides, by one result; and what their oracles write.
#[derive(Clone, Copy)]
pub struct Returns<'a> {
    pub owner: &'a Name,
    pub left: Outcome<'a>,
    pub right: Outcome<'a>,
}

/// Variables behind others, with all that is a module's own, where it occurs.
fn with_owner(
    alloc: Global,
    found: AllMeant,
    occurs: bool,
    module: &Name,
) -> Result<AllMeant, AllocError>
    ensures { IfOk result (λ made. map bound_seen made ≡ map bound_seen found ++ owner_of occurs «module».now) }
{
    let mut all = found;
    if occurs {
        let variable = owner_variable(alloc, module)?;
        let ty = owner_ty(alloc, module)?;
        let side = Side::Left;
        all.push(Meant { side, variable, ty })?;
    }
    Ok(all)
}

/// Variables behind others: what is bound inside of the result.
fn inside_result(
    alloc: Global,
    found: AllMeant,
    owner: bool,
    returns: &Returns<'_>,
) -> Result<AllMeant, AllocError>
    ensures { IfOk result (λ made. map bound_seen made ≡ map bound_seen found ++ inside_result owner (returns_seen returns.now)) }
{
    let all = with_owner(alloc, found, owner, returns.owner)?;
    globals_of(alloc, all, &returns.left, &returns.right)
}

/// The variables of which all values are meant.
fn values(alloc: Global, occur: (bool, bool), returns: &Returns<'_>) -> Result<AllMeant, AllocError>
    ensures { IfOk result (λ made. map bound_seen made ≡ values occur.0 occur.1 (returns_seen returns.now)) }
{
    let result = with_result(alloc, Items::new(alloc), occur.0, &returns.left)?;
    inside_result(alloc, result, occur.1, returns)
}

/// The result, with so many others bound inside of it, goes to both left sides, where it occurs.
fn result_changes(
    alloc: Global,
    occurs: bool,
    returns: &Returns<'_>,
    inside: usize,
) -> Result<Changes, AllocError>
    ensures { IfOk result (λ made. made ≡ left_side_of occurs (outcome_seen returns.now.left) inside ++ left_side_of occurs (outcome_seen returns.now.right) inside) }
{
    let mut changes = left_side_within(alloc, occurs, &returns.left, inside)?;
    changes.append(left_side_within(alloc, occurs, &returns.right, inside)?)?;
    Ok(changes)
}

/// Changes behind others: the left value of all that is a module's own, with so many others bound inside of it, is the right one too, where
/// it occurs.
fn with_owner_changes(
    alloc: Global,
    before: Changes,
    occurs: bool,
    module: &Name,
    inside: usize,
) -> Result<Changes, AllocError>
    ensures { IfOk result (λ made. made ≡ before ++ owner_changes occurs «module».now inside) }
{
    let mut changes = before;
    if occurs {
        let ty = owner_ty(alloc, module)?;
        let value = bound(alloc, inside, &ty)?;
        let var = owner_variable(alloc, module)?;
        let side = Side::Right;
        changes.push(Change::ToTerm(Read::Program { var, side }, value))?;
    }
    Ok(changes)
}

/// How many globals the oracles write that are read.
#[tactic(auto, using(gb_call_both::proofs::BothSteps::seen_length))]
fn count_written(alloc: Global, returns: &Returns<'_>) -> Result<usize, AllocError>
    ensures { IfOk result (λ count. count ≡ length (globals_of (outcome_seen returns.now.left) (outcome_seen returns.now.right))) }
{
    let all = globals_of(alloc, Items::new(alloc), &returns.left, &returns.right)?;
    Ok(all.len())
}

/// What is said after the calls, of the bound values.
#[tactic(auto, using(gb_call_both::proofs::BothSteps::seen_length))]
fn of_returns(
    alloc: Global,
    occur: (bool, bool),
    returns: &Returns<'_>,
    form: &Form,
) -> Result<Form, AllocError>
    ensures { IfOk result (λ made. made ≡ of_returns occur.0 occur.1 (returns_seen returns.now) form.now) }
{
    let written = count_written(alloc, returns)?;
    let inside = inside_result(alloc, Items::new(alloc), occur.1, returns)?;
    let changes = result_changes(alloc, occur.0, returns, inside.len())?;
    let changes = with_owner_changes(alloc, changes, occur.1, returns.owner, written)?;
    let changes = to_bound_values(alloc, changes, inside.as_slice())?;
    changed(alloc, form, changes.as_slice())
}

/// For all values that are meant, what is kept leads to what is said after the calls.
fn after_where(
    alloc: Global,
    occur: (bool, bool),
    returns: &Returns<'_>,
    kept: &Form,
    form: &Form,
) -> Result<Form, AllocError>
    ensures { IfOk result (λ made. made ≡ after_where occur.0 occur.1 (returns_seen returns.now) kept.now form.now) }
{
    let meant = values(alloc, occur, returns)?;
    let changes = to_bound_values(alloc, Items::new(alloc), meant.as_slice())?;
    let kept = changed(alloc, kept, changes.as_slice())?;
    let form = of_returns(alloc, occur, returns, form)?;
    let leads = implication(alloc, kept, form)?;
    for_all(alloc, meant.as_slice(), leads)
}

/// Whether the result of the calls occurs, in what is read on either side.
fn reads_returned(
    alloc: Global,
    returns: &Returns<'_>,
    left: &Reads,
    right: &Reads,
) -> Result<bool, AllocError>
    ensures { IfOk result (λ made. made ≡ ((is_among left.now.said (Local result_name) || list_any (is_among left.now.after) returns.now.left.targets.now)
        || (is_among right.now.said (Local result_name) || list_any (is_among right.now.after) returns.now.right.targets.now))) }
{
    let stands = result_variable(alloc)?;
    let here = reads_result(&stands, returns.left.targets, left);
    let there = reads_result(&stands, returns.right.targets, right);
    Ok(here || there)
}

/// Whether a form reads all that is a module's own, which is read on either side.
fn reads_owner(
    alloc: Global,
    module: &Name,
    left: &Reads,
    right: &Reads,
) -> Result<bool, AllocError>
    ensures { IfOk result (λ made. made ≡ (is_among left.now.after (Whole «module».now) || is_among right.now.after (Whole «module».now))) }
{
    let owner = owner_variable(alloc, module)?;
    let here = is_among(left.after.as_slice(), &owner);
    let there = is_among(right.after.as_slice(), &owner);
    Ok(here || there)
}

/// For each result, each value of all that is the module's own, and all values of what the oracles write, what is kept leads to what is
/// said after the calls. A quantifier stands only where its variable occurs.
pub fn after_calls(
    alloc: Global,
    returns: &Returns<'_>,
    left: &Reads,
    right: &Reads,
    kept: &Form,
    form: &Form,
) -> Result<Form, AllocError>
    requires left_said { left.now.said ≡ variables_read returns.now.left.side kept.now }
    requires left_later { left.now.after ≡ variables_read returns.now.left.side form.now }
    requires right_said { right.now.said ≡ variables_read returns.now.right.side kept.now }
    requires right_later { right.now.after ≡ variables_read returns.now.right.side form.now }
    requires on_left { returns.now.left.side ≡ Side.Left }
    requires on_right { returns.now.right.side ≡ Side.Right }
    ensures { IfOk result (λ made. made ≡ after_calls (returns_seen returns.now) kept.now form.now) }
{
    let returned = reads_returned(alloc, returns, left, right)?;
    let owner = reads_owner(alloc, returns.owner, left, right)?;
    after_where(alloc, (returned, owner), returns, kept, form)
}
