//! What is said before two calls, one on each side, of what is to hold after both.

ghost use Rattle.std.specs.Prelude.{◌≡◌, ◌++◌, length, map, IfOk};
ghost use Rattle.gb_prog.specs.AllValues.{for_all, in_memory, to_bound_values};
ghost use Rattle.gb_walk.specs.Clash.{variables_read};
ghost use Rattle.gb_call_both.specs.BothOutcomes.{after_both, after_both_where, bound_of_both, bound_seen, globals_of, left_side_of, left_sides, of_both_arguments, of_both_returns, result_of};
ghost use Rattle.gb_call.specs.Outcomes.{globals_seen, outcome_seen};

use gb_call::outcomes::{Outcome, bound, put_for, reads_result, result_variable};
use gb_call::written::TypedGlobal;
use gb_core::Shared;
use gb_core::copy::copy_var;
use gb_core::ty::Ty;
use gb_core::var::Var;
use gb_forms::calls::Reads;
use gb_prog::assigned::{put_in, taken};
use gb_terms::decl::TypedName;
use gb_terms::make::{forall, implication};
use gb_terms::op::{Read, Side};
use gb_terms::term::{Form, Term};
use gb_walk::change::{Change, Changes};
use gb_walk::walk::changed;
use sqlite_items::Items;
use std::alloc::{AllocError, Global};

/// A procedure's parameters, and the arguments of a call of it.
#[derive(Clone, Copy)]
pub struct Passed<'a> {
    pub params: &'a [TypedName],
    pub arguments: &'a [Term],
}

/// What is said of the parameters of two procedures, of arguments.
pub fn of_both_arguments(
    alloc: Global,
    left: &Passed<'_>,
    right: &Passed<'_>,
    form: &Form,
) -> Result<Form, AllocError>
    ensures { IfOk result (λ made. made ≡ of_both_arguments left.now.params.now left.now.arguments.now right.now.params.now right.now.arguments.now form.now) }
{
    let changes = put_for(
        alloc,
        Items::new(alloc),
        Side::Left,
        left.params,
        left.arguments,
    )?;
    let changes = put_for(alloc, changes, Side::Right, right.params, right.arguments)?;
    changed(alloc, form, changes.as_slice())
}

/// A variable of a memory, of which all values of its type are meant.
#[derive(Drop)]
pub struct Meant {
    pub side: Side,
    pub variable: Var,
    pub ty: Shared<Ty>,
}

pub type AllMeant = Items<Meant>;

/// Variables behind others, with the result of an outcome, where it occurs.
pub fn with_result(
    alloc: Global,
    found: AllMeant,
    occurs: bool,
    outcome: &Outcome<'_>,
) -> Result<AllMeant, AllocError>
    ensures { IfOk result (λ made. map bound_seen made ≡ map bound_seen found ++ result_of occurs (outcome_seen outcome.now)) }
{
    let mut all = found;
    if occurs {
        let ty = outcome.result.share()?;
        let variable = result_variable(alloc)?;
        all.push(Meant {
            side: outcome.side,
            variable,
            ty,
        })?;
    }
    Ok(all)
}

/// Variables behind others, with the globals of an outcome.
fn with_globals(
    alloc: Global,
    found: AllMeant,
    side: Side,
    globals: &[TypedGlobal],
) -> Result<AllMeant, AllocError>
    ensures { IfOk result (λ made. map bound_seen made ≡ map bound_seen found ++ in_memory side (globals_seen globals.now)) }
{
    let mut all = found;
    for global in globals {
        let ty = global.ty.share()?;
        let variable = copy_var(alloc, &global.variable)?;
        all.push(Meant { side, variable, ty })?;
    }
    Ok(all)
}

/// The globals of two outcomes.
pub fn globals_of(
    alloc: Global,
    found: AllMeant,
    left: &Outcome<'_>,
    right: &Outcome<'_>,
) -> Result<AllMeant, AllocError>
    ensures { IfOk result (λ made. map bound_seen made ≡ map bound_seen found ++ globals_of (outcome_seen left.now) (outcome_seen right.now)) }
{
    let all = with_globals(alloc, found, left.side, left.globals)?;
    with_globals(alloc, all, right.side, right.globals)
}

/// The results of two outcomes, where they occur, and their globals.
fn bound_of_both(
    alloc: Global,
    occur: (bool, bool),
    left: &Outcome<'_>,
    right: &Outcome<'_>,
) -> Result<AllMeant, AllocError>
    ensures { IfOk result (λ made. map bound_seen made ≡ bound_of_both occur.0 occur.1 (outcome_seen left.now) (outcome_seen right.now)) }
{
    let all = with_result(alloc, Items::new(alloc), occur.0, left)?;
    let all = with_result(alloc, all, occur.1, right)?;
    globals_of(alloc, all, left, right)
}

/// Bound values in the places of variables, behind other changes.
pub fn to_bound_values(
    alloc: Global,
    before: Changes,
    list: &[Meant],
) -> Result<Changes, AllocError>
    ensures { IfOk result (λ made. made ≡ before ++ to_bound_values (map bound_seen list.now)) }
{
    let mut changes = before;
    for i in 0..list.len() {
        let value = bound(alloc, list.len() - 1 - i, &list[i].ty)?;
        let var = copy_var(alloc, &list[i].variable)?;
        let side = list[i].side;
        changes.push(Change::ToTerm(Read::Program { var, side }, value))?;
    }
    Ok(changes)
}

/// A form for all values of variables.
pub fn for_all(alloc: Global, list: &[Meant], form: Form) -> Result<Form, AllocError>
    ensures { IfOk result (λ made. made ≡ for_all (map bound_seen list.now) form) }
{
    let mut all = form;
    for k in 0..list.len() {
        let at = list.len() - 1 - k;
        let ty = list[at].ty.share()?;
        all = forall(alloc, ty, all)?;
    }
    Ok(all)
}

/// A result goes to the left side, where it occurs; so many variables are bound inside of it.
pub fn left_side_within(
    alloc: Global,
    occurs: bool,
    outcome: &Outcome<'_>,
    inside: usize,
) -> Result<Changes, AllocError>
    ensures { IfOk result (λ made. made ≡ left_side_of occurs (outcome_seen outcome.now) inside) }
{
    if !occurs {
        return Ok(Items::new(alloc));
    }
    let value = bound(alloc, inside, outcome.result)?;
    let values = taken(alloc, outcome.targets, &value)?;
    put_in(alloc, outcome.side, outcome.targets, values.as_slice())
}

/// How many variables are bound inside of the left result.
#[tactic(auto, using(crate::proofs::BothSteps::seen_length))]
fn bound_inside(
    alloc: Global,
    occurs: bool,
    left: &Outcome<'_>,
    right: &Outcome<'_>,
) -> Result<usize, AllocError>
    ensures { IfOk result (λ count. count ≡ length (result_of occurs (outcome_seen right.now) ++ globals_of (outcome_seen left.now) (outcome_seen right.now))) }
{
    let all = with_result(alloc, Items::new(alloc), occurs, right)?;
    let all = globals_of(alloc, all, left, right)?;
    Ok(all.len())
}

/// Both results go to the left sides, where they occur.
#[tactic(auto, using(crate::proofs::BothSteps::seen_length))]
fn left_sides(
    alloc: Global,
    occur: (bool, bool),
    left: &Outcome<'_>,
    right: &Outcome<'_>,
    globals: &[Meant],
) -> Result<Changes, AllocError>
    requires { map bound_seen globals.now ≡ globals_of (outcome_seen left.now) (outcome_seen right.now) }
    ensures { IfOk result (λ made. made ≡ left_sides occur.0 occur.1 (outcome_seen left.now) (outcome_seen right.now)) }
{
    let inside = bound_inside(alloc, occur.1, left, right)?;
    let mut changes = left_side_within(alloc, occur.0, left, inside)?;
    changes.append(left_side_within(alloc, occur.1, right, globals.len())?)?;
    Ok(changes)
}

/// What is said after two calls, of the bound values.
fn of_both_returns(
    alloc: Global,
    occur: (bool, bool),
    left: &Outcome<'_>,
    right: &Outcome<'_>,
    form: &Form,
) -> Result<Form, AllocError>
    ensures { IfOk result (λ made. made ≡ of_both_returns occur.0 occur.1 (outcome_seen left.now) (outcome_seen right.now) form.now) }
{
    let globals = globals_of(alloc, Items::new(alloc), left, right)?;
    let changes = left_sides(alloc, occur, left, right, globals.as_slice())?;
    let changes = to_bound_values(alloc, changes, globals.as_slice())?;
    changed(alloc, form, changes.as_slice())
}

/// For all results, where they occur, and all values of the globals, what is said of both outcomes leads to what is said after the calls.
fn after_both_where(
    alloc: Global,
    occur: (bool, bool),
    left: &Outcome<'_>,
    right: &Outcome<'_>,
    said: &Form,
    form: &Form,
) -> Result<Form, AllocError>
    ensures { IfOk result (λ made. made ≡ after_both_where occur.0 occur.1 (outcome_seen left.now) (outcome_seen right.now) said.now form.now) }
{
    let bound = bound_of_both(alloc, occur, left, right)?;
    let changes = to_bound_values(alloc, Items::new(alloc), bound.as_slice())?;
    let said = changed(alloc, said, changes.as_slice())?;
    let form = of_both_returns(alloc, occur, left, right, form)?;
    let leads = implication(alloc, said, form)?;
    for_all(alloc, bound.as_slice(), leads)
}

/// For all results and all values of the globals, what is said of both outcomes leads to what is said after the calls. A quantifier stands
/// only where its variable occurs.
pub fn after_both(
    alloc: Global,
    left: &Outcome<'_>,
    left_reads: &Reads,
    right: &Outcome<'_>,
    right_reads: &Reads,
    said: &Form,
    form: &Form,
) -> Result<Form, AllocError>
    requires left_said { left_reads.now.said ≡ variables_read left.now.side said.now }
    requires left_later { left_reads.now.after ≡ variables_read left.now.side form.now }
    requires right_said { right_reads.now.said ≡ variables_read right.now.side said.now }
    requires right_later { right_reads.now.after ≡ variables_read right.now.side form.now }
    ensures { IfOk result (λ made. made ≡ after_both (outcome_seen left.now) (outcome_seen right.now) said.now form.now) }
{
    let stands = result_variable(alloc)?;
    let occur = (
        reads_result(&stands, left.targets, left_reads),
        reads_result(&stands, right.targets, right_reads),
    );
    after_both_where(alloc, occur, left, right, said, form)
}
