//! What is said before a call of what is to hold after it.

ghost use Rattle.std.specs.Prelude.{◌≡◌, ◌++◌, ◌||◌, [], IfOk};
ghost use Rattle.std.specs.List.{list_any};
ghost use Rattle.std.specs.Option.{option_copied};
ghost use Rattle.gb_core.specs.declared.var.Var.TheVariants.{Local};
ghost use Rattle.gb_meaning.specs.Memory.{result_name};
ghost use Rattle.gb_terms.specs.Make.{node};
ghost use Rattle.gb_walk.specs.Clash.{least_from, variables_read};
ghost use Rattle.gb_prog.specs.AllValues.{for_all, in_memory, to_bound_values};
ghost use Rattle.gb_call.specs.Outcomes.{after_call, after_where, clashing_after, for_outcomes, globals_seen, is_among, is_clashing_after, left_side, of_arguments, of_outcome, of_return, outcome_seen, put_for, result_bound};

use crate::written::TypedGlobal;
use gb_core::Shared;
use gb_core::copy::copy_var;
use gb_core::name::Name;
use gb_core::ty::Ty;
use gb_core::var::Var;
use gb_forms::calls::{Reads, is_among};
use gb_prog::assigned::{put_in, taken};
use gb_prog::forms::{likely, located};
use gb_terms::decl::TypedName;
use gb_terms::make::{forall, leaf};
use gb_terms::op::{Read, Rel, Side};
use gb_terms::term::{Form, Head, Term};
use gb_walk::change::{Change, Changes};
use gb_walk::clash::{Excluded, first_clash, lesser};
use gb_walk::walk::changed;
use sqlite_items::Items;
use std::alloc::{AllocError, Global};

/// The variable that stands for the result of a procedure.
const RESULT: &str = "res";

/// What a call may change in a memory: the variables of its left side, by a result of this type, and these globals.
#[derive(Clone, Copy)]
pub struct Outcome<'a> {
    pub side: Side,
    pub targets: &'a [Var],
    pub result: &'a Shared<Ty>,
    pub globals: &'a [TypedGlobal],
}

/// Arguments in the places of parameters, behind other changes.
pub fn put_for(
    alloc: Global,
    before: Changes,
    side: Side,
    params: &[TypedName],
    arguments: &[Term],
) -> Result<Changes, AllocError>
    ensures { IfOk result (λ made. made ≡ before ++ put_for side params.now arguments.now) }
{
    let mut changes = before;
    for i in 0..params.len().min(arguments.len()) {
        let name = params[i].name.copy(alloc)?;
        let value = located(alloc, &arguments[i], side)?;
        let var = Var::Local { name };
        changes.push(Change::ToTerm(Read::Program { var, side }, value))?;
    }
    Ok(changes)
}

/// What is said of the parameters of a procedure, of arguments.
pub fn of_arguments(
    alloc: Global,
    side: Side,
    params: &[TypedName],
    arguments: &[Term],
    form: &Form,
) -> Result<Form, AllocError>
    ensures { IfOk result (λ made. made ≡ of_arguments side params.now arguments.now form.now) }
{
    let changes = put_for(alloc, Items::new(alloc), side, params, arguments)?;
    changed(alloc, form, changes.as_slice())
}

/// The value that the binder with so many others inside of it binds.
pub fn bound(alloc: Global, index: usize, ty: &Shared<Ty>) -> Result<Term, AllocError>
    ensures { IfOk result (λ made. made ≡ node (Head.Bound index) [] ty.now) }
{
    let Ok(index) = u32::try_from(index) else {
        return Err(AllocError);
    };
    let ty = ty.share()?;
    leaf(alloc, Head::Bound(index), ty)
}

/// Bound values in the places of globals, behind other changes.
fn with_globals(
    alloc: Global,
    before: Changes,
    side: Side,
    globals: &[TypedGlobal],
) -> Result<Changes, AllocError>
    ensures { IfOk result (λ made. made ≡ before ++ to_bound_values (in_memory side (globals_seen globals.now))) }
{
    let mut changes = before;
    for i in 0..globals.len() {
        let value = bound(alloc, globals.len() - 1 - i, &globals[i].ty)?;
        let var = copy_var(alloc, &globals[i].variable)?;
        changes.push(Change::ToTerm(Read::Program { var, side }, value))?;
    }
    Ok(changes)
}

/// The value that is bound for the result, around those of the globals.
#[tactic(auto, using(crate::proofs::OutcomeSteps::located_length))]
fn result_bound(alloc: Global, outcome: &Outcome<'_>) -> Result<Term, AllocError>
    ensures { IfOk result (λ made. made ≡ result_bound (outcome_seen outcome.now)) }
{
    bound(alloc, outcome.globals.len(), outcome.result)
}

/// The variable that stands for the result.
pub fn result_variable(alloc: Global) -> Result<Var, AllocError>
    ensures { IfOk result (λ made. made ≡ Local result_name) }
{
    let name = Name::from_str(alloc, RESULT)?;
    Ok(Var::Local { name })
}

/// What is said of the outcome of a procedure, of the bound values.
fn of_outcome(
    alloc: Global,
    occurs: bool,
    outcome: &Outcome<'_>,
    form: &Form,
) -> Result<Form, AllocError>
    ensures { IfOk result (λ made. made ≡ of_outcome occurs (outcome_seen outcome.now) form.now) }
{
    let side = outcome.side;
    let mut changes = Items::new(alloc);
    if occurs {
        let value = result_bound(alloc, outcome)?;
        let var = result_variable(alloc)?;
        changes.push(Change::ToTerm(Read::Program { var, side }, value))?;
    }
    let changes = with_globals(alloc, changes, side, outcome.globals)?;
    changed(alloc, form, changes.as_slice())
}

/// The result goes to the left side, where it occurs.
fn left_side(alloc: Global, occurs: bool, outcome: &Outcome<'_>) -> Result<Changes, AllocError>
    ensures { IfOk result (λ made. made ≡ left_side occurs (outcome_seen outcome.now)) }
{
    if !occurs {
        return Ok(Items::new(alloc));
    }
    let value = result_bound(alloc, outcome)?;
    let values = taken(alloc, outcome.targets, &value)?;
    put_in(alloc, outcome.side, outcome.targets, values.as_slice())
}

/// What is said after the call, of the bound values.
fn of_return(
    alloc: Global,
    occurs: bool,
    outcome: &Outcome<'_>,
    form: &Form,
) -> Result<Form, AllocError>
    ensures { IfOk result (λ made. made ≡ of_return occurs (outcome_seen outcome.now) form.now) }
{
    let changes = left_side(alloc, occurs, outcome)?;
    let changes = with_globals(alloc, changes, outcome.side, outcome.globals)?;
    changed(alloc, form, changes.as_slice())
}

/// A form for all values of globals.
fn for_all(
    alloc: Global,
    side: Side,
    globals: &[TypedGlobal],
    form: Form,
) -> Result<Form, AllocError>
    ensures { IfOk result (λ made. made ≡ for_all (in_memory side (globals_seen globals.now)) form) }
{
    let mut all = form;
    for k in 0..globals.len() {
        let at = globals.len() - 1 - k;
        let ty = globals[at].ty.share()?;
        all = forall(alloc, ty, all)?;
    }
    Ok(all)
}

/// Whether one of these variables is read.
fn is_one_read(list: &[Var], read: &[Var]) -> bool
    ensures { result ≡ list_any (is_among read.now) list.now }
{
    list.iter().any(|x| is_among(read, x))
}

/// Whether the result occurs, for which a variable stands: in what is said of the outcome, or in what is said of the left side.
pub fn reads_result(stands: &Var, targets: &[Var], reads: &Reads) -> bool
    ensures { result ≡ (is_among reads.now.said stands.now || list_any (is_among reads.now.after) targets.now) }
{
    is_among(reads.said.as_slice(), stands) || is_one_read(targets, reads.after.as_slice())
}

/// A form for all results, where the result occurs, and for all values of the globals.
fn for_outcomes(
    alloc: Global,
    occurs: bool,
    outcome: &Outcome<'_>,
    form: Form,
) -> Result<Form, AllocError>
    ensures { IfOk result (λ made. made ≡ for_outcomes occurs (outcome_seen outcome.now) form) }
{
    let form = for_all(alloc, outcome.side, outcome.globals, form)?;
    if !occurs {
        return Ok(form);
    }
    let ty = outcome.result.share()?;
    forall(alloc, ty, form)
}

/// For all results, where the result occurs, and all values of the globals, what is said of the outcome makes what is said after the call as
/// likely as the relation asks.
fn after_where(
    alloc: Global,
    rel: Rel,
    occurs: bool,
    outcome: &Outcome<'_>,
    said: &Form,
    form: &Form,
) -> Result<Form, AllocError>
    ensures { IfOk result (λ made. made ≡ after_where rel occurs (outcome_seen outcome.now) said.now form.now) }
{
    let said = of_outcome(alloc, occurs, outcome, said)?;
    let form = of_return(alloc, occurs, outcome, form)?;
    let likely = likely(alloc, rel, &form, &said)?;
    for_outcomes(alloc, occurs, outcome, likely)
}

/// For all results and all values of the globals, what is said of the outcome makes what is said after the call as likely as the relation
/// asks: with `>=` the one leads to the other. A quantifier stands only where its variable occurs.
#[tactic(auto, using(crate::proofs::OutcomeSteps::occurs_as_read))]
pub fn after_call(
    alloc: Global,
    rel: Rel,
    outcome: &Outcome<'_>,
    reads: &Reads,
    said: &Form,
    form: &Form,
) -> Result<Form, AllocError>
    requires said { reads.now.said ≡ variables_read outcome.now.side said.now }
    requires later { reads.now.after ≡ variables_read outcome.now.side form.now }
    ensures { IfOk result (λ made. made ≡ after_call rel (outcome_seen outcome.now) said.now form.now) }
{
    let stands = result_variable(alloc)?;
    let occurs = reads_result(&stands, outcome.targets, reads);
    after_where(alloc, rel, occurs, outcome, said, form)
}

/// Whether another variable clashes with this one in what is said of the outcome, or after the call.
fn is_clashing_after(
    exclusions: &[Excluded],
    side: Side,
    said: &Form,
    form: &Form,
    variable: &Var,
) -> bool
    ensures { result ≡ is_clashing_after exclusions.now side said.now form.now variable.now }
{
    first_clash(exclusions, &side, variable, said).is_some()
        || first_clash(exclusions, &side, variable, form).is_some()
}

/// The least of what was found before, the variables of the left side, and the globals that are written, with which another one clashes
/// where it is replaced.
pub fn clashing_after<'a>(
    before: Option<&'a Var>,
    exclusions: &[Excluded],
    side: Side,
    targets: &'a [Var],
    written: &'a [Var],
    said: &Form,
    form: &Form,
) -> Option<&'a Var>
    ensures { option_copied result ≡ least_from (option_copied before.entry) (clashing_after exclusions.now side targets.now written.now said.now form.now) }
{
    let mut found = before;
    for target in targets {
        if first_clash(exclusions, &side, target, form).is_some() {
            found = lesser(found, target);
        }
    }
    for global in written {
        if is_clashing_after(exclusions, side, said, form, global) {
            found = lesser(found, global);
        }
    }
    found
}
