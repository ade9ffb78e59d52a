//! The body of a procedure in place of a call.

ghost use Rattle.std.specs.Prelude.{◌≡◌, ◌++◌, ◌∷◌, [], IfOk};
ghost use Rattle.gb_typing.specs.Programs.{locals_of};
ghost use Rattle.gb_inline.specs.Expanded.{each_set, expanded, in_place, result_set};
ghost use Rattle.gb_inline.specs.Renamed as renamed;
ghost use Rattle.gb_walk.specs.Change.{term_changed};

use crate::fresh::{Renaming, new_names};
use crate::renamed::{reads_renamed, with_renamed};
use gb_core::var::Var;
use gb_core::{Shared, SharedItems};
use gb_forms::firsts::with_firsts;
use gb_terms::decl::{Proc, Typed};
use gb_terms::share::{copy_typed, share_terms};
use gb_terms::term::{Instr, Instrs, Term};
use gb_walk::walk::changed;
use sqlite_items::Items;
use std::alloc::{AllocError, Global};

/// The assignment of a term to a new local.
fn set(alloc: Global, renaming: &Renaming, value: &Term) -> Result<Instr, AllocError>
    ensures { IfOk result (λ made. each_set (renaming.now ∷ []) (value.now ∷ []) ≡ made ∷ []) }
{
    let name = renaming.new.name.copy(alloc)?;
    let mut targets = Items::new(alloc);
    targets.push(Var::Local { name })?;
    let targets = SharedItems::new(alloc, targets)?;
    Ok(Instr::Assign(targets, value.share()?))
}

/// Assignments of terms to new locals.
#[tactic(auto, using(crate::proofs::ExpandedSteps::all_set))]
fn each_set(alloc: Global, names: &[Renaming], values: &[Term]) -> Result<Instrs, AllocError>
    ensures { IfOk result (λ made. made ≡ each_set names.now values.now) }
{
    let mut all = Items::new(alloc);
    for i in 0..names.len().min(values.len()) {
        all.push(set(alloc, &names[i], &values[i])?)?;
    }
    Ok(all)
}

/// Statements, and behind them the assignment of the result of a call to its left side.
fn with_result(found: Instrs, targets: &SharedItems<Var>, value: Term) -> Result<Instrs, AllocError>
    ensures { IfOk result (λ made. made ≡ found ++ result_set targets.now value) }
{
    let mut all = found;
    if !targets.is_empty() {
        let targets = targets.share()?;
        all.push(Instr::Assign(targets, value))?;
    }
    Ok(all)
}

/// Statements, and behind them the body of a procedure under new names, and the assignment of its result.
fn with_body(
    alloc: Global,
    found: Instrs,
    procedure: &Proc,
    names: &[Renaming],
    targets: &SharedItems<Var>,
) -> Result<Instrs, AllocError>
    ensures { IfOk result (λ made. made ≡ found ++ (renamed.each_renamed (renamed.reads_renamed names.now) names.now procedure.now.body.list
        ++ result_set targets.now (term_changed procedure.now.value (renamed.reads_renamed names.now)))) }
{
    let reads = reads_renamed(alloc, names)?;
    let body = procedure.body.list.as_slice();
    let found = with_renamed(alloc, found, body, names, reads.as_slice())?;
    let value = changed(alloc, &procedure.value, reads.as_slice())?;
    with_result(found, targets, value)
}

/// The parameters are assigned the arguments, and the locals their first values; the body follows, and the left side is assigned the
/// result.
fn in_place(
    alloc: Global,
    procedure: &Proc,
    names: &[Renaming],
    targets: &SharedItems<Var>,
    args: &[Term],
) -> Result<Instrs, AllocError>
    ensures { IfOk result (λ made. made ≡ in_place procedure.now names.now targets.now args.now) }
{
    let values = share_terms(alloc, args)?;
    let values = with_firsts(alloc, values, procedure.locals.as_slice())?;
    let found = each_set(alloc, names, values.as_slice())?;
    with_body(alloc, found, procedure, names, targets)
}

/// The parameters and the locals of a procedure.
fn locals_of(alloc: Global, procedure: &Proc) -> Result<Typed, AllocError>
    ensures { IfOk result (λ made. made ≡ locals_of procedure.now) }
{
    let mut all = copy_typed(alloc, procedure.params.as_slice())?;
    for local in procedure.locals.as_slice() {
        all.push(local.copy(alloc)?)?;
    }
    Ok(all)
}

/// What stands in place of a call of a procedure, under new names that none of these variables has. None where there is no procedure.
pub fn expanded(
    alloc: Global,
    used: &[Var],
    procedure: Option<Shared<Proc>>,
    targets: &SharedItems<Var>,
    args: &[Term],
) -> Result<Option<Instrs>, AllocError>
    ensures { IfOk result (λ made. made ≡ expanded used.now procedure targets.now args.now) }
{
    let Some(procedure) = procedure else {
        return Ok(None);
    };
    let procedure = procedure.get();
    let locals = locals_of(alloc, procedure)?;
    let Some(names) = new_names(alloc, used, locals.as_slice())? else {
        return Ok(None);
    };
    let made = in_place(alloc, procedure, names.as_slice(), targets, args)?;
    Ok(Some(made))
}
