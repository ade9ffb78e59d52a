//! What expressions, statements and procedures read, at the types at which they read it.

ghost use Rattle.std.specs.Prelude.{◌≡◌, ◌++◌, IfOk};
ghost use Rattle.gb_mods.specs.Meant.{meant_by};
ghost use Rattle.gb_sim.specs.Reads.{each_reads, globals_among, head_reads, list_reads, procedure_reads, reached_reads, reads_by, reads_itself, statement_reads, term_reads, whole};

use gb_core::Shared;
use gb_core::copy::copy_var;
use gb_core::name::Name;
use gb_core::ty::Ty;
use gb_core::var::Var;
use gb_forms::ordered::{shared_variable, with_variables};
use gb_goal::scope::Scope;
use gb_labels::reads::{TypedVar, TypedVars};
use gb_mods::called::{Procedures, all_reached};
use gb_mods::meant::{Meant, meant_by};
use gb_terms::decl::Proc;
use gb_terms::module::ProcRef;
use gb_terms::op::Read;
use gb_terms::term::{Head, Instr, Term};
use sqlite_items::Items;
use std::alloc::{AllocError, Global};

/// Variables behind others, with the one that a head of a type reads itself.
fn with_head(
    alloc: Global,
    found: TypedVars,
    head: &Head,
    ty: &Shared<Ty>,
) -> Result<TypedVars, AllocError>
    ensures { IfOk result (λ made. made ≡ found ++ head_reads head.now ty.now) }
{
    let mut all = found;
    match head {
        Head::Read(Read::Program { var, .. }) => {
            let var = Shared::new(alloc, copy_var(alloc, var)?)?;
            let ty = ty.share()?;
            all.push(TypedVar { var, ty })?;
        }
        _ => {}
    }
    Ok(all)
}

/// Variables behind others, with those that an expression reads.
#[cycle(term_reads)]
pub fn term_reads(alloc: Global, found: TypedVars, term: &Term) -> Result<TypedVars, AllocError>
    ensures { IfOk result (λ made. made ≡ found ++ term_reads term.now) }
{
    let found = with_head(alloc, found, term.head.get(), &term.ty)?;
    each_reads(alloc, found, term.args.as_slice())
}

/// The same of expressions one after another.
#[cycle(term_reads)]
pub fn each_reads(alloc: Global, found: TypedVars, list: &[Term]) -> Result<TypedVars, AllocError>
    ensures { IfOk result (λ made. made ≡ found ++ each_reads list.now) }
{
    let mut all = found;
    for term in list {
        all = term_reads(alloc, all, term)?;
    }
    Ok(all)
}

/// Variables behind others, with those that a statement reads itself, and those of the statements in it.
#[cycle(reads)]
fn statement_reads(
    alloc: Global,
    found: TypedVars,
    statement: &Instr,
) -> Result<TypedVars, AllocError>
    ensures { IfOk result (λ made. made ≡ found ++ statement_reads statement.now) }
{
    match statement {
        Instr::Assign(_, value) | Instr::Sample(_, value) => term_reads(alloc, found, value),
        Instr::Call(_, _, args) => each_reads(alloc, found, args.as_slice()),
        Instr::If(test, yes, no) => {
            let found = term_reads(alloc, found, test)?;
            let found = list_reads(alloc, found, yes.list.as_slice())?;
            list_reads(alloc, found, no.list.as_slice())
        }
        Instr::While(test, variant, body) => {
            let found = term_reads(alloc, found, test)?;
            let found = term_reads(alloc, found, variant)?;
            list_reads(alloc, found, body.list.as_slice())
        }
    }
}

/// The same of statements one after another.
#[cycle(reads)]
pub fn list_reads(alloc: Global, found: TypedVars, list: &[Instr]) -> Result<TypedVars, AllocError>
    ensures { IfOk result (λ made. made ≡ found ++ list_reads list.now) }
{
    let mut all = found;
    for statement in list {
        all = statement_reads(alloc, all, statement)?;
    }
    Ok(all)
}

/// The variables that are no locals.
fn globals_among(alloc: Global, list: &[TypedVar]) -> Result<TypedVars, AllocError>
    ensures { IfOk result (λ made. made ≡ globals_among list.now) }
{
    let mut all = Items::new(alloc);
    for variable in list {
        match variable.var.get() {
            Var::Local { .. } => {}
            _ => all.push(shared_variable(variable)?)?,
        }
    }
    Ok(all)
}

/// The globals that a declared procedure reads itself.
fn procedure_reads(alloc: Global, procedure: &Proc) -> Result<TypedVars, AllocError>
    ensures { IfOk result (λ made. made ≡ procedure_reads procedure.now) }
{
    let body = list_reads(alloc, Items::new(alloc), procedure.body.list.as_slice())?;
    let all = term_reads(alloc, body, &procedure.value)?;
    globals_among(alloc, all.as_slice())
}

/// All that is the own of the abstract module of this name, as one variable.
fn whole(alloc: Global, module: &Name) -> Result<TypedVars, AllocError>
    ensures { IfOk result (λ made. made ≡ whole «module».now) }
{
    let mut all = Items::new(alloc);
    let ty = Shared::new(alloc, Ty::Glob(module.copy(alloc)?))?;
    let module = module.copy(alloc)?;
    let var = Shared::new(alloc, Var::Glob { module })?;
    all.push(TypedVar { var, ty })?;
    Ok(all)
}

/// The globals that a procedure reads itself; one of an abstract module reads all that is the module's own. None where it isn't known what
/// it stands for.
fn reads_itself(alloc: Global, meant: &Meant) -> Result<Option<TypedVars>, AllocError>
    ensures { IfOk result (λ made. made ≡ reads_itself meant.now) }
{
    match meant {
        Meant::Unknown => Ok(None),
        Meant::Declared(procedure) => Ok(Some(procedure_reads(alloc, procedure.get())?)),
        Meant::Any(module, _) => Ok(Some(whole(alloc, module)?)),
    }
}

/// The same of what a reference means.
fn reads_of(
    alloc: Global,
    scope: &Scope,
    procedure: &ProcRef,
) -> Result<Option<TypedVars>, AllocError>
    ensures { IfOk result (λ made. made ≡ reads_itself (meant_by scope.now procedure.now)) }
{
    let meant = meant_by(alloc, scope, procedure)?;
    reads_itself(alloc, &meant)
}

/// The globals that procedures read themselves. None where it isn't known what one stands for.
fn reads_by(
    alloc: Global,
    scope: &Scope,
    list: &[Shared<ProcRef>],
) -> Result<Option<TypedVars>, AllocError>
    ensures { IfOk result (λ made. made ≡ reads_by scope.now list.now) }
{
    let mut all = Items::new(alloc);
    for x in list {
        let Some(own) = reads_of(alloc, scope, x.get())? else {
            return Ok(None);
        };
        all = with_variables(all, own.as_slice())?;
    }
    Ok(Some(all))
}

/// The globals that procedures read, through every procedure that they call. None where it isn't known what one of these
/// stands for.
#[tactic(auto, unfolding(crate::specs::Reads::reached_reads))]
pub fn reached_reads(
    alloc: Global,
    scope: &Scope,
    first: Procedures,
) -> Result<Option<TypedVars>, AllocError>
    ensures { IfOk result (λ made. made ≡ reached_reads scope.now first) }
{
    let Some(all) = all_reached(alloc, scope, first)? else {
        return Ok(None);
    };
    reads_by(alloc, scope, all.as_slice())
}
