//! Statements with other names for their locals.

ghost use Rattle.std.specs.Prelude.{◌≡◌, ◌++◌, map, IfOk};
ghost use Rattle.gb_walk.specs.Change.{term_changed};
ghost use Rattle.gb_inline.specs.Renamed.{each_renamed, name_renamed, read_renamed, reads_renamed, statement_renamed, var_renamed};

use crate::fresh::Renaming;
use gb_core::copy::copy_var;
use gb_core::name::Name;
use gb_core::same::same_name;
use gb_core::var::Var;
use gb_core::{Shared, SharedItems};
use gb_terms::make::program;
use gb_terms::module::ProcRef;
use gb_terms::op::{Read, Side};
use gb_terms::term::{Cmd, Instr, Instrs, Term};
use gb_walk::change::{Change, Changes};
use gb_walk::walk::changed;
use sqlite_items::Items;
use std::alloc::{AllocError, Global};

/// The new name of a local, or its own.
fn name_renamed<'a>(names: &'a [Renaming], name: &'a Name) -> &'a Name
    ensures { result.now ≡ name_renamed names.now name.now }
{
    for renaming in names {
        if same_name(&renaming.old, name) {
            return &renaming.new.name;
        }
    }
    name
}

fn var_renamed(alloc: Global, names: &[Renaming], variable: &Var) -> Result<Var, AllocError>
    ensures { IfOk result (λ made. made ≡ var_renamed names.now variable.now) }
{
    match variable {
        Var::Local { name } => {
            let name = name_renamed(names, name).copy(alloc)?;
            Ok(Var::Local { name })
        }
        _ => copy_var(alloc, variable),
    }
}

fn vars_renamed(
    alloc: Global,
    names: &[Renaming],
    list: &[Var],
) -> Result<SharedItems<Var>, AllocError>
    ensures { IfOk result (λ made. made ≡ map (var_renamed names.now) list.now) }
{
    let mut all = Items::new(alloc);
    for variable in list {
        all.push(var_renamed(alloc, names, variable)?)?;
    }
    SharedItems::new(alloc, all)
}

fn read_renamed(alloc: Global, renaming: &Renaming) -> Result<Change, AllocError>
    ensures { IfOk result (λ made. made ≡ read_renamed renaming.now) }
{
    let ty = renaming.new.ty.share()?;
    let name = renaming.new.name.copy(alloc)?;
    let read = program(alloc, name, Side::Own, ty)?;
    let name = renaming.old.copy(alloc)?;
    let var = Var::Local { name };
    let side = Side::Own;
    Ok(Change::ToTerm(Read::Program { var, side }, read))
}

/// How reads of locals become reads of their new names.
pub fn reads_renamed(alloc: Global, names: &[Renaming]) -> Result<Changes, AllocError>
    ensures { IfOk result (λ made. made ≡ reads_renamed names.now) }
{
    let mut all = Items::new(alloc);
    for renaming in names {
        all.push(read_renamed(alloc, renaming)?)?;
    }
    Ok(all)
}

fn terms_changed(
    alloc: Global,
    list: &[Term],
    reads: &[Change],
) -> Result<SharedItems<Term>, AllocError>
    ensures { IfOk result (λ made. made ≡ map (λ e. term_changed e reads.now) list.now) }
{
    let mut all = Items::new(alloc);
    for term in list {
        all.push(changed(alloc, term, reads)?)?;
    }
    SharedItems::new(alloc, all)
}

fn assign_renamed(
    alloc: Global,
    targets: &[Var],
    value: &Term,
    names: &[Renaming],
    reads: &[Change],
) -> Result<Instr, AllocError>
    ensures { IfOk result (λ made. made ≡ Instr.Assign (map (var_renamed names.now) targets.now) (term_changed value.now reads.now)) }
{
    let targets = vars_renamed(alloc, names, targets)?;
    let value = changed(alloc, value, reads)?;
    Ok(Instr::Assign(targets, value))
}

fn sample_renamed(
    alloc: Global,
    target: &Var,
    distribution: &Term,
    names: &[Renaming],
    reads: &[Change],
) -> Result<Instr, AllocError>
    ensures { IfOk result (λ made. made ≡ Instr.Sample (var_renamed names.now target.now) (term_changed distribution.now reads.now)) }
{
    let target = var_renamed(alloc, names, target)?;
    let distribution = changed(alloc, distribution, reads)?;
    Ok(Instr::Sample(target, distribution))
}

fn call_renamed(
    alloc: Global,
    targets: &[Var],
    procedure: &Shared<ProcRef>,
    args: &[Term],
    names: &[Renaming],
    reads: &[Change],
) -> Result<Instr, AllocError>
    ensures { IfOk result (λ made. made ≡ Instr.Call (map (var_renamed names.now) targets.now) procedure.now (map (λ e. term_changed e reads.now) args.now)) }
{
    let targets = vars_renamed(alloc, names, targets)?;
    let args = terms_changed(alloc, args, reads)?;
    let procedure = procedure.share()?;
    Ok(Instr::Call(targets, procedure, args))
}

/// A statement with other names for its locals: for those that it reads, and those that it writes.
#[cycle(renamed)]
fn statement_renamed(
    alloc: Global,
    statement: &Instr,
    names: &[Renaming],
    reads: &[Change],
) -> Result<Instr, AllocError>
    ensures { IfOk result (λ made. made ≡ statement_renamed reads.now names.now statement.now) }
{
    match statement {
        Instr::Assign(targets, value) => {
            assign_renamed(alloc, targets.as_slice(), value, names, reads)
        }
        Instr::Sample(target, distribution) => {
            sample_renamed(alloc, target, distribution, names, reads)
        }
        Instr::Call(targets, procedure, args) => call_renamed(
            alloc,
            targets.as_slice(),
            procedure,
            args.as_slice(),
            names,
            reads,
        ),
        Instr::If(test, yes, no) => {
            let yes = cmd_renamed(alloc, yes, names, reads)?;
            let no = cmd_renamed(alloc, no, names, reads)?;
            Ok(Instr::If(changed(alloc, test, reads)?, yes, no))
        }
        Instr::While(guard, variant, body) => {
            let body = cmd_renamed(alloc, body, names, reads)?;
            let variant = changed(alloc, variant, reads)?;
            Ok(Instr::While(changed(alloc, guard, reads)?, variant, body))
        }
    }
}

#[cycle(renamed)]
fn cmd_renamed(
    alloc: Global,
    body: &Cmd,
    names: &[Renaming],
    reads: &[Change],
) -> Result<Cmd, AllocError>
    ensures { IfOk result (λ made. made.list ≡ each_renamed reads.now names.now body.now.list) }
{
    let list = with_renamed(alloc, Items::new(alloc), body.list.as_slice(), names, reads)?;
    let list = SharedItems::new(alloc, list)?;
    Ok(Cmd { list })
}

/// Statements behind others, with other names for their locals.
#[cycle(renamed)]
pub fn with_renamed(
    alloc: Global,
    found: Instrs,
    list: &[Instr],
    names: &[Renaming],
    reads: &[Change],
) -> Result<Instrs, AllocError>
    ensures { IfOk result (λ made. made ≡ found ++ each_renamed reads.now names.now list.now) }
{
    let mut all = found;
    for statement in list {
        all.push(statement_renamed(alloc, statement, names, reads)?)?;
    }
    Ok(all)
}
