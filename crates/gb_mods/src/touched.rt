//! Which variables statements read or write.

ghost use Rattle.std.specs.Prelude.{◌≡◌, ◌++◌, IfOk};
ghost use Rattle.gb_meaning.specs.Footprints.{globals_among, head_variables, variables};
ghost use Rattle.gb_mods.specs.Touched.{each_touched, each_variables, statement_touched, touched_in, touched_itself};

use crate::meant::Meant;
use crate::order::{all_of, globals_among, with_variable, with_variables};
use gb_core::var::Vars;
use gb_terms::decl::Proc;
use gb_terms::op::Read;
use gb_terms::term::{Head, Instr, Term};
use sqlite_items::Items;
use std::alloc::{AllocError, Global};

/// Variables behind others, with the one that a head reads itself.
fn with_head(alloc: Global, found: Vars, head: &Head) -> Result<Vars, AllocError>
    ensures { IfOk result (λ made. made ≡ found ++ head_variables head.now) }
{
    match head {
        Head::Read(Read::Program { var, .. }) => with_variable(alloc, found, var),
        _ => Ok(found),
    }
}

/// Variables behind others, with those that an expression reads.
#[cycle(variables)]
pub fn variables(alloc: Global, found: Vars, term: &Term) -> Result<Vars, AllocError>
    ensures { IfOk result (λ made. made ≡ found ++ variables term.now) }
{
    let found = with_head(alloc, found, term.head.get())?;
    each_variables(alloc, found, term.args.as_slice())
}

/// The same of expressions one after another.
#[cycle(variables)]
pub fn each_variables(alloc: Global, found: Vars, list: &[Term]) -> Result<Vars, AllocError>
    ensures { IfOk result (λ made. made ≡ found ++ each_variables list.now) }
{
    let mut all = found;
    for term in list {
        all = variables(alloc, all, term)?;
    }
    Ok(all)
}

/// Variables behind others, with those that a statement reads or writes itself, and those of the statements in it.
#[cycle(touched)]
fn statement_touched(alloc: Global, found: Vars, statement: &Instr) -> Result<Vars, AllocError>
    ensures { IfOk result (λ made. made ≡ found ++ statement_touched statement.now) }
{
    match statement {
        Instr::Assign(targets, value) => {
            let found = with_variables(alloc, found, targets.as_slice())?;
            variables(alloc, found, value)
        }
        Instr::Sample(target, distribution) => {
            let found = with_variable(alloc, found, target)?;
            variables(alloc, found, distribution)
        }
        Instr::Call(targets, _, args) => {
            let found = with_variables(alloc, found, targets.as_slice())?;
            each_variables(alloc, found, args.as_slice())
        }
        Instr::If(test, yes, no) => {
            let found = variables(alloc, found, test)?;
            let found = touched(alloc, found, yes.list.as_slice())?;
            touched(alloc, found, no.list.as_slice())
        }
        Instr::While(test, variant, body) => {
            let found = variables(alloc, found, test)?;
            let found = variables(alloc, found, variant)?;
            touched(alloc, found, body.list.as_slice())
        }
    }
}

/// The same of statements one after another.
#[cycle(touched)]
pub fn touched(alloc: Global, found: Vars, list: &[Instr]) -> Result<Vars, AllocError>
    ensures { IfOk result (λ made. made ≡ found ++ each_touched list.now) }
{
    let mut all = found;
    for statement in list {
        all = statement_touched(alloc, all, statement)?;
    }
    Ok(all)
}

/// The globals that a declared procedure reads or writes itself.
pub fn touched_in(alloc: Global, procedure: &Proc) -> Result<Vars, AllocError>
    ensures { IfOk result (λ made. made ≡ touched_in procedure.now) }
{
    let found = touched(alloc, Items::new(alloc), procedure.body.list.as_slice())?;
    let found = variables(alloc, found, &procedure.value)?;
    globals_among(alloc, found.as_slice())
}

/// The globals that a procedure reads or writes itself; one of an abstract module touches all that is the module's own.
pub fn touched_itself(alloc: Global, meant: &Meant) -> Result<Vars, AllocError>
    ensures { IfOk result (λ made. made ≡ touched_itself meant.now) }
{
    match meant {
        Meant::Unknown => Ok(Items::new(alloc)),
        Meant::Declared(procedure) => touched_in(alloc, procedure.get()),
        Meant::Any(module, _) => all_of(alloc, module),
    }
}
