//! Which variables statements and procedures read.

ghost use Rattle.std.specs.Prelude.{◌≡◌, ◌++◌, IfOk};
ghost use Rattle.gb_mods.specs.Read.{each_read, read_by, read_in, read_itself, statement_read};

use crate::meant::{Meant, meant_by};
use crate::order::{all_of, globals_among, with_variables};
use crate::touched::{each_variables, variables};
use gb_core::Shared;
use gb_core::var::Vars;
use gb_goal::scope::Scope;
use gb_terms::decl::Proc;
use gb_terms::module::ProcRef;
use gb_terms::term::Instr;
use sqlite_items::Items;
use std::alloc::{AllocError, Global};

/// Variables behind others, with those that a statement reads itself, and those of the statements in it.
#[cycle(each_read)]
fn statement_read(alloc: Global, found: Vars, statement: &Instr) -> Result<Vars, AllocError>
    ensures { IfOk result (λ made. made ≡ found ++ statement_read statement.now) }
{
    match statement {
        Instr::Assign(_, value) => variables(alloc, found, value),
        Instr::Sample(_, distribution) => variables(alloc, found, distribution),
        Instr::Call(_, _, args) => each_variables(alloc, found, args.as_slice()),
        Instr::If(test, yes, no) => {
            let found = variables(alloc, found, test)?;
            let found = each_read(alloc, found, yes.list.as_slice())?;
            each_read(alloc, found, no.list.as_slice())
        }
        Instr::While(test, variant, body) => {
            let found = variables(alloc, found, test)?;
            let found = variables(alloc, found, variant)?;
            each_read(alloc, found, body.list.as_slice())
        }
    }
}

/// The same of statements one after another.
#[cycle(each_read)]
pub fn each_read(alloc: Global, found: Vars, list: &[Instr]) -> Result<Vars, AllocError>
    ensures { IfOk result (λ made. made ≡ found ++ each_read list.now) }
{
    let mut all = found;
    for statement in list {
        all = statement_read(alloc, all, statement)?;
    }
    Ok(all)
}

/// The globals that a procedure reads itself, in its body and in what it returns.
fn read_in(alloc: Global, procedure: &Proc) -> Result<Vars, AllocError>
    ensures { IfOk result (λ made. made ≡ read_in procedure.now) }
{
    let found = each_read(alloc, Items::new(alloc), procedure.body.list.as_slice())?;
    let found = variables(alloc, found, &procedure.value)?;
    globals_among(alloc, found.as_slice())
}

/// The globals that a procedure reads itself; one of an abstract module reads all that is the module's own. None where it isn't known
/// what it stands for.
fn read_itself(alloc: Global, meant: &Meant) -> Result<Option<Vars>, AllocError>
    ensures { IfOk result (λ made. made ≡ read_itself meant.now) }
{
    match meant {
        Meant::Unknown => Ok(None),
        Meant::Declared(procedure) => Ok(Some(read_in(alloc, procedure.get())?)),
        Meant::Any(module, _) => Ok(Some(all_of(alloc, module)?)),
    }
}

/// The globals that procedures read themselves. None where it isn't known what one stands for.
pub fn read_by(
    alloc: Global,
    scope: &Scope,
    list: &[Shared<ProcRef>],
) -> Result<Option<Vars>, AllocError>
    ensures { IfOk result (λ made. made ≡ read_by scope.now list.now) }
{
    let mut all = Items::new(alloc);
    for x in list {
        let meant = meant_by(alloc, scope, x.get())?;
        let Some(own) = read_itself(alloc, &meant)? else {
            return Ok(None);
        };
        all = with_variables(alloc, all, own.as_slice())?;
    }
    Ok(Some(all))
}
