//! Modules that are ended: each procedure that has a loop is proved, and each module that they name is ended.

ghost use Rattle.std.specs.Prelude.{◌≡◌, IfOk};
ghost use Rattle.std.specs.Option.{option_copied};
ghost use Rattle.gb_ended.specs.Ended.{first_among, first_at, first_of, first_unproved, first_unproved_in, named_if, procedure_in};

use crate::loops::unproved;
use crate::named::{all_named, is_one, named_by, others};
use gb_core::Shared;
use gb_core::name::{Name, Names};
use gb_goal::scope::{Entry, ProcName, Scope, procedure_named};
use gb_terms::decl::{Module, Proc};
use sqlite_items::Items;
use std::alloc::{AllocError, Global};

/// The first procedure of a module, in order, that has a loop and isn't proved.
fn first_among(
    alloc: Global,
    scope: &Scope,
    module: &Name,
    list: &[Shared<Proc>],
) -> Result<Option<ProcName>, AllocError>
    ensures { IfOk result (λ found. found ≡ first_among scope.now «module».now list.now) }
{
    for procedure in list {
        if let Some(found) = unproved(alloc, scope, module, procedure.get())? {
            return Ok(Some(found));
        }
    }
    Ok(None)
}

/// The same of a thing, where it is a module that has one of these names.
fn first_at(
    alloc: Global,
    scope: &Scope,
    names: &[Name],
    entry: Option<&Entry>,
) -> Result<Option<ProcName>, AllocError>
    ensures { IfOk result (λ found. found ≡ first_at scope.now names.now (option_copied entry.entry)) }
{
    match entry {
        Some(Entry::Module(module)) if is_one(names, &module.name) => {
            first_among(alloc, scope, &module.name, module.procs.as_slice())
        }
        _ => Ok(None),
    }
}

/// The same of all things, in order of declaration.
fn first_of(alloc: Global, scope: &Scope, names: &[Name]) -> Result<Option<ProcName>, AllocError>
    ensures { IfOk result (λ found. found ≡ first_of scope.now names.now scope.now) }
{
    for i in 0..scope.len() {
        if let Some(found) = first_at(alloc, scope, names, scope.entry_at(i))? {
            return Ok(Some(found));
        }
    }
    Ok(None)
}

/// The first procedure, in order of declaration, that has a loop and isn't proved, of the module of this name and all modules that
/// it names, through every module. None where the module is ended.
pub fn first_unproved(
    alloc: Global,
    scope: &Scope,
    name: &Name,
) -> Result<Option<ProcName>, AllocError>
    ensures { IfOk result (λ found. found ≡ first_unproved scope.now name.now) }
{
    let name = name.copy(alloc)?;
    let first = Items::from_vec(vec![in alloc; name]?);
    let names = all_named(alloc, scope, first)?;
    first_of(alloc, scope, names.as_slice())
}

/// The procedure of this name in a module.
fn procedure_in<'a>(found: Option<&'a Module>, name: &Name) -> Option<&'a Shared<Proc>>
    ensures { option_copied result ≡ procedure_in (option_copied found.entry) name.now }
{
    match found {
        Some(module) => procedure_named(module.procs.as_slice(), name),
        None => None,
    }
}

/// The modules that a procedure names itself.
fn named_if(alloc: Global, found: Option<&Shared<Proc>>) -> Result<Names, AllocError>
    ensures { IfOk result (λ made. made ≡ named_if (option_copied found.entry)) }
{
    match found {
        Some(procedure) => named_by(alloc, Items::new(alloc), procedure.get()),
        None => Ok(Items::new(alloc)),
    }
}

/// The same of the modules that a procedure names itself, other than its own.
pub fn first_unproved_in(
    alloc: Global,
    scope: &Scope,
    operand: &ProcName,
) -> Result<Option<ProcName>, AllocError>
    ensures { IfOk result (λ found. found ≡ first_unproved_in scope.now operand.now) }
{
    let procedure = procedure_in(scope.module(&operand.module), &operand.name);
    let named = named_if(alloc, procedure)?;
    let first = others(alloc, &operand.module, named.as_slice())?;
    let names = all_named(alloc, scope, first)?;
    first_of(alloc, scope, names.as_slice())
}
