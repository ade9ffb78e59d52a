//! Which modules a module names, through all modules that it names.

ghost use Rattle.std.specs.Prelude.{◌≡◌, [], ◌∷◌, ◌++◌, IfOk};
ghost use Rattle.std.specs.Option.{option_copied};
ghost use Rattle.gb_ended.specs.Named.{all_named, all_names_in, free_of, is_one, modules_of, named_by, named_from, named_in, names_in, other, others, owner, owners, with_named};

use gb_core::Shared;
use gb_core::name::{Name, Names};
use gb_core::same::same_name;
use gb_core::var::Var;
use gb_goal::scope::{Entry, Scope};
use gb_mods::called::calls;
use gb_mods::touched::touched_in;
use gb_terms::decl::{Module, Param, Proc};
use gb_terms::module::{Mexp, ProcRef};
use sqlite_items::Items;
use std::alloc::{AllocError, Global};

/// A name behind others.
fn with_name(alloc: Global, found: Names, name: &Name) -> Result<Names, AllocError>
    ensures { IfOk result (λ made. made ≡ found ++ name.now ∷ []) }
{
    let name = name.copy(alloc)?;
    let mut all = found;
    all.push(name)?;
    Ok(all)
}

/// Names behind others: those of the modules in a module expression.
#[cycle(names_in)]
pub fn names_in(alloc: Global, found: Names, module: &Mexp) -> Result<Names, AllocError>
    ensures { IfOk result (λ made. made ≡ found ++ names_in «module».now) }
{
    match module {
        Mexp::Name(name) => with_name(alloc, found, name),
        Mexp::Apply(name, args) => {
            let found = with_name(alloc, found, name)?;
            all_names_in(alloc, found, args.as_slice())
        }
    }
}

/// The same of several module expressions.
#[cycle(names_in)]
fn all_names_in(alloc: Global, found: Names, list: &[Mexp]) -> Result<Names, AllocError>
    ensures { IfOk result (λ made. made ≡ found ++ all_names_in list.now) }
{
    let mut all = found;
    for m in list {
        all = names_in(alloc, all, m)?;
    }
    Ok(all)
}

/// Names behind others: those of the modules of procedures.
fn modules_of(alloc: Global, found: Names, list: &[Shared<ProcRef>]) -> Result<Names, AllocError>
    ensures { IfOk result (λ made. made ≡ found ++ modules_of list.now) }
{
    let mut all = found;
    for x in list {
        all = names_in(alloc, all, &x.get().module)?;
    }
    Ok(all)
}

/// A name behind others: that of the owner of a global.
fn with_owner(alloc: Global, found: Names, variable: &Var) -> Result<Names, AllocError>
    ensures { IfOk result (λ made. made ≡ found ++ owner variable.now) }
{
    match variable {
        Var::Global { module, .. } | Var::Glob { module } => with_name(alloc, found, module),
        Var::Local { .. } => Ok(found),
    }
}

/// Names behind others: those of the owners of globals.
fn owners(alloc: Global, found: Names, list: &[Var]) -> Result<Names, AllocError>
    ensures { IfOk result (λ made. made ≡ found ++ owners list.now) }
{
    let mut all = found;
    for variable in list {
        all = with_owner(alloc, all, variable)?;
    }
    Ok(all)
}

/// Names behind others: those of the modules that a procedure names itself.
pub fn named_by(alloc: Global, found: Names, procedure: &Proc) -> Result<Names, AllocError>
    ensures { IfOk result (λ made. made ≡ found ++ named_by procedure.now) }
{
    let called = calls(alloc, Items::new(alloc), procedure.body.list.as_slice())?;
    let touched = touched_in(alloc, procedure)?;
    let found = modules_of(alloc, found, called.as_slice())?;
    owners(alloc, found, touched.as_slice())
}

/// The same of several procedures.
fn named_in(alloc: Global, found: Names, list: &[Shared<Proc>]) -> Result<Names, AllocError>
    ensures { IfOk result (λ made. made ≡ found ++ named_in list.now) }
{
    let mut all = found;
    for procedure in list {
        all = named_by(alloc, all, procedure.get())?;
    }
    Ok(all)
}

/// Names behind others: a name that isn't another one.
fn other(alloc: Global, found: Names, own: &Name, name: &Name) -> Result<Names, AllocError>
    ensures { IfOk result (λ made. made ≡ found ++ other own.now name.now) }
{
    if same_name(own, name) {
        return Ok(found);
    }
    with_name(alloc, found, name)
}

/// The names other than one.
pub fn others(alloc: Global, own: &Name, names: &[Name]) -> Result<Names, AllocError>
    ensures { IfOk result (λ made. made ≡ others own.now names.now) }
{
    let mut all = Items::new(alloc);
    for name in names {
        all = other(alloc, all, own, name)?;
    }
    Ok(all)
}

/// The names other than those of parameters. A module that is declared behind a functor may have the name of one of its parameters.
fn free_of(alloc: Global, params: &[Param], names: Names) -> Result<Names, AllocError>
    ensures { IfOk result (λ made. made ≡ free_of params.now names) }
{
    let mut all = names;
    for q in params {
        all = others(alloc, &q.name, all.as_slice())?;
    }
    Ok(all)
}

/// Names behind others: those of the modules that a module names itself.
fn named_from(alloc: Global, found: Names, module: &Module) -> Result<Names, AllocError>
    ensures { IfOk result (λ made. made ≡ found ++ named_from «module».now) }
{
    let named = named_in(alloc, Items::new(alloc), module.procs.as_slice())?;
    let free = free_of(alloc, module.params.as_slice(), named)?;
    let mut all = found;
    all.append(free)?;
    Ok(all)
}

/// Whether a name is one of several.
pub fn is_one(names: &[Name], name: &Name) -> bool
    ensures { result ≡ is_one names.now name.now }
{
    for other in names {
        if same_name(name, other) {
            return true;
        }
    }
    false
}

/// Names, and those that a thing names, where it is a module that has one of them.
fn with_named(alloc: Global, found: Names, entry: Option<&Entry>) -> Result<Names, AllocError>
    ensures { IfOk result (λ made. made ≡ with_named (option_copied entry.entry) found) }
{
    match entry {
        Some(Entry::Module(module)) => {
            if is_one(found.as_slice(), &module.name) {
                named_from(alloc, found, module)
            } else {
                Ok(found)
            }
        }
        _ => Ok(found),
    }
}

/// Names, and those of all modules that modules of these names name, through every module.
pub fn all_named(alloc: Global, scope: &Scope, first: Names) -> Result<Names, AllocError>
    ensures { IfOk result (λ made. made ≡ all_named scope.now first) }
{
    let mut all = first;
    for k in 0..scope.len() {
        let at = scope.len() - 1 - k;
        all = with_named(alloc, all, scope.entry_at(at))?;
    }
    Ok(all)
}
