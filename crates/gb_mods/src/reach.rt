//! What procedures of module expressions call, inside of a module that is typed so far or outside.

ghost use Rattle.std.specs.Prelude.{◌≡◌, ◌++◌, IfOk};
ghost use Rattle.std.specs.Option.{option_copied};
ghost use Rattle.gb_mods.specs.Asked.{asked_by};
ghost use Rattle.gb_mods.specs.Reach.{all_from, called_at, called_declared, called_from, called_from_all, called_inside, calls_of, given_for};

use crate::asked::asked_by;
use crate::called::{Procedures, added, calls};
use gb_core::Shared;
use gb_core::name::Name;
use gb_core::same::same_name;
use gb_goal::instance::{arguments_of, name_of, put_in_reference};
use gb_goal::scope::{Entry, Scope, procedure_named};
use gb_terms::decl::{Module, Param};
use gb_terms::module::{Mexp, ProcRef};
use sqlite_items::Items;
use std::alloc::{AllocError, Global};

/// Procedures behind others, as a module with these parameters names them, where these modules are given for them.
fn given_for(
    alloc: Global,
    found: Procedures,
    params: &[Param],
    args: &[Mexp],
    list: &[Shared<ProcRef>],
) -> Result<Procedures, AllocError>
    ensures { IfOk result (λ made. made ≡ found ++ given_for params.now args.now list.now) }
{
    let mut all = found;
    for x in list {
        all.push(put_in_reference(alloc, params, args, x.get())?)?;
    }
    Ok(all)
}

/// Procedures behind others: what a procedure of a module calls itself, where these modules are given for the module's parameters.
fn calls_of(
    alloc: Global,
    found: Procedures,
    module: Option<&Module>,
    args: &[Mexp],
    name: &Name,
) -> Result<Procedures, AllocError>
    ensures { IfOk result (λ made. made ≡ found ++ calls_of (option_copied «module».entry) args.now name.now) }
{
    let Some(module) = module else {
        return Ok(found);
    };
    let Some(f) = procedure_named(module.procs.as_slice(), name) else {
        return Ok(found);
    };
    let own = calls(alloc, Items::new(alloc), f.get().body.list.as_slice())?;
    given_for(alloc, found, module.params.as_slice(), args, own.as_slice())
}

/// Procedures behind others: what a procedure of a declared module calls itself, with these arguments; one of an abstract module calls the
/// oracles that its signature names.
fn called_declared(
    alloc: Global,
    scope: &Scope,
    found: Procedures,
    entry: Option<&Entry>,
    args: &[Mexp],
    name: &Name,
) -> Result<Procedures, AllocError>
    ensures { IfOk result (λ made. made ≡ found ++ called_declared scope.now (option_copied entry.entry) args.now name.now) }
{
    match entry {
        Some(Entry::AbstractModule(bind)) => {
            asked_by(alloc, scope, found, scope.module_type(&bind.ty), args, name)
        }
        Some(Entry::Module(module)) => calls_of(alloc, found, Some(module), args, name),
        _ => Ok(found),
    }
}

/// The same inside of a module, of the module of a name with these arguments.
fn called_inside(
    alloc: Global,
    scope: &Scope,
    found: Procedures,
    around: &Module,
    module: &Name,
    args: &[Mexp],
    name: &Name,
) -> Result<Procedures, AllocError>
    ensures { IfOk result (λ made. made ≡ found ++ called_inside scope.now around.now around.now.params «module».now args.now name.now) }
{
    for q in around.params.as_slice() {
        if same_name(module, &q.name) {
            return asked_by(alloc, scope, found, scope.module_type(&q.ty), args, name);
        }
    }
    if same_name(module, &around.name) {
        calls_of(alloc, found, Some(around), args, name)
    } else {
        called_declared(alloc, scope, found, scope.entry(module), args, name)
    }
}

/// The same inside of a module or outside.
fn called_at(
    alloc: Global,
    scope: &Scope,
    found: Procedures,
    around: Option<&Module>,
    module: &Name,
    args: &[Mexp],
    name: &Name,
) -> Result<Procedures, AllocError>
    ensures { IfOk result (λ made. made ≡ found ++ called_at scope.now (option_copied around.entry) «module».now args.now name.now) }
{
    match around {
        None => called_declared(alloc, scope, found, scope.entry(module), args, name),
        Some(around) => called_inside(alloc, scope, found, around, module, args, name),
    }
}

/// The procedures that procedures call themselves.
fn called_from(
    alloc: Global,
    scope: &Scope,
    around: Option<&Module>,
    list: &[Shared<ProcRef>],
) -> Result<Procedures, AllocError>
    ensures { IfOk result (λ made. made ≡ called_from_all scope.now (option_copied around.entry) list.now) }
{
    let mut all = Items::new(alloc);
    for x in list {
        let (module, args) = (name_of(&x.get().module), arguments_of(&x.get().module));
        all = called_at(alloc, scope, all, around, module, args, &x.get().name)?;
    }
    Ok(all)
}

/// Procedures, and behind them all that they call, through every procedure. Procedures of parameters of the module around call the
/// oracles that their signatures name. None where these are too many to follow, which no script has.
#[tactic(auto, using(crate::proofs::CalledSteps::added_longer, crate::proofs::CalledSteps::reached_end, crate::proofs::CalledSteps::reached_next))]
pub fn all_from(
    alloc: Global,
    scope: &Scope,
    around: Option<&Module>,
    first: Procedures,
) -> Result<Option<Procedures>, AllocError>
    ensures { IfOk result (λ made. made ≡ all_from scope.now (option_copied around.entry) first) }
{
    let mut all = first;
    let mut followed = 0usize;
    for level in 0..0x1_0000_0000usize {
        let count = all.len();
        if followed == count {
            return Ok(Some(all));
        }
        let called = called_from(alloc, scope, around, &all.as_slice()[followed..])?;
        all = added(all, called.as_slice())?;
        followed = count;
    }
    Ok(None)
}
