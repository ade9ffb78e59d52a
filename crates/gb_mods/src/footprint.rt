//! Which globals the procedures of a module read or write.

ghost use Rattle.std.specs.Prelude.{◌≡◌, ◌++◌, IfOk};
ghost use Rattle.gb_mods.specs.Called.{all_reached};
ghost use Rattle.gb_mods.specs.Footprint.{are_known, footprint, of_abstract, reference, references, signed, touched, touched_if};

use crate::called::{Procedures, all_reached};
use crate::meant::{Meant, meant_by};
use crate::order::{all_of, joined, with_variables};
use crate::touched::touched_itself;
use gb_core::Shared;
use gb_core::name::Name;
use gb_core::var::Vars;
use gb_goal::instance::name_of;
use gb_goal::interface::signatures_of;
use gb_goal::module_type::Signature;
use gb_goal::scope::{Entry, Scope};
use gb_terms::decl::Proc;
use gb_terms::module::{Mexp, ProcRef};
use sqlite_items::Items;
use std::alloc::{AllocError, Global};

/// Variables behind others: the globals that procedures read or write themselves.
pub fn touched(
    alloc: Global,
    scope: &Scope,
    found: Vars,
    list: &[Shared<ProcRef>],
) -> Result<Vars, AllocError>
    ensures { IfOk result (λ made. made ≡ found ++ touched scope.now list.now) }
{
    let mut all = found;
    for x in list {
        let meant = meant_by(alloc, scope, x.get())?;
        let own = touched_itself(alloc, &meant)?;
        all = with_variables(alloc, all, own.as_slice())?;
    }
    Ok(all)
}

/// A procedure of a module.
fn reference(alloc: Global, module: &Mexp, name: &Name) -> Result<Shared<ProcRef>, AllocError>
    ensures { IfOk result (λ made. made ≡ reference «module».now name.now) }
{
    let module = module.share(alloc)?;
    let name = name.copy(alloc)?;
    Shared::new(alloc, ProcRef { module, name })
}

/// Procedures of a declared module.
pub fn references(
    alloc: Global,
    module: &Mexp,
    list: &[Shared<Proc>],
) -> Result<Procedures, AllocError>
    ensures { IfOk result (λ made. made ≡ references «module».now list.now) }
{
    let mut all = Items::new(alloc);
    for procedure in list {
        all.push(reference(alloc, module, &procedure.get().name)?)?;
    }
    Ok(all)
}

/// Procedures of an abstract module.
pub fn signed(alloc: Global, module: &Mexp, list: &[Signature]) -> Result<Procedures, AllocError>
    ensures { IfOk result (λ made. made ≡ signed «module».now list.now) }
{
    let mut all = Items::new(alloc);
    for signature in list {
        all.push(reference(alloc, module, &signature.name)?)?;
    }
    Ok(all)
}

/// Whether it is known what each of these stands for.
fn are_known(alloc: Global, scope: &Scope, list: &[Shared<ProcRef>]) -> Result<bool, AllocError>
    ensures { IfOk result (λ b. b ≡ are_known scope.now list.now) }
{
    for x in list {
        let meant = meant_by(alloc, scope, x.get())?;
        if matches!(&meant, Meant::Unknown) {
            return Ok(false);
        }
    }
    Ok(true)
}

/// What procedures touch, beside other globals, and through every procedure that they call, in order. None where it isn't known what one of
/// these stands for, or where they are too many to follow.
fn touched_if(
    alloc: Global,
    scope: &Scope,
    found: Vars,
    first: Procedures,
) -> Result<Option<Vars>, AllocError>
    ensures { IfOk result (λ made. made ≡ touched_if scope.now found (all_reached scope.now first)) }
{
    let Some(all) = all_reached(alloc, scope, first)? else {
        return Ok(None);
    };
    if !are_known(alloc, scope, all.as_slice())? {
        return Ok(None);
    }
    let found = touched(alloc, scope, found, all.as_slice())?;
    let ordered = joined(alloc, found.as_slice(), Items::new(alloc))?;
    Ok(Some(ordered))
}

/// The same of an abstract module, by itself or with modules for its parameters.
fn of_abstract(
    alloc: Global,
    scope: &Scope,
    module: &Mexp,
    signatures: &[Signature],
) -> Result<Option<Vars>, AllocError>
    ensures { IfOk result (λ made. made ≡ of_abstract scope.now «module».now signatures.now) }
{
    match module {
        Mexp::Name(name) => Ok(Some(all_of(alloc, name)?)),
        Mexp::Apply(name, _) => {
            let own = all_of(alloc, name)?;
            let first = signed(alloc, module, signatures)?;
            touched_if(alloc, scope, own, first)
        }
    }
}

/// The footprint of a module expression that lacks nothing: the globals that its procedures read or write, through every procedure that
/// they call, in order; all that is an abstract module's own is one of them. None where it isn't known what one of these procedures stands
/// for, or where they are too many to follow.
#[tactic(auto, unfolding(crate::specs::Footprint::footprint))]
pub fn footprint(alloc: Global, scope: &Scope, module: &Mexp) -> Result<Option<Vars>, AllocError>
    ensures { IfOk result (λ made. made ≡ footprint scope.now «module».now) }
{
    match scope.entry(name_of(module)) {
        Some(Entry::Module(found)) => {
            let first = references(alloc, module, found.procs.as_slice())?;
            touched_if(alloc, scope, Items::new(alloc), first)
        }
        Some(Entry::AbstractModule(bind)) => {
            let signatures = signatures_of(scope.module_type(&bind.ty));
            of_abstract(alloc, scope, module, signatures)
        }
        _ => Ok(None),
    }
}
