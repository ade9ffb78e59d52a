//! Where procedures of a module may lose weight.

ghost use Rattle.std.specs.Prelude.{◌≡◌, map, None, IfOk};
ghost use Rattle.std.specs.Option.{option_copied};
ghost use Rattle.gb_full.specs.Loss.{loss_seen, reached_seen};
ghost use Rattle.gb_mods.specs.Meets.{known_seen};
ghost use Rattle.gb_mods.specs.Reach.{all_from as reached_from};
ghost use Rattle.gb_instances.specs.Footprint.{procedures_of};
ghost use Rattle.gb_instances.specs.Lossless.{any_of, declared_if, each_meant, first_loss, loss_of, meant_among, meant_of};

use crate::footprint::{opened, reached};
use gb_core::Shared;
use gb_core::name::Name;
use gb_full::loss::{Loss, Reached, first_of};
use gb_goal::instance::{arguments_of, instance, name_of};
use gb_goal::interface::signatures_of;
use gb_goal::module_type::ModuleType;
use gb_goal::scope::{Entry, Scope, procedure_named};
use gb_mods::asked::asked_by;
use gb_mods::footprint::signed;
use gb_mods::meant::Meant;
use gb_mods::meets::Known;
use gb_terms::decl::{Param, Proc};
use gb_terms::module::{Mexp, ProcRef};
use sqlite_items::Items;
use std::alloc::{AllocError, Global};

/// A procedure of a declared module with these arguments, if it is there.
fn declared_if(
    alloc: Global,
    params: &[Param],
    args: &[Mexp],
    procedure: Option<&Shared<Proc>>,
) -> Result<Meant, AllocError>
    ensures { IfOk result (λ made. made ≡ declared_if params.now args.now (option_copied procedure.entry)) }
{
    let Some(procedure) = procedure else {
        return Ok(Meant::Unknown);
    };
    let made = instance(alloc, params, args, procedure.get())?;
    Ok(Meant::Declared(Shared::new(alloc, made)?))
}

/// Any procedure, of the module of this name that is one of a module type, which calls the oracles that the type's signature names. Where there
/// is no type it calls none.
fn any_of(
    alloc: Global,
    scope: &Scope,
    reference: &ProcRef,
    ty: Option<&ModuleType>,
) -> Result<Meant, AllocError>
    ensures { IfOk result (λ made. made ≡ any_of scope.now reference.now (option_copied ty.entry)) }
{
    let args = arguments_of(&reference.module);
    let oracles = asked_by(alloc, scope, Items::new(alloc), ty, args, &reference.name)?;
    let module = name_of(&reference.module).copy(alloc)?;
    Ok(Meant::Any(module, oracles))
}

/// What a reference to a procedure stands for, by what is declared under the module's name. Nothing is under the name of a parameter that is
/// left open, and any procedure stands for one of it.
fn meant_of(
    alloc: Global,
    scope: &Scope,
    reference: &ProcRef,
    entry: Option<&Entry>,
) -> Result<Meant, AllocError>
    ensures { IfOk result (λ made. made ≡ meant_of scope.now reference.now (option_copied entry.entry)) }
{
    match entry {
        Some(Entry::Module(module)) => {
            let args = arguments_of(&reference.module);
            let procedure = procedure_named(module.procs.as_slice(), &reference.name);
            declared_if(alloc, module.params.as_slice(), args, procedure)
        }
        Some(Entry::AbstractModule(bind)) => {
            any_of(alloc, scope, reference, scope.module_type(&bind.ty))
        }
        _ => any_of(alloc, scope, reference, None),
    }
}

/// References to procedures, each with what it stands for.
fn each_meant(
    alloc: Global,
    scope: &Scope,
    list: &[Shared<ProcRef>],
) -> Result<Items<Reached>, AllocError>
    ensures { IfOk result (λ made. map reached_seen made ≡ each_meant scope.now list.now) }
{
    let mut all = Items::new(alloc);
    for x in list {
        let entry = scope.entry(name_of(&x.get().module));
        let meant = meant_of(alloc, scope, x.get(), entry)?;
        let procedure = x.share()?;
        all.push(Reached { procedure, meant })?;
    }
    Ok(all)
}

/// The procedures of a module and all that they call, with the parameters that it lacks left open.
fn meant_among(
    alloc: Global,
    scope: &Scope,
    known: &Known<'_>,
) -> Result<Items<Reached>, AllocError>
    ensures { IfOk result (λ made. map reached_seen made ≡ meant_among scope.now (reached_from scope.now None (procedures_of (known_seen known.now)))) }
{
    match reached(alloc, scope, known)? {
        Some(all) => each_meant(alloc, scope, all.as_slice()),
        None => Ok(Items::new(alloc)),
    }
}

/// Where the procedures of a module may lose weight first that the module type of this name asks for. What parameters lose that the module
/// lacks isn't counted.
#[tactic(auto, unfolding(crate::specs::Lossless::first_loss))]
pub fn first_loss(
    alloc: Global,
    scope: &Scope,
    known: &Known<'_>,
    ty: &Name,
) -> Result<Loss, AllocError>
    ensures { IfOk result (λ lost. loss_seen lost ≡ first_loss scope.now (known_seen known.now) ty.now) }
{
    let all = meant_among(alloc, scope, known)?;
    let open = opened(alloc, known)?;
    let signatures = signatures_of(scope.module_type(ty));
    let asked = signed(alloc, &open, signatures)?;
    first_of(alloc, scope, all.as_slice(), asked.as_slice())
}
