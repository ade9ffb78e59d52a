//! Footprints of modules that may lack parameters.

ghost use Rattle.std.specs.Prelude.{◌≡◌, ◌++◌, None, IfOk};
ghost use Rattle.std.specs.Option.{option_copied};
ghost use Rattle.gb_goal.specs.Seen.{types_in};
ghost use Rattle.gb_mods.specs.Meets.{known_seen};
ghost use Rattle.gb_mods.specs.Reach.{all_from as reached_from};
ghost use Rattle.gb_instances.specs.Footprint.{all_touched, footprint, footprint_at, opened, own, procedures_of, references_to, touched_by, touched_if, with_reached};

use gb_core::Shared;
use gb_core::name::Name;
use gb_core::var::Vars;
use gb_goal::instance::{given_more, name_of};
use gb_goal::interface::{Procedures, interface_at};
use gb_goal::scope::{Entry, Scope, procedure_named};
use gb_mods::called::Procedures as References;
use gb_mods::footprint::{references, signed};
use gb_mods::meets::{Known, left_open};
use gb_mods::order::{all_of, joined, with_variables};
use gb_mods::reach::all_from;
use gb_mods::touched::touched_in;
use gb_terms::decl::Proc;
use gb_terms::module::{Mexp, ProcRef};
use sqlite_items::Items;
use std::alloc::{AllocError, Global};

/// Procedures of a module expression, which has them under these names.
#[tactic(auto, using(crate::proofs::Referring::references_are, crate::proofs::Referring::signed_are))]
fn references_to(
    alloc: Global,
    module: &Mexp,
    procedures: Procedures<'_>,
) -> Result<References, AllocError>
    ensures { IfOk result (λ made. made ≡ references_to «module».now (types_in procedures.entry)) }
{
    match procedures {
        Procedures::Of(procs) => references(alloc, module, procs),
        Procedures::Asked(signatures) => signed(alloc, module, signatures),
    }
}

/// A module, with the parameters that it lacks left open.
pub fn opened(alloc: Global, known: &Known<'_>) -> Result<Mexp, AllocError>
    ensures { IfOk result (λ made. made ≡ opened (known_seen known.now)) }
{
    let open = left_open(alloc, known.interface.lacks)?;
    given_more(alloc, &known.module, open)
}

/// The procedures of a module and all that they call, with the parameters that it lacks left open. None where these are too many to follow,
/// which no script has.
pub fn reached(
    alloc: Global,
    scope: &Scope,
    known: &Known<'_>,
) -> Result<Option<References>, AllocError>
    ensures { IfOk result (λ made. made ≡ reached_from scope.now None (procedures_of (known_seen known.now))) }
{
    let open = opened(alloc, known)?;
    let first = references_to(alloc, &open, known.interface.procedures)?;
    all_from(alloc, scope, None, first)
}

/// The globals that a procedure reads or writes itself, if it is there.
fn touched_if(alloc: Global, procedure: Option<&Shared<Proc>>) -> Result<Vars, AllocError>
    ensures { IfOk result (λ made. made ≡ touched_if (option_copied procedure.entry)) }
{
    match procedure {
        Some(procedure) => touched_in(alloc, procedure.get()),
        None => Ok(Items::new(alloc)),
    }
}

/// The globals that the procedure of a name reads or writes itself, of what is declared under a module's name; one of an abstract module all
/// that is the module's own.
fn touched_by(
    alloc: Global,
    module: &Name,
    entry: Option<&Entry>,
    name: &Name,
) -> Result<Vars, AllocError>
    ensures { IfOk result (λ made. made ≡ touched_by «module».now (option_copied entry.entry) name.now) }
{
    match entry {
        Some(Entry::Module(declared)) => {
            touched_if(alloc, procedure_named(declared.procs.as_slice(), name))
        }
        Some(Entry::AbstractModule(_)) => all_of(alloc, module),
        _ => Ok(Items::new(alloc)),
    }
}

/// Variables behind others: the globals that procedures read or write themselves.
fn all_touched(
    alloc: Global,
    scope: &Scope,
    found: Vars,
    list: &[Shared<ProcRef>],
) -> Result<Vars, AllocError>
    ensures { IfOk result (λ made. made ≡ found ++ all_touched scope.now list.now) }
{
    let mut all = found;
    for x in list {
        let module = name_of(&x.get().module);
        let touched = touched_by(alloc, module, scope.entry(module), &x.get().name)?;
        all = with_variables(alloc, all, touched.as_slice())?;
    }
    Ok(all)
}

/// All that is a module's own, if it is an abstract one.
fn own(alloc: Global, scope: &Scope, module: &Mexp) -> Result<Vars, AllocError>
    ensures { IfOk result (λ made. made ≡ own scope.now «module».now) }
{
    let name = name_of(module);
    match scope.entry(name) {
        Some(Entry::AbstractModule(_)) => all_of(alloc, name),
        _ => Ok(Items::new(alloc)),
    }
}

/// The footprint of a module, in order: the globals that its procedures read or write, through every procedure that they call, but for
/// those of parameters that it lacks; and all that is its own, if it is an abstract one. None where these procedures are too many to follow,
/// which no script has.
#[tactic(auto, unfolding(crate::specs::Footprint::footprint))]
pub fn footprint(
    alloc: Global,
    scope: &Scope,
    known: &Known<'_>,
) -> Result<Option<Vars>, AllocError>
    ensures { IfOk result (λ made. made ≡ footprint scope.now (known_seen known.now)) }
{
    let Some(all) = reached(alloc, scope, known)? else {
        return Ok(None);
    };
    let own = own(alloc, scope, &known.module)?;
    let touched = all_touched(alloc, scope, own, all.as_slice())?;
    let ordered = joined(alloc, touched.as_slice(), Items::new(alloc))?;
    Ok(Some(ordered))
}

/// The same of a module expression; none where it is no module.
pub fn footprint_at(alloc: Global, scope: &Scope, module: &Mexp) -> Result<Option<Vars>, AllocError>
    ensures { IfOk result (λ made. made ≡ footprint_at scope.now «module».now) }
{
    match interface_at(scope, None, module) {
        Some(interface) => {
            let module = module.share(alloc)?;
            footprint(alloc, scope, &Known { module, interface })
        }
        None => Ok(None),
    }
}
