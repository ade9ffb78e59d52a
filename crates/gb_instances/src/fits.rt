//! When a module may stand for one that a statement binds.

ghost use Rattle.std.specs.Prelude.{◌≡◌, ◌++◌, Some, IfOk};
ghost use Rattle.std.specs.Option.{option_copied, option_map};
ghost use Rattle.gb_full.specs.Loss.{loss_seen};
ghost use Rattle.gb_goal.specs.Answers.{Answers};
ghost use Rattle.gb_goal.specs.Interfaces.{of_module};
ghost use Rattle.gb_goal.specs.Seen.{typed, types_in};
ghost use Rattle.gb_mods.specs.Meets.{known_seen};
ghost use Rattle.gb_instances.specs.Fits.{clashes_with, excluded, excluded_by, first_touched, fits, has_names, kept_off, named_as, restriction, restriction_of, restrictions, same_names, unbounded, unless_lost, unless_touched};
ghost use Rattle.gb_instances.specs.Footprint.{footprint as footprint_of};

use crate::footprint::footprint;
use crate::lossless::first_loss;
use gb_core::copy::copy_var;
use gb_core::name::Name;
use gb_core::place::Place;
use gb_core::refusal::{Refused, Why};
use gb_core::same::same_name;
use gb_core::var::{Var, Vars};
use gb_full::loss::Loss;
use gb_goal::interface::{Interface, ProcedureType, Procedures, signatures_of};
use gb_goal::module_type::Signature;
use gb_goal::scope::{Entry, Scope};
use gb_mods::exclusions::own_globals;
use gb_mods::meets::{Known, meets_named};
use gb_mods::order::{all_of, joined, with_variables};
use gb_names::refusals::not_built;
use gb_terms::decl::{Module, TypedName};
use gb_terms::module::{Bind, Bound, Mexp};
use gb_walk::clash::{Excluded, Exclusions, clashes};
use sqlite_items::Items;
use std::alloc::{AllocError, Global};

/// A declared module, of this name, without arguments.
fn known<'a>(alloc: Global, name: &Name, declared: &'a Module) -> Result<Known<'a>, AllocError>
    ensures { IfOk result (λ made. known_seen made ≡ (Mexp.Name name.now, of_module declared.now)) }
{
    let name = name.copy(alloc)?;
    Ok(Known {
        module: Mexp::Name(name),
        interface: Interface::of_module(declared),
    })
}

/// What a restriction excludes that names this declared module: the globals that it declares, and its footprint, without its parameters.
/// None where the footprint isn't known.
fn declared_and_touched(
    alloc: Global,
    scope: &Scope,
    name: &Name,
    declared: &Module,
) -> Result<Option<Vars>, AllocError>
    ensures { IfOk result (λ made. made ≡ excluded_by scope.now name.now (Some (Entry.Module declared.now))) }
{
    let module = known(alloc, name, declared)?;
    let Some(touched) = footprint(alloc, scope, &module)? else {
        return Ok(None);
    };
    let own = own_globals(alloc, Items::new(alloc), name, declared.globals.as_slice())?;
    Ok(Some(with_variables(alloc, own, touched.as_slice())?))
}

/// The same of a module that is declared so; of an abstract one all that is its own.
fn excluded_by(
    alloc: Global,
    scope: &Scope,
    name: &Name,
    entry: Option<&Entry>,
) -> Result<Option<Vars>, AllocError>
    ensures { IfOk result (λ made. made ≡ excluded_by scope.now name.now (option_copied entry.entry)) }
{
    match entry {
        Some(Entry::Module(declared)) => declared_and_touched(alloc, scope, name, declared),
        Some(Entry::AbstractModule(_)) => Ok(Some(all_of(alloc, name)?)),
        _ => Ok(Some(Items::new(alloc))),
    }
}

/// What a restriction excludes that names these modules. None where a footprint isn't known.
pub fn excluded(alloc: Global, scope: &Scope, list: &[Name]) -> Result<Option<Vars>, AllocError>
    ensures { IfOk result (λ made. made ≡ excluded scope.now list.now) }
{
    let mut all = Items::new(alloc);
    for name in list {
        let Some(next) = excluded_by(alloc, scope, name, scope.entry(name))? else {
            return Ok(None);
        };
        all = with_variables(alloc, all, next.as_slice())?;
    }
    Ok(Some(all))
}

/// What the restriction of an abstract module excludes, with what the procedures of its modules read or write of others.
fn restriction(alloc: Global, scope: &Scope, bind: &Bind) -> Result<Excluded, AllocError>
    ensures { IfOk result (λ made. made ≡ restriction scope.now bind.now) }
{
    let module = bind.name.copy(alloc)?;
    let variables = match excluded(alloc, scope, bind.minus.as_slice())? {
        Some(found) => found,
        None => Items::new(alloc),
    };
    Ok(Excluded { module, variables })
}

/// Restrictions behind others: that of this thing, if it is an abstract module.
fn with_restriction(
    alloc: Global,
    found: Exclusions,
    scope: &Scope,
    entry: Option<&Entry>,
) -> Result<Exclusions, AllocError>
    ensures { IfOk result (λ made. made ≡ found ++ restriction_of scope.now (option_copied entry.entry)) }
{
    match entry {
        Some(Entry::AbstractModule(bind)) => {
            let mut all = found;
            all.push(restriction(alloc, scope, bind)?)?;
            Ok(all)
        }
        _ => Ok(found),
    }
}

/// What the restrictions of the declared abstract modules exclude.
#[tactic(auto, unfolding(crate::specs::Fits::restrictions))]
fn restrictions(alloc: Global, scope: &Scope) -> Result<Exclusions, AllocError>
    ensures { IfOk result (λ made. made ≡ restrictions scope.now) }
{
    let mut all = Items::new(alloc);
    for i in 0..scope.len() {
        all = with_restriction(alloc, all, scope, scope.entry_at(i))?;
    }
    Ok(all)
}

/// Whether a variable clashes with one of others.
#[tactic(auto, unfolding(crate::specs::Fits::clashes_with))]
fn clashes_with(exclusions: &[Excluded], var: &Var, others: &[Var]) -> bool
    ensures { result ≡ clashes_with exclusions.now var.now others.now }
{
    for other in others {
        if clashes(exclusions, var, other) {
            return true;
        }
    }
    false
}

/// The first of these variables that clashes with one of others.
fn first_touched<'a>(exclusions: &[Excluded], list: &'a [Var], others: &[Var]) -> Option<&'a Var>
    ensures { option_copied result ≡ first_touched exclusions.now list.now others.now }
{
    for var in list {
        if clashes_with(exclusions, var, others) {
            return Some(var);
        }
    }
    None
}

/// Refuses a module that touches this excluded variable, if there is one.
fn refuse_touched(alloc: Global, found: Option<&Var>, place: Place) -> Result<(), Refused>
    ensures { Answers (unless_touched (option_copied found.entry) place) result }
{
    let Some(var) = found else {
        return Ok(());
    };
    let why = Why::Restriction(copy_var(alloc, var)?);
    Err(Refused::Script { why, place })
}

/// Refuses the first of the excluded variables, in order, that clashes with one of a footprint.
fn refuse_clashing(
    alloc: Global,
    scope: &Scope,
    excluded: &[Var],
    touched: &[Var],
    place: Place,
) -> Result<(), Refused>
    ensures { Answers (kept_off scope.now (Some excluded.now) (Some touched.now) place) result }
{
    let ordered = joined(alloc, excluded, Items::new(alloc))?;
    let restrictions = restrictions(alloc, scope)?;
    let found = first_touched(restrictions.as_slice(), ordered.as_slice(), touched);
    refuse_touched(alloc, found, place)
}

/// The same of the footprint of a module. Where it isn't known what is excluded, or what is touched, this isn't built.
fn keep_off(
    alloc: Global,
    scope: &Scope,
    known: &Known<'_>,
    excluded: Option<Vars>,
    place: Place,
) -> Result<(), Refused>
    ensures { Answers (kept_off scope.now excluded (footprint_of scope.now (known_seen known.now)) place) result }
{
    let touched = footprint(alloc, scope, known)?;
    match (excluded, touched) {
        (Some(excluded), Some(touched)) => {
            refuse_clashing(alloc, scope, excluded.as_slice(), touched.as_slice(), place)
        }
        _ => Err(not_built(place)),
    }
}

/// Refuses bounds on calls, which aren't built yet.
fn refuse_bounds(bounds: &[Bound], place: Place) -> Result<(), Refused>
    ensures { Answers (unbounded bounds.now place) result }
{
    if bounds.is_empty() {
        Ok(())
    } else {
        Err(not_built(place))
    }
}

/// Refuses a module that may lose weight here, if anywhere.
fn refuse_lost(alloc: Global, lost: &Loss, place: Place) -> Result<(), Refused>
    ensures { Answers (unless_lost (loss_seen lost.now) place) result }
{
    match lost {
        Loss::Nowhere => Ok(()),
        Loss::Sampled(var) => {
            let why = Why::NotLossless(copy_var(alloc, var)?);
            Err(Refused::Script { why, place })
        }
        Loss::Called => Err(not_built(place)),
    }
}

/// Whether variables have the same names, in order.
fn same_names(left: &[TypedName], right: &[TypedName]) -> bool
    ensures { result ≡ same_names left.now right.now }
{
    let mut others = right;
    for x in left {
        match others {
            [y, rest @ ..] if same_name(&x.name, &y.name) => others = rest,
            _ => return false,
        }
    }
    others.is_empty()
}

/// Whether the parameters of a procedure have the names that a signature gives them.
fn has_names(found: Option<ProcedureType<'_>>, signature: &Signature) -> bool
    ensures { result ≡ has_names (option_map typed found.entry) signature.now }
{
    match found {
        Some(ty) => same_names(ty.params, signature.params.as_slice()),
        None => false,
    }
}

/// Refuses procedures whose parameters have other names than those that signatures give them: preconditions would have to be led to these,
/// which isn't built yet.
fn named_as(
    procedures: Procedures<'_>,
    signatures: &[Signature],
    place: Place,
) -> Result<(), Refused>
    ensures { Answers (named_as (types_in procedures.entry) signatures.now place) result }
{
    for s in signatures {
        if !has_names(procedures.type_of(&s.name), s) {
            return Err(not_built(place));
        }
    }
    Ok(())
}

/// Refuses a module that may not stand for a binder, whose restriction excludes these variables.
///
/// # Errors
///
/// Those of `meets_named`; `Restriction` of the first variable, in order, that the restriction excludes and that clashes with one of the
/// module's footprint; `NotLossless` of the first variable, in the procedures that the module type asks for in its order, that is sampled
/// from what may lose weight. A module whose parameters of procedures have other names than those of the module type isn't built yet.
#[tactic(auto, unfolding(crate::specs::Fits::fits))]
pub fn fits(
    alloc: Global,
    scope: &Scope,
    known: &Known<'_>,
    bind: &Bind,
    excluded: Option<Vars>,
    place: Place,
) -> Result<(), Refused>
    ensures { Answers (fits scope.now (known_seen known.now) bind.now excluded place) result }
{
    meets_named(alloc, scope, None, known, &bind.ty, place)?;
    keep_off(alloc, scope, known, excluded, place)?;
    refuse_bounds(bind.bounds.as_slice(), place)?;
    let lost = first_loss(alloc, scope, known, &bind.ty)?;
    refuse_lost(alloc, &lost, place)?;
    let signatures = signatures_of(scope.module_type(&bind.ty));
    named_as(known.interface.procedures, signatures, place)
}
