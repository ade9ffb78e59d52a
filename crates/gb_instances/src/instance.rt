//! What a statement says of modules that are given for those that it binds.

ghost use Rattle.std.specs.Prelude.{◌≡◌, map, Some, IfOk};
ghost use Rattle.std.specs.List.{list_any};
ghost use Rattle.gb_terms.specs.declared.decl.TypedName.{TypedName};
ghost use Rattle.gb_goal.specs.Answers.{Answers};
ghost use Rattle.gb_mods.specs.Meant.{in_front};
ghost use Rattle.gb_instances.specs.Put.{type_speaks};
ghost use Rattle.gb_instances.specs.Instance.{each_fits, excluded_put, given_seen, instance_of, logical_put, modules_of, names_put, params_of, put_in_statement, readable, speaks_alone, touched_put};

use crate::fits::{excluded, fits};
use crate::footprint::footprint_at;
use crate::put::{part_put, put, stands_alone, type_speaks};
use gb_core::SharedItems;
use gb_core::name::{Name, Names};
use gb_core::place::Place;
use gb_core::refusal::Refused;
use gb_core::var::Vars;
use gb_elab::globs::is_abstract;
use gb_ended::named::names_in;
use gb_goal::instance::stands_for;
use gb_goal::scope::Scope;
use gb_goal::sequent::Sequent;
use gb_mods::meets::Known;
use gb_mods::order::with_variables;
use gb_names::refusals::{argument, not_built};
use gb_terms::decl::{Param, Params, TypedName};
use gb_terms::module::{Bind, Mexp, Mexps};
use sqlite_items::Items;
use std::alloc::{AllocError, Global};

/// A module that is given for a binder, and the place of a refusal.
#[derive(Drop)]
pub struct Given<'a> {
    pub known: Known<'a>,
    pub place: Place,
}

/// Binders, as parameters for which modules are given.
fn params_of(alloc: Global, binds: &[Bind]) -> Result<Params, AllocError>
    ensures { IfOk result (λ made. made ≡ params_of binds.now) }
{
    let mut all = Items::new(alloc);
    for bind in binds {
        let name = bind.name.copy(alloc)?;
        let ty = bind.ty.copy(alloc)?;
        all.push(Param { name, ty })?;
    }
    Ok(all)
}

fn modules_of(alloc: Global, list: &[Given<'_>]) -> Result<Mexps, AllocError>
    ensures { IfOk result (λ made. made ≡ modules_of (map given_seen list.now)) }
{
    let mut all = Items::new(alloc);
    for given in list {
        all.push(given.known.module.share(alloc)?)?;
    }
    Ok(all)
}

/// The names of a restriction, where modules are put in: all that an expression names stand for the name of a binder.
fn names_put(
    alloc: Global,
    params: &[Param],
    modules: &[Mexp],
    list: &[Name],
) -> Result<Names, AllocError>
    ensures { IfOk result (λ made. made ≡ names_put params.now modules.now list.now) }
{
    let mut all = Items::new(alloc);
    for name in list {
        let module = stands_for(alloc, params, modules, name)?;
        all = names_in(alloc, all, &module)?;
    }
    Ok(all)
}

/// Variables behind others: what the modules touch that stand for these names, with what they are given. None where one of these footprints
/// isn't known.
fn touched_put(
    alloc: Global,
    scope: &Scope,
    params: &[Param],
    modules: &[Mexp],
    found: Vars,
    list: &[Name],
) -> Result<Option<Vars>, AllocError>
    ensures { IfOk result (λ made. made ≡ in_front (Some found) (touched_put scope.now params.now modules.now list.now)) }
{
    let mut all = found;
    for name in list {
        let module = stands_for(alloc, params, modules, name)?;
        let Some(touched) = footprint_at(alloc, scope, &module)? else {
            return Ok(None);
        };
        all = with_variables(alloc, all, touched.as_slice())?;
    }
    Ok(Some(all))
}

/// What a restriction of these names excludes, where modules are put in: what each module in the expressions declares, and touches by itself;
/// and what the expressions touch. None where one of these footprints isn't known.
fn excluded_put(
    alloc: Global,
    scope: &Scope,
    params: &[Param],
    modules: &[Mexp],
    list: &[Name],
) -> Result<Option<Vars>, AllocError>
    ensures { IfOk result (λ made. made ≡ excluded_put scope.now params.now modules.now list.now) }
{
    let names = names_put(alloc, params, modules, list)?;
    match excluded(alloc, scope, names.as_slice())? {
        Some(found) => touched_put(alloc, scope, params, modules, found, list),
        None => Ok(None),
    }
}

fn logical_speaks(list: &[TypedName], name: &Name) -> bool
    ensures { result ≡ list_any (λ (x : TypedName). type_speaks name.now x.ty) list.now }
{
    for x in list {
        if type_speaks(x.ty.get(), name) {
            return true;
        }
    }
    false
}

/// Whether a statement speaks of the globals of the module of this name elsewhere than in equations.
fn speaks_alone(statement: &Sequent, name: &Name) -> bool
    ensures { result ≡ speaks_alone name.now statement.now }
{
    logical_speaks(statement.logical.as_slice(), name) || stands_alone(name, &statement.conclusion)
}

/// Refuses a module for a binder of whose globals a statement speaks elsewhere than in equations, but for an abstract module by itself.
fn readable(
    scope: &Scope,
    module: &Mexp,
    name: &Name,
    statement: &Sequent,
    place: Place,
) -> Result<(), Refused>
    ensures { Answers (readable scope.now «module».now name.now statement.now place) result }
{
    if is_abstract(scope, module) {
        return Ok(());
    }
    if speaks_alone(statement, name) {
        Err(argument(place))
    } else {
        Ok(())
    }
}

/// Refuses the first module that doesn't fit its binder, or of whose globals can't be said what the statement says of the binder's.
fn each_fits(
    alloc: Global,
    scope: &Scope,
    params: &[Param],
    modules: &[Mexp],
    statement: &Sequent,
    place: Place,
    binds: &[Bind],
    list: &[Given<'_>],
) -> Result<(), Refused>
    ensures { Answers (each_fits scope.now params.now modules.now statement.now place binds.now (map given_seen list.now)) result }
{
    let mut left = list;
    for bind in binds {
        let [given, rest @ ..] = left else {
            return Err(not_built(place));
        };
        let known = &given.known;
        let excluded = excluded_put(alloc, scope, params, modules, bind.minus.as_slice())?;
        fits(alloc, scope, known, bind, excluded, given.place)?;
        readable(scope, &known.module, &bind.name, statement, given.place)?;
        left = rest;
    }
    if left.is_empty() {
        Ok(())
    } else {
        Err(not_built(place))
    }
}

/// Logical variables, where modules are put in.
fn logical_put(
    alloc: Global,
    params: &[Param],
    modules: &[Mexp],
    list: &[TypedName],
) -> Result<SharedItems<TypedName>, AllocError>
    ensures { IfOk result (λ made. made ≡ map (logical_put params.now modules.now) list.now) }
{
    let mut all = Items::new(alloc);
    for x in list {
        let name = x.name.copy(alloc)?;
        let ty = part_put(alloc, &x.ty, params, modules)?;
        all.push(TypedName { name, ty })?;
    }
    SharedItems::new(alloc, all)
}

/// A statement without binders of modules, with these modules put in.
fn put_in_statement(
    alloc: Global,
    scope: &Scope,
    params: &[Param],
    modules: &[Mexp],
    statement: &Sequent,
) -> Result<Sequent, AllocError>
    ensures { IfOk result (λ made. made ≡ put_in_statement scope.now params.now modules.now statement.now) }
{
    let conclusion = put(alloc, &statement.conclusion, scope, params, modules)?;
    let mut made = statement.with_conclusion(conclusion)?;
    made.logical = logical_put(alloc, params, modules, statement.logical.as_slice())?;
    made.modules = SharedItems::empty(alloc)?;
    Ok(made)
}

/// What a statement says of modules, one for each that it binds, in order: a statement without modules.
///
/// # Errors
///
/// For each module in order those of `fits`, where a restriction that names a binder stands for all that the module for it names; and
/// `Argument` where the statement speaks of the globals of the binder's module elsewhere than in an equation of them in two memories, unless
/// the module is an abstract one by itself.
#[tactic(auto, unfolding(crate::specs::Instance::instance_of))]
pub fn instance_of(
    alloc: Global,
    scope: &Scope,
    statement: &Sequent,
    list: &[Given<'_>],
    place: Place,
) -> Result<Sequent, Refused>
    ensures { Answers (instance_of scope.now statement.now (map given_seen list.now) place) result }
{
    let binds = statement.modules.as_slice();
    let params = params_of(alloc, binds)?;
    let modules = modules_of(alloc, list)?;
    let (from, to) = (params.as_slice(), modules.as_slice());
    each_fits(alloc, scope, from, to, statement, place, binds, list)?;
    put_in_statement(alloc, scope, from, to, statement).map_err(Refused::from)
}
