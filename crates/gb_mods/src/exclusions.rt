//! What restrictions of abstract modules exclude.

ghost use Rattle.std.specs.Prelude.{◌≡◌, ◌++◌, IfOk};
ghost use Rattle.std.specs.Option.{option_copied};
ghost use Rattle.gb_mods.specs.Exclusions.{excluded_by, exclusion, exclusion_of, exclusions, kept_out, own_globals};

use gb_core::name::Name;
use gb_core::var::{Var, Vars};
use gb_goal::scope::{Entry, Scope};
use gb_terms::decl::TypedName;
use gb_terms::module::Bind;
use gb_walk::clash::{Excluded, Exclusions};
use sqlite_items::Items;
use std::alloc::{AllocError, Global};

/// Variables behind others: the globals that a module of this name declares.
pub fn own_globals(
    alloc: Global,
    found: Vars,
    module: &Name,
    list: &[TypedName],
) -> Result<Vars, AllocError>
    ensures { IfOk result (λ made. made ≡ found ++ own_globals «module».now list.now) }
{
    let mut all = found;
    for x in list {
        let module = module.copy(alloc)?;
        let name = x.name.copy(alloc)?;
        all.push(Var::Global { module, name })?;
    }
    Ok(all)
}

/// Variables behind others: what a restriction excludes that names this module, the globals that it declares, and all of an abstract one.
fn excluded_by(
    alloc: Global,
    found: Vars,
    module: &Name,
    entry: Option<&Entry>,
) -> Result<Vars, AllocError>
    ensures { IfOk result (λ made. made ≡ found ++ excluded_by «module».now (option_copied entry.entry)) }
{
    match entry {
        Some(Entry::Module(declared)) => {
            own_globals(alloc, found, module, declared.globals.as_slice())
        }
        Some(Entry::AbstractModule(_)) => {
            let mut all = found;
            let module = module.copy(alloc)?;
            all.push(Var::Glob { module })?;
            Ok(all)
        }
        _ => Ok(found),
    }
}

/// What a restriction excludes that names these modules.
fn kept_out(alloc: Global, scope: &Scope, list: &[Name]) -> Result<Vars, AllocError>
    ensures { IfOk result (λ made. made ≡ kept_out scope.now list.now) }
{
    let mut all = Items::new(alloc);
    for module in list {
        all = excluded_by(alloc, all, module, scope.entry(module))?;
    }
    Ok(all)
}

/// What the restriction of an abstract module excludes.
fn exclusion(alloc: Global, scope: &Scope, bind: &Bind) -> Result<Excluded, AllocError>
    ensures { IfOk result (λ made. made ≡ exclusion scope.now bind.now) }
{
    let module = bind.name.copy(alloc)?;
    let variables = kept_out(alloc, scope, bind.minus.as_slice())?;
    Ok(Excluded { module, variables })
}

/// Exclusions behind others: what the restriction of this thing excludes, if it is an abstract module.
fn with_exclusion(
    alloc: Global,
    found: Exclusions,
    scope: &Scope,
    entry: Option<&Entry>,
) -> Result<Exclusions, AllocError>
    ensures { IfOk result (λ made. made ≡ found ++ exclusion_of scope.now (option_copied entry.entry)) }
{
    match entry {
        Some(Entry::AbstractModule(bind)) => {
            let mut all = found;
            all.push(exclusion(alloc, scope, bind)?)?;
            Ok(all)
        }
        _ => Ok(found),
    }
}

/// What the restriction of each declared abstract module excludes.
#[tactic(auto, unfolding(crate::specs::Exclusions::exclusions))]
pub fn exclusions(alloc: Global, scope: &Scope) -> Result<Exclusions, AllocError>
    ensures { IfOk result (λ made. made ≡ exclusions scope.now) }
{
    let mut all = Items::new(alloc);
    for i in 0..scope.len() {
        all = with_exclusion(alloc, all, scope, scope.entry_at(i))?;
    }
    Ok(all)
}
