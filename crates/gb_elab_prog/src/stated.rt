// Module types that modules state.

ghost use Rattle.std.specs.Prelude.{◌≡◌, ◌∷◌, [], Some, IfOk};
ghost use Rattle.std.specs.Option.{option_map};
ghost use Rattle.gb_goal.specs.Answers.{Answers, Gives};
ghost use Rattle.gb_mods.specs.Meets.{known_seen};
ghost use Rattle.gb_elab_prog.specs.Stated.{meets_stated, own_names, seen, stated, stating, whole};

use crate::module_types::module_type_at;
use gb_core::name::Name;
use gb_core::place::Place;
use gb_core::refusal::Refused;
use gb_goal::instance::given_more;
use gb_goal::interface::Interface;
use gb_goal::module_type::ModuleType;
use gb_goal::scope::Scope;
use gb_mods::meets::{Known, meets};
use gb_names::names::spelled;
use gb_script::tree::Node;
use gb_terms::decl::{Module, Param};
use gb_terms::module::{Mexp, Mexps};
use sqlite_items::Items;
use std::alloc::{AllocError, Global};

/// A module type that a module states, by its name, where it stands.
#[derive(Drop)]
pub struct Stated<'a> {
    pub name: Name,
    pub asked: &'a ModuleType,
    pub place: Place,
}

/// Where a module states its type: in front of its parameters, of the module that lacks them, or behind them, of the module with them as
/// arguments.
#[derive(Clone, Copy)]
pub enum Where {
    Front,
    Behind,
}

/// The module type that this path names, as a module states it.
///
/// # Errors
///
/// Those of `module_type_at`.
pub fn stated_at<'a>(alloc: Global, scope: &'a Scope, path: &Node) -> Result<Stated<'a>, Refused>
    ensures { Gives (λ s. Some (seen s)) (stated scope.now (path.now ∷ [])) result }
{
    let asked = module_type_at(alloc, scope, path)?;
    let name = spelled(alloc, path)?;
    let place = path.place;
    Ok(Stated { name, asked, place })
}

/// The module type that a module states, if it states one.
///
/// # Errors
///
/// Those of `module_type_at`.
pub fn stated_by<'a>(
    alloc: Global,
    scope: &'a Scope,
    paths: &[Node],
) -> Result<Option<Stated<'a>>, Refused>
    ensures { Gives (option_map seen) (stated scope.now paths.now) result }
{
    match paths {
        [] => Ok(None),
        [path, ..] => {
            let stated = stated_at(alloc, scope, path)?;
            Ok(Some(stated))
        }
    }
}

/// Parameters as modules.
fn own_names(alloc: Global, params: &[Param]) -> Result<Mexps, AllocError>
    ensures { IfOk result (λ made. made ≡ own_names params.now) }
{
    let mut all = Items::new(alloc);
    for q in params {
        all.push(Mexp::Name(q.name.copy(alloc)?))?;
    }
    Ok(all)
}

/// A module with its parameters as arguments.
fn whole<'a>(alloc: Global, module: &'a Module) -> Result<Known<'a>, AllocError>
    ensures { IfOk result (λ made. known_seen made ≡ whole «module».now) }
{
    let names = own_names(alloc, module.params.as_slice())?;
    let plain = Mexp::Name(module.name.copy(alloc)?);
    let procedures = Interface::of_module(module).procedures;
    let interface = Interface {
        lacks: &[],
        procedures,
    };
    let module = given_more(alloc, &plain, names)?;
    Ok(Known { module, interface })
}

/// What states a type there.
fn stating<'a>(alloc: Global, place: Where, module: &'a Module) -> Result<Known<'a>, AllocError>
    ensures { IfOk result (λ made. known_seen made ≡ stating place «module».now) }
{
    match place {
        Where::Front => {
            let interface = Interface::of_module(module);
            let module = Mexp::Name(module.name.copy(alloc)?);
            Ok(Known { module, interface })
        }
        Where::Behind => whole(alloc, module),
    }
}

/// Refuses a module that doesn't meet the module type that it states, where that stands: as `meets`.
pub fn meets_stated(
    alloc: Global,
    scope: &Scope,
    place: Where,
    module: &Module,
    stated: Option<Stated<'_>>,
) -> Result<(), Refused>
    ensures { Answers (meets_stated scope.now place «module».now (option_map seen stated.entry)) result }
{
    match stated {
        None => Ok(()),
        Some(
            Stated {
                name,
                asked,
                place: at,
            },
        ) => {
            let known = stating(alloc, place, module)?;
            meets(alloc, scope, Some(module), &known, &name, asked, at)
        }
    }
}
