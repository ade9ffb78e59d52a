// Modules.

ghost use Rattle.std.specs.Prelude.{◌≡◌, None, IfOk};
ghost use Rattle.std.specs.Option.{option_map};
ghost use Rattle.gb_goal.specs.Scope.{entry_of};
ghost use Rattle.gb_goal.specs.Answers.{Answers};
ghost use Rattle.gb_elab_prog.specs.Modules.{all_short, ascribed, module_by, module_given, plain, short, with_body};
ghost use Rattle.gb_elab_prog.specs.Stated.{seen};

use crate::fresh::refuse_declared;
use crate::members::members;
use crate::parameters::with_parameters;
use crate::stated::{Stated, Where, meets_stated, stated_at, stated_by};
use gb_core::place::Place;
use gb_core::refusal::{Refused, Why};
use gb_elab_stmt::places::places;
use gb_goal::scope::Scope;
use gb_names::refusals::not_built;
use gb_script::head::Head;
use gb_script::tree::Node;
use gb_terms::decl::Module;
use std::alloc::Global;

/// The most statements of a body.
pub const STATEMENTS: usize = 512;

/// The typed tree of a module.
///
/// # Errors
///
/// `DoubleName` at the module's name where it is taken. In the order of the text, those of its parameters, and `UnknownName` and `Argument`
/// at a stated type that is no module type. Then `DoubleName` at the second global or procedure of one name, those of types and of
/// `procedure`, in the order of the text; then `ModuleType` and `Oracle` at the stated type where the module doesn't meet it; and then
/// `TooMany` statements of a body. `Syntax` at the place of the tree where it declares no module of its own.
pub fn module(alloc: Global, scope: &Scope, tree: &Node) -> Result<Module, Refused>
    ensures answer { Answers (module_given scope.now tree.now) result }
    ensures free { IfOk result (λ m. entry_of scope.now m.name ≡ None) }
{
    module_by(alloc, scope, tree.head, tree.parts.as_slice(), tree.place)
}

/// The same, by the head and the parts of the tree.
fn module_by(
    alloc: Global,
    scope: &Scope,
    head: Head,
    parts: &[Node],
    place: Place,
) -> Result<Module, Refused>
    ensures answer { Answers (module_by scope.now head parts.now place) result }
    ensures free { IfOk result (λ m. entry_of scope.now m.name ≡ None) }
{
    match head {
        Head::Module => match parts {
            [name, parameters, ty, items] => {
                let (parameters, ty) = (parameters.parts.as_slice(), ty.parts.as_slice());
                plain(alloc, scope, name, parameters, ty, items.parts.as_slice())
            }
            _ => Err(not_built(place)),
        },
        Head::AscribedModule => match parts {
            [name, ty, parameters, items] => {
                let (parameters, items) = (parameters.parts.as_slice(), items.parts.as_slice());
                ascribed(alloc, scope, name, ty, parameters, items)
            }
            _ => Err(not_built(place)),
        },
        _ => Err(not_built(place)),
    }
}

/// A module with its members, which meets the module type that it states.
#[tactic(auto, unfolding(crate::specs::Modules::with_body))]
fn with_body(
    alloc: Global,
    scope: &Scope,
    empty: Module,
    place: Where,
    stated: Option<Stated<'_>>,
    items: &[Node],
) -> Result<Module, Refused>
    ensures answer { Answers (with_body scope.now empty place (option_map seen stated.entry) items.now) result }
    ensures name { IfOk result (λ m. m.name ≡ empty.name) }
{
    let module = members(alloc, scope, empty, items)?;
    meets_stated(alloc, scope, place, &module, stated)?;
    refuse_long_bodies(alloc, items)?;
    Ok(module)
}

/// A module of this name with its parameters, behind which its type may stand.
#[tactic(auto, unfolding(crate::specs::Modules::plain))]
fn plain(
    alloc: Global,
    scope: &Scope,
    name: &Node,
    parameters: &[Node],
    ty: &[Node],
    items: &[Node],
) -> Result<Module, Refused>
    ensures answer { Answers (plain scope.now name.now parameters.now ty.now items.now) result }
    ensures free { IfOk result (λ m. entry_of scope.now m.name ≡ None) }
{
    refuse_declared(alloc, scope, name)?;
    let empty = with_parameters(alloc, scope, &name.text, parameters)?;
    let stated = stated_by(alloc, scope, ty)?;
    with_body(alloc, scope, empty, Where::Behind, stated, items)
}

/// The same of a module whose type stands in front of its parameters.
#[tactic(auto, unfolding(crate::specs::Modules::ascribed))]
fn ascribed(
    alloc: Global,
    scope: &Scope,
    name: &Node,
    ty: &Node,
    parameters: &[Node],
    items: &[Node],
) -> Result<Module, Refused>
    ensures answer { Answers (ascribed scope.now name.now ty.now parameters.now items.now) result }
    ensures free { IfOk result (λ m. entry_of scope.now m.name ≡ None) }
{
    refuse_declared(alloc, scope, name)?;
    let stated = stated_at(alloc, scope, ty)?;
    let empty = with_parameters(alloc, scope, &name.text, parameters)?;
    with_body(alloc, scope, empty, Where::Front, Some(stated), items)
}

/// Refuses a body of too many statements, those in others counted, at the first one too many.
fn refuse_long_body(alloc: Global, head: Head, parts: &[Node]) -> Result<(), Refused>
    ensures { Answers (short head parts.now) result }
{
    match head {
        Head::Procedure => match parts {
            [_, _, _, _, body, _] => {
                let places = places(alloc, body)?;
                match places.get(STATEMENTS) {
                    None => Ok(()),
                    Some(place) => Err(Refused::Script {
                        why: Why::TooMany(STATEMENTS as u64),
                        place: *place,
                    }),
                }
            }
            _ => Ok(()),
        },
        _ => Ok(()),
    }
}

fn refuse_long_bodies(alloc: Global, items: &[Node]) -> Result<(), Refused>
    ensures { Answers (all_short items.now) result }
{
    for item in items {
        refuse_long_body(alloc, item.head, item.parts.as_slice())?;
    }
    Ok(())
}
