// Parameters of modules.

ghost use Rattle.std.specs.Prelude.{◌≡◌, IfOk, MatchResult, OnOk};
ghost use Rattle.gb_goal.specs.Answers.{Answers, Fails};
ghost use Rattle.gb_goal.specs.Answers.Answer.{given};
ghost use Rattle.gb_elab_prog.specs.Modules.{empty_module, typed_parameter, with_parameter, with_parameters};

use crate::bound::refuse_parameter;
use crate::members::empty_module;
use crate::module_types::{module_type_at, param};
use gb_core::name::Name;
use gb_core::place::Place;
use gb_core::refusal::Refused;
use gb_goal::scope::Scope;
use gb_names::refusals::not_built;
use gb_script::head::Head;
use gb_script::tree::Node;
use gb_terms::decl::Module;
use std::alloc::Global;

/// Adds a parameter of this name and of the module type that this path names.
fn add_typed(
    alloc: Global,
    scope: &Scope,
    module: &mut Module,
    name: &Node,
    ty: &Node,
) -> Result<(), Refused>
    ensures answer { MatchResult result
        (λ _. typed_parameter scope.now «module».old name.now ty.now ≡ given «module».new)
        (λ e. Fails (typed_parameter scope.now «module».old name.now ty.now) e) }
    ensures name { OnOk result («module».new.name ≡ «module».old.name) }
{
    let params = module.params.as_slice();
    refuse_parameter(alloc, scope, Some(&module.name), params, name)?;
    module_type_at(alloc, scope, ty)?;
    let param = param(alloc, name, ty)?;
    module.params.push(param)?;
    Ok(())
}

/// Adds a parameter to a module.
fn add_parameter(
    alloc: Global,
    scope: &Scope,
    module: &mut Module,
    head: Head,
    parts: &[Node],
    place: Place,
) -> Result<(), Refused>
    ensures answer { MatchResult result
        (λ _. with_parameter scope.now «module».old head parts.now place ≡ given «module».new)
        (λ e. Fails (with_parameter scope.now «module».old head parts.now place) e) }
    ensures name { OnOk result («module».new.name ≡ «module».old.name) }
{
    match head {
        Head::ModuleParameter => match parts {
            [name, ty] => add_typed(alloc, scope, module, name, ty),
            _ => Err(not_built(place)),
        },
        _ => Err(not_built(place)),
    }
}

/// A module of this name with its parameters, in the order of the text, and without members.
///
/// # Errors
///
/// `DoubleName` of a parameter whose name the module, a parameter before it or a declared module has; `UnknownName` and `Argument` of a
/// module type that isn't declared.
pub fn with_parameters(
    alloc: Global,
    scope: &Scope,
    name: &Name,
    trees: &[Node],
) -> Result<Module, Refused>
    ensures answer { Answers (with_parameters scope.now (empty_module name.now) trees.now) result }
    ensures name { IfOk result (λ m. m.name ≡ name.now) }
{
    let mut module = empty_module(alloc, name)?;
    for tree in trees {
        let parts = tree.parts.as_slice();
        add_parameter(alloc, scope, &mut module, tree.head, parts, tree.place)?;
    }
    Ok(module)
}
