// Members of modules: globals and procedures.

ghost use Rattle.std.specs.Prelude.{◌≡◌, IfOk, MatchResult, OnOk};
ghost use Rattle.gb_goal.specs.Answers.{Answers, Fails};
ghost use Rattle.gb_goal.specs.Answers.Answer.{given};
ghost use Rattle.gb_elab_prog.specs.Contexts.{nothing_around};
ghost use Rattle.gb_elab_prog.specs.Modules.{empty_module, member_names, with_globals, with_member, with_members, with_procedure};

use crate::context::{nothing_around, take_names};
use crate::procedure::procedure;
use gb_core::Shared;
use gb_core::name::{Name, Names};
use gb_core::place::Place;
use gb_core::refusal::Refused;
use gb_goal::scope::Scope;
use gb_goal::sequent::Sequent;
use gb_names::binders::of_type;
use gb_names::types::type_of;
use gb_script::head::Head;
use gb_script::tree::Node;
use gb_terms::decl::Module;
use sqlite_items::Items;
use std::alloc::{AllocError, Global};

/// A module with its members, in the order of the text.
#[tactic(auto, unfolding(crate::specs::Modules::with_members))]
pub fn members(
    alloc: Global,
    scope: &Scope,
    empty: Module,
    items: &[Node],
) -> Result<Module, Refused>
    ensures answer { Answers (with_members scope.now nothing_around empty items.now) result }
    ensures name { IfOk result (λ m. m.name ≡ empty.name) }
{
    let around = nothing_around(alloc)?;
    let mut module = empty;
    for item in items {
        add_member(
            alloc,
            scope,
            &around,
            &mut module,
            item.head,
            item.parts.as_slice(),
            item.place,
        )?;
    }
    Ok(module)
}

/// A module of this name, without parameters and members.
pub fn empty_module(alloc: Global, name: &Name) -> Result<Module, AllocError>
    ensures { IfOk result (λ m. m ≡ empty_module name.now) }
{
    let name = name.copy(alloc)?;
    Ok(Module {
        name,
        params: Items::new(alloc),
        globals: Items::new(alloc),
        procs: Items::new(alloc),
    })
}

/// Adds a member to a module: a line of globals, or a procedure.
fn add_member(
    alloc: Global,
    scope: &Scope,
    around: &Sequent,
    module: &mut Module,
    head: Head,
    parts: &[Node],
    place: Place,
) -> Result<(), Refused>
    ensures answer { MatchResult result
        (λ _. with_member scope.now around.now «module».old head parts.now place ≡ given «module».new)
        (λ e. Fails (with_member scope.now around.now «module».old head parts.now place) e) }
    ensures name { OnOk result («module».new.name ≡ «module».old.name) }
{
    match head {
        Head::Globals => match parts {
            [names, ty] => add_globals(alloc, scope, module, names.parts.as_slice(), ty),
            _ => add_procedure(alloc, scope, around, module, head, parts, place),
        },
        _ => add_procedure(alloc, scope, around, module, head, parts, place),
    }
}

/// The names of the members of a module.
fn member_names(alloc: Global, module: &Module) -> Result<Names, AllocError>
    ensures { IfOk result (λ made. made ≡ member_names «module».now) }
{
    let mut names = Items::new(alloc);
    for x in module.globals.as_slice() {
        let name = x.name.copy(alloc)?;
        names.push(name)?;
    }
    for p in module.procs.as_slice() {
        let name = p.get().name.copy(alloc)?;
        names.push(name)?;
    }
    Ok(names)
}

/// Adds a line of globals.
fn add_globals(
    alloc: Global,
    scope: &Scope,
    module: &mut Module,
    names: &[Node],
    ty: &Node,
) -> Result<(), Refused>
    ensures answer { MatchResult result
        (λ _. with_globals scope.now «module».old names.now ty.now ≡ given «module».new)
        (λ e. Fails (with_globals scope.now «module».old names.now ty.now) e) }
    ensures name { OnOk result («module».new.name ≡ «module».old.name) }
{
    let mut taken = member_names(alloc, module)?;
    take_names(alloc, &mut taken, names)?;
    let ty = type_of(alloc, scope, ty)?;
    let globals = of_type(alloc, names, &ty)?;
    module.globals.append(globals)?;
    Ok(())
}

/// Adds a procedure.
fn add_procedure(
    alloc: Global,
    scope: &Scope,
    around: &Sequent,
    module: &mut Module,
    head: Head,
    parts: &[Node],
    place: Place,
) -> Result<(), Refused>
    ensures answer { MatchResult result
        (λ _. with_procedure scope.now around.now «module».old head parts.now place ≡ given «module».new)
        (λ e. Fails (with_procedure scope.now around.now «module».old head parts.now place) e) }
    ensures name { OnOk result («module».new.name ≡ «module».old.name) }
{
    let p = procedure(alloc, scope, around, module, head, parts, place)?;
    let p = Shared::new(alloc, p)?;
    module.procs.push(p)?;
    Ok(())
}
