// Globals, which forms and statements name by a module and a word, and what else has such a name.

ghost use Rattle.std.specs.Prelude.{◌≡◌, IfOk, is_some};
ghost use Rattle.std.specs.Option.{option_copied, option_map};
ghost use Rattle.std.specs.Path.{dot, rsplit_once};
ghost use Rattle.gb_goal.specs.Answers.{Answers, Refuses};
ghost use Rattle.gb_goal.specs.Answers.Answer.{given};
ghost use Rattle.gb_names.specs.Environment.{environment};
ghost use Rattle.gb_names.specs.Names.{global_at, global_in, global_of, global_target, global_variable, has_global, has_own, has_procedure, module_hidden, is_parameter, module_if, names_member, names_parameter, no_declared, no_procedure, no_procedure_of, own_global, read_global, unsided};
ghost use Rattle.gb_goal.specs.Seen.{seen};

use crate::bindings::Binding;
use crate::ended::check_ended;
use crate::names::{built_in, first_named, hidden};
use crate::refusals::{argument, unknown};
use crate::setting::{Setting, Variables};
use gb_core::Shared;
use gb_core::name::Name;
use gb_core::place::Place;
use gb_core::refusal::Refused;
use gb_core::ty::Ty;
use gb_core::var::Var;
use gb_goal::instance::name_of;
use gb_goal::interface::{Interface, interface_of};
use gb_goal::scope::Scope;
use gb_terms::decl::{Module, Param, TypedName};
use gb_terms::make;
use gb_terms::module::Mexp;
use gb_terms::op::Side;
use gb_terms::term::Term;
use std::alloc::{AllocError, Global};

/// A global: the name of its module, and the variable there.
pub struct ModuleVariable<'a> {
    pub owner: Name,
    pub variable: &'a TypedName,
}

impl<'a> Drop for ModuleVariable<'a> {
    fn drop(self) {
        let ModuleVariable { owner, variable: _ } = self;
        drop(owner);
    }
}

impl<'a> ModuleVariable<'a> {
    /// The variable that a global is.
    fn into_var(self, alloc: Global) -> Result<Var, AllocError>
        ensures { IfOk result (λ made. made ≡ Var.Global self.entry.owner self.entry.variable.now.name) }
    {
        let ModuleVariable { owner, variable } = self;
        let name = variable.name.copy(alloc)?;
        Ok(Var::Global {
            module: owner,
            name,
        })
    }
}

/// What stands before the last dot of a name, and behind it.
fn parts_of(name: &Name) -> Option<(&str, &str)>
    ensures { option_map (λ p. (p.0.now, p.1.now)) result ≡ rsplit_once dot name.now }
{
    name.as_str().rsplit_once('.')
}

/// The module of this name: the one around, or a declared one.
fn module_if<'a>(inside: Option<&'a Module>, scope: &'a Scope, name: &Name) -> Option<&'a Module>
    ensures { option_copied result ≡ module_if (option_copied inside.entry) scope.now name.now }
{
    match inside {
        Some(module) if *name == module.name => Some(module),
        _ => scope.module(name),
    }
}

/// The global of a module that has this name.
fn global_in<'a>(owner: Name, module: Option<&'a Module>, name: &Name) -> Option<ModuleVariable<'a>>
    ensures { option_map (λ g. (g.owner, g.variable.now)) result ≡ global_in owner (option_copied «module».entry) name.now }
{
    match module {
        Some(module) => match first_named(module.globals.as_slice(), name) {
            Some(variable) => Some(ModuleVariable { owner, variable }),
            None => None,
        },
        None => None,
    }
}

/// A global of the module around, by its own name.
fn own_global<'a>(
    alloc: Global,
    inside: Option<&'a Module>,
    name: &Name,
) -> Result<Option<ModuleVariable<'a>>, AllocError>
    ensures { IfOk result (λ found. option_map (λ g. (g.owner, g.variable.now)) found ≡ own_global (option_copied inside.entry) name.now) }
{
    match inside {
        None => Ok(None),
        Some(module) => {
            let owner = module.name.copy(alloc)?;
            Ok(global_in(owner, inside, name))
        }
    }
}

/// Whether the module around has a global of this name.
pub fn is_own_global(at: &Setting<'_>, name: &Name) -> bool
    ensures { result ≡ is_some (own_global (environment at.now).inside name.now) }
{
    match at.inside {
        None => false,
        Some(module) => first_named(module.globals.as_slice(), name).is_some(),
    }
}

/// Whether a thing that is nearer than the declarations has the name of the module in this path.
#[tactic(auto, unfolding(crate::specs::Names::module_hidden))]
pub fn module_hidden(
    alloc: Global,
    at: &Setting<'_>,
    bound: &[Binding],
    name: &Name,
) -> Result<bool, AllocError>
    ensures { IfOk result (λ found. found ≡ module_hidden (environment at.now) bound.now name.now) }
{
    match parts_of(name) {
        None => Ok(false),
        Some((owner, _)) => {
            let owner = Name::from_str(alloc, owner)?;
            Ok(hidden(at, bound, &owner))
        }
    }
}

/// The global of the module around, or of a declared one, that has these two names, where nothing nearer has that of its module.
fn global_of<'a>(
    at: &Setting<'a>,
    bound: &[Binding],
    owner: Name,
    own: &Name,
) -> Option<ModuleVariable<'a>>
    ensures { option_map (λ g. (g.owner, g.variable.now)) result ≡ global_of (environment at.now) bound.now (owner, own.now) }
{
    if hidden(at, bound, &owner) {
        return None;
    }
    let module = module_if(at.inside, at.scope, &owner);
    global_in(owner, module, own)
}

/// The global that is named: by its module and its own name with a dot between, or inside of its module by its own name alone.
#[tactic(auto, unfolding(crate::specs::Names::global_at))]
pub fn global_at<'a>(
    alloc: Global,
    at: &Setting<'a>,
    bound: &[Binding],
    name: &Name,
) -> Result<Option<ModuleVariable<'a>>, AllocError>
    ensures { IfOk result (λ found. option_map (λ g. (g.owner, g.variable.now)) found ≡ global_at (environment at.now) bound.now name.now) }
{
    match parts_of(name) {
        None => own_global(alloc, at.inside, name),
        Some((owner, own)) => {
            let owner = Name::from_str(alloc, owner)?;
            let own = Name::from_str(alloc, own)?;
            Ok(global_of(at, bound, owner, &own))
        }
    }
}

/// Whether one of these parameters has this name.
pub fn is_parameter(params: &[Param], name: &Name) -> bool
    ensures { result ≡ is_parameter params.now name.now }
{
    for q in params {
        if q.name == *name {
            return true;
        }
    }
    false
}

/// Whether a parameter of the module around has this name.
pub fn names_parameter(inside: Option<&Module>, name: &Name) -> bool
    ensures { result ≡ names_parameter (option_copied inside.entry) name.now }
{
    match inside {
        None => false,
        Some(module) => is_parameter(module.params.as_slice(), name),
    }
}

/// Whether a module has a global of this name.
fn has_global(module: Option<&Module>, name: &Name) -> bool
    ensures { result ≡ has_global (option_copied «module».entry) name.now }
{
    match module {
        None => false,
        Some(module) => first_named(module.globals.as_slice(), name).is_some(),
    }
}

/// Whether a module has a procedure of this name.
fn has_procedure(module: Option<Interface<'_>>, name: &Name) -> bool
    ensures { result ≡ has_procedure (option_map seen «module».entry) name.now }
{
    match module {
        None => false,
        Some(module) => module.procedures.type_of(name).is_some(),
    }
}

/// Whether a global or a procedure of the module around, or of a declared one, or a procedure of a parameter or of an abstract module has
/// this name.
#[tactic(auto, unfolding(crate::specs::Names::names_member))]
pub fn names_member(
    alloc: Global,
    inside: Option<&Module>,
    scope: &Scope,
    name: &Name,
) -> Result<bool, AllocError>
    ensures { IfOk result (λ found. found ≡ names_member (option_copied inside.entry) scope.now name.now) }
{
    match parts_of(name) {
        None => Ok(false),
        Some((owner, own)) => {
            let owner = Name::from_str(alloc, owner)?;
            let own = Name::from_str(alloc, own)?;
            let is_member = has_global(module_if(inside, scope, &owner), &own)
                || has_procedure(interface_of(scope, inside, &owner), &own);
            Ok(is_member)
        }
    }
}

/// The refusal of a name that means nothing that is declared and of the kind that is asked for: another thing has it, or nothing.
pub fn no_declared(
    alloc: Global,
    inside: Option<&Module>,
    scope: &Scope,
    name: &Name,
    place: Place,
) -> Refused
    ensures { Refuses (no_declared (option_copied inside.entry) scope.now name.now) place result }
{
    if names_parameter(inside, name) || scope.entry(name).is_some() || built_in(name).is_some() {
        return argument(place);
    }
    match names_member(alloc, inside, scope, name) {
        Ok(true) => argument(place),
        Ok(false) => unknown(alloc, name, place),
        Err(_) => Refused::NoMemory,
    }
}

/// The refusal of a name that is that of no procedure of a module: a global of it has the name, or nothing.
pub fn no_procedure(alloc: Global, module: &Module, name: &Name, place: Place) -> Refused
    ensures { Refuses (no_procedure «module».now name.now) place result }
{
    if first_named(module.globals.as_slice(), name).is_some() {
        argument(place)
    } else {
        unknown(alloc, name, place)
    }
}

/// The same of a name that is that of no procedure of a module expression.
pub fn no_procedure_of(
    alloc: Global,
    at: &Setting<'_>,
    module: &Mexp,
    name: &Name,
    place: Place,
) -> Refused
    ensures { Refuses (no_procedure_of (environment at.now) «module».now name.now) place result }
{
    match module_if(at.inside, at.scope, name_of(module)) {
        Some(found) => no_procedure(alloc, found, name, place),
        None => unknown(alloc, name, place),
    }
}

/// A read of a global through a memory.
pub fn global_variable(
    alloc: Global,
    side: Side,
    global: ModuleVariable<'_>,
) -> Result<Term, AllocError>
    ensures { IfOk result (λ made. made ≡ global_variable side (global.entry.owner, global.entry.variable.now)) }
{
    let ty = global.variable.ty.share()?;
    let var = global.into_var(alloc)?;
    make::variable(alloc, var, side, ty)
}

/// A read of a global through a memory, where its module may be named.
pub fn read_global(
    alloc: Global,
    at: &Setting<'_>,
    side: Side,
    place: Place,
    global: ModuleVariable<'_>,
) -> Result<Term, Refused>
    ensures { Answers (read_global (environment at.now) side place (global.entry.owner, global.entry.variable.now)) result }
{
    check_ended(alloc, at, &global.owner, place)?;
    Ok(global_variable(alloc, side, global)?)
}

/// Whether a program with a memory of its own is around.
fn has_own(variables: &Variables<'_>) -> bool
    ensures { result ≡ has_own variables.now }
{
    match variables {
        Variables::Own(_) => true,
        _ => false,
    }
}

/// A read of a global by its name alone, which the memory of the program around has.
pub fn unsided(
    alloc: Global,
    at: &Setting<'_>,
    place: Place,
    global: ModuleVariable<'_>,
) -> Result<Term, Refused>
    ensures { Answers (unsided (environment at.now) place (global.entry.owner, global.entry.variable.now)) result }
{
    check_ended(alloc, at, &global.owner, place)?;
    if has_own(&at.variables) {
        Ok(global_variable(alloc, Side::Own, global)?)
    } else {
        Err(argument(place))
    }
}

/// A variable that a statement writes, with its type.
#[derive(Drop)]
pub struct Target {
    pub var: Var,
    pub ty: Shared<Ty>,
}

/// A global that a statement writes.
pub fn global_target(alloc: Global, global: ModuleVariable<'_>) -> Result<Target, AllocError>
    ensures { IfOk result (λ made. given (made.var, made.ty) ≡ global_target (global.entry.owner, global.entry.variable.now)) }
{
    let ty = global.variable.ty.share()?;
    let var = global.into_var(alloc)?;
    Ok(Target { var, ty })
}
