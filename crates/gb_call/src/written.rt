//! Globals with their types.

ghost use Rattle.std.specs.Prelude.{◌≡◌, IfOk};
ghost use Rattle.std.specs.Option.{option_copied};
ghost use Rattle.gb_meaning.specs.Written.{local_type};
ghost use Rattle.gb_call.specs.Written.{glob_type, global_type, type_in, typed_seen, with_types};

use gb_core::Shared;
use gb_core::copy::copy_var;
use gb_core::name::Name;
use gb_core::same::same_name;
use gb_core::ty::Ty;
use gb_core::var::Var;
use gb_goal::scope::Scope;
use gb_terms::decl::{Module, TypedName};
use gb_terms::module::Bind;
use sqlite_items::Items;
use std::alloc::{AllocError, Global};

/// A global with its type.
pub struct TypedGlobal {
    pub variable: Var,
    pub ty: Shared<Ty>,
}

impl Drop for TypedGlobal {
    fn drop(self) {
        let TypedGlobal { variable, ty } = self;
        drop(variable);
        drop(ty);
    }
}

pub type TypedGlobals = Items<TypedGlobal>;

/// The type of the first of these names that is this one.
pub fn type_named<'a>(list: &'a [TypedName], name: &Name) -> Option<&'a Shared<Ty>>
    ensures { option_copied result ≡ local_type list.now name.now }
{
    for x in list {
        if same_name(name, &x.name) {
            return Some(&x.ty);
        }
    }
    None
}

/// The type of a global of a module.
fn type_in<'a>(found: Option<&'a Module>, name: &Name) -> Option<&'a Shared<Ty>>
    ensures { option_copied result ≡ type_in (option_copied found.entry) name.now }
{
    match found {
        Some(found) => type_named(found.globals.as_slice(), name),
        None => None,
    }
}

/// The type of all that is the own of the abstract module of this name.
fn glob_type(
    alloc: Global,
    module: &Name,
    bind: Option<&Bind>,
) -> Result<Option<Shared<Ty>>, AllocError>
    ensures { IfOk result (λ made. made ≡ glob_type «module».now (option_copied bind.entry)) }
{
    match bind {
        Some(_) => {
            let name = module.copy(alloc)?;
            Ok(Some(Shared::new(alloc, Ty::Glob(name))?))
        }
        None => Ok(None),
    }
}

/// The type of a global of a declared module, or of all of an abstract one.
fn global_type(
    alloc: Global,
    scope: &Scope,
    variable: &Var,
) -> Result<Option<Shared<Ty>>, AllocError>
    ensures { IfOk result (λ made. made ≡ global_type scope.now variable.now) }
{
    match variable {
        Var::Global { module, name } => match type_in(scope.module(module), name) {
            Some(ty) => Ok(Some(ty.share()?)),
            None => Ok(None),
        },
        Var::Glob { module } => glob_type(alloc, module, scope.abstract_module(module)),
        Var::Local { .. } => Ok(None),
    }
}

/// Globals with their types. None where one of them has none.
pub fn with_types(
    alloc: Global,
    scope: &Scope,
    list: &[Var],
) -> Result<Option<TypedGlobals>, AllocError>
    ensures { IfOk result (λ made. typed_seen made ≡ with_types scope.now list.now) }
{
    let mut typed = Items::new(alloc);
    for variable in list {
        let Some(ty) = global_type(alloc, scope, variable)? else {
            return Ok(None);
        };
        let variable = copy_var(alloc, variable)?;
        typed.push(TypedGlobal { variable, ty })?;
    }
    Ok(Some(typed))
}
