//! What references to procedures stand for.

ghost use Rattle.std.specs.Prelude.{◌≡◌, None, IfOk};
ghost use Rattle.std.specs.Option.{option_copied};
ghost use Rattle.gb_mods.specs.Meant.{any_of, meant_by};
ghost use Rattle.gb_goal.specs.Interfaces.{procedure_type};

use crate::asked::asked_by;
use crate::called::Procedures;
use gb_core::Shared;
use gb_core::name::Name;
use gb_goal::instance::{arguments_of, name_of};
use gb_goal::interface::procedure_type;
use gb_goal::scope::Scope;
use gb_terms::decl::Proc;
use gb_terms::module::{Bind, ProcRef};
use sqlite_items::Items;
use std::alloc::{AllocError, Global};

/// What a reference to a procedure stands for.
pub enum Meant {
    /// Nothing that is known.
    Unknown,
    /// A procedure of a declared module.
    Declared(Shared<Proc>),
    /// Any procedure of its signature, of the abstract module of this name: it may touch all that is the module's own, and calls these.
    Any(Name, Procedures),
}

impl Drop for Meant {
    fn drop(self) {
        match self {
            Meant::Unknown => {}
            Meant::Declared(procedure) => drop(procedure),
            Meant::Any(module, oracles) => {
                drop(module);
                drop(oracles);
            }
        }
    }
}

/// Any procedure of an abstract module, where the reference is to one.
fn any_of(
    alloc: Global,
    scope: &Scope,
    reference: &ProcRef,
    bind: Option<&Bind>,
) -> Result<Meant, AllocError>
    ensures { IfOk result (λ made. made ≡ any_of scope.now reference.now (option_copied bind.entry) (procedure_type scope.now None reference.now)) }
{
    match (bind, procedure_type(scope, None, reference)) {
        (Some(bind), Some(_)) => {
            let module = name_of(&reference.module).copy(alloc)?;
            let args = arguments_of(&reference.module);
            let ty = scope.module_type(&bind.ty);
            let oracles = asked_by(alloc, scope, Items::new(alloc), ty, args, &reference.name)?;
            Ok(Meant::Any(module, oracles))
        }
        _ => Ok(Meant::Unknown),
    }
}

/// What a reference to a procedure stands for: the procedure of a declared module that lacks none, or any one of an abstract module.
pub fn meant_by(alloc: Global, scope: &Scope, reference: &ProcRef) -> Result<Meant, AllocError>
    ensures { IfOk result (λ made. made ≡ meant_by scope.now reference.now) }
{
    if let Some(procedure) = scope.procedure(alloc, reference)? {
        return Ok(Meant::Declared(procedure));
    }
    let bind = scope.abstract_module(name_of(&reference.module));
    any_of(alloc, scope, reference, bind)
}
