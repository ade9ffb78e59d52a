// Declarations of a script.

use crate::term::{Cmd, Term};
use gb_core::Shared;
use gb_core::name::Name;
use gb_core::ty::Ty;
use sqlite_items::Items;

/// A name with its type.
pub struct TypedName {
    pub name: Name,
    pub ty: Shared<Ty>,
}

impl Drop for TypedName {
    fn drop(self) {
        let TypedName { name, ty } = self;
        drop(name);
        drop(ty);
    }
}

pub type Typed = Items<TypedName>;

/// A procedure: its parameters, the type of its result, its locals, its body and the term that it returns.
pub struct Proc {
    pub name: Name,
    pub params: Typed,
    pub result: Shared<Ty>,
    pub locals: Typed,
    pub body: Cmd,
    pub value: Term,
}

impl Drop for Proc {
    fn drop(self) {
        let Proc {
            name,
            params,
            result,
            locals,
            body,
            value,
        } = self;
        drop(name);
        drop(params);
        drop(result);
        drop(locals);
        drop(body);
        drop(value);
    }
}

pub type Procs = Items<Shared<Proc>>;

/// A module parameter and its module type.
pub struct Param {
    pub name: Name,
    pub ty: Name,
}

impl Drop for Param {
    fn drop(self) {
        let Param { name, ty } = self;
        drop(name);
        drop(ty);
    }
}

pub type Params = Items<Param>;

/// A module: its parameters, its globals and its procedures, in order of declaration.
pub struct Module {
    pub name: Name,
    pub params: Params,
    pub globals: Typed,
    pub procs: Procs,
}

impl Drop for Module {
    fn drop(self) {
        let Module {
            name,
            params,
            globals,
            procs,
        } = self;
        drop(name);
        drop(params);
        drop(globals);
        drop(procs);
    }
}
