// Module types.

use gb_core::Shared;
use gb_core::name::Name;
use gb_core::ty::Ty;
use gb_terms::decl::{Params, Typed};
use sqlite_items::Items;

/// A procedure of a module parameter.
pub struct Oracle {
    pub parameter: Name,
    pub name: Name,
}

impl Drop for Oracle {
    fn drop(self) {
        let Oracle { parameter, name } = self;
        drop(parameter);
        drop(name);
    }
}

pub type Oracles = Items<Oracle>;

/// Which procedures of the parameters a procedure may call.
pub enum MayCall {
    Every,
    Those(Oracles),
}

impl Drop for MayCall {
    fn drop(self) {
        match self {
            MayCall::Every => {}
            MayCall::Those(oracles) => drop(oracles),
        }
    }
}

/// A procedure that modules of a module type have.
pub struct Signature {
    pub name: Name,
    pub params: Typed,
    pub result: Shared<Ty>,
    pub oracles: MayCall,
}

impl Drop for Signature {
    fn drop(self) {
        let Signature {
            name,
            params,
            result,
            oracles,
        } = self;
        drop(name);
        drop(params);
        drop(result);
        drop(oracles);
    }
}

pub type Signatures = Items<Signature>;

/// A module type: its parameters, with module types that have none, and its signatures, in order of declaration.
pub struct ModuleType {
    pub params: Params,
    pub signatures: Signatures,
}

impl Drop for ModuleType {
    fn drop(self) {
        let ModuleType { params, signatures } = self;
        drop(params);
        drop(signatures);
    }
}
