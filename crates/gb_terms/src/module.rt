// Module expressions and module binders.

use gb_core::SharedItems;
use gb_core::name::{Name, Names};
use sqlite_items::Items;

/// A module by its name, or a functor applied to some of its parameters.
pub enum Mexp {
    Name(Name),
    Apply(Name, SharedItems<Mexp>),
}

impl Drop for Mexp {
    #[cycle(mexp_drop)]
    fn drop(self) {
        match self {
            Mexp::Name(name) => drop(name),
            Mexp::Apply(name, args) => {
                drop(name);
                drop(args);
            }
        }
    }
}

pub type Mexps = Items<Mexp>;

/// A procedure of a module.
pub struct ProcRef {
    pub module: Mexp,
    pub name: Name,
}

impl Drop for ProcRef {
    fn drop(self) {
        let ProcRef { module, name } = self;
        drop(module);
        drop(name);
    }
}

/// A bound on the calls that procedures of a module, together, may make to an oracle of its parameters.
pub struct Bound {
    pub procs: Names,
    pub oracle: ProcRef,
    pub most: u128,
}

impl Drop for Bound {
    fn drop(self) {
        let Bound {
            procs,
            oracle,
            most: _,
        } = self;
        drop(procs);
        drop(oracle);
    }
}

pub type Bounds = Items<Bound>;

/// An abstract module: its name, its module type, the modules whose globals it doesn't touch, and its bounds.
pub struct Bind {
    pub name: Name,
    pub ty: Name,
    pub minus: Names,
    pub bounds: Bounds,
}

impl Drop for Bind {
    fn drop(self) {
        let Bind {
            name,
            ty,
            minus,
            bounds,
        } = self;
        drop(name);
        drop(ty);
        drop(minus);
        drop(bounds);
    }
}
