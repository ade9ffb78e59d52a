// Types.

use crate::name::Name;
use crate::{Shared, SharedItems};
use sqlite_items::Items;

/// A type. `Int`, `Real` and `Distr` stand in formulas alone.
pub enum Ty {
    Unit,
    Bool,
    /// Bit strings of 1 to 16 bits.
    Bits(u8),
    /// The integers modulo 1 to 65,536.
    Mod(u32),
    /// An enumeration of 1 to 256 names.
    Enumeration { name: Name, size: u16 },
    /// A tuple of 2 to 8 parts.
    Tuple(SharedItems<Ty>),
    Opt(Shared<Ty>),
    /// Finite maps from keys to values.
    Map(Shared<Ty>, Shared<Ty>),
    /// A type of an abstract theory, which has any size of at least 1.
    Abstract(Name),
    /// The values of all globals of an abstract module.
    Glob(Name),
    Distr(Shared<Ty>),
    Int,
    Real,
}

pub type Tys = Items<Ty>;

impl Drop for Ty {
    #[cycle(ty_drop)]
    fn drop(self) {
        match self {
            Ty::Unit | Ty::Bool | Ty::Bits(_) | Ty::Mod(_) | Ty::Int | Ty::Real => {}
            Ty::Enumeration { name, size: _ } => drop(name),
            Ty::Tuple(parts) => drop(parts),
            Ty::Opt(inner) => drop(inner),
            Ty::Map(key, value) => {
                drop(key);
                drop(value);
            }
            Ty::Abstract(name) => drop(name),
            Ty::Glob(module) => drop(module),
            Ty::Distr(inner) => drop(inner),
        }
    }
}
