// Copies of names, variables and types.

ghost use Rattle.std.specs.Prelude.{◌≡◌, IfOk};

use crate::name::Name;
use crate::ty::Ty;
use crate::var::Var;
use sqlite_items::Items;
use std::alloc::{AllocError, Global};

pub fn copy_names(alloc: Global, list: &[Name]) -> Result<Items<Name>, AllocError>
    ensures { IfOk result (λ made. made ≡ list.now) }
{
    let mut out = Items::new(alloc);
    for x in list {
        out.push(x.copy(alloc)?)?;
    }
    Ok(out)
}

pub fn copy_var(alloc: Global, x: &Var) -> Result<Var, AllocError>
    ensures { IfOk result (λ made. made ≡ x.now) }
{
    match x {
        Var::Global { module, name } => {
            let module = module.copy(alloc)?;
            let name = name.copy(alloc)?;
            Ok(Var::Global { module, name })
        }
        Var::Local { name } => {
            let name = name.copy(alloc)?;
            Ok(Var::Local { name })
        }
        Var::Glob { module } => {
            let module = module.copy(alloc)?;
            Ok(Var::Glob { module })
        }
    }
}

/// The same type, which shares its parts.
pub fn copy_ty(alloc: Global, ty: &Ty) -> Result<Ty, AllocError>
    ensures { IfOk result (λ made. made ≡ ty.now) }
{
    match ty {
        Ty::Unit => Ok(Ty::Unit),
        Ty::Bool => Ok(Ty::Bool),
        Ty::Bits(n) => Ok(Ty::Bits(*n)),
        Ty::Mod(n) => Ok(Ty::Mod(*n)),
        Ty::Enumeration { name, size } => {
            let name = name.copy(alloc)?;
            Ok(Ty::Enumeration { name, size: *size })
        }
        Ty::Tuple(parts) => Ok(Ty::Tuple(parts.share()?)),
        Ty::Opt(inner) => Ok(Ty::Opt(inner.share()?)),
        Ty::Map(key, value) => {
            let key = key.share()?;
            Ok(Ty::Map(key, value.share()?))
        }
        Ty::Abstract(name) => Ok(Ty::Abstract(name.copy(alloc)?)),
        Ty::Glob(name) => Ok(Ty::Glob(name.copy(alloc)?)),
        Ty::Distr(inner) => Ok(Ty::Distr(inner.share()?)),
        Ty::Int => Ok(Ty::Int),
        Ty::Real => Ok(Ty::Real),
    }
}
