// Types that hold the globals of modules.

ghost use Rattle.std.specs.Prelude.{◌≡◌, map, IfOk};
ghost use Rattle.std.specs.List.{list_any};
ghost use Rattle.std.specs.Option.{option_copied};
ghost use Rattle.gb_core.specs.declared.ty.Ty.TheVariants.{Glob};
ghost use Rattle.gb_labels.specs.Labels.{count_of, labels, labels_or, labelled_ty};
ghost use Rattle.gb_labels.specs.Things.{holds_glob, module_of};

use crate::labels::{Label, count_of};
use gb_core::copy::copy_ty;
use gb_core::name::Name;
use gb_core::ty::Ty;
use gb_core::{Shared, SharedItems};
use sqlite_items::Items;
use std::alloc::{AllocError, Global};

/// Whether all globals of a module are a part of a type's values.
#[cycle(holds_glob)]
pub fn holds_glob(ty: &Ty) -> bool
    ensures { result ≡ holds_glob ty.now }
{
    match ty {
        Ty::Glob(_) => true,
        Ty::Tuple(parts) => any_holds_glob(parts.as_slice()),
        Ty::Opt(inner) | Ty::Distr(inner) => holds_glob(inner.get()),
        Ty::Map(key, value) => holds_glob(key.get()) || holds_glob(value.get()),
        _ => false,
    }
}

#[cycle(holds_glob)]
fn any_holds_glob(parts: &[Ty]) -> bool
    ensures { result ≡ list_any (λ b. b) (map holds_glob parts.now) }
{
    for part in parts {
        if holds_glob(part) {
            return true;
        }
    }
    false
}

/// The module whose globals the values of a type are, or options of them.
pub fn module_of(ty: &Ty) -> Option<&Name>
    ensures { option_copied result ≡ module_of ty.now }
{
    match ty {
        Ty::Glob(module) => Some(module),
        Ty::Opt(inner) => match inner.get() {
            Ty::Glob(module) => Some(module),
            _ => None,
        },
        _ => None,
    }
}

/// The type of so many labels.
fn labels(alloc: Global, count: u32) -> Result<Ty, AllocError>
    ensures { IfOk result (λ made. made ≡ labels count) }
{
    let mut parts = Items::new(alloc);
    parts.push(Ty::Mod(count))?;
    let parts = SharedItems::new(alloc, parts)?;
    Ok(Ty::Tuple(parts))
}

/// The type of the globals of a module: labels, where it has a number of these.
fn labelled_module(alloc: Global, name: &Name, list: &[Label]) -> Result<Ty, AllocError>
    ensures { IfOk result (λ made. made ≡ labels_or (count_of list.now name.now) (Glob name.now)) }
{
    match count_of(list, name) {
        Some(count) => labels(alloc, count),
        None => {
            let name = name.copy(alloc)?;
            Ok(Ty::Glob(name))
        }
    }
}

/// A type with labels in place of the globals of the modules that have numbers of these.
#[cycle(labelled_ty)]
fn labelled_ty(alloc: Global, ty: &Ty, list: &[Label]) -> Result<Ty, AllocError>
    ensures { IfOk result (λ made. made ≡ labelled_ty list.now ty.now) }
{
    match ty {
        Ty::Glob(module) => labelled_module(alloc, module, list),
        Ty::Tuple(parts) => {
            let parts = labelled_parts(alloc, parts.as_slice(), list)?;
            Ok(Ty::Tuple(parts))
        }
        Ty::Opt(inner) => {
            let inner = labelled_part(alloc, inner, list)?;
            Ok(Ty::Opt(inner))
        }
        Ty::Map(key, value) => {
            let key = labelled_part(alloc, key, list)?;
            let value = labelled_part(alloc, value, list)?;
            Ok(Ty::Map(key, value))
        }
        Ty::Distr(inner) => {
            let inner = labelled_part(alloc, inner, list)?;
            Ok(Ty::Distr(inner))
        }
        _ => copy_ty(alloc, ty),
    }
}

#[cycle(labelled_ty)]
fn labelled_parts(
    alloc: Global,
    parts: &[Ty],
    list: &[Label],
) -> Result<SharedItems<Ty>, AllocError>
    ensures { IfOk result (λ made. made ≡ map (labelled_ty list.now) parts.now) }
{
    let mut out = Items::new(alloc);
    for part in parts {
        out.push(labelled_ty(alloc, part, list)?)?;
    }
    SharedItems::new(alloc, out)
}

/// The same, which shares a type without globals.
#[cycle(labelled_ty)]
pub fn labelled_part(
    alloc: Global,
    ty: &Shared<Ty>,
    list: &[Label],
) -> Result<Shared<Ty>, AllocError>
    ensures { IfOk result (λ made. made ≡ labelled_ty list.now ty.now) }
{
    if holds_glob(ty.get()) {
        let made = labelled_ty(alloc, ty.get(), list)?;
        Shared::new(alloc, made)
    } else {
        ty.share()
    }
}
