// What is bound in a form.

ghost use Rattle.std.specs.Prelude.{◌≡◌, [], ◌∷◌, ◌++◌, IfOk, OnOk, map, reverse};
ghost use Rattle.std.specs.Option.{option_copied};
ghost use Rattle.gb_names.specs.Bindings.{binders_inside, bound_value, innermost, memory, value};

use gb_core::Shared;
use gb_core::name::Name;
use gb_core::ty::Ty;
use gb_terms::decl::TypedName;
use sqlite_items::Items;
use std::alloc::{AllocError, Global};

/// What a name is bound to.
pub enum Kind {
    /// A value of this type.
    Value(Shared<Ty>),
    Memory,
}

impl Drop for Kind {
    fn drop(self) {
        match self {
            Kind::Value(ty) => drop(ty),
            Kind::Memory => {}
        }
    }
}

/// A name that a quantifier or a function binds. All that is bound shares one count, from the innermost one outwards.
pub struct Binding {
    pub name: Name,
    pub kind: Kind,
}

impl Drop for Binding {
    fn drop(self) {
        let Binding { name, kind } = self;
        drop(name);
        drop(kind);
    }
}

pub type Bindings = Items<Binding>;

impl Kind {
    fn share(&self) -> Result<Kind, AllocError>
        ensures { IfOk result (λ made. made ≡ self.now) }
    {
        match self {
            Kind::Value(ty) => {
                let ty = ty.share()?;
                Ok(Kind::Value(ty))
            }
            Kind::Memory => Ok(Kind::Memory),
        }
    }
}

impl Binding {
    fn copy(&self, alloc: Global) -> Result<Binding, AllocError>
        ensures { IfOk result (λ made. made ≡ self.now) }
    {
        let name = self.name.copy(alloc)?;
        let kind = self.kind.share()?;
        Ok(Binding { name, kind })
    }

    /// A value of this type under a name.
    pub fn value(alloc: Global, name: &Name, ty: &Shared<Ty>) -> Result<Binding, AllocError>
        ensures { IfOk result (λ made. made ≡ value name.now ty.now) }
    {
        let name = name.copy(alloc)?;
        let ty = ty.share()?;
        Ok(Binding {
            name,
            kind: Kind::Value(ty),
        })
    }

    /// A memory under a name.
    pub fn memory(alloc: Global, name: &Name) -> Result<Binding, AllocError>
        ensures { IfOk result (λ made. made ≡ memory name.now) }
    {
        let name = name.copy(alloc)?;
        Ok(Binding {
            name,
            kind: Kind::Memory,
        })
    }
}

fn copy_bindings(alloc: Global, list: &[Binding]) -> Result<Bindings, AllocError>
    ensures { IfOk result (λ made. made ≡ list.now) }
{
    let mut all = Items::new(alloc);
    for x in list {
        let x = x.copy(alloc)?;
        all.push(x)?;
    }
    Ok(all)
}

/// Things, the last one first, and behind them those that are bound around them.
pub fn within(alloc: Global, bindings: Bindings, around: &[Binding]) -> Result<Bindings, AllocError>
    ensures { IfOk result (λ made. made ≡ reverse bindings ++ around.now) }
{
    let mut rest = bindings;
    let mut all = Items::new(alloc);
    while let Some(x) = rest.pop() {
        all.push(x)?;
    }
    all.append(copy_bindings(alloc, around)?)?;
    Ok(all)
}

/// Binds one more value of this type.
pub fn add_value(
    alloc: Global,
    all: &mut Bindings,
    name: &Name,
    ty: &Shared<Ty>,
) -> Result<(), AllocError>
    ensures { OnOk result (all.new ≡ all.old ++ value name.now ty.now ∷ []) }
{
    all.push(Binding::value(alloc, name, ty)?)
}

/// Variables as what is bound, in their order.
pub fn bound_values(alloc: Global, variables: &[TypedName]) -> Result<Bindings, AllocError>
    ensures { IfOk result (λ made. made ≡ map bound_value variables.now) }
{
    let mut all = Items::new(alloc);
    for x in variables {
        add_value(alloc, &mut all, &x.name, &x.ty)?;
    }
    Ok(all)
}

/// The innermost thing of this name.
pub fn innermost<'a>(bound: &'a [Binding], name: &Name) -> Option<&'a Binding>
    ensures { option_copied result ≡ innermost bound.now name.now }
{
    for x in bound {
        if x.name == *name {
            return Some(x);
        }
    }
    None
}

/// How many binders stand inside of the innermost one of this name.
pub fn binders_inside(bound: &[Binding], name: &Name) -> usize
    ensures { result ≡ binders_inside bound.now name.now }
{
    for i in 0..bound.len() {
        if bound[i].name == *name {
            return i;
        }
    }
    bound.len()
}
