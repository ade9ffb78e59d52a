//! New names of locals.

ghost use Rattle.std.specs.Prelude.{◌≡◌, IfOk, OnOk};
ghost use Rattle.gb_inline.specs.Fresh as specs;
ghost use Rattle.gb_inline.specs.Taken.{Adds, AreNamesOf, IsFirstFree};

use gb_core::name::Name;
use gb_core::var::Var;
use gb_terms::decl::TypedName;
use sqlite_items::Items;
use std::alloc::{AllocError, Global};
use std::collections::HashSet;

/// A local under a new name: its name, and the new one with its type.
pub struct Renaming {
    pub old: Name,
    pub new: TypedName,
}

impl Drop for Renaming {
    fn drop(self) {
        let Renaming { old, new } = self;
        drop(old);
        drop(new);
    }
}

pub type Renamings = Items<Renaming>;

/// `l`, and a number.
fn numbered(alloc: Global, k: u64) -> Result<Name, AllocError>
    ensures { IfOk result (λ made. made ≡ specs.numbered k) }
{
    let text = format!(in alloc; "l{k}")?;
    Ok(Name::new(text))
}

/// Puts a name among others.
fn add(alloc: Global, names: &mut HashSet<String>, name: &Name) -> Result<(), AllocError>
    ensures { OnOk result (Adds names.old name.now names.new) }
{
    let text = String::from_str(alloc, name.as_str())?;
    names.insert(text)?;
    Ok(())
}

/// The names of the locals among these variables.
fn local_names(alloc: Global, used: &[Var]) -> Result<HashSet<String>, AllocError>
    ensures { IfOk result (λ made. AreNamesOf used.now made) }
{
    let mut names = HashSet::new(alloc);
    for variable in used {
        if let Var::Local { name } = variable {
            add(alloc, &mut names, name)?;
        }
    }
    Ok(names)
}

/// The first number from one on for which `l` and it is none of these names.
fn free_number(
    alloc: Global,
    taken: &HashSet<String>,
    first: u64,
) -> Result<Option<u64>, AllocError>
    ensures { IfOk result (λ made. IsFirstFree taken.now first made) }
{
    for k in first..0x1_0000_0000u64 {
        let name = numbered(alloc, k)?;
        if !taken.contains(name.as_str()) {
            return Ok(Some(k));
        }
    }
    Ok(None)
}

/// A local under this name.
fn under_name(alloc: Global, local: &TypedName, name: Name) -> Result<Renaming, AllocError>
    ensures { IfOk result (λ made. made ≡ specs.under_name local.now name) }
{
    let ty = local.ty.share()?;
    let old = local.name.copy(alloc)?;
    let new = TypedName { name, ty };
    Ok(Renaming { old, new })
}

/// Each of these locals under the first new name that neither these variables nor those before it have.
pub fn new_names(
    alloc: Global,
    used: &[Var],
    list: &[TypedName],
) -> Result<Option<Renamings>, AllocError>
    ensures { IfOk result (λ made. made ≡ specs.new_names used.now list.now) }
{
    let mut taken = local_names(alloc, used)?;
    let mut next = 0u64;
    let mut all = Items::new(alloc);
    for local in list {
        let Some(k) = free_number(alloc, &taken, next)? else {
            return Ok(None);
        };
        let name = numbered(alloc, k)?;
        add(alloc, &mut taken, &name)?;
        all.push(under_name(alloc, local, name)?)?;
        next = k + 1;
    }
    Ok(Some(all))
}
