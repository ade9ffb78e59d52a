//! Abstract modules that a lemma binds, as declarations.

ghost use Rattle.std.specs.Prelude.{◌≡◌, [], map, IfOk};
ghost use Rattle.gb_goal.specs.Binders.{binder_entries};

use crate::scope::{Entries, Entry};
use gb_core::copy::copy_names;
use gb_terms::module::{Bind, Bound, Bounds, ProcRef};
use sqlite_items::{Boxed, Items};
use std::alloc::{AllocError, Global};

fn copy_bound(alloc: Global, bound: &Bound) -> Result<Bound, AllocError>
    ensures { IfOk result (λ made. made ≡ bound.now) }
{
    let module = bound.oracle.module.share(alloc)?;
    let name = bound.oracle.name.copy(alloc)?;
    let procs = copy_names(alloc, bound.procs.as_slice())?;
    Ok(Bound {
        procs,
        oracle: ProcRef { module, name },
        most: bound.most,
    })
}

fn copy_bounds(alloc: Global, list: &[Bound]) -> Result<Bounds, AllocError>
    ensures { IfOk result (λ made. made ≡ list.now) }
{
    let mut made = Items::new(alloc);
    for bound in list {
        made.push(copy_bound(alloc, bound)?)?;
    }
    Ok(made)
}

/// A binder of its own, with all that it says.
fn copy(alloc: Global, bind: &Bind) -> Result<Bind, AllocError>
    ensures { IfOk result (λ made. made ≡ bind.now) }
{
    let name = bind.name.copy(alloc)?;
    let ty = bind.ty.copy(alloc)?;
    let minus = copy_names(alloc, bind.minus.as_slice())?;
    let bounds = copy_bounds(alloc, bind.bounds.as_slice())?;
    Ok(Bind {
        name,
        ty,
        minus,
        bounds,
    })
}

/// The declarations of abstract modules, each under the name of its binder.
pub fn binder_entries(alloc: Global, binds: &[Bind]) -> Result<Entries, AllocError>
    ensures { IfOk result (λ made. made ≡ binder_entries binds.now) }
{
    let mut made = Items::new(alloc);
    for bind in binds {
        let name = bind.name.copy(alloc)?;
        let entry = Boxed::new(alloc, Entry::AbstractModule(copy(alloc, bind)?))?;
        made.push((name, entry))?;
    }
    Ok(made)
}
