//! Variables at their types, in order.

ghost use Rattle.std.specs.Prelude.{◌≡◌, ◌++◌, IfOk};
ghost use Rattle.gb_forms.specs.Ordered.{is_same, joined, placed};

use gb_labels::reads::{TypedVar, TypedVars, is_read_at};
use gb_walk::clash::comes_before;
use sqlite_items::Items;
use std::alloc::{AllocError, Global};

/// A variable at a type, with one owner more.
pub fn shared_variable(variable: &TypedVar) -> Result<TypedVar, AllocError>
    ensures { IfOk result (λ made. made ≡ variable.now) }
{
    let var = variable.var.share()?;
    let ty = variable.ty.share()?;
    Ok(TypedVar { var, ty })
}

/// Variables behind others.
pub fn with_variables(found: TypedVars, list: &[TypedVar]) -> Result<TypedVars, AllocError>
    ensures { IfOk result (λ made. made ≡ found ++ list.now) }
{
    let mut all = found;
    for variable in list {
        all.push(shared_variable(variable)?)?;
    }
    Ok(all)
}

/// Whether both are the same variable at the same type.
pub fn is_same(x: &TypedVar, y: &TypedVar) -> bool
    ensures { result ≡ is_same x.now y.now }
{
    is_read_at(x.var.get(), x.ty.get(), y.var.get(), y.ty.get())
}

/// A variable in its place among variables in order.
fn placed(alloc: Global, variable: &TypedVar, list: &[TypedVar]) -> Result<TypedVars, AllocError>
    ensures { IfOk result (λ made. made ≡ placed variable.now list.now) }
{
    let mut before = Items::new(alloc);
    for i in 0..list.len() {
        let other = &list[i];
        if comes_before(variable.var.get(), other.var.get()) {
            before.push(shared_variable(variable)?)?;
            return with_variables(before, &list[i..]);
        }
        if is_same(variable, other) {
            return with_variables(before, &list[i..]);
        }
        before.push(shared_variable(other)?)?;
    }
    before.push(shared_variable(variable)?)?;
    Ok(before)
}

/// Variables in their places among variables in order.
pub fn joined(alloc: Global, list: &[TypedVar], ordered: TypedVars) -> Result<TypedVars, AllocError>
    ensures { IfOk result (λ made. made ≡ joined list.now ordered) }
{
    let mut all = ordered;
    for k in 0..list.len() {
        let at = list.len() - 1 - k;
        all = placed(alloc, &list[at], all.as_slice())?;
    }
    Ok(all)
}
