// Memories of which some variables are known.

ghost use Rattle.std.specs.Prelude.{◌≡◌, IfOk};
ghost use Rattle.std.specs.Option.{option_copied};
ghost use Rattle.gb_labels.specs.Held.{is_of, value_of, with_values};

use crate::reads::{TypedVar, is_read_at};
use gb_core::Shared;
use gb_core::ty::Ty;
use gb_core::value::Value;
use gb_core::var::Var;
use sqlite_items::Items;
use std::alloc::{AllocError, Global};

/// A variable of a memory, at the type at which it is read, with its value.
#[derive(Drop)]
pub struct Held {
    pub var: Shared<Var>,
    pub ty: Shared<Ty>,
    pub value: Value,
}

pub type HeldValues = Items<Held>;

fn known(variable: &TypedVar, value: &Value) -> Result<Held, AllocError>
    ensures { IfOk result (λ made. made ≡ record { var = variable.now.var; ty = variable.now.ty; value = value.now }) }
{
    let var = variable.var.share()?;
    let ty = variable.ty.share()?;
    let value = value.share()?;
    Ok(Held { var, ty, value })
}

/// Variables with values, in order, as far as there are both.
pub fn with_values(
    alloc: Global,
    variables: &[TypedVar],
    values: &[Value],
) -> Result<HeldValues, AllocError>
    ensures { IfOk result (λ made. made ≡ with_values variables.now values.now) }
{
    let mut out = Items::new(alloc);
    for i in 0..variables.len().min(values.len()) {
        out.push(known(&variables[i], &values[i])?)?;
    }
    Ok(out)
}

/// Whether this is the variable at the type.
fn is_of(entry: &Held, var: &Var, ty: &Ty) -> bool
    ensures { result ≡ is_of entry.now var.now ty.now }
{
    is_read_at(entry.var.get(), entry.ty.get(), var, ty)
}

/// The value of a variable at a type, where it is known.
pub fn value_of<'a>(list: &'a [Held], var: &Var, ty: &Ty) -> Option<&'a Value>
    ensures { option_copied result ≡ value_of list.now var.now ty.now }
{
    for entry in list {
        if is_of(entry, var, ty) {
            return Some(&entry.value);
        }
    }
    None
}
