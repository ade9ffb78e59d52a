// Types.
#![tactic(auto)]

ghost use Rattle.std.specs.Prelude.{◌≡◌, map, codes, OnOk};
ghost use Rattle.gb_print_names.specs.Text.{separated};
ghost use Rattle.gb_print_names.specs.Types.{type_text, type_part, type_operand, operand};

use crate::bound_names::Known;
use crate::place::put_module_name;
use crate::text::Text;
use gb_core::Stack;
use gb_core::ty::Ty;
use std::alloc::{AllocError, Global};

fn is_product(t: &Ty) -> bool
    ensures { result ≡ (type_part t.now).0 }
{
    matches!(t, Ty::Tuple(_))
}

/// A type.
#[cycle(types)]
pub fn put_type(
    alloc: Global,
    text: &mut Text,
    bound: &Stack<Known>,
    t: &Ty,
) -> Result<(), AllocError>
    ensures { OnOk result (text.new ≡ type_text t.now bound.now text.old) }
{
    match t {
        Ty::Unit => text.put("unit"),
        Ty::Bool => text.put("bool"),
        Ty::Int => text.put("int"),
        Ty::Real => text.put("real"),
        Ty::Bits(n) => {
            text.put("bits ")?;
            text.put_number(alloc, *n as u128)
        }
        Ty::Mod(n) => {
            text.put("int[")?;
            text.put_number(alloc, *n as u128)?;
            text.put("]")
        }
        Ty::Enumeration { name, .. } | Ty::Abstract(name) => text.put(name.as_str()),
        Ty::Tuple(parts) => put_product(alloc, text, bound, parts.as_slice()),
        Ty::Opt(inner) => {
            put_type_operand(alloc, text, bound, inner.get())?;
            text.put(" option")
        }
        Ty::Map(key, value) => {
            text.put("(")?;
            put_type(alloc, text, bound, key.get())?;
            text.put(", ")?;
            put_type(alloc, text, bound, value.get())?;
            text.put(") fmap")
        }
        Ty::Glob(module) => {
            text.put("glob ")?;
            put_module_name(text, bound, module)
        }
        Ty::Distr(inner) => {
            put_type_operand(alloc, text, bound, inner.get())?;
            text.put(" distr")
        }
    }
}

/// A type, in brackets where it is one of tuples.
#[cycle(types)]
pub fn put_type_operand(
    alloc: Global,
    text: &mut Text,
    bound: &Stack<Known>,
    t: &Ty,
) -> Result<(), AllocError>
    ensures { OnOk result (text.new ≡ type_operand t.now bound.now text.old) }
{
    if !is_product(t) {
        return put_type(alloc, text, bound, t);
    }
    text.put("(")?;
    put_type(alloc, text, bound, t)?;
    text.put(")")
}

#[cycle(types)]
fn put_product(
    alloc: Global,
    text: &mut Text,
    bound: &Stack<Known>,
    parts: &[Ty],
) -> Result<(), AllocError>
    ensures { OnOk result (text.new ≡ separated (codes " * ") (λ t. operand t bound.now) (map type_part parts.now) text.old) }
{
    let [first, rest @ ..] = parts else {
        return Ok(());
    };
    put_type_operand(alloc, text, bound, first)?;
    for part in rest {
        text.put(" * ")?;
        put_type_operand(alloc, text, bound, part)?;
    }
    Ok(())
}
