// Literals.

ghost use Rattle.std.specs.Prelude.{◌≡◌, map, codes, OnOk};
ghost use Rattle.std.specs.List.{slice_get};
ghost use Rattle.gb_print_names.specs.Names.{perhaps};
ghost use Rattle.gb_print_names.specs.Text.{separated};
ghost use Rattle.gb_print.specs.Layout.{numeral, value_text, literal, outcome, weighted};

use gb_core::name::Name;
use gb_core::ty::Ty;
use gb_core::value::Value;
use gb_print_names::bound_names::Enumeration;
use gb_print_names::place::constants;
use gb_print_names::text::Text;
use gb_terms::term::Pair;
use std::alloc::{AllocError, Global};

/// The constant of this number.
fn put_constant(text: &mut Text, constants: &[Name], n: u64) -> Result<(), AllocError>
    ensures { OnOk result (text.new ≡ perhaps (slice_get constants.now n) text.old) }
{
    match constants.get(n as usize) {
        Some(constant) => text.put(constant.as_str()),
        None => Ok(()),
    }
}

/// A number as a value of a type.
fn put_numeral(
    alloc: Global,
    text: &mut Text,
    enumerations: &[Enumeration],
    t: &Ty,
    n: u64,
) -> Result<(), AllocError>
    ensures { OnOk result (text.new ≡ numeral enumerations.now t.now n text.old) }
{
    match t {
        Ty::Unit => text.put("tt"),
        Ty::Bool => text.put(if n == 0 { "false" } else { "true" }),
        Ty::Enumeration { name, .. } => put_constant(text, constants(enumerations, name), n),
        _ => text.put_number(alloc, n as u128),
    }
}

/// A value by its numbers alone.
#[cycle(value)]
fn put_value(alloc: Global, text: &mut Text, value: &Value) -> Result<(), AllocError>
    ensures { OnOk result (text.new ≡ value_text value.now text.old) }
{
    match value {
        Value::Num(n) => text.put_number(alloc, *n as u128),
        Value::Many(parts) => {
            text.put("(")?;
            put_values(alloc, text, parts.as_slice())?;
            text.put(")")
        }
    }
}

#[cycle(value)]
fn put_values(alloc: Global, text: &mut Text, list: &[Value]) -> Result<(), AllocError>
    ensures { OnOk result (text.new ≡ separated (codes ", ") (λ w. w) (map value_text list.now) text.old) }
{
    let [first, rest @ ..] = list else {
        return Ok(());
    };
    put_value(alloc, text, first)?;
    for value in rest {
        text.put(", ")?;
        put_value(alloc, text, value)?;
    }
    Ok(())
}

/// A literal of a type.
pub fn put_literal(
    alloc: Global,
    text: &mut Text,
    enumerations: &[Enumeration],
    t: &Ty,
    value: &Value,
) -> Result<(), AllocError>
    ensures { OnOk result (text.new ≡ literal enumerations.now t.now value.now text.old) }
{
    match value {
        Value::Num(n) => put_numeral(alloc, text, enumerations, t, *n),
        Value::Many(_) => put_value(alloc, text, value),
    }
}

/// The type of what a distribution gives.
pub fn outcome(t: &Ty) -> &Ty
    ensures { result.now ≡ outcome t.now }
{
    match t {
        Ty::Distr(inner) => inner.get(),
        _ => t,
    }
}

fn put_weighted(
    alloc: Global,
    text: &mut Text,
    enumerations: &[Enumeration],
    t: &Ty,
    pair: &Pair,
) -> Result<(), AllocError>
    ensures { OnOk result (text.new ≡ weighted enumerations.now t.now pair.now text.old) }
{
    put_literal(alloc, text, enumerations, t, &pair.value)?;
    text.put(" : ")?;
    text.put_number(alloc, pair.weight)
}

/// Values of a type with their weights.
pub fn put_weights(
    alloc: Global,
    text: &mut Text,
    enumerations: &[Enumeration],
    t: &Ty,
    pairs: &[Pair],
) -> Result<(), AllocError>
    ensures { OnOk result (text.new ≡ separated (codes "; ") (weighted enumerations.now t.now) pairs.now text.old) }
{
    let [first, rest @ ..] = pairs else {
        return Ok(());
    };
    put_weighted(alloc, text, enumerations, t, first)?;
    for pair in rest {
        text.put("; ")?;
        put_weighted(alloc, text, enumerations, t, pair)?;
    }
    Ok(())
}
