// The value at a place of a type.

ghost use Rattle.std.specs.Prelude.{◌≡◌, ◌^◌, ◌<◌, ◌-◌, ◌+◌, ◌≤◌, IfOk, map, [], ◌∷◌};
ghost use Rattle.gb_core.specs.Numbering.{tuples, tuple_at, option_at, entry_at, entries_at, choices};
ghost use Rattle.gb_core.specs.Types.{IsPlaceBelow, card_of, numbering, size_of, value_at};

use crate::size::{MANY, power, size, size_of_tuple};
use crate::ty::Ty;
use crate::value::{Value, Values};
use sqlite_items::Items;
use std::alloc::{AllocError, Global};

/// The value at a place, counted from 0 in the order of the type's values.
pub fn nth(alloc: Global, ty: &Ty, at: u64) -> Result<Value, AllocError>
    requires { IsPlaceBelow at (card_of ty.now) }
    ensures { IfOk result (λ v. v ≡ value_at ty.now at) }
{
    nth_below(alloc, ty, at)
}

#[cycle(nth)]
fn nth_below(alloc: Global, ty: &Ty, at: u64) -> Result<Value, AllocError>
    requires below { at < size_of ty.now }
    requires exact { size_of ty.now < 2 ^ 63 }
    ensures { IfOk result (λ v. v ≡ value_at ty.now at) }
{
    match ty {
        Ty::Tuple(parts) => Value::of_parts(alloc, nth_tuple(alloc, parts.as_slice(), at)?),
        Ty::Opt(inner) => Value::of_parts(alloc, nth_option(alloc, inner.get(), at)?),
        Ty::Map(key, value) => Value::of_parts(alloc, nth_map(alloc, key.get(), value.get(), at)?),
        _ => Ok(Value::Num(at)),
    }
}

/// The parts of the tuple at a place, the first part slowest.
#[cycle(nth)]
fn nth_tuple(alloc: Global, parts: &[Ty], at: u64) -> Result<Values, AllocError>
    requires below { at < tuples (map numbering parts.now) }
    requires exact { tuples (map numbering parts.now) < 2 ^ 63 }
    ensures { IfOk result (λ vs. vs ≡ tuple_at (map numbering parts.now) at) }
{
    let mut left = size_of_tuple(parts);
    let mut rest = at;
    let mut out = Items::new(alloc);
    for part in parts {
        left /= size(part);
        out.push(nth_below(alloc, part, rest / left)?)?;
        rest %= left;
    }
    Ok(out)
}

#[cycle(nth)]
fn nth_option(alloc: Global, inner: &Ty, at: u64) -> Result<Values, AllocError>
    requires below { at < size_of inner.now + 1 }
    requires exact { size_of inner.now + 1 < 2 ^ 63 }
    ensures { IfOk result (λ vs. vs ≡ option_at (numbering inner.now) at) }
{
    if at == 0 {
        return Ok(Items::new(alloc));
    }
    let value = nth_below(alloc, inner, at - 1)?;
    Ok(Items::from_vec(vec![in alloc; value]?))
}

/// The entries of the map at a place, the first key slowest.
#[cycle(nth)]
fn nth_map(alloc: Global, key: &Ty, value: &Ty, at: u64) -> Result<Values, AllocError>
    requires below { at < choices (numbering value.now) ^ size_of key.now }
    requires exact { choices (numbering value.now) ^ size_of key.now < 2 ^ 63 }
    ensures { IfOk result (λ vs. vs ≡ entries_at (numbering key.now) (numbering value.now) (size_of key.now) at) }
{
    let mut out = Items::new(alloc);
    let choices = (size(value) + 1).min(MANY);
    if choices == 1 {
        return Ok(out);
    }
    let keys = size(key);
    let mut left = power(choices, keys);
    let mut rest = at;
    for place in 0..keys {
        left /= choices;
        out.append(nth_entry(alloc, key, place, value, rest / left)?)?;
        rest %= left;
    }
    Ok(out)
}

/// The entry of the key at a place, where it has one: choice 0 is none, and the others are the values in order.
#[cycle(nth)]
fn nth_entry(
    alloc: Global,
    key: &Ty,
    place: u64,
    value: &Ty,
    choice: u64,
) -> Result<Values, AllocError>
    requires key { place < size_of key.now }
    requires keys { size_of key.now < 2 ^ 63 }
    requires value { choice < choices (numbering value.now) }
    requires values { choices (numbering value.now) < 2 ^ 63 }
    ensures { IfOk result (λ es. es ≡ entry_at (numbering key.now) (numbering value.now) place choice) }
{
    if choice == 0 {
        return Ok(Items::new(alloc));
    }
    let key = nth_below(alloc, key, place)?;
    let value = nth_below(alloc, value, choice - 1)?;
    let pair = Items::from_vec(vec![in alloc; key, value]?);
    let entry = Value::of_parts(alloc, pair)?;
    Ok(Items::from_vec(vec![in alloc; entry]?))
}
