// The place of a value in its type.

ghost use Rattle.std.specs.Prelude.{◌≡◌, ◌^◌, ◌*◌, ◌+◌, ◌-◌, ◌<◌, IsTrue, map};
ghost use Rattle.gb_core.specs.Numbering.{tuples, tuple_place, is_tuple, option_place, is_option, entry_place, is_entry, entries_place, are_entries, choices, number_of, parts_of};
ghost use Rattle.gb_core.specs.Types.{IsValue, numbering, size_of, value_at, place_of};

use crate::size::{MANY, power, size};
use crate::ty::Ty;
use crate::value::Value;

/// The place of a value of a type, counted from 0 in the order of the type's values.
pub fn index(ty: &Ty, v: &Value) -> u64
    requires { IsValue ty.now v.now }
    ensures place { result ≡ place_of ty.now v.now }
    ensures below { result < size_of ty.now }
    ensures back { value_at ty.now result ≡ v.now }
{
    place(ty, v)
}

#[cycle(place)]
fn place(ty: &Ty, v: &Value) -> u64
    requires value { IsTrue ((numbering ty.now).has v.now) }
    requires exact { size_of ty.now < 2 ^ 63 }
    ensures { result ≡ place_of ty.now v.now }
{
    match ty {
        Ty::Tuple(types) => place_of_tuple(types.as_slice(), parts(v)),
        Ty::Opt(inner) => place_of_option(inner.get(), parts(v)),
        Ty::Map(key, value) => place_of_map(key.get(), value.get(), parts(v)),
        _ => number(v),
    }
}

/// The number that a value is, 0 for a value of parts.
pub fn number(v: &Value) -> u64
    ensures { result ≡ number_of v.now }
{
    match v {
        Value::Num(n) => *n,
        Value::Many(_) => 0,
    }
}

/// The parts of a value, none of a number.
pub fn parts(v: &Value) -> &[Value]
    ensures { result.now ≡ parts_of v.now }
{
    match v {
        Value::Num(_) => &[],
        Value::Many(list) => list.as_slice(),
    }
}

#[cycle(place)]
fn place_of_tuple(types: &[Ty], values: &[Value]) -> u64
    requires values { IsTrue (is_tuple (map numbering types.now) values.now) }
    requires exact { tuples (map numbering types.now) < 2 ^ 63 }
    ensures { result ≡ tuple_place (map numbering types.now) values.now }
{
    let mut at = 0;
    for i in 0..types.len() {
        let ty = &types[i];
        let rest = place(ty, &values[i]);
        at = at * size(ty) + rest;
    }
    at
}

#[cycle(place)]
fn place_of_option(inner: &Ty, values: &[Value]) -> u64
    requires value { IsTrue (is_option (numbering inner.now) values.now) }
    requires exact { size_of inner.now + 1 < 2 ^ 63 }
    ensures { result ≡ option_place (numbering inner.now) values.now }
{
    if values.is_empty() {
        0
    } else {
        1 + place(inner, &values[0])
    }
}

#[cycle(place)]
fn place_of_map(key: &Ty, value: &Ty, entries: &[Value]) -> u64
    requires entries { IsTrue (are_entries (numbering key.now) (numbering value.now) 0 entries.now) }
    requires exact { choices (numbering value.now) ^ size_of key.now < 2 ^ 63 }
    ensures { result ≡ entries_place (numbering key.now) (numbering value.now) entries.now }
{
    let mut at = 0;
    for entry in entries {
        at += place_of_entry(key, value, entry);
    }
    at
}

/// What an entry adds to the place of its map.
#[cycle(place)]
fn place_of_entry(key: &Ty, value: &Ty, entry: &Value) -> u64
    requires entry { IsTrue (is_entry (numbering key.now) (numbering value.now) entry.now) }
    requires exact { choices (numbering value.now) ^ size_of key.now < 2 ^ 63 }
    ensures { result ≡ entry_place (numbering key.now) (numbering value.now) entry.now }
{
    let pair = parts(entry);
    let choice = 1 + place(value, &pair[1]);
    let later = size(key) - 1 - place(key, &pair[0]);
    choice * power((size(value) + 1).min(MANY), later)
}
