// Whether values are of a type.

ghost use Rattle.std.specs.Prelude.{◌≡◌, ◌^◌, ◌<◌, ◌&&◌, ◌==◌, true, map, Some, None};
ghost use Rattle.gb_core.specs.Numbering.{are_entries, choices, is_entry, is_many, is_option, is_tuple, numbers, tuples};
ghost use Rattle.gb_core.specs.Types.{all_true, is_finite, numbering, size_of};
ghost use Rattle.gb_closing.specs.Entries.{behind_key};

use gb_core::index::{index, parts};
use gb_core::size::size;
use gb_core::ty::Ty;
use gb_core::value::Value;

/// Whether a value is a number below another one.
fn is_below(v: &Value, count: u64) -> bool
    ensures { result ≡ (numbers count).has v.now }
{
    match v {
        Value::Num(n) => *n < count,
        Value::Many(_) => false,
    }
}

fn is_many(v: &Value) -> bool
    ensures { result ≡ is_many v.now }
{
    matches!(v, Value::Many(_))
}

/// Whether a value is one of a type of fewer than 2^63 values.
#[cycle(has)]
pub fn has(ty: &Ty, v: &Value) -> bool
    requires finite { is_finite ty.now ≡ true }
    requires small { size_of ty.now < 2 ^ 63 }
    ensures { result ≡ (numbering ty.now).has v.now }
{
    if size(ty) == 0 {
        return false;
    }
    match ty {
        Ty::Tuple(types) => is_many(v) && has_parts(types.as_slice(), parts(v)),
        Ty::Opt(inner) => is_many(v) && has_option(inner.get(), parts(v)),
        Ty::Map(key, value) => is_many(v) && has_entries(key.get(), value.get(), parts(v)),
        _ => is_below(v, size(ty)),
    }
}

/// Whether the parts of a tuple are of their types.
#[cycle(has)]
fn has_parts(types: &[Ty], values: &[Value]) -> bool
    requires finite { all_true (map is_finite types.now) ≡ true }
    requires some { 0 < tuples (map numbering types.now) }
    requires small { tuples (map numbering types.now) < 2 ^ 63 }
    ensures { result ≡ is_tuple (map numbering types.now) values.now }
{
    if types.len() != values.len() {
        return false;
    }
    for i in 0..types.len() {
        if !has(&types[i], &values[i]) {
            return false;
        }
    }
    true
}

/// Whether what stands in an option is of its type.
#[cycle(has)]
fn has_option(inner: &Ty, values: &[Value]) -> bool
    requires finite { is_finite inner.now ≡ true }
    requires small { size_of inner.now < 2 ^ 63 }
    ensures { result ≡ is_option (numbering inner.now) values.now }
{
    match values {
        [] => true,
        [value] => has(inner, value),
        _ => false,
    }
}

/// Whether a value is a key of its type with a value of its type.
#[cycle(has)]
fn has_entry(key: &Ty, value: &Ty, entry: &Value) -> bool
    requires key { is_finite key.now ≡ true }
    requires value { is_finite value.now ≡ true }
    requires keys { size_of key.now < 2 ^ 63 }
    requires values { size_of value.now < 2 ^ 63 }
    ensures { result ≡ is_entry (numbering key.now) (numbering value.now) entry.now }
{
    match parts(entry) {
        [k, v] => has(key, k) && has(value, v),
        _ => false,
    }
}

/// The place behind the key of an entry, where it is an entry whose key doesn't stand before a place.
#[cycle(has)]
fn behind_key(key: &Ty, value: &Ty, entry: &Value, from: u64) -> Option<u64>
    requires key { is_finite key.now ≡ true }
    requires value { is_finite value.now ≡ true }
    requires keys { size_of key.now < 2 ^ 63 }
    requires values { size_of value.now < 2 ^ 63 }
    ensures { result ≡ behind_key (numbering key.now) (numbering value.now) from entry.now }
{
    if !has_entry(key, value, entry) {
        return None;
    }
    let place = index(key, &parts(entry)[0]);
    if from <= place { Some(place + 1) } else { None }
}

/// Whether entries are of a map, with their keys in order.
#[cycle(has)]
fn has_entries(key: &Ty, value: &Ty, entries: &[Value]) -> bool
    requires key { is_finite key.now ≡ true }
    requires value { is_finite value.now ≡ true }
    requires small { choices (numbering value.now) ^ size_of key.now < 2 ^ 63 }
    ensures { result ≡ are_entries (numbering key.now) (numbering value.now) 0 entries.now }
{
    if size(key) == 0 || size(value) == 0 {
        return entries.is_empty();
    }
    let mut from = 0;
    for entry in entries {
        match behind_key(key, value, entry, from) {
            Some(next) => from = next,
            None => return false,
        }
    }
    true
}
