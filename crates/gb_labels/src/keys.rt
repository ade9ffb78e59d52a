// Keys of maps.

ghost use Rattle.std.specs.Prelude.{◌≡◌, true};
ghost use Rattle.gb_core.specs.Numbering.{key_of};
ghost use Rattle.gb_core.specs.Types.{card_of, place_of};
ghost use Rattle.gb_labels.specs.Keys.{are_keys, is_among, is_key, is_of_numbers};

use gb_closing::members::has;
use gb_core::card::card;
use gb_core::index::{index, number, parts};
use gb_core::ty::Ty;
use gb_core::value::{Card, Value};

/// Whether the values of a type are numbers, each its own place.
fn is_of_numbers(ty: &Ty) -> bool
    ensures { result ≡ is_of_numbers ty.now }
{
    matches!(
        ty,
        Ty::Unit | Ty::Bool | Ty::Bits(_) | Ty::Mod(_) | Ty::Enumeration { .. }
    )
}

/// Whether a value is one of a type of fewer than 2^63 values.
fn is_among(ty: &Ty, v: &Value) -> bool
    ensures { result ≡ is_among (card_of ty.now) ty.now v.now }
{
    match card(ty) {
        Card::Exact(_) => has(ty, v),
        Card::Above => false,
    }
}

/// Whether a value has a place among the keys of a type: any has one where keys are numbers; else a value of the type has, where
/// these are fewer than 2^63.
pub fn is_key(ty: &Ty, key: &Value) -> bool
    ensures { result ≡ is_key ty.now key.now }
{
    is_of_numbers(ty) || is_among(ty, key)
}

/// Whether the key of an entry has a place among the keys of a type.
fn has_key(ty: &Ty, entry: &Value) -> bool
    ensures { result ≡ is_key ty.now (key_of entry.now) }
{
    match parts(entry) {
        [key, ..] => is_key(ty, key),
        [] => is_key(ty, &Value::Num(0)),
    }
}

/// Whether the keys of entries have places among the keys of a type.
pub fn are_keys(ty: &Ty, entries: &[Value]) -> bool
    ensures { result ≡ are_keys ty.now entries.now }
{
    for entry in entries {
        if !has_key(ty, entry) {
            return false;
        }
    }
    true
}

/// The place of a key among those of its type.
pub fn key_place(ty: &Ty, key: &Value) -> u64
    requires { is_key ty.now key.now ≡ true }
    ensures { result ≡ place_of ty.now key.now }
{
    if is_of_numbers(ty) {
        number(key)
    } else {
        index(ty, key)
    }
}

/// The place of the key of an entry among those of its type.
pub fn entry_place(ty: &Ty, entry: &Value) -> u64
    requires { is_key ty.now (key_of entry.now) ≡ true }
    ensures { result ≡ place_of ty.now (key_of entry.now) }
{
    match parts(entry) {
        [key, ..] => key_place(ty, key),
        [] => key_place(ty, &Value::Num(0)),
    }
}
