// Entries of a map, in the order of their keys.

ghost use Rattle.std.specs.Prelude.{◌≡◌, ◌≤◌, ◌<◌, ◌++◌, ◌∷◌, [], true, length, take, drop, get_or, OnOk, IfOk};
ghost use Rattle.gb_core.specs.declared.value.Value.{Value};
ghost use Rattle.gb_core.specs.declared.value.Value.TheVariants.{Many};
ghost use Rattle.gb_core.specs.Numbering.{key_of};
ghost use Rattle.gb_core.specs.Types.{numbering, place_of};
ghost use Rattle.gb_meaning.specs.Operators.{entry_set};
ghost use Rattle.gb_labels.specs.Keys.{are_keys, is_key};

use crate::keys::{entry_place, key_place};
use gb_core::ty::Ty;
use gb_core::value::{Value, Values};
use sqlite_items::Items;
use std::alloc::{AllocError, Global};

/// How many entries stand before a key.
fn before(entries: &[Value], ty: &Ty, place: u64) -> usize
    requires { are_keys ty.now entries.now ≡ true }
    ensures within { result ≤ length entries.now }
    ensures passed { (k v : Value) → place_of ty.now k ≡ place →
        entry_set (numbering ty.now) entries.now k v ≡ take result entries.now ++ entry_set (numbering ty.now) (drop result entries.now) k v }
    ensures stopped { (p : Value) → result < length entries.now → place ≤ place_of ty.now (key_of (get_or entries.now result p)) }
{
    let mut at = 0;
    while at < entries.len() && entry_place(ty, &entries[at]) < place {
        at += 1;
    }
    at
}

/// How many entries stand before those behind a key, of which so many stand before it.
fn behind(entries: &[Value], ty: &Ty, at: usize, place: u64) -> usize
    requires keys { are_keys ty.now entries.now ≡ true }
    requires within { at ≤ length entries.now }
    requires stopped { (p : Value) → at < length entries.now → place ≤ place_of ty.now (key_of (get_or entries.now at p)) }
    ensures within { result ≤ length entries.now }
    ensures set { (k v : Value) → place_of ty.now k ≡ place →
        entry_set (numbering ty.now) (drop at entries.now) k v ≡ Many (k ∷ v ∷ []) ∷ drop result entries.now }
{
    if at < entries.len() && entry_place(ty, &entries[at]) == place {
        at + 1
    } else {
        at
    }
}

fn push_all(out: &mut Values, entries: &[Value]) -> Result<(), AllocError>
    ensures { OnOk result (out.new ≡ out.old ++ entries.now) }
{
    for entry in entries {
        out.push(entry.share()?)?;
    }
    Ok(())
}

fn entry(alloc: Global, key: Value, v: Value) -> Result<Value, AllocError>
    ensures { IfOk result (λ made. made ≡ Many (key ∷ v ∷ [])) }
{
    let mut parts = Items::new(alloc);
    parts.push(key)?;
    parts.push(v)?;
    Value::of_parts(alloc, parts)
}

/// The entries of a map, whose keys are of this type, with a value for a key, in the order of the type's values.
pub fn entry_set(
    alloc: Global,
    ty: &Ty,
    entries: &[Value],
    key: Value,
    v: Value,
) -> Result<Values, AllocError>
    requires key { is_key ty.now key ≡ true }
    requires entries { are_keys ty.now entries.now ≡ true }
    ensures { IfOk result (λ out. out ≡ entry_set (numbering ty.now) entries.now key v) }
{
    let place = key_place(ty, &key);
    let before = before(entries, ty, place);
    let behind = behind(entries, ty, before, place);
    let mut out = Items::new(alloc);
    push_all(&mut out, &entries[..before])?;
    out.push(entry(alloc, key, v)?)?;
    push_all(&mut out, &entries[behind..])?;
    Ok(out)
}
