// Maps with a value for a key.

ghost use Rattle.gb_eval.specs.Findings.{Gives, shown};
ghost use Rattle.gb_eval.specs.Operators.{updated, with_entry};

use crate::answer::{Answer, Stop, value_in};
use gb_core::index::parts;
use gb_core::ty::Ty;
use gb_core::value::Value;
use gb_labels::entries::entry_set;
use gb_labels::keys::{are_keys, is_key};
use std::alloc::Global;

/// The map of entries with a value for a key, in the order of the values of the type of the keys, where each key has a place in that.
fn with_entry(
    alloc: Global,
    ty: &Ty,
    entries: &[Value],
    key: Value,
    v: Value,
) -> Result<Answer, Stop>
    ensures { Gives shown (with_entry ty.now entries.now key v) result }
{
    let Ty::Map(keys, _) = ty else {
        return Err(Stop::Unknown);
    };
    let keys = keys.get();
    if !is_key(keys, &key) || !are_keys(keys, entries) {
        return Err(Stop::Unknown);
    }
    let entries = entry_set(alloc, keys, entries, key, v)?;
    let value = Value::of_parts(alloc, entries)?;
    Ok(Answer::Value(value))
}

/// A map with a value for a key.
pub fn updated(alloc: Global, ty: &Ty, map: Answer, key: Answer, v: Answer) -> Result<Answer, Stop>
    ensures { Gives shown (updated ty.now (shown map) (shown key) (shown v)) result }
{
    let map = value_in(map)?;
    let key = value_in(key)?;
    let v = value_in(v)?;
    with_entry(alloc, ty, parts(&map), key, v)
}
