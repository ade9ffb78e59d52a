// Rows in the order of the values of a type.

ghost use Rattle.std.specs.Prelude.{◌≡◌, ◌≢◌, ℕ, ◌<◌, ◌≤◌, ◌^◌, ◌*◌, ◌+◌, length, drop, slice_index_or, true, IfOk, All};
ghost use Rattle.std.specs.List.{sum_by};
ghost use Rattle.std.specs.List.Sorted.{IsNonDecreasingBy};
ghost use Rattle.gb_core.specs.declared.value.Value.{Value};
ghost use Rattle.gb_core.specs.Types.{place_of, value_at};
ghost use Rattle.gb_dist.specs.WeightedList.{mass};
ghost use Rattle.gb_dist.specs.Lists.{IsIncreasing};
ghost use Rattle.gb_dist.specs.Rows.{are_positive, entries, weight_of};
ghost use Rattle.gb_dist.specs.Places.{ArePlaced, ArePlacedBy, AreSameAtPlaces, IsGathered, IsPlaced, is_glob, outcomes, placed_mass, places};

use crate::row::{Row, Rows};
use gb_core::index::index;
use gb_core::ty::Ty;
use gb_core::value::Value;
use sqlite_items::Items;
use std::alloc::{AllocError, Global};

/// A row with the place of its value.
#[derive(Drop)]
pub struct Placed {
    pub place: u64,
    pub value: Value,
    pub weight: u128,
}

fn is_glob(ty: &Ty) -> bool
    ensures { result ≡ is_glob ty.now }
{
    matches!(ty, Ty::Glob(_))
}

/// The place of a value in the order of a type; of a label, its number.
pub fn place(ty: &Ty, v: &Value) -> u64
    requires { IsPlaced ty.now v.now }
    ensures place { result ≡ place_of ty.now v.now }
    ensures back { value_at ty.now result ≡ v.now }
{
    if !is_glob(ty) {
        return index(ty, v);
    }
    match v {
        Value::Num(n) => *n,
        Value::Many(_) => 0,
    }
}

/// Where the rows end that have the place of this one, and the sum of their weights.
fn run(list: &[Placed], from: usize) -> (usize, u128)
    requires within { from < length list.now }
    requires same { AreSameAtPlaces list.now }
    requires above { All (λ p. 0 < p.weight) list.now }
    requires small { placed_mass (λ v. 1) list.now < 2 ^ 127 }
    ensures next { from < result.0 }
    ensures last { result.0 ≤ length list.now }
    ensures apart { (d : Placed) → result.0 < length list.now →
        (slice_index_or list.now result.0 d).place ≢ (slice_index_or list.now from d).place }
    ensures above { 0 < result.1 }
    ensures mass { (f : Value → ℕ) (d : Placed) →
        result.1 * f (slice_index_or list.now from d).value + placed_mass f (drop result.0 list.now) ≡ placed_mass f (drop from list.now) }
{
    let mut end = from + 1;
    let mut weight = list[from].weight;
    while end < list.len() && list[end].place == list[from].place {
        weight += list[end].weight;
        end += 1;
    }
    (end, weight)
}

/// One row for each value, with the sum of its weights.
fn merged(alloc: Global, list: &[Placed]) -> Result<Rows, AllocError>
    requires same { AreSameAtPlaces list.now }
    requires above { All (λ p. 0 < p.weight) list.now }
    requires small { placed_mass (λ v. 1) list.now < 2 ^ 127 }
    requires sorted { IsNonDecreasingBy (λ p. p.place) list.now }
    ensures mass { IfOk result (λ rs. (f : Value → ℕ) → mass (entries rs) f ≡ placed_mass f list.now) }
    ensures positive { IfOk result (λ rs. are_positive rs ≡ true) }
    ensures increasing { IfOk result (λ rs. (p : Value → ℕ) → ArePlacedBy p list.now → IsIncreasing (places p (entries rs))) }
{
    let mut rows = Items::new(alloc);
    let mut at = 0;
    while at < list.len() {
        let (end, weight) = run(list, at);
        let value = list[at].value.share()?;
        rows.push(Row { value, weight })?;
        at = end;
    }
    Ok(rows)
}

/// The rows in the order of the values of a type, one for each value, with the sum of its weights.
pub fn gathered(alloc: Global, ty: &Ty, rows: &[Row]) -> Result<Rows, AllocError>
    requires placed { ArePlaced ty.now (outcomes (entries rows.now)) }
    requires positive { are_positive rows.now ≡ true }
    requires small { weight_of rows.now < 2 ^ 127 }
    ensures { IfOk result (IsGathered ty.now (entries rows.now)) }
{
    let mut list = Vec::new(alloc);
    for row in rows {
        let value = row.value.share()?;
        list.push(Placed {
            place: place(ty, &row.value),
            value,
            weight: row.weight,
        })?;
    }
    list.sort_by_key(|p| p.place)?;
    merged(alloc, list.as_slice())
}
