// What a table gives values and events, and tables of parts of a table.

ghost use Rattle.std.specs.Prelude.{◌≡◌, ◌≤◌, ◌<◌, length, [], ◌∷◌, ◌++◌, ◌*◌, ◌^◌, pos};
ghost use Rattle.gb_core.specs.declared.value.Value.{Value};
ghost use Rattle.gb_dist.specs.WeightedList.{scale, total, weight_at};
ghost use Rattle.gb_dist.specs.Operations.{product_of};
ghost use Rattle.gb_dist.specs.Lists.{kept};
ghost use Rattle.gb_dist.specs.Rows.{entries, scaling_steps};
ghost use Rattle.gb_dist.specs.Tables.{Gives};

use crate::number::times;
use crate::row::Row;
use crate::table::Table;
use gb_core::refusal::Refused;
use gb_core::same::same_value;
use gb_core::value::Value;
use sqlite_items::Items;
use std::alloc::Global;

/// The weight of a value, 0 where the table doesn't have it.
pub fn weight(t: &Table, v: &Value) -> u128
    ensures value { (d : Discrete Value) → result ≡ weight_at d (entries t.now.rows) v.now }
    ensures within { result ≤ t.now.total }
{
    let mut sum = 0;
    for row in t.rows.as_slice() {
        if same_value(&row.value, v) {
            sum += row.weight;
        }
    }
    sum
}

/// The weight of the rows where an event is true.
pub fn mass(t: &Table, event: &[bool]) -> u128
    requires { length event.now ≡ length t.now.rows }
    ensures value { result ≡ total (kept event.now (entries t.now.rows)) }
    ensures within { result ≤ t.now.total }
{
    let rows = t.rows.as_slice();
    let mut sum = 0;
    for at in 0..rows.len() {
        let row = &rows[at];
        if event[at] {
            sum += row.weight;
        }
    }
    sum
}

/// The rows where an event is true, over the same denominator.
pub fn restrict(alloc: Global, d: &Table, event: &[bool]) -> Result<Table, Refused>
    requires { length event.now ≡ length d.now.rows }
    ensures { Gives [] d.now.total (kept event.now (entries d.now.rows)) result }
{
    let rows = d.rows.as_slice();
    let mut out = Items::new(alloc);
    for at in 0..rows.len() {
        let row = &rows[at];
        if event[at] {
            out.push(Row {
                value: row.value.share()?,
                weight: row.weight,
            })?;
        }
    }
    Ok(Table {
        total: d.total,
        rows: out,
    })
}

/// The distribution of a chosen side: its weights and its denominator times the denominator of the other side.
///
/// # Errors
/// The first product out of range, in the order of the rows, the denominator last.
pub fn choose(alloc: Global, chosen: &Table, other: u128) -> Result<Table, Refused>
    requires above { 0 < other }
    requires small { other < 2 ^ 127 }
    ensures { let os = scaling_steps (entries chosen.now.rows) other ++ product_of (pos chosen.now.total) (pos other) ∷ [] in
        Gives os (chosen.now.total * other) (scale other (entries chosen.now.rows)) result }
{
    let mut rows = Items::new(alloc);
    for row in chosen.rows.as_slice() {
        let weight = times(row.weight, other)?;
        rows.push(Row {
            value: row.value.share()?,
            weight,
        })?;
    }
    let total = times(chosen.total, other)?;
    Ok(Table { total, rows })
}
