// Tables whose rows are put in the order of a type.

ghost use Rattle.std.specs.Prelude.{◌≡◌, ◌<◌, ◌^◌, [], length, true, All, IfOk};
ghost use Rattle.gb_dist.specs.Gathered.{GivesGathered, GivesSum};
ghost use Rattle.gb_dist.specs.Lists.{imaged};
ghost use Rattle.gb_dist.specs.Places.{ArePlaced, outcomes};
ghost use Rattle.gb_dist.specs.Rows.{adding_steps, are_positive, entries, weight_of};

use crate::number::plus;
use crate::row::{Row, Rows};
use crate::sort::gathered;
use crate::table::Table;
use gb_core::refusal::Refused;
use gb_core::ty::Ty;
use gb_core::value::Value;
use sqlite_items::Items;
use std::alloc::{AllocError, Global};

fn sum_of(rows: &[Row]) -> Result<u128, Refused>
    requires { All (λ r. r.weight < 2 ^ 127) rows.now }
    ensures gives { GivesSum (adding_steps 0 (entries rows.now)) (weight_of rows.now) result }
    ensures below { IfOk result (λ n. n < 2 ^ 127) }
{
    let mut total = 0;
    for row in rows {
        total = plus(total, row.weight)?;
    }
    Ok(total)
}

/// The distribution of stated weights, over their sum.
///
/// # Errors
/// The first sum out of range, in the order in which the weights are given.
pub fn weights(alloc: Global, rows: &[Row], ty: &Ty) -> Result<Table, Refused>
    requires placed { ArePlaced ty.now (outcomes (entries rows.now)) }
    requires positive { are_positive rows.now ≡ true }
    requires small { All (λ r. r.weight < 2 ^ 127) rows.now }
    ensures { GivesGathered (adding_steps 0 (entries rows.now)) (weight_of rows.now) ty.now (entries rows.now) result }
{
    let total = sum_of(rows)?;
    let rows = gathered(alloc, ty, rows)?;
    Ok(Table { total, rows })
}

/// Rows with an image in the place of each value, given in order.
pub fn imaged(alloc: Global, images: &[Value], rows: &[Row]) -> Result<Rows, AllocError>
    requires { length images.now ≡ length rows.now }
    ensures { IfOk result (λ out. entries out ≡ imaged images.now (entries rows.now)) }
{
    let mut out = Items::new(alloc);
    for at in 0..rows.len() {
        let row = &rows[at];
        let value = images[at].share()?;
        out.push(Row {
            value,
            weight: row.weight,
        })?;
    }
    Ok(out)
}

/// The distribution of the image of a value, over the same denominator: an image has the sum of the weights of its sources.
pub fn dmap(alloc: Global, d: &Table, images: &[Value], ty: &Ty) -> Result<Table, Refused>
    requires placed { ArePlaced ty.now images.now }
    requires one_a_row { length images.now ≡ length d.now.rows }
    ensures { GivesGathered [] d.now.total ty.now (imaged images.now (entries d.now.rows)) result }
{
    let rows = imaged(alloc, images, d.rows.as_slice())?;
    let rows = gathered(alloc, ty, rows.as_slice())?;
    Ok(Table {
        total: d.total,
        rows,
    })
}
