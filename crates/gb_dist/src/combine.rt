// The product of two tables.

ghost use Rattle.std.specs.Prelude.{◌≡◌, ◌<◌, ◌^◌, ◌*◌, ◌++◌, ◌∷◌, [], IfOk, pos};
ghost use Rattle.gb_core.specs.declared.value.Value.TheVariants.{Many};
ghost use Rattle.gb_dist.specs.Operations.{product_of};
ghost use Rattle.gb_dist.specs.Lists.{paired, product};
ghost use Rattle.gb_dist.specs.Rows.{entries, pairing_steps, product_steps, weight_of};
ghost use Rattle.gb_dist.specs.Tables.{Gives, GivesRows};

use crate::number::times;
use crate::row::{Row, Rows};
use crate::table::Table;
use gb_core::refusal::Refused;
use gb_core::value::Value;
use sqlite_items::Items;
use std::alloc::{AllocError, Global};

fn pair(alloc: Global, left: &Value, right: &Value) -> Result<Value, AllocError>
    ensures { IfOk result (λ v. v ≡ Many (left.now ∷ right.now ∷ [])) }
{
    let mut parts = Items::new(alloc);
    parts.push(left.share()?)?;
    parts.push(right.share()?)?;
    Value::of_parts(alloc, parts)
}

/// The pairs of the value of one row with those of others, with the products of their weights.
fn paired(alloc: Global, left: &Row, right: &[Row]) -> Result<Rows, Refused>
    requires left { left.now.weight < 2 ^ 127 }
    requires right { weight_of right.now < 2 ^ 127 }
    ensures { GivesRows (pairing_steps left.now.weight (entries right.now)) (paired (left.now.value, left.now.weight) (entries right.now)) result }
{
    let mut out = Items::new(alloc);
    for row in right {
        let weight = times(left.weight, row.weight)?;
        let value = pair(alloc, &left.value, &row.value)?;
        out.push(Row { value, weight })?;
    }
    Ok(out)
}

/// The distribution of pairs of independent values.
///
/// # Errors
/// The first product out of range: those of the weights in the order of the pairs, the product of the denominators last.
pub fn product(alloc: Global, a: &Table, b: &Table) -> Result<Table, Refused>
    ensures { let os = product_steps (entries a.now.rows) (entries b.now.rows) ++ product_of (pos a.now.total) (pos b.now.total) ∷ [] in
        Gives os (a.now.total * b.now.total) (product (entries a.now.rows) (entries b.now.rows)) result }
{
    let mut rows = Items::new(alloc);
    for row in a.rows.as_slice() {
        rows.append(paired(alloc, row, b.rows.as_slice())?)?;
    }
    let total = times(a.total, b.total)?;
    Ok(Table { total, rows })
}
