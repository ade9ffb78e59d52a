// Tables of the basic distributions.

ghost use Rattle.std.specs.Prelude.{◌≡◌, ◌≤◌, [], ◌∷◌};
ghost use Rattle.gb_core.specs.Types.{IsExact, card_of, numbering, size_of};
ghost use Rattle.gb_dist.specs.WeightedList.{unit};
ghost use Rattle.gb_dist.specs.Lists.{coin, uniform};
ghost use Rattle.gb_dist.specs.Tables.{Gives};

use crate::row::Row;
use crate::table::Table;
use gb_core::nth::nth;
use gb_core::refusal::Refused;
use gb_core::size::size;
use gb_core::ty::Ty;
use gb_core::value::Value;
use sqlite_items::Items;
use std::alloc::Global;

/// The fair coin.
pub fn coin(alloc: Global) -> Result<Table, Refused>
    ensures { Gives [] 2 coin result }
{
    let mut rows = Items::new(alloc);
    rows.push(Row {
        value: Value::Num(0),
        weight: 1,
    })?;
    rows.push(Row {
        value: Value::Num(1),
        weight: 1,
    })?;
    Ok(Table { total: 2, rows })
}

/// One value alone.
pub fn dunit(alloc: Global, v: &Value) -> Result<Table, Refused>
    ensures { Gives [] 1 (unit v.now) result }
{
    let mut rows = Items::new(alloc);
    rows.push(Row {
        value: v.share()?,
        weight: 1,
    })?;
    Ok(Table { total: 1, rows })
}

/// Each value of a type, with equal weights.
pub fn uniform(alloc: Global, ty: &Ty) -> Result<Table, Refused>
    requires exact { IsExact (card_of ty.now) }
    requires few { size_of ty.now ≤ 65536 }
    ensures { Gives [] (size_of ty.now) (uniform (numbering ty.now)) result }
{
    let count = size(ty);
    let mut rows = Items::new(alloc);
    for at in 0..count {
        rows.push(Row {
            value: nth(alloc, ty, at)?,
            weight: 1,
        })?;
    }
    Ok(Table {
        total: u128::from(count),
        rows,
    })
}
