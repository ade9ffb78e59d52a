// Tables of stated weights and of images.

ghost use Rattle.std.specs.Prelude.{◌≡◌, length, IfOk};
ghost use Rattle.gb_dist.specs.Lists.{imaged};
ghost use Rattle.gb_dist.specs.Rows.{entries};
ghost use Rattle.gb_meaning.specs.Distributions.{stated};
ghost use Rattle.gb_eval.specs.Findings.{Gives, shown};
ghost use Rattle.gb_eval.specs.Eval.{weighted};

use crate::answer::{Answer, Stop};
use crate::total::weights_total;
use gb_core::value::Value;
use gb_dist::order;
use gb_dist::row::{Row, Rows};
use gb_dist::table::Table;
use gb_terms::term::Pair;
use sqlite_items::Items;
use std::alloc::{AllocError, Global};

/// Each outcome's image in its place, given in order: an image that has several sources stands in several rows.
pub fn imaged(alloc: Global, table: &Table, images: &[Value]) -> Result<Table, AllocError>
    requires { length images.now ≡ length table.now.rows }
    ensures { IfOk result (λ t. (t.total ≡ table.now.total) × (entries t.rows ≡ imaged images.now (entries table.now.rows))) }
{
    let rows = order::imaged(alloc, images, table.rows.as_slice())?;
    Ok(Table {
        total: table.total,
        rows,
    })
}

fn rows_of(alloc: Global, pairs: &[Pair]) -> Result<Rows, AllocError>
    ensures { IfOk result (λ rows. entries rows ≡ stated pairs.now) }
{
    let mut rows = Items::new(alloc);
    for pair in pairs {
        let value = pair.value.share()?;
        rows.push(Row {
            value,
            weight: pair.weight,
        })?;
    }
    Ok(rows)
}

/// The distribution of stated weights, over their sum.
pub fn weighted(alloc: Global, pairs: &[Pair]) -> Result<Answer, Stop>
    ensures { Gives shown (weighted (stated pairs.now)) result }
{
    let total = weights_total(pairs)?;
    let rows = rows_of(alloc, pairs)?;
    Ok(Answer::Table(Table { total, rows }))
}
