// Tables.

ghost use Rattle.std.specs.Prelude.{◌≡◌, ◌<◌, ◌≤◌, ◌^◌, true};
ghost use Rattle.gb_dist.specs.Rows.{are_positive, weight_of};

use crate::row::Rows;

/// A distribution or sub-distribution over values: rows with weights above 0, and the denominator, of which the weights make
/// up at most the whole.
#[derive(Drop)]
pub struct Table {
    pub total: u128,
    pub rows: Rows,
    pub ghost small: { total < 2 ^ 127 },
    pub ghost bounded: { weight_of rows ≤ total },
    pub ghost positive: { are_positive rows ≡ true },
}
