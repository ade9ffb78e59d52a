// Rows.

use gb_core::value::Value;
use sqlite_items::Items;

/// A value with its weight.
#[derive(Drop)]
pub struct Row {
    pub value: Value,
    pub weight: u128,
}

pub type Rows = Items<Row>;
