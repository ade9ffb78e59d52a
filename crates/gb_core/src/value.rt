// Values.

ghost use Rattle.std.specs.Prelude.{◌≡◌, IfOk};
ghost use Rattle.gb_core.specs.declared.value.Value.TheVariants.{Many};

use crate::SharedItems;
use sqlite_items::Items;
use std::alloc::{AllocError, Global};

/// A value of a finite type: a number, or the list of its parts. A tuple has its parts, an option none or one,
/// a map pairs in the order of their distinct keys.
pub enum Value {
    Num(u64),
    Many(SharedItems<Value>),
}

impl Drop for Value {
    #[cycle(value_drop)]
    fn drop(self) {
        match self {
            Value::Num(_) => {}
            Value::Many(parts) => drop(parts),
        }
    }
}

pub type Values = Items<Value>;

impl Value {
    /// The value of these parts.
    pub fn of_parts(alloc: Global, parts: Values) -> Result<Value, AllocError>
        ensures { IfOk result (λ made. made ≡ Many parts) }
    {
        let parts = SharedItems::new(alloc, parts)?;
        Ok(Value::Many(parts))
    }

    /// The same value, its parts shared.
    pub fn share(&self) -> Result<Value, AllocError>
        ensures { IfOk result (λ made. made ≡ self.now) }
    {
        match self {
            Value::Num(n) => Ok(Value::Num(*n)),
            Value::Many(parts) => {
                let parts = parts.share()?;
                Ok(Value::Many(parts))
            }
        }
    }
}

/// The size of a type or the width of a claim: exact below 2^63.
#[derive(Clone, Copy)]
pub enum Card {
    Exact(u64),
    Above,
}
