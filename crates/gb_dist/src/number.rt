// Whole numbers below 2^127, with the refusal of an overflow.

ghost use Rattle.std.specs.Prelude.{◌≡◌, ◌<◌, ◌^◌, ◌*◌, ◌+◌, pos, IfOk};
ghost use Rattle.gb_dist.specs.Operations.{product_of, sum_of};
ghost use Rattle.gb_dist.specs.Tables.{GivesNumber, refusal_of};

use crate::whole::{Overflow, product, sum};
use gb_core::place::Place;
use gb_core::refusal::{Refused, Why};

/// The refusal of an overflow, at the place of three zeros.
pub fn refusal(overflow: Overflow) -> Refused
    ensures { result ≡ refusal_of overflow }
{
    let place = Place {
        file: 0,
        line: 0,
        col: 0,
    };
    Refused::Script {
        why: Why::Overflow {
            left: overflow.left,
            right: overflow.right,
        },
        place,
    }
}

/// The product, or the refusal of its operands.
pub fn times(left: u128, right: u128) -> Result<u128, Refused>
    requires left { left < 2 ^ 127 }
    requires right { right < 2 ^ 127 }
    ensures gives { GivesNumber (product_of (pos left) (pos right)) (left * right) result }
    ensures below { IfOk result (λ n. n < 2 ^ 127) }
{
    match product(left as i128, right as i128) {
        Ok(number) => Ok(number as u128),
        Err(overflow) => Err(refusal(overflow)),
    }
}

/// The sum, or the refusal of its operands.
pub fn plus(left: u128, right: u128) -> Result<u128, Refused>
    requires left { left < 2 ^ 127 }
    requires right { right < 2 ^ 127 }
    ensures gives { GivesNumber (sum_of (pos left) (pos right)) (left + right) result }
    ensures below { IfOk result (λ n. n < 2 ^ 127) }
{
    match sum(left as i128, right as i128) {
        Ok(number) => Ok(number as u128),
        Err(overflow) => Err(refusal(overflow)),
    }
}
