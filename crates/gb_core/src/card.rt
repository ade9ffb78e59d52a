// The number of values of a type.

ghost use Rattle.std.specs.Prelude.{◌≡◌};
ghost use Rattle.gb_core.specs.Types.{card_of};

use crate::size::{MANY, is_finite, size};
use crate::ty::Ty;
use crate::value::Card;

/// The number of values of a type: exact below 2^63. A type that holds whole numbers, reals, distributions, values of
/// an abstract type or globals of an abstract module has no number of its own, so it counts as above.
pub fn card(ty: &Ty) -> Card
    ensures { result ≡ card_of ty.now }
{
    if !is_finite(ty) {
        return Card::Above;
    }
    let count = size(ty);
    if count < MANY {
        Card::Exact(count)
    } else {
        Card::Above
    }
}
