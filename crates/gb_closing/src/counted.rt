// How many values are tried, of a type and of variables together, and the differences of numbers.

ghost use Rattle.std.specs.Prelude.{◌≡◌, ◌+◌, ◌-◌, ◌^◌, ◌&&◌, if◌then◌else◌, nat_lt};
ghost use Rattle.gb_core.specs.declared.value.Card.TheVariants.{Exact, Above};
ghost use Rattle.gb_core.specs.Types.{card_of};
ghost use Rattle.gb_closing.specs.Counted.{is_tried};

use gb_core::card::card;
use gb_core::size::MANY;
use gb_core::ty::Ty;
use gb_core::value::Card;

/// The largest width of a claim that is tried, and the number of assignments at most.
pub const MOST: u64 = 1 << 20;

/// How many values a quantifier over a type tries, one after another: all of them, where they can be counted.
pub fn values_tried(ty: &Ty) -> Card
    ensures { result ≡ card_of ty.now }
{
    card(ty)
}

/// A number of values, where there is one below `MANY`.
pub fn card_at(finite: bool, count: u64) -> Card
    ensures { result ≡ (if finite && nat_lt count (2 ^ 63) then Exact count else Above) }
{
    if finite && count < MANY {
        Card::Exact(count)
    } else {
        Card::Above
    }
}

/// Whether a claim of this width is tried.
pub fn is_tried(width: Card) -> bool
    ensures { result ≡ is_tried width }
{
    match width {
        Card::Exact(n) => n <= MOST,
        Card::Above => false,
    }
}

/// A number that is the difference of two numbers modulo a bound: what the second one lacks of the bound, added to the first one.
pub fn difference(bound: u32, a: u64, b: u64) -> u128
    ensures { result ≡ a + (bound - b) }
{
    u128::from(a) + u128::from(bound).saturating_sub(u128::from(b))
}
