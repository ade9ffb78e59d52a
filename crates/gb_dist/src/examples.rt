//! The definitions at small lists.

ghost use Rattle.std.specs.Prelude.{◌≡◌, ℕ, ◌*◌, ◌<◌, Bool, true, false, not};
ghost use Rattle.gb_dist.specs.WeightedList.{weight};
ghost use Rattle.gb_dist.specs.Coupling.{Passes, Coupling};
ghost use Rattle.gb_dist.specs.Existence.{IsClosed, has_coupling};
ghost use Rattle.gb_dist.specs.Examples.{coin, unfair_coin, four_sided_die, is_even, implies};

use crate::coupling_laws::{gluing, symmetry};
use crate::relation::Relation;

/// The relation of a truth value with the numbers that are even exactly when it is true.
pub struct Parity;

impl Relation<bool, u64> for Parity {
    ghost Related = { λ a n. a ≡ is_even n };
}

impl Relation<u64, bool> for Parity {
    ghost Related = { λ n a. a ≡ is_even n };
}

/// A fair coin is coupled with its negation.
pub fn coin_and_negation()
    ensures { Coupling (λ (a b : Bool). b ≡ not a) coin 2 coin 2 }
{}

/// A coin and the parity of a die with four sides are coupled on equality, over 2 and over 4.
pub fn coin_and_parity()
    ensures { Coupling (λ (a : Bool) (n : ℕ). a ≡ is_even n) coin 2 four_sided_die 4 }
{}

/// Two coins are coupled on a die between them, by the laws themselves.
pub fn coins_over_a_die()
    ensures { Coupling (λ (a b : Bool). (n : ℕ) × (a ≡ is_even n) × (b ≡ is_even n)) coin 2 coin 2 }
{
    coin_and_parity();
    symmetry::<bool, u64, Parity>();
    gluing::<bool, u64, bool, Parity, Parity>();
}

/// On implication a fair coin isn't coupled with a coin that is true less often: the event of being true shows
/// it. In the other order the two are coupled.
pub fn coins_in_order()
    ensures test_fails { has_coupling implies coin 2 unfair_coin 3 ≡ false }
    ensures truths_are_closed { IsClosed (Passes implies) (λ (a : Bool). a) (λ (b : Bool). b) }
    ensures first_is_heavier { weight unfair_coin (λ b. b) * 2 < weight coin (λ a. a) * 3 }
    ensures no_coupling { ¬ (Coupling (Passes implies) coin 2 unfair_coin 3) }
    ensures test_passes { has_coupling implies unfair_coin 3 coin 2 ≡ true }
    ensures coupling { Coupling (Passes implies) unfair_coin 3 coin 2 }
{}
