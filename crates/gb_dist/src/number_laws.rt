// The laws of fractions in lowest terms.

ghost use Rattle.std.specs.Prelude.{◌≡◌, ◌<◌, ◌≤◌, unsigned_abs};
ghost use Rattle.gb_dist.specs.Fractions.{Fraction, IsLowest, IsSame, reduced};

/// A fraction that is reduced is the same fraction in lowest terms, and no larger in either part; there is one such fraction,
/// and one in lowest terms stays as it is.
pub fn lowest_terms()
    ensures same { (a : Fraction) → 0 < a.1 → IsSame (reduced a) a }
    ensures lowest { (a : Fraction) → 0 < a.1 → IsLowest (reduced a) }
    ensures num { (a : Fraction) → 0 < a.1 → unsigned_abs (reduced a).0 ≤ unsigned_abs a.0 }
    ensures den { (a : Fraction) → 0 < a.1 → (reduced a).1 ≤ a.1 }
    ensures unique { (a b : Fraction) → IsLowest a → IsLowest b → IsSame a b → a ≡ b }
    ensures itself { (a : Fraction) → IsLowest a → reduced a ≡ a }
{}
