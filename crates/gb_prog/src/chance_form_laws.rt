//! What comparisons of probabilities say.

ghost use Rattle.std.specs.Prelude.{◌≡◌, ◌<◌, ◌≤◌, ◌*◌, ℕ, Bool, true, pos};
ghost use Rattle.gb_terms.specs.declared.op.Rel.{Rel};
ghost use Rattle.gb_terms.specs.declared.op.Rel.TheVariants.{AtMost};
ghost use Rattle.gb_dist.specs.WeightedList.{WeightedList, total, bind, Every};
ghost use Rattle.gb_meaning.specs.Fractions.{Fraction};
ghost use Rattle.gb_meaning.specs.Memory.{Memory};
ghost use Rattle.gb_meaning.specs.Judgments.{compares, chance};

/// Where the chance of an event stands so to a bound from wherever a first part ends, it does so after both parts: in each relation where
/// the first part has the whole weight, and at most, where it has less, for a bound that isn't below 0.
pub fn sequences()
    ensures full { (l : WeightedList Memory) (k : Memory → WeightedList Memory) (event : Memory → Bool) (d e : ℕ) → 0 < d → 0 < e →
        total l ≡ d → (r : Rel) (b : Fraction) → Every (λ a. compares r (chance (k a) e event) b ≡ true) l →
        compares r (chance (bind l k) (d * e) event) b ≡ true }
    ensures less { (l : WeightedList Memory) (k : Memory → WeightedList Memory) (event : Memory → Bool) (d e : ℕ) → 0 < d → 0 < e →
        total l ≤ d → (b : Fraction) → compares AtMost (pos 0, 1) b ≡ true → Every (λ a. compares AtMost (chance (k a) e event) b ≡ true) l →
        compares AtMost (chance (bind l k) (d * e) event) b ≡ true }
{}
