//! Events that are certain, or impossible.

ghost use Rattle.std.specs.Prelude.{◌≡◌, ◌↔◌, ◌≤◌, ℕ, Bool, true, pos};
ghost use Rattle.gb_dist.specs.WeightedList.{WeightedList, total, weight, Every, IsPositive};
ghost use Rattle.gb_terms.specs.declared.op.Rel.TheVariants.{Equal, AtLeast, AtMost};
ghost use Rattle.gb_meaning.specs.Judgments.{compares, chance};
ghost use Rattle.gb_meaning.specs.Memory.{Memory};

/// The chance of an event is 1 where the event has the whole weight, and 0 where it has none. In a list of at most the whole weight, an
/// event has the whole weight exactly where no weight is lost and all entries are in it.
pub fn certain_events()
    ensures exact { (l : WeightedList Memory) (d : ℕ) (event : Memory → Bool) →
        (compares Equal (chance l d event) (pos 1, 1) ≡ true) ↔ (weight l event ≡ d) }
    ensures at_least { (l : WeightedList Memory) (d : ℕ) (event : Memory → Bool) → total l ≤ d →
        (compares AtLeast (chance l d event) (pos 1, 1) ≡ true) ↔ (weight l event ≡ d) }
    ensures impossible { (l : WeightedList Memory) (d : ℕ) (event : Memory → Bool) →
        (compares AtMost (chance l d event) (pos 0, 1) ≡ true) ↔ (weight l event ≡ 0) }
    ensures every { (l : WeightedList Memory) (d : ℕ) (event : Memory → Bool) → IsPositive l → total l ≤ d →
        (weight l event ≡ d) ↔ ((total l ≡ d) × Every (λ m. event m ≡ true) l) }
{}
