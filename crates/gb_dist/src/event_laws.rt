//! What a coupling says of probabilities. A comparison of two fractions is one of cross products.

ghost use Rattle.std.specs.Prelude.{◌≡◌, ℕ, ◌+◌, ◌*◌, ◌≤◌, Bool, true, false};
ghost use Rattle.gb_dist.specs.WeightedList.{WeightedList, mass, weight};
ghost use Rattle.gb_dist.specs.Coupling.{Coupling};

use crate::relation::Relation;

/// Events of coupled lists compare as they do on related outcomes.
pub fn events<A, B, Q: Relation<A, B>>()
    ensures implied { (l1 : WeightedList A) (k1 : ℕ) (l2 : WeightedList B) (k2 : ℕ)
        (s : A → Bool) (u : B → Bool) →
        Coupling Q.Related l1 k1 l2 k2 →
        ((a : A) (b : B) → Q.Related a b → s a ≡ true → u b ≡ true) →
        weight l1 s * k2 ≤ weight l2 u * k1 }
    ensures equal { (l1 : WeightedList A) (k1 : ℕ) (l2 : WeightedList B) (k2 : ℕ)
        (s : A → Bool) (u : B → Bool) →
        Coupling Q.Related l1 k1 l2 k2 → ((a : A) (b : B) → Q.Related a b → s a ≡ u b) →
        weight l1 s * k2 ≡ weight l2 u * k1 }
    ensures up_to_bad { (l1 : WeightedList A) (k1 : ℕ) (l2 : WeightedList B) (k2 : ℕ)
        (s : A → Bool) (u bad : B → Bool) →
        Coupling Q.Related l1 k1 l2 k2 →
        ((a : A) (b : B) → Q.Related a b → bad b ≡ false → s a ≡ true → u b ≡ true) →
        weight l1 s * k2 ≤ (weight l2 u + weight l2 bad) * k1 }
{}

/// Expectations of coupled lists compare as the functions do on related outcomes.
pub fn expectations<A, B, Q: Relation<A, B>>()
    ensures below { (l1 : WeightedList A) (k1 : ℕ) (l2 : WeightedList B) (k2 : ℕ)
        (f : A → ℕ) (g : B → ℕ) →
        Coupling Q.Related l1 k1 l2 k2 → ((a : A) (b : B) → Q.Related a b → f a ≤ g b) →
        mass l1 f * k2 ≤ mass l2 g * k1 }
    ensures equal { (l1 : WeightedList A) (k1 : ℕ) (l2 : WeightedList B) (k2 : ℕ)
        (f : A → ℕ) (g : B → ℕ) →
        Coupling Q.Related l1 k1 l2 k2 → ((a : A) (b : B) → Q.Related a b → f a ≡ g b) →
        mass l1 f * k2 ≡ mass l2 g * k1 }
{}
