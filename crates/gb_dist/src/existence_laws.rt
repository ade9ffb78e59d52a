//! When a coupling exists.

ghost use Rattle.std.specs.Prelude.{◌≡◌, ℕ, ◌*◌, ◌<◌, ◌↔◌, Bool, true, false};
ghost use Rattle.gb_dist.specs.WeightedList.{WeightedList, total};
ghost use Rattle.gb_dist.specs.Coupling.{Passes, Coupling};
ghost use Rattle.gb_dist.specs.Existence.{IsDominated, Obstruction, has_coupling};

use crate::relation::Relation;

/// A coupling on a relation that can be decided exists exactly where both lists have the same total and no
/// event is more probable than one that it leads into. So it can be decided whether one exists.
pub fn existence<A, B, Q: Relation<A, B>>()
    ensures condition { (d : Discrete A) (decide : (a : A) (b : B) → Dec (Q.Related a b))
        (l1 : WeightedList A) (k1 : ℕ) (l2 : WeightedList B) (k2 : ℕ) → 0 < k1 → 0 < k2 →
        Coupling Q.Related l1 k1 l2 k2 ↔ IsDominated Q.Related l1 k1 l2 k2 }
    ensures decided { (d : Discrete A) (decide : (a : A) (b : B) → Dec (Q.Related a b))
        (l1 : WeightedList A) (k1 : ℕ) (l2 : WeightedList B) (k2 : ℕ) → 0 < k1 → 0 < k2 →
        Dec (Coupling Q.Related l1 k1 l2 k2) }
{}

/// On a relation that is a test, a test of the lists computes whether a coupling exists.
pub fn existence_test<A, B>()
    ensures { (d : Discrete A) (r : A → B → Bool)
        (l1 : WeightedList A) (k1 : ℕ) (l2 : WeightedList B) (k2 : ℕ) →
        0 < k1 → 0 < k2 → (has_coupling r l1 k1 l2 k2 ≡ true) ↔ Coupling (Passes r) l1 k1 l2 k2 }
{}

/// A closed pair of events of which the first is more probable shows that there is no coupling, whatever
/// the relation. Where the test fails there is such a pair, or the totals differ.
pub fn obstructions<A, B, Q: Relation<A, B>>()
    ensures no_coupling { (l1 : WeightedList A) (k1 : ℕ) (l2 : WeightedList B) (k2 : ℕ) →
        Obstruction Q.Related l1 k1 l2 k2 → ¬ (Coupling Q.Related l1 k1 l2 k2) }
    ensures found { (d : Discrete A) (r : A → B → Bool)
        (l1 : WeightedList A) (k1 : ℕ) (l2 : WeightedList B) (k2 : ℕ) →
        0 < k1 → 0 < k2 → total l1 * k2 ≡ total l2 * k1 →
        has_coupling r l1 k1 l2 k2 ≡ false → Obstruction (Passes r) l1 k1 l2 k2 }
{}
