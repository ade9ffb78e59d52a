//! The laws of couplings.

ghost use Rattle.std.specs.Prelude.{◌≡◌, ℕ, ◌*◌, ◌<◌, ◌↔◌};
ghost use Rattle.gb_dist.specs.WeightedList.{WeightedList, total, weight_at, scale, unit, bind, dmap};
ghost use Rattle.gb_dist.specs.WeightedList.{On, IsPositive, IsInSupport, SameDistribution};
ghost use Rattle.gb_dist.specs.Coupling.{Coupling, PointwiseCoupling};

use crate::relation::{Property, Relation};

/// The published definition, by outcomes, and the one by functions say the same.
pub fn definitions_agree<A, B, Q: Relation<A, B>>()
    ensures { (da : Discrete A) (db : Discrete B)
        (l1 : WeightedList A) (k1 : ℕ) (l2 : WeightedList B) (k2 : ℕ) →
        PointwiseCoupling da db Q.Related l1 k1 l2 k2 ↔ Coupling Q.Related l1 k1 l2 k2 }
{}

/// A list is coupled with itself on equality, and on what holds of its entries.
pub fn identity<A, P: Property<A>>()
    ensures { (l : WeightedList A) (k : ℕ) → 0 < k → On P.Holds l →
        Coupling (λ (a b : A). P.Holds a × (a ≡ b)) l k l k }
{}

/// The two sides may be exchanged.
pub fn symmetry<A, B, Q: Relation<A, B>>()
    ensures { (l1 : WeightedList A) (k1 : ℕ) (l2 : WeightedList B) (k2 : ℕ) →
        Coupling Q.Related l1 k1 l2 k2 → Coupling (λ b a. Q.Related a b) l2 k2 l1 k1 }
{}

/// Lists that are coupled on a relation are coupled on each weaker one.
pub fn weakening<A, B, Q: Relation<A, B>, R: Relation<A, B>>()
    ensures { (l1 : WeightedList A) (k1 : ℕ) (l2 : WeightedList B) (k2 : ℕ) →
        ((a : A) (b : B) → Q.Related a b → R.Related a b) →
        Coupling Q.Related l1 k1 l2 k2 → Coupling R.Related l1 k1 l2 k2 }
{}

/// Coupled lists, followed by lists that are coupled from related outcomes, are coupled over the products
/// of the denominators.
pub fn sequence<A, B, C, D, R: Relation<A, B>, Q: Relation<C, D>>()
    ensures { (l1 : WeightedList A) (j1 : ℕ) (l2 : WeightedList B) (j2 : ℕ)
        (m1 : A → WeightedList C) (k1 : ℕ) (m2 : B → WeightedList D) (k2 : ℕ) →
        Coupling R.Related l1 j1 l2 j2 →
        ((a : A) (b : B) → R.Related a b → Coupling Q.Related (m1 a) k1 (m2 b) k2) →
        Coupling Q.Related (bind l1 m1) (j1 * k1) (bind l2 m2) (j2 * k2) }
{}

/// Functions of outcomes that lead related ones to related ones keep a coupling.
pub fn mapping<A, B, C, D, Q: Relation<A, B>, R: Relation<C, D>>()
    ensures { (l1 : WeightedList A) (k1 : ℕ) (l2 : WeightedList B) (k2 : ℕ)
        (g : A → C) (h : B → D) →
        ((a : A) (b : B) → Q.Related a b → R.Related (g a) (h b)) →
        Coupling Q.Related l1 k1 l2 k2 → Coupling R.Related (dmap g l1) k1 (dmap h l2) k2 }
{}

/// Two couplings over a common middle list give one of its neighbours, on the outcomes that some outcome of
/// the middle joins.
pub fn gluing<A, B, C, Q: Relation<A, B>, R: Relation<B, C>>()
    ensures { (d : Discrete B)
        (l1 : WeightedList A) (k1 : ℕ) (l2 : WeightedList B) (k2 : ℕ)
        (l3 : WeightedList C) (k3 : ℕ) → 0 < k2 →
        Coupling Q.Related l1 k1 l2 k2 → Coupling R.Related l2 k2 l3 k3 →
        Coupling (λ a c. (b : B) × Q.Related a b × R.Related b c) l1 k1 l3 k3 }
{}

/// Lists of the same total, as fractions, are coupled by all pairs of their entries, if these are related.
/// Lists of full weight, whose totals are their denominators, are such lists.
pub fn product<A, B, P: Property<A>, Q: Property<B>, R: Relation<A, B>>()
    ensures { (l1 : WeightedList A) (k1 : ℕ) (l2 : WeightedList B) (k2 : ℕ) →
        0 < k1 → 0 < k2 → total l1 * k2 ≡ total l2 * k1 → On P.Holds l1 → On Q.Holds l2 →
        ((a : A) (b : B) → P.Holds a → Q.Holds b → R.Related a b) → Coupling R.Related l1 k1 l2 k2 }
{}

/// Two lists are coupled along functions that are inverse to each other on the supports and keep
/// probabilities. The denominators may differ. This is what stands behind the rule `rnd f g`.
pub fn bijection<A, B>()
    ensures { (da : Discrete A) (db : Discrete B) (f : A → B) (g : B → A)
        (l1 : WeightedList A) (k1 : ℕ) (l2 : WeightedList B) (k2 : ℕ) → 0 < k1 → IsPositive l1 →
        ((b : B) → IsInSupport db l2 b → b ≡ f (g b)) →
        ((b : B) → IsInSupport db l2 b → weight_at db l2 b * k1 ≡ weight_at da l1 (g b) * k2) →
        ((a : A) → IsInSupport da l1 a → IsInSupport db l2 (f a)) →
        ((a : A) → IsInSupport da l1 a → a ≡ g (f a)) →
        Coupling (λ a b. IsInSupport da l1 a × (b ≡ f a)) l1 k1 l2 k2 }
{}

/// Couplings speak of distributions: lists of the same distributions, as at other scales, are coupled alike.
pub fn other_lists<A, B, Q: Relation<A, B>>()
    ensures scaled { (l1 : WeightedList A) (k1 : ℕ) (l2 : WeightedList B) (k2 : ℕ) (c1 c2 : ℕ) →
        Coupling Q.Related l1 k1 l2 k2 →
        Coupling Q.Related (scale c1 l1) (c1 * k1) (scale c2 l2) (c2 * k2) }
    ensures same { (l1 : WeightedList A) (k1 : ℕ) (l2 : WeightedList B) (k2 : ℕ)
        (r1 : WeightedList A) (j1 : ℕ) (r2 : WeightedList B) (j2 : ℕ) → 0 < k1 → 0 < k2 →
        SameDistribution l1 k1 r1 j1 → SameDistribution l2 k2 r2 j2 →
        Coupling Q.Related l1 k1 l2 k2 → Coupling Q.Related r1 j1 r2 j2 }
{}

/// A coupling on equality says that two lists are one distribution, and there is one if they are.
pub fn equality<A>()
    ensures { (l1 : WeightedList A) (k1 : ℕ) (l2 : WeightedList A) (k2 : ℕ) →
        0 < k1 → IsPositive l1 →
        Coupling (λ (a b : A). a ≡ b) l1 k1 l2 k2 ↔ SameDistribution l1 k1 l2 k2 }
{}

/// A list of full weight is coupled with one outcome, if each of its entries is related to it. This is what
/// stands behind the rules for one side.
pub fn one_side<A, B, P: Property<A>, Q: Property<B>, R: Relation<A, B>>()
    ensures left { (l : WeightedList A) (k : ℕ) (b : B) → 0 < k → total l ≡ k → On P.Holds l →
        ((a : A) → P.Holds a → R.Related a b) → Coupling R.Related l k (unit b) 1 }
    ensures right { (l : WeightedList B) (k : ℕ) (a : A) → 0 < k → total l ≡ k → On Q.Holds l →
        ((b : B) → Q.Holds b → R.Related a b) → Coupling R.Related (unit a) 1 l k }
{}

/// What holds of each entry of the lists may be added to the relation.
pub fn facts<A, B, Q: Relation<A, B>, P: Property<A>, R: Property<B>>()
    ensures { (da : Discrete A) (db : Discrete B)
        (l1 : WeightedList A) (k1 : ℕ) (l2 : WeightedList B) (k2 : ℕ) →
        0 < k1 → 0 < k2 → On P.Holds l1 → On R.Holds l2 → Coupling Q.Related l1 k1 l2 k2 →
        Coupling (λ a b. Q.Related a b × P.Holds a × R.Holds b) l1 k1 l2 k2 }
{}
