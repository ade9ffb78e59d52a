//! The laws of weighted lists.

ghost use Rattle.std.specs.Prelude.{◌≡◌, ℕ, ◌+◌, ◌*◌, ◌<◌, ◌≤◌, ◌↔◌, Bool, true, false, not, ◌&&◌, ◌||◌};
ghost use Rattle.gb_dist.specs.WeightedList.{WeightedList, mass, total, weight, weight_at};
ghost use Rattle.gb_dist.specs.WeightedList.{scale, unit, bind, dmap};
ghost use Rattle.gb_dist.specs.WeightedList.{On, Every, IsPositive, SameDistribution};

use crate::relation::Property;

/// Weighted lists are a monad, as lists: no order or grouping of entries is forgotten.
pub fn monad<A, B, C>()
    ensures left_identity { (a : A) (k : A → WeightedList B) → bind (unit a) k ≡ k a }
    ensures right_identity { (l : WeightedList A) → bind l (λ a. unit a) ≡ l }
    ensures associativity { (l : WeightedList A) (k : A → WeightedList B) (h : B → WeightedList C) →
        bind (bind l k) h ≡ bind l (λ a. bind (k a) h) }
    ensures mapping { (g : A → B) (l : WeightedList A) → dmap g l ≡ bind l (λ a. unit (g a)) }
{}

/// The sum of a function over a list that was put together.
pub fn masses<A, B>()
    ensures of_bind { (l : WeightedList A) (k : A → WeightedList B) (f : B → ℕ) →
        mass (bind l k) f ≡ mass l (λ a. mass (k a) f) }
    ensures of_map { (g : A → B) (l : WeightedList A) (f : B → ℕ) →
        mass (dmap g l) f ≡ mass l (λ a. f (g a)) }
    ensures of_scale { (c : ℕ) (l : WeightedList A) (f : A → ℕ) → mass (scale c l) f ≡ c * mass l f }
{}

/// Where the sums over the parts of a bind have bounds in the outcomes that they follow, so has the sum over it.
/// A sum `x` over a denominator `d` is compared with a bound `n` as `x * d` with `n`.
pub fn bounds<A, B, P: Property<A>>()
    ensures above { (l : WeightedList A) (k : A → WeightedList B) (f : B → ℕ) (n : A → ℕ) (d : ℕ) →
        Every P.Holds l → ((a : A) → P.Holds a → mass (k a) f * d ≤ n a) →
        mass (bind l k) f * d ≤ mass l n }
    ensures below { (l : WeightedList A) (k : A → WeightedList B) (f : B → ℕ) (n : A → ℕ) (d : ℕ) →
        Every P.Holds l → ((a : A) → P.Holds a → n a ≤ mass (k a) f * d) →
        mass l n ≤ mass (bind l k) f * d }
    ensures exact { (l : WeightedList A) (k : A → WeightedList B) (f : B → ℕ) (n : A → ℕ) (d : ℕ) →
        Every P.Holds l → ((a : A) → P.Holds a → mass (k a) f * d ≡ n a) →
        mass (bind l k) f * d ≡ mass l n }
{}

/// The weights of events of one list.
pub fn weights<A>()
    ensures of_or { (l : WeightedList A) (s t : A → Bool) →
        weight l (λ a. s a || t a) + weight l (λ a. s a && t a) ≡ weight l s + weight l t }
    ensures of_not { (l : WeightedList A) (s : A → Bool) → weight l s + weight l (λ a. not (s a)) ≡ total l }
    ensures of_false { (l : WeightedList A) → weight l (λ a. false) ≡ 0 }
    ensures of_parts { (l : WeightedList A) (s t : A → Bool) →
        weight l s ≡ weight l (λ a. s a && t a) + weight l (λ a. s a && not (t a)) }
    ensures of_implied { (l : WeightedList A) (s t : A → Bool) →
        Every (λ a. s a ≡ true → t a ≡ true) l → weight l s ≤ weight l t }
    ensures of_equal { (l : WeightedList A) (s t : A → Bool) →
        Every (λ a. s a ≡ t a) l → weight l s ≡ weight l t }
    ensures at_most_total { (l : WeightedList A) (s : A → Bool) → weight l s ≤ total l }
{}

/// What holds of each entry of a list holds of each entry of what is made of it.
pub fn entries<A, B, P: Property<A>, Q: Property<B>>()
    ensures split { (l : WeightedList A) → On P.Holds l ↔ (IsPositive l × Every P.Holds l) }
    ensures of_unit { (a : A) → P.Holds a → On P.Holds (unit a) }
    ensures of_bind { (l : WeightedList A) (k : A → WeightedList B) →
        On P.Holds l → ((a : A) → P.Holds a → On Q.Holds (k a)) → On Q.Holds (bind l k) }
    ensures of_map { (g : A → B) (l : WeightedList A) →
        On P.Holds l → ((a : A) → P.Holds a → Q.Holds (g a)) → On Q.Holds (dmap g l) }
    ensures of_scale { (c : ℕ) (l : WeightedList A) → 0 < c → On P.Holds l → On P.Holds (scale c l) }
    ensures every_of_bind { (l : WeightedList A) (k : A → WeightedList B) →
        Every P.Holds l → ((a : A) → P.Holds a → Every Q.Holds (k a)) → Every Q.Holds (bind l k) }
    ensures every_of_map { (g : A → B) (l : WeightedList A) →
        Every P.Holds l → ((a : A) → P.Holds a → Q.Holds (g a)) → Every Q.Holds (dmap g l) }
    ensures every_of_scale { (c : ℕ) (l : WeightedList A) → Every P.Holds l → Every P.Holds (scale c l) }
{}

/// To be one distribution is an equivalence that scales and binds keep, and that can be seen outcome by outcome.
pub fn same_distribution<A, B>()
    ensures reflexive { (l : WeightedList A) (k : ℕ) → SameDistribution l k l k }
    ensures symmetric { (l1 : WeightedList A) (k1 : ℕ) (l2 : WeightedList A) (k2 : ℕ) →
        SameDistribution l1 k1 l2 k2 → SameDistribution l2 k2 l1 k1 }
    ensures transitive { (l1 : WeightedList A) (k1 : ℕ) (l2 : WeightedList A) (k2 : ℕ)
        (l3 : WeightedList A) (k3 : ℕ) → 0 < k2 →
        SameDistribution l1 k1 l2 k2 → SameDistribution l2 k2 l3 k3 → SameDistribution l1 k1 l3 k3 }
    ensures scaled { (c : ℕ) (l : WeightedList A) (k : ℕ) → SameDistribution (scale c l) (c * k) l k }
    ensures bound { (l1 : WeightedList A) (j1 : ℕ) (l2 : WeightedList A) (j2 : ℕ)
        (m1 : A → WeightedList B) (k1 : ℕ) (m2 : A → WeightedList B) (k2 : ℕ) →
        SameDistribution l1 j1 l2 j2 → ((a : A) → SameDistribution (m1 a) k1 (m2 a) k2) →
        SameDistribution (bind l1 m1) (j1 * k1) (bind l2 m2) (j2 * k2) }
    ensures by_outcome { (d : Discrete A) (l1 : WeightedList A) (k1 : ℕ) (l2 : WeightedList A) (k2 : ℕ) →
        ((x : A) → weight_at d l1 x * k2 ≡ weight_at d l2 x * k1) → SameDistribution l1 k1 l2 k2 }
{}

/// Two lists that don't depend on each other may be drawn in either order.
pub fn independent<A, B, C>()
    ensures { (l : WeightedList A) (r : WeightedList B) (h : A → B → WeightedList C) (k : ℕ) →
        SameDistribution (bind l (λ a. bind r (λ b. h a b))) k (bind r (λ b. bind l (λ a. h a b))) k }
{}
