// The laws of tables as distributions.

ghost use Rattle.std.specs.Prelude.{◌≡◌, ℕ, Bool, List, map};
ghost use Rattle.gb_core.specs.declared.ty.Ty.{Ty};
ghost use Rattle.gb_core.specs.declared.value.Value.{Value};
ghost use Rattle.gb_dist.specs.WeightedList.{SameDistribution, WeightedList, dmap, total, weight, weight_at};
ghost use Rattle.gb_dist.specs.declared.row.Row.{Row};
ghost use Rattle.gb_dist.specs.Lists.{imaged, kept, restricted};
ghost use Rattle.gb_dist.specs.Places.{IsGathered, outcomes};
ghost use Rattle.gb_dist.specs.Rows.{entries};

/// Where an event is given by a test of values, what is kept is the restriction to it, and what that weighs is the weight of
/// the event.
pub fn events()
    ensures kept { (p : Value → Bool) (l : WeightedList Value) → kept (map p (outcomes l)) l ≡ restricted l p }
    ensures mass { (p : Value → Bool) (l : WeightedList Value) → total (kept (map p (outcomes l)) l) ≡ weight l p }
{}

/// Where images are given by a function, each outcome's image stands in its place.
pub fn images()
    ensures { (g : Value → Value) (l : WeightedList Value) → imaged (map g (outcomes l)) l ≡ dmap g l }
{}

/// Rows that are gathered of a list are the same distribution over the same denominator, and each value has the sum of its
/// weights in the list.
pub fn gathering()
    ensures same { (ty : Ty) (l : WeightedList Value) (rs : List Row) (n : ℕ) → IsGathered ty l rs → SameDistribution (entries rs) n l n }
    ensures weight { (ty : Ty) (l : WeightedList Value) (rs : List Row) (d : Discrete Value) (v : Value) → IsGathered ty l rs →
        weight_at d (entries rs) v ≡ weight_at d l v }
{}
