// The laws of values and their places.

ghost use Rattle.std.specs.Prelude.{◌≡◌, ◌<◌, ℕ, true};
ghost use Rattle.gb_core.specs.declared.ty.Ty.{Ty};
ghost use Rattle.gb_core.specs.declared.value.Value.{Value};
ghost use Rattle.gb_core.specs.Types.{numbering, size_of, value_at, place_of};

/// In every type values and places are inverse: each place below the size has a value of the type, each value of the type
/// a place below the size, and both ways lead back.
pub fn values_are_counted()
    ensures value { (ty : Ty) (i : ℕ) → i < size_of ty → (numbering ty).has (value_at ty i) ≡ true }
    ensures place_of_value { (ty : Ty) (i : ℕ) → i < size_of ty → place_of ty (value_at ty i) ≡ i }
    ensures place { (ty : Ty) (x : Value) → (numbering ty).has x ≡ true → place_of ty x < size_of ty }
    ensures value_of_place { (ty : Ty) (x : Value) → (numbering ty).has x ≡ true → value_at ty (place_of ty x) ≡ x }
{}
