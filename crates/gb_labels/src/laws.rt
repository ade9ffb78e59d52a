//! Memories give variables values, any that are of their types.

ghost use Rattle.std.specs.Prelude.{◌≡◌, true, List, [], Some};
ghost use Rattle.gb_core.specs.declared.ty.Ty.{Ty};
ghost use Rattle.gb_core.specs.declared.value.Value.{Value};
ghost use Rattle.gb_core.specs.declared.var.Var.{Var};
ghost use Rattle.gb_meaning.specs.Memory.{Memory, read};
ghost use Rattle.gb_meaning.specs.Values.{Types};
ghost use Rattle.gb_walk.specs.Clash.{Exclusions};
ghost use Rattle.gb_labels.specs.Reads.{Vars, are_free};
ghost use Rattle.gb_labels.specs.declared.held.Held.{Held};
ghost use Rattle.gb_labels.specs.Held.{value_of, with_values};
ghost use Rattle.gb_labels.specs.Memories.{AreKeptApart, AreOf, AreReadable, HaveValues, IsHeldBy, read_all};

/// Each memory gives variables values of the types at which they are read, where these types have values, those of all globals of a
/// module the values of these. Variables that don't clash are kept apart where nothing is excluded. Where no two of the variables clash, and what doesn't clash is kept apart, some memory gives them any values of
/// their types.
pub fn memories()
    ensures of_types { (t : Types) (m : Memory) (xs : Vars) → AreReadable t xs → HaveValues t xs → AreOf t xs (read_all t m xs) }
    ensures apart { (t : Types) → AreKeptApart [] t }
    ensures exist { (es : Exclusions) (t : Types) → AreKeptApart es t → (xs : Vars) (vs : List Value) → are_free es xs ≡ true → AreReadable t xs → AreOf t xs vs → (m : Memory) × (read_all t m xs ≡ vs) }
{}

/// A memory gives variables the values that it gives them; and where it gives variables known values, each reads as its value is known.
pub fn known_values()
    ensures all { (t : Types) (m : Memory) (xs : Vars) → IsHeldBy t m (with_values xs (read_all t m xs)) }
    ensures value { (t : Types) (m : Memory) (hs : List Held) → IsHeldBy t m hs → (x : Var) (ty : Ty) (v : Value) → value_of hs x ty ≡ Some v → read t m x ty ≡ v }
{}
