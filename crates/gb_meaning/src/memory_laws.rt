//! Values of types, and reading after writing.

ghost use Rattle.std.specs.Prelude.{◌≡◌, ◌≢◌, ◌<◌, ℕ, Bool, true, [], ◌∷◌, Some};
ghost use Rattle.gb_core.specs.declared.ty.Ty.{Ty};
ghost use Rattle.gb_core.specs.declared.value.Value.{Value};
ghost use Rattle.gb_core.specs.Types.{numbering, is_finite};
ghost use Rattle.gb_meaning.specs.Names.{Name, Path, Map, get, set};
ghost use Rattle.gb_meaning.specs.Values.{Global, Types, values, has};
ghost use Rattle.gb_meaning.specs.Memory.{Memory, read_global, read_local, write_global, write_local};

/// The places below a type's size and its values are inverse. A type with a number of values of its own has those that the
/// code counts.
pub fn places()
    ensures value_at_place { (t : Types) (ty : Ty) (i : ℕ) → i < (values t ty).size → has t ty ((values t ty).at i) ≡ true }
    ensures place_of_value { (t : Types) (ty : Ty) (i : ℕ) → i < (values t ty).size → (values t ty).place ((values t ty).at i) ≡ i }
    ensures place_below { (t : Types) (ty : Ty) (v : Value) → has t ty v ≡ true → (values t ty).place v < (values t ty).size }
    ensures finite { (t : Types) (ty : Ty) → is_finite ty ≡ true → values t ty ≡ numbering ty }
    ensures value_of_place { (t : Types) (ty : Ty) (v : Value) → has t ty v ≡ true → (values t ty).at ((values t ty).place v) ≡ v }
{}

/// Finite maps: an entry reads as it was set, others stay; maps that answer alike are equal.
pub fn maps()
    ensures set_same { (m : Map) (x : Path) (v : Value) → get (set m x v) x ≡ Some v }
    ensures set_other { (m : Map) (x : Path) (v : Value) (y : Path) → y ≢ x → get (set m x v) y ≡ get m y }
    ensures set_twice { (m : Map) (x : Path) (v w : Value) → set (set m x v) x w ≡ set m x w }
    ensures sets_commute { (m : Map) (x : Path) (v : Value) (y : Path) (w : Value) → x ≢ y → set (set m x v) y w ≡ set (set m y w) x v }
    ensures equal { (m n : Map) → ((x : Path) → get m x ≡ get n x) → m ≡ n }
{}

/// A variable reads as it was written, if the value is one of its type; a write leaves other variables.
pub fn reading()
    ensures global { (t : Types) (m : Memory) (x : Global) (v : Value) →
        has t x.ty v ≡ true → read_global t (write_global m x.parent x.name v) x ≡ v }
    ensures other_global { (t : Types) (m : Memory) (x : Global) (p n : Name) (v : Value) →
        (x.parent ∷ x.name ∷ []) ≢ (p ∷ n ∷ []) → read_global t (write_global m p n v) x ≡ read_global t m x }
    ensures local { (t : Types) (m : Memory) (x : Name) (ty : Ty) (v : Value) →
        has t ty v ≡ true → read_local t (write_local m x v) x ty ≡ v }
    ensures other_local { (t : Types) (m : Memory) (x y : Name) (ty : Ty) (v : Value) →
        (x ∷ []) ≢ (y ∷ []) → read_local t (write_local m y v) x ty ≡ read_local t m x ty }
{}
