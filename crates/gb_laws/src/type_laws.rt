//! Well-typed terms mean what their types say.

ghost use Rattle.std.specs.Prelude.{◌≡◌, ◌<◌, true, false, Option, List, map};
ghost use Rattle.gb_core.specs.declared.ty.Ty.{Ty};
ghost use Rattle.gb_core.specs.declared.ty.Ty.TheVariants as ty;
ghost use Rattle.gb_core.specs.declared.value.Value.{Value};
ghost use Rattle.gb_terms.specs.declared.op.Op.{Op};
ghost use Rattle.gb_terms.specs.declared.term.Term.{Term};
ghost use Rattle.gb_terms.specs.declared.term.Head.{Head};
ghost use Rattle.gb_terms.specs.Make.{node};
ghost use Rattle.gb_meaning.specs.Setting.{Setting};
ghost use Rattle.gb_meaning.specs.Setting.Meaning.{finite};
ghost use Rattle.gb_meaning.specs.Meanings.{value_in};
ghost use Rattle.gb_meaning.specs.State.{State};
ghost use Rattle.gb_meaning.specs.Terms.{Speaks, denominator, val};
ghost use Rattle.gb_meaning.specs.Sound.{IsDistribution, IsFull};
ghost use Rattle.gb_meaning.specs.Values.{Types, values, has, fit};
ghost use Rattle.gb_meaning.specs.Operators.{Argument, operated};
ghost use Rattle.gb_meaning.specs.Trees.{distributions, options};
ghost use Rattle.gb_laws.specs.Finite.{IsFinite, IsInhabited};
ghost use Rattle.gb_laws.specs.Operators.{maps, tuples, IsDistributionType, IsNoDistribution, IsOperator};
ghost use Rattle.gb_laws.specs.Meant.{IsOf, AreGiven};
ghost use Rattle.gb_laws.specs.Typing.{Context, IsHead, inner, IsTyped, AllTyped};
ghost use Rattle.gb_meaning.specs.Written.{type_of};
ghost use Rattle.gb_laws.specs.Context.{IsUnrestricted, NamesFull, IsSettingOf, IsStateOf, IsFractional};

/// A finite type has a value where each abstract type has one, and what is read at it is one of its values.
pub fn finite_types()
    ensures sized { (t : Types) → IsInhabited t → (u : Ty) → IsFinite u → 0 < (values t u).size }
    ensures fits { (t : Types) → IsInhabited t → (u : Ty) → IsFinite u → (v : Option Value) → has t u (fit t u v) ≡ true }
{}

/// Types by their constructors, as trees write them.
pub fn constructors()
    ensures option { (t : Ty) → ty.Opt t ≡ options t }
    ensures distribution { (t : Ty) → ty.Distr t ≡ distributions t }
    ensures map { (k t : Ty) → ty.Map k t ≡ maps k t }
    ensures tuple { (ts : List Ty) → ty.Tuple ts ≡ tuples ts }
{}

/// The types of a node, from its head, its arguments and its type.
pub fn nodes()
    ensures typed { (c : Context) (h : Head) (ts : List Term) (u : Ty) → IsHead c h (map type_of ts) u →
        AllTyped c (inner c h (map type_of ts)) ts → IsTyped c (node h ts u) }
    ensures head { (c : Context) (h : Head) (ts : List Term) (u : Ty) → IsTyped c (node h ts u) → IsHead c h (map type_of ts) u }
    ensures arguments { (c : Context) (h : Head) (ts : List Term) (u : Ty) → IsTyped c (node h ts u) →
        AllTyped c (inner c h (map type_of ts)) ts }
    ensures written { (h : Head) (ts : List Term) (u : Ty) → type_of (node h ts u) ≡ u }
{}

/// A built-in operator at arguments of its types has a result of its type.
pub fn operators()
    ensures { (t : Types) → IsInhabited t → (o : Op) (u : Ty) (xs : List (Ty × Argument)) → AreGiven t xs → IsOperator o (map (λ x. x.0) xs) u →
        IsOf t u (operated t o u (map (λ x. x.1) xs)) }
{}

/// A well-typed term of no type of distributions has the denominator 1, in every setting.
pub fn denominators()
    ensures { (c : Context) (g : Setting) (t : Term) → IsTyped c t → IsNoDistribution (type_of t) → denominator g t ≡ 1 }
{}

/// A well-typed term of a type of distributions is a distribution or a sub-distribution in each state. Without `drestrict` it
/// is of full weight, where each operator of the script that it names for a distribution is.
pub fn distributions()
    ensures weights { (c : Context) (g : Setting) → IsSettingOf c g → (t : Term) → IsTyped c t → IsDistributionType (type_of t) →
        IsDistribution g t }
    ensures full { (c : Context) (g : Setting) → IsSettingOf c g → (t : Term) → IsTyped c t → IsUnrestricted t → NamesFull g t →
        IsDistributionType (type_of t) → IsFull g t }
{}

/// In a setting and a state that fit its context a well-typed term has a meaning of its type; of a finite type this is one
/// of its values.
pub fn terms()
    ensures meaning { (c : Context) (g : Setting) → IsSettingOf c g → (j : Speaks) → IsFractional j → (t : Term) → IsTyped c t →
        (s : State) → IsStateOf g.types c s → IsOf g.types (type_of t) (val g j t s) }
    ensures value { (c : Context) (g : Setting) → IsSettingOf c g → (j : Speaks) → IsFractional j → (t : Term) → IsTyped c t →
        IsFinite (type_of t) → (s : State) → IsStateOf g.types c s → val g j t s ≡ finite (value_in (val g j t s)) }
    ensures value_of_type { (c : Context) (g : Setting) → IsSettingOf c g → (j : Speaks) → IsFractional j → (t : Term) → IsTyped c t →
        IsFinite (type_of t) → (s : State) → IsStateOf g.types c s → has g.types (type_of t) (value_in (val g j t s)) ≡ true }
{}
