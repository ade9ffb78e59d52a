//! Well-typed terms and forms mean what they should.

ghost use Rattle.std.specs.Prelude.{◌≡◌, true, List};
ghost use Rattle.gb_terms.specs.declared.decl.TypedName.{TypedName};
ghost use Rattle.gb_terms.specs.declared.term.Term.{Term};
ghost use Rattle.gb_meaning.specs.Values.{has};
ghost use Rattle.gb_meaning.specs.Memory.{Memory};
ghost use Rattle.gb_meaning.specs.Setting.{Setting};
ghost use Rattle.gb_meaning.specs.Setting.Meaning.{finite};
ghost use Rattle.gb_meaning.specs.Meanings.{value_in};
ghost use Rattle.gb_meaning.specs.State.{State, Binding, at, between, inside, under};
ghost use Rattle.gb_meaning.specs.Terms.{Speaks, val, denominator};
ghost use Rattle.gb_meaning.specs.Judgments.{IsSoundForm};
ghost use Rattle.gb_meaning.specs.Written.{type_of};
ghost use Rattle.gb_laws.specs.Formed.{IsFormed};
ghost use Rattle.gb_laws.specs.Finite.{IsFinite};
ghost use Rattle.gb_laws.specs.Meant.{IsOf};
ghost use Rattle.gb_laws.specs.Operators.{IsNoDistribution};
ghost use Rattle.gb_laws.specs.Context.{IsFractional, FitsBinder};
ghost use Rattle.gb_laws.specs.Typing.{Binder};
ghost use Rattle.gb_laws.specs.Typing as typed;
ghost use Rattle.gb_typing.specs.Context.{Frame, Context, erased, reframed, within, of_program};
ghost use Rattle.gb_typing.specs.Typing.{IsTyped};
ghost use Rattle.gb_typing.specs.Fits.{IsSettingOf, IsStateOf};

/// A well-typed term is formed, its types are as they should be, and its judgments and probabilities are of sound procedures.
pub fn typed_terms()
    ensures formed { (c : Context) (t : Term) → IsTyped c t → IsFormed t }
    ensures types { (c : Context) (t : Term) → IsTyped c t → typed.IsTyped (erased c) t }
    ensures sound { (c : Context) (g : Setting) → IsSettingOf c g → (t : Term) → IsTyped c t → IsSoundForm g t }
{}

/// In a setting and a state that fit its context a well-typed term has a meaning of its type, and of a finite type one of its
/// values. Its denominator is 1 where it is no distribution.
pub fn meanings()
    ensures meaning { (c : Context) (g : Setting) → IsSettingOf c g → (j : Speaks) → IsFractional j → (t : Term) → IsTyped c t →
        (s : State) → IsStateOf c g s → IsOf g.types (type_of t) (val g j t s) }
    ensures value { (c : Context) (g : Setting) → IsSettingOf c g → (j : Speaks) → IsFractional j → (t : Term) → IsTyped c t →
        IsFinite (type_of t) → (s : State) → IsStateOf c g s → val g j t s ≡ finite (value_in (val g j t s)) }
    ensures value_of_type { (c : Context) (g : Setting) → IsSettingOf c g → (j : Speaks) → IsFractional j → (t : Term) → IsTyped c t →
        IsFinite (type_of t) → (s : State) → IsStateOf c g s → has g.types (type_of t) (value_in (val g j t s)) ≡ true }
    ensures denominator { (c : Context) (g : Setting) (t : Term) → IsTyped c t → IsNoDistribution (type_of t) → denominator g t ≡ 1 }
{}

/// What fits a context fits those inside of it: of judgments, which have memories of other locals, of binders, and of programs.
pub fn inner_contexts()
    ensures settings { (c : Context) (g : Setting) → IsSettingOf c g → (f l k : Frame) → IsSettingOf (reframed c f l k) g }
    ensures settings_within { (c : Context) (g : Setting) → IsSettingOf c g → (b : Binder) (f : Frame) → IsSettingOf (within c b f) g }
    ensures settings_of_programs { (c : Context) (g : Setting) → IsSettingOf c g → (ls : List TypedName) → IsSettingOf (of_program c ls) g }
    ensures states { (c : Context) (g : Setting) (s : State) → IsStateOf c g s → (f l k : Frame) (m : Memory) → IsStateOf (reframed c f l k) g (at s m) }
    ensures states_of_two { (c : Context) (g : Setting) (s : State) → IsStateOf c g s → (f l k : Frame) (m n : Memory) →
        IsStateOf (reframed c f l k) g (between s m n) }
    ensures states_within { (c : Context) (g : Setting) (s : State) → IsStateOf c g s → (b : Binder) (f : Frame) (x : Binding) →
        FitsBinder g.types b x → IsStateOf (within c b f) g (under s x) }
    ensures states_of_programs { (c : Context) (g : Setting) (ls : List TypedName) (s : State) (m : Memory) → IsStateOf (of_program c ls) g (inside s m) }
{}
