//! What is valid by equality holds, and operators of a script give the same from the same.

ghost use Rattle.std.specs.Prelude.{◌≡◌, true, List};
ghost use Rattle.gb_terms.specs.declared.term.Term.{Term};
ghost use Rattle.gb_meaning.specs.Setting.{Setting};
ghost use Rattle.gb_meaning.specs.State.{State};
ghost use Rattle.gb_meaning.specs.Terms.{Speaks};
ghost use Rattle.gb_laws.specs.Context.{IsFractional};
ghost use Rattle.gb_typing.specs.Context.{Context};
ghost use Rattle.gb_typing.specs.Typing.{IsForm};
ghost use Rattle.gb_meaning.specs.Declared.{Declarations};
ghost use Rattle.gb_meaning.specs.Holds.{GiveResults};
ghost use Rattle.gb_meaning.specs.Settings.{Interpretation, types_of, setting};
ghost use Rattle.gb_laws.specs.Finite.{IsInhabited};
ghost use Rattle.gb_typing.specs.Scopes.{context_of, IsTypedScope};
ghost use Rattle.gb_typing.specs.Fits.{IsSettingOf, IsStateOf};
ghost use Rattle.gb_equality.specs.Labels.{EqualityValid};
ghost use Rattle.gb_smt_laws.specs.Alike.{RespectAlike};
ghost use Rattle.gb_smt_laws.specs.Valid.{AreForms, Follows};

/// A leaf of typed forms that is valid by equality holds: in each setting and state that fit its context, where operators of the
/// script give the same from the same, true hypotheses give a true conclusion.
pub fn equality_is_sound()
    ensures { (c : Context) (g : Setting) → IsSettingOf c g → RespectAlike c g → (j : Speaks) → IsFractional j → (s : State) → IsStateOf c g s →
        (hyps : List Term) → AreForms c hyps → (t : Term) → IsForm c t → EqualityValid hyps t → Follows g j s hyps t }
{}

/// In a typed scope operators give the same from the same: those with a body, since a term means the same in states that are the
/// same, and those without, since their arguments are values.
pub fn operators_respect_sameness()
    ensures { (ds : Declarations) (i : Interpretation) → IsTypedScope ds → IsInhabited (types_of ds i) → GiveResults ds (types_of ds i) i.table →
        RespectAlike (context_of ds) (setting ds i) }
{}
