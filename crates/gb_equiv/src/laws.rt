//! The rules on equivalences are sound.

ghost use Rattle.std.specs.Prelude.{List};
ghost use Rattle.gb_terms.specs.declared.term.Term.{Term};
ghost use Rattle.gb_goal.specs.Scope.{Declarations};
ghost use Rattle.gb_meaning.specs.Declared.{declared};
ghost use Rattle.gb_typing.specs.Context.{Context};
ghost use Rattle.gb_typing.specs.Rules.{IsSoundRuleIn};
ghost use Rattle.gb_typing.specs.Scopes.{IsTypedScope};
ghost use Rattle.gb_equiv.specs.Rnd.{rnd_row, AreTypedFunctions};

/// `rnd`, `rnd f` and `rnd f g` are sound over each typed scope.
pub fn rnd_is_sound()
    ensures { (ds : Declarations) → IsTypedScope (declared ds) → (c : Context) (fs : List Term) → IsSoundRuleIn (declared ds) c (rnd_row ds fs) (AreTypedFunctions c fs) }
{}
