//! A term means the same in states that agree on what it uses.

ghost use Rattle.std.specs.Prelude.{◌≡◌};
ghost use Rattle.gb_terms.specs.declared.term.Term.{Term};
ghost use Rattle.gb_meaning.specs.Setting.{Setting};
ghost use Rattle.gb_meaning.specs.State.{State};
ghost use Rattle.gb_meaning.specs.Terms.{Speaks, val};
ghost use Rattle.gb_meaning.specs.Judgments.{Judge, IsFair, speaking, IsSoundForm};
ghost use Rattle.gb_laws.specs.Formed.{IsFormed};
ghost use Rattle.gb_laws.specs.Plain.{IsPlain};
ghost use Rattle.gb_laws.specs.Uses.{Uses, IsWithin, besides_own, besides_sides, every_use};
ghost use Rattle.gb_laws.specs.Led.{IgnoresOwn, IgnoresSides};
ghost use Rattle.gb_laws.specs.Agree.{Agree};

/// The meaning of a term depends on what it uses alone, memory by memory and type by type.
pub fn agreement()
    ensures terms { (g : Setting) (j : Speaks) (t : Term) → IsFormed t → IsPlain t → (K : Uses) (s q : State) → Agree g K s q →
        IsWithin K t → val g j t s ≡ val g j t q }
    ensures forms { (g : Setting) (j : Judge) → IsFair g j → (f : Term) → IsFormed f → IsSoundForm g f → (K : Uses) (s q : State) →
        Agree g K s q → IsWithin K f → val g (speaking g j) f s ≡ val g (speaking g j) f q }
{}

/// A term that uses nothing of the own memory, or of both sides, doesn't look at them.
pub fn ignored_memories()
    ensures own { (g : Setting) (j : Speaks) (t : Term) → IsFormed t → IsPlain t → IsWithin (besides_own every_use) t → IgnoresOwn g j t }
    ensures sides { (g : Setting) (j : Speaks) (t : Term) → IsFormed t → IsPlain t → IsWithin (besides_sides every_use) t →
        IgnoresSides g j t }
{}
