//! Trees under one binder more mean what they meant outside of it.

ghost use Rattle.std.specs.Prelude.{◌≡◌, ℕ};
ghost use Rattle.gb_terms.specs.declared.term.Term.{Term};
ghost use Rattle.gb_walk.specs.Raise.{term_raised};
ghost use Rattle.gb_meaning.specs.Setting.{Setting};
ghost use Rattle.gb_meaning.specs.State.{State};
ghost use Rattle.gb_meaning.specs.Terms.{Speaks, val, denominator};
ghost use Rattle.gb_laws.specs.Formed.{IsFormed};
ghost use Rattle.gb_laws.specs.Plain.{IsPlain};
ghost use Rattle.gb_laws.specs.Lifted.{Lifted};

/// A term that speaks of no program and quantifies over no memory means the same under one binder
/// more, under each judge; its denominator stays.
pub fn raised_terms()
    ensures meaning { (g : Setting) (j : Speaks) (t : Term) → IsFormed t → IsPlain t → (k : ℕ) (s q : State) → Lifted k s q →
        val g j (term_raised t k) s ≡ val g j t q }
    ensures denominator { (g : Setting) (t : Term) (k : ℕ) → denominator g (term_raised t k) ≡ denominator g t }
{}
