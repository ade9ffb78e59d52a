//! A changed tree means what the tree means in the state to which the changes lead.

ghost use Rattle.std.specs.Prelude.{◌≡◌};
ghost use Rattle.gb_terms.specs.declared.term.Term.{Term};
ghost use Rattle.gb_walk.specs.Change.{Changes, term_changed};
ghost use Rattle.gb_meaning.specs.Setting.{Setting};
ghost use Rattle.gb_meaning.specs.State.{State};
ghost use Rattle.gb_meaning.specs.Terms.{Speaks, val, denominator};
ghost use Rattle.gb_meaning.specs.Judgments.{Judge, IsFair, speaking, IsSoundForm};
ghost use Rattle.gb_laws.specs.Formed.{IsFormed};
ghost use Rattle.gb_laws.specs.Plain.{IsPlain};
ghost use Rattle.gb_laws.specs.Uses.{Uses, IsWithin};
ghost use Rattle.gb_laws.specs.Led.{ArePut, Led};

/// A term that speaks of no program and quantifies over no memory, with changes made, means in a state what the
/// term means in the state to which the changes lead, under each judge; its denominator stays.
pub fn changed_terms()
    ensures meaning { (g : Setting) (j : Speaks) (t : Term) → IsFormed t → IsPlain t → (cs : Changes) (K : Uses) (s q : State) →
        ArePut g cs → Led g j cs K s q → IsWithin K t → val g j (term_changed t cs) s ≡ val g j t q }
    ensures denominator { (g : Setting) (t : Term) (cs : Changes) → ArePut g cs → denominator g (term_changed t cs) ≡ denominator g t }
{}

/// Under a fair judge a form, with changes made, means in a state what the form means in the state to which the changes lead:
/// also where it has probabilities, quantifiers over memories, and judgments of procedures and of bodies.
pub fn changed_forms()
    ensures { (g : Setting) (j : Judge) → IsFair g j → (f : Term) → IsFormed f → IsSoundForm g f → (cs : Changes) (K : Uses)
        (s q : State) → ArePut g cs → Led g (speaking g j) cs K s q → IsWithin K f →
        val g (speaking g j) (term_changed f cs) s ≡ val g (speaking g j) f q }
{}
