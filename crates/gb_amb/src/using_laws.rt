//! Steps that use a form are sound.

ghost use Rattle.std.specs.Prelude.{◌≡◌, List};
ghost use Rattle.gb_core.specs.declared.place.Place.{Place};
ghost use Rattle.gb_goal.specs.Answers.{Answer};
ghost use Rattle.gb_goal.specs.Answers.Answer.{given};
ghost use Rattle.gb_goal.specs.declared.sequent.Sequent.{Sequent};
ghost use Rattle.gb_steps.specs.declared.step.UseRule.{UseRule};
ghost use Rattle.gb_terms.specs.declared.term.Term.{Term};
ghost use Rattle.gb_meaning.specs.Declared.{Declarations};
ghost use Rattle.gb_meaning.specs.Holds.{Holds};
ghost use Rattle.gb_typing.specs.Typing.{IsForm};
ghost use Rattle.gb_typing.specs.Sequents.{of_sequent, IsTypedSequent};
ghost use Rattle.gb_typing.specs.Scopes.{context_of, IsTypedScope};
ghost use Rattle.gb_amb.specs.Steps.{LeadTo};
ghost use Rattle.gb_amb.specs.Lemmas.{IsKnown};
ghost use Rattle.gb_amb.specs.Uses.{IsAnswer, IsTypedStep};

/// A step at the goal of a typed scope, by a form that a hypothesis of the goal or a lemma says, gives typed goals, and if each of them
/// holds, the goal holds.
pub fn sound_uses()
    ensures { (ds : Declarations) → IsTypedScope ds → (q : Sequent) (t : IsTypedSequent (context_of ds) q) → (r : UseRule) →
        IsTypedStep ds q (of_sequent (context_of ds) q t.frames) r → (place : Place) (qs : List Sequent) → IsAnswer r place q (given qs) →
        LeadTo ds q qs }
{}

/// A typed form that a hypothesis of a typed goal or a lemma says of terms holds where it is concluded from the goal's hypotheses.
pub fn instances_hold()
    ensures { (ds : Declarations) → IsTypedScope ds → (q : Sequent) (t : IsTypedSequent (context_of ds) q) → (f : Term) →
        IsForm (of_sequent (context_of ds) q t.frames) f → IsKnown ds q (of_sequent (context_of ds) q t.frames) f →
        Holds ds (record q { conclusion = f }) }
{}

/// Each step has an answer at each goal, and one alone.
pub fn answers_of_uses()
    ensures some { (r : UseRule) (place : Place) (q : Sequent) → (x : Answer (List Sequent)) × IsAnswer r place q x }
    ensures one { (r : UseRule) (place : Place) (q : Sequent) (x y : Answer (List Sequent)) → IsAnswer r place q x →
        IsAnswer r place q y → x ≡ y }
{}
