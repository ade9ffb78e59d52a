//! Steps on conclusions are sound.

ghost use Rattle.std.specs.Prelude.{◌≡◌, List};
ghost use Rattle.gb_core.specs.declared.place.Place.{Place};
ghost use Rattle.gb_goal.specs.Answers.{Answer};
ghost use Rattle.gb_goal.specs.Answers.Answer.{given};
ghost use Rattle.gb_goal.specs.declared.sequent.Sequent.{Sequent};
ghost use Rattle.gb_steps.specs.declared.step.AmbientRule.{AmbientRule};
ghost use Rattle.gb_meaning.specs.Declared.{Declarations};
ghost use Rattle.gb_typing.specs.Sequents.{of_sequent, IsTypedSequent};
ghost use Rattle.gb_typing.specs.Scopes.{context_of, IsTypedScope};
ghost use Rattle.gb_amb.specs.Steps.{IsAnswer, IsTypedStep, LeadTo};

/// A step at the goal of a typed scope gives typed goals, and if each of them holds, the goal holds.
pub fn steps()
    ensures { (ds : Declarations) → IsTypedScope ds → (q : Sequent) (t : IsTypedSequent (context_of ds) q) → (r : AmbientRule) →
        IsTypedStep (of_sequent (context_of ds) q t.frames) q.conclusion r → (place : Place) (qs : List Sequent) → IsAnswer r place q (given qs) →
        LeadTo ds q qs }
{}

/// Each step has an answer at each goal, and one alone.
pub fn answers()
    ensures some { (r : AmbientRule) (place : Place) (q : Sequent) → (x : Answer (List Sequent)) × IsAnswer r place q x }
    ensures one { (r : AmbientRule) (place : Place) (q : Sequent) (x y : Answer (List Sequent)) → IsAnswer r place q x →
        IsAnswer r place q y → x ≡ y }
{}
