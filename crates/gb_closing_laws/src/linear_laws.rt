//! `linear` is sound for typed goals.

ghost use Rattle.std.specs.Prelude.{◌≡◌, List};
ghost use Rattle.std.specs.List.{AllByRecursion};
ghost use Rattle.gb_core.specs.declared.place.Place.{Place};
ghost use Rattle.gb_goal.specs.Answers.Answer.{given};
ghost use Rattle.gb_goal.specs.declared.sequent.Sequent.{Sequent};
ghost use Rattle.gb_steps.specs.declared.step.Multiple.{Multiple};
ghost use Rattle.gb_meaning.specs.Declared.{Declarations};
ghost use Rattle.gb_meaning.specs.Holds.{Holds};
ghost use Rattle.gb_typing.specs.Sequents.{IsTypedSequent};
ghost use Rattle.gb_typing.specs.Scopes.{context_of, IsTypedScope};
ghost use Rattle.gb_linear.specs.Closing.{linear_answer};

/// `linear` as a step at the sequent of a typed scope: the sequents that it gives are typed, and if each of them holds, the sequent
/// holds. It gives none.
pub fn linear_is_sound()
    ensures { (ds : Declarations) → IsTypedScope ds → (q : Sequent) → IsTypedSequent (context_of ds) q →
        (ms : List Multiple) (place : Place) (qs : List Sequent) → linear_answer ms place q ≡ given qs →
        AllByRecursion (IsTypedSequent (context_of ds)) qs × (AllByRecursion (Holds ds) qs → Holds ds q) }
{}
