//! `call` by what is known is sound.

ghost use Rattle.std.specs.Prelude.{List};
ghost use Rattle.std.specs.List.{AllByRecursion};
ghost use Rattle.gb_core.specs.declared.place.Place.{Place};
ghost use Rattle.gb_goal.specs.Answers.Answer.{given};
ghost use Rattle.gb_goal.specs.Scope.{Declarations};
ghost use Rattle.gb_goal.specs.declared.sequent.Sequent.{Sequent};
ghost use Rattle.gb_meaning.specs.Declared.{declared};
ghost use Rattle.gb_meaning.specs.Holds.{Holds};
ghost use Rattle.gb_steps.specs.declared.step.Acts.{Acts};
ghost use Rattle.gb_terms.specs.declared.term.Term.{Term};
ghost use Rattle.gb_typing.specs.Typing.{IsForm};
ghost use Rattle.gb_typing.specs.Scopes.{context_of, IsTypedScope};
ghost use Rattle.gb_typing.specs.Sequents.{of_sequent, IsTypedSequent};
ghost use Rattle.gb_call_both.specs.Known.{IsAnswer};

/// At a typed goal over a typed scope `call` by a typed form that holds there gives typed goals, and if each of them holds, the goal holds.
pub fn known_calls()
    ensures { (ds : Declarations) → IsTypedScope (declared ds) → (q : Sequent) (t : IsTypedSequent (context_of (declared ds)) q) → (a : Acts) (f : Term) →
        IsForm (of_sequent (context_of (declared ds)) q t.frames) f → Holds (declared ds) (record q { conclusion = f }) →
        (place : Place) (qs : List Sequent) → IsAnswer ds a f place q (given qs) →
        AllByRecursion (IsTypedSequent (context_of (declared ds))) qs × (AllByRecursion (Holds (declared ds)) qs → Holds (declared ds) q) }
{}
