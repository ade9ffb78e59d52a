//! Rules that put equals for equals are sound.

ghost use Rattle.std.specs.Prelude.{◌≡◌, List};
ghost use Rattle.gb_core.specs.declared.place.Place.{Place};
ghost use Rattle.gb_goal.specs.Answers.Answer.{given};
ghost use Rattle.gb_goal.specs.declared.sequent.Sequent.{Sequent};
ghost use Rattle.gb_steps.specs.declared.step.RewriteRule.{RewriteRule};
ghost use Rattle.gb_goal.specs.Scope as scope;
ghost use Rattle.gb_meaning.specs.Declared.{declared};
ghost use Rattle.gb_typing.specs.Sequents.{of_sequent, IsTypedSequent};
ghost use Rattle.gb_typing.specs.Scopes.{context_of, IsTypedScope};
ghost use Rattle.gb_amb.specs.Steps.{LeadTo};
ghost use Rattle.gb_rewrite.specs.Rewriting.{rewrite_answer, IsUsable};

/// A step at the goal of a typed scope, by a typed form that holds in place of the conclusion, by a hypothesis, by an operator's body or by
/// a law of typed events, gives typed goals, and if each of them holds, the goal holds.
pub fn sound_rewriting()
    ensures { (ds : scope.Declarations) → IsTypedScope (declared ds) → (q : Sequent) (t : IsTypedSequent (context_of (declared ds)) q) → (r : RewriteRule) →
        IsUsable (declared ds) q (of_sequent (context_of (declared ds)) q t.frames) r → (place : Place) (qs : List Sequent) → given qs ≡ rewrite_answer ds r place q →
        LeadTo (declared ds) q qs }
{}
