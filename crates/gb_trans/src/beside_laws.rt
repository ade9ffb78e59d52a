//! What `rcondt` and `rcondf` promise on one of two programs.

ghost use Rattle.std.specs.Prelude.{◌≡◌, ℕ, Bool, List};
ghost use Rattle.std.specs.List.{AllByRecursion};
ghost use Rattle.gb_core.specs.declared.place.Place.{Place};
ghost use Rattle.gb_core.specs.declared.ty.Ty.TheVariants as ty;
ghost use Rattle.gb_goal.specs.Answers.Answer.{given};
ghost use Rattle.gb_goal.specs.Goal.{goal_of};
ghost use Rattle.gb_goal.specs.declared.sequent.Sequent.{Sequent};
ghost use Rattle.gb_goal.specs.Scope as scope;
ghost use Rattle.gb_meaning.specs.Declared.{declared};
ghost use Rattle.gb_meaning.specs.Holds.{Holds};
ghost use Rattle.gb_meaning.specs.Written.{type_of};
ghost use Rattle.gb_prog.specs.Ends.{SequentEnds};
ghost use Rattle.gb_steps.specs.declared.step.Acts.{Acts};
ghost use Rattle.gb_terms.specs.declared.decl.TypedName.{TypedName};
ghost use Rattle.gb_typing.specs.Goals.{IsGoalOver};
ghost use Rattle.gb_typing.specs.Scopes.{context_of, IsTypedScope};
ghost use Rattle.gb_typing.specs.Sequents.{of_sequent, IsTypedSequent};
ghost use Rattle.gb_trans.specs.Beside.{beside_answer};

/// Over a typed scope what the step gives of a typed sequent is typed, and its loops end where those of the sequent do; and where they hold
/// then, so does the sequent.
pub fn decided_beside()
    ensures { (ds : scope.Declarations) → IsTypedScope (declared ds) → (q : Sequent) (t : IsTypedSequent (context_of (declared ds)) q) → type_of q.conclusion ≡ ty.Bool → (ls rs : List TypedName) →
        IsGoalOver (of_sequent (context_of (declared ds)) q t.frames) ls rs (goal_of q.conclusion) →
        (n : ℕ) (u : Bool) (a : Acts) (place : Place) (qs : List Sequent) → beside_answer ds n u a place q ≡ given qs →
        AllByRecursion (IsTypedSequent (context_of (declared ds))) qs ×
        (SequentEnds (declared ds) q → AllByRecursion (SequentEnds (declared ds)) qs × (AllByRecursion (Holds (declared ds)) qs → Holds (declared ds) q)) }
{}
