//! `sim` is sound.

ghost use Rattle.std.specs.Prelude.{◌≡◌, List};
ghost use Rattle.std.specs.List.{AllByRecursion};
ghost use Rattle.gb_goal.specs.Answers.Answer.{given};
ghost use Rattle.gb_goal.specs.Goal.{Goal};
ghost use Rattle.gb_goal.specs.Scope.{Declarations};
ghost use Rattle.gb_goal.specs.declared.sequent.Sequent.{Sequent};
ghost use Rattle.gb_meaning.specs.Declared.{declared};
ghost use Rattle.gb_meaning.specs.Setting.{Setting};
ghost use Rattle.gb_prog.specs.Ends.{LoopsEnd};
ghost use Rattle.gb_terms.specs.declared.decl.TypedName.{TypedName};
ghost use Rattle.gb_typing.specs.Goals.{IsGoalOver};
ghost use Rattle.gb_typing.specs.Rules.{IsSoundIn};
ghost use Rattle.gb_typing.specs.Scopes.{context_of, IsTypedScope};
ghost use Rattle.gb_typing.specs.Sequents.{of_sequent, IsTypedSequent};
ghost use Rattle.gb_sim.specs.Sim.{AreSame, sim_row};

/// At each typed equivalence of two bodies that are the same, over a typed scope, `sim` is sound: what it gives is typed, and implies the
/// goal. No loop is left in it.
pub fn same_statements()
    ensures sound { (ds : Declarations) → IsTypedScope (declared ds) → (q : Sequent) (t : IsTypedSequent (context_of (declared ds)) q) →
        (ls rs : List TypedName) (G : Goal) → AreSame G → IsGoalOver (of_sequent (context_of (declared ds)) q t.frames) ls rs G →
        IsSoundIn (declared ds) (of_sequent (context_of (declared ds)) q t.frames) (sim_row ds) G }
    ensures ends { (ds : Declarations) (G : Goal) (Gs : List Goal) → sim_row ds G ≡ given Gs → (g : Setting) → AllByRecursion (LoopsEnd g) Gs }
{}
