// What a term comes to is what it means.

ghost use Rattle.std.specs.Prelude.{◌≡◌, ℕ, Bool, List, []};
ghost use Rattle.gb_terms.specs.declared.term.Term.{Term};
ghost use Rattle.gb_goal.specs.Scope.{Declarations};
ghost use Rattle.gb_meaning.specs.Setting.{Setting};
ghost use Rattle.gb_meaning.specs.Meanings as meanings;
ghost use Rattle.gb_meaning.specs.State.{State};
ghost use Rattle.gb_meaning.specs.Terms.{Speaks, val, denominator};
ghost use Rattle.gb_eval.specs.declared.env.Bound.{Bound};
ghost use Rattle.gb_eval.specs.Findings.Comes.{found};
ghost use Rattle.gb_eval.specs.Eval.{Environment, eval, operators_at, truth_at};
ghost use Rattle.gb_eval.specs.Meant.{Means, Binds, AreGiven, AreJudged, AreOperators, AreBodies};
ghost use Rattle.gb_labels.specs.Memories.{AreKeptApart};

/// What is found of a term is what the term means, in each setting whose operators are those of the environment, and in each
/// state in which the reads of the term mean what is given for them, where quantifiers over memories say what they say: a value the
/// same value, a whole number the same number, a fraction an equal one, and a distribution the same one, over the same denominator. In
/// the setting variables that don't clash are kept apart.
pub fn evaluation_is_meaning()
    ensures answer { (g : Setting) (j : Speaks) (s : State) (env : Environment) (t : Term) (bound : List Bound) →
        AreOperators g env.operators → AreKeptApart env.exclusions g.types → AreGiven g s env.reads t → AreJudged g j t → Binds g.types s.bound bound → Means (eval env t bound) (val g j t s) (denominator g t) }
    ensures truth { (g : Setting) (j : Speaks) (s : State) (env : Environment) (t : Term) (b : Bool) →
        AreOperators g env.operators → AreKeptApart env.exclusions g.types → AreGiven g s env.reads t → AreJudged g j t → truth_at env t [] ≡ found b → meanings.truth (val g j t s) ≡ b }
{}

/// The operators of a script, opened in one another however often, are those of each setting in which they mean their bodies.
pub fn operators_are_bodies()
    ensures { (g : Setting) (ds : Declarations) → AreBodies g ds → (k : ℕ) → AreOperators g (operators_at ds k) }
{}
