//! Leaves hold where claims of them are true, and claims that close are true.

ghost use Rattle.std.specs.Prelude.{◌≡◌, ℕ, ◌<◌, List, []};
ghost use Rattle.std.specs.List.{Any};
ghost use Rattle.gb_terms.specs.declared.term.Term.{Term};
ghost use Rattle.gb_meaning.specs.Setting.{Setting};
ghost use Rattle.gb_meaning.specs.State.{State};
ghost use Rattle.gb_meaning.specs.Terms.{Speaks};
ghost use Rattle.gb_goal.specs.Scope.{Declarations};
ghost use Rattle.gb_mods.specs.Exclusions.{exclusions};
ghost use Rattle.gb_labels.specs.Memories.{AreKeptApart};
ghost use Rattle.gb_eval.specs.Eval.{operators_of};
ghost use Rattle.gb_eval.specs.Meant.{AreOperators};
ghost use Rattle.gb_labels.specs.Labels.{choices, choice_at};
ghost use Rattle.gb_smt.specs.declared.leaves.Leaf.{Leaf};
ghost use Rattle.gb_smt.specs.Claims.{claim_of, claims_of};
ghost use Rattle.gb_smt.specs.Equations.{used_up};
ghost use Rattle.gb_smt.specs.Apply.{Closes};
ghost use Rattle.gb_smt.specs.Meant.{IsRight};
ghost use Rattle.gb_smt_laws.specs.Labels.{AreLabels};
ghost use Rattle.gb_smt_laws.specs.Reading.{Reading, IsReadingOf};
ghost use Rattle.gb_smt_laws.specs.Closing.{IsImplied, LeafHolds};

/// A claim that closes is true in each state in which its variables have values of the types at which they are read, in settings whose
/// operators are those of the script, in which variables that don't clash are kept apart, and in which all globals of each module have the
/// values of labels, as many as one of the choices gives it: assumed hypotheses give the conclusion of the claim, which speaks of the globals themselves.
pub fn claims()
    ensures { (ds : Declarations) (g : Setting) → AreOperators g (operators_of ds) → AreKeptApart (exclusions ds) g.types → (j : Speaks) → IsRight g j → (s : State) (T : Reading) → IsReadingOf g T s →
        (hyps : List Term) (t : Term) (c : Closes ds (claim_of hyps t)) (i : ℕ) → i < choices c.most → AreLabels g.types (choice_at c.most i) → IsImplied g j T s hyps t }
{}

/// A claim that closes and in which no module has labels is so true in each setting whose operators are those of the script and in which
/// variables that don't clash are kept apart.
pub fn claims_without_labels()
    ensures { (ds : Declarations) (g : Setting) → AreOperators g (operators_of ds) → AreKeptApart (exclusions ds) g.types → (j : Speaks) → IsRight g j → (s : State) (T : Reading) → IsReadingOf g T s →
        (hyps : List Term) (t : Term) (c : Closes ds (claim_of hyps t)) → c.most ≡ [] → IsImplied g j T s hyps t }
{}

/// A leaf is true in a state where one of its claims is: its conclusion is true, or some of its hypotheses can't all be.
pub fn components()
    ensures { (g : Setting) (j : Speaks) (T : Reading) (s : State) (l : Leaf) → Any (λ c. IsImplied g j T s c.hyps c.conclusion) (claims_of l) → IsImplied g j T s l.hyps l.conclusion }
{}

/// A leaf holds where it does with its equations used up, where quantifiers over memories say what they say.
pub fn equations()
    ensures { (g : Setting) (j : Speaks) → IsRight g j → (l : Leaf) → LeafHolds g j (used_up l) → LeafHolds g j l }
{}
