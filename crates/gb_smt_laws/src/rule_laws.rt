//! A goal is true where each of its leaves holds.

ghost use Rattle.std.specs.Prelude.{List, map};
ghost use Rattle.std.specs.List.{AllByRecursion};
ghost use Rattle.gb_core.specs.declared.value.Value.{Value};
ghost use Rattle.gb_terms.specs.declared.term.Term.{Term};
ghost use Rattle.gb_goal.specs.declared.sequent.Sequent.{Sequent};
ghost use Rattle.gb_goal.specs.Scope as scope;
ghost use Rattle.gb_meaning.specs.Memory.{Memory};
ghost use Rattle.gb_meaning.specs.Judgments.{Judge, IsFair, speaking};
ghost use Rattle.gb_meaning.specs.Declared.{Declarations};
ghost use Rattle.gb_meaning.specs.Settings.{Interpretation, types_of, setting};
ghost use Rattle.gb_meaning.specs.Truth.{Truth};
ghost use Rattle.gb_meaning.specs.Holds.{AreValues, AreTrue, context};
ghost use Rattle.gb_smt.specs.Leaves.{leaves_of};
ghost use Rattle.gb_smt_laws.specs.Closing.{LeafHolds};
ghost use Rattle.gb_smt_laws.specs.Ready.{SmtIsReady};

/// Where each leaf of a goal holds, the goal is true: in each state of its context in which its hypotheses are true, and forms that are
/// known besides.
/// Quantifiers in front of the conclusion give the context a variable or a memory more, premises are hypotheses, and both
/// sides of a conjunction are to be shown; hypotheses that speak of programs aren't needed.
pub fn splitting()
    ensures { (ds : Declarations) (k : Interpretation) (es : scope.Declarations) (known : List Term) (q : Sequent) → SmtIsReady es (setting ds k) known q →
        ((j : Judge) → IsFair (setting ds k) j → AllByRecursion (LeafHolds (setting ds k) (speaking (setting ds k) j)) (leaves_of known q)) →
        (vs : List Value) → AreValues (types_of ds k) (map (λ x. x.ty) q.logical) vs → (ms : List Memory) →
        AreTrue ds q.hyps k (context vs ms) → AllByRecursion (λ f. Truth ds f k (context vs ms)) known → Truth ds q.conclusion k (context vs ms) }
{}
