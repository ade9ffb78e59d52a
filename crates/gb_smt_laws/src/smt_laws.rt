//! What `smt` asks holds of typed goals, and its operators are opened.

ghost use Rattle.std.specs.Prelude.{◌≡◌, List, Some};
ghost use Rattle.std.specs.List.{AllByRecursion};
ghost use Rattle.gb_terms.specs.declared.term.Term.{Term};
ghost use Rattle.gb_goal.specs.declared.sequent.Sequent.{Sequent};
ghost use Rattle.gb_goal.specs.Scope.{Declarations};
ghost use Rattle.gb_meaning.specs.Names.{Name};
ghost use Rattle.gb_eval.specs.Script.{body_named};
ghost use Rattle.gb_eval.specs.Known.{is_known, known_of};
ghost use Rattle.gb_eval.specs.Eval.{function_of, operators_of};
ghost use Rattle.gb_smt.specs.Width.{bound_of, bound_types};
ghost use Rattle.gb_meaning.specs.Declared.{declared};
ghost use Rattle.gb_meaning.specs.Holds.{InEachSetting};
ghost use Rattle.gb_typing.specs.Sequents.{of_sequent, IsTypedSequent};
ghost use Rattle.gb_typing.specs.Typing.{IsForm};
ghost use Rattle.gb_typing.specs.Scopes.{context_of, IsTypedScope};
ghost use Rattle.gb_smt_laws.specs.Ready.{SmtIsReady};

/// A typed goal in a typed scope meets what `smt` asks, in each setting: operators mean their bodies, and globals, `glob A`, locals of
/// named and of bound memories are read at the types that the context gives them.
pub fn smt_readiness()
    ensures { (ds : Declarations) → IsTypedScope (declared ds) → (q : Sequent) (t : IsTypedSequent (context_of (declared ds)) q) → (known : List Term) →
        AllByRecursion (IsForm (of_sequent (context_of (declared ds)) q t.frames)) known → InEachSetting (declared ds) q (λ g. SmtIsReady ds g known q) }
{}

/// In a typed scope nothing is lost where `smt` opens operators as often as there are names: an operator with a body comes to what
/// its body does among all operators, evaluation knows it where it knows its body, and its bound variables are those of its body.
pub fn operators_are_opened()
    ensures comes { (ds : Declarations) → IsTypedScope (declared ds) → (n : Name) (t : Term) → body_named ds n ≡ Some t →
        operators_of ds n ≡ function_of (operators_of ds) t }
    ensures known { (ds : Declarations) → IsTypedScope (declared ds) → (n : Name) (t : Term) → body_named ds n ≡ Some t →
        known_of ds n ≡ is_known (known_of ds) t }
    ensures bound { (ds : Declarations) → IsTypedScope (declared ds) → (n : Name) (t : Term) → body_named ds n ≡ Some t →
        bound_of ds n ≡ bound_types (bound_of ds) t }
{}
