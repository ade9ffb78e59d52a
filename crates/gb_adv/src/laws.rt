//! What the rules on procedures of abstract modules promise.

ghost use Rattle.std.specs.Prelude.{◌≡◌};
ghost use Rattle.gb_core.specs.declared.refusal.Why.TheVariants.{Shape};
ghost use Rattle.gb_terms.specs.declared.term.Term.{Term};
ghost use Rattle.gb_steps.specs.declared.step.AbstractRule.{AbstractRule};
ghost use Rattle.gb_goal.specs.Goal.Goal.{ambient};
ghost use Rattle.gb_goal.specs.Rows.{refusing};
ghost use Rattle.gb_goal.specs.Scope.{Declarations};
ghost use Rattle.gb_goal.specs.declared.sequent.Sequent.{Sequent};
ghost use Rattle.gb_meaning.specs.Declared.{declared};
ghost use Rattle.gb_typing.specs.Rules.{IsSoundRuleIn};
ghost use Rattle.gb_typing.specs.Scopes.{context_of, IsTypedScope};
ghost use Rattle.gb_typing.specs.Sequents.{of_sequent, IsTypedSequent};
ghost use Rattle.gb_adv.specs.Rows.{abstract_row, IsTypedRule};

/// Each rule on procedures of abstract modules with typed arguments is sound over each typed scope, at the goal of each typed sequent: what it
/// gives is typed, and implies the goal.
pub fn abstract_rules()
    ensures { (ds : Declarations) → IsTypedScope (declared ds) → (q : Sequent) (t : IsTypedSequent (context_of (declared ds)) q) → (r : AbstractRule) →
        IsSoundRuleIn (declared ds) (of_sequent (context_of (declared ds)) q t.frames) (abstract_row ds r)
        (IsTypedRule (of_sequent (context_of (declared ds)) q t.frames) r) }
{}

/// A form that is no judgment is refused.
pub fn refused_forms()
    ensures { (ds : Declarations) (r : AbstractRule) (f : Term) → abstract_row ds r (ambient f) ≡ refusing Shape }
{}
