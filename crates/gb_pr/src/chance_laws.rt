//! What the rules on judgments with a probability promise.

ghost use Rattle.std.specs.Prelude.{◌≡◌};
ghost use Rattle.gb_core.specs.declared.refusal.Why.TheVariants.{Shape};
ghost use Rattle.gb_terms.specs.declared.term.Term.{Term};
ghost use Rattle.gb_goal.specs.Goal.Goal.{ambient};
ghost use Rattle.gb_goal.specs.Rows.{refusing};
ghost use Rattle.gb_goal.specs.Scope.{Declarations};
ghost use Rattle.gb_goal.specs.declared.sequent.Sequent.{Sequent};
ghost use Rattle.gb_steps.specs.declared.step.Rule.{Rule};
ghost use Rattle.gb_meaning.specs.Declared.{declared};
ghost use Rattle.gb_typing.specs.Scopes.{context_of, IsTypedScope};
ghost use Rattle.gb_typing.specs.Sequents.{of_sequent, IsTypedSequent};
ghost use Rattle.gb_typing.specs.Rules.{IsSoundRuleIn, no_arguments};
ghost use Rattle.gb_pr.specs.ChanceRows.{rule_row};

/// Each rule is sound over each typed scope, at the goal of each typed sequent: what it gives is typed, and implies the goal.
pub fn chance_rules()
    ensures { (ds : Declarations) → IsTypedScope (declared ds) → (q : Sequent) (t : IsTypedSequent (context_of (declared ds)) q) → (r : Rule) →
        IsSoundRuleIn (declared ds) (of_sequent (context_of (declared ds)) q t.frames) (rule_row ds r) no_arguments }
{}

/// A form that is no judgment is refused.
pub fn no_judgments()
    ensures { (ds : Declarations) (r : Rule) (f : Term) → rule_row ds r (ambient f) ≡ refusing Shape }
{}
