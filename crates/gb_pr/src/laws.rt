//! What the rules on probabilities promise.

ghost use Rattle.gb_goal.specs.Scope.{Declarations};
ghost use Rattle.gb_goal.specs.declared.sequent.Sequent.{Sequent};
ghost use Rattle.gb_steps.specs.declared.step.Rule.{Rule};
ghost use Rattle.gb_meaning.specs.Declared.{declared};
ghost use Rattle.gb_typing.specs.Rules.{IsSoundRuleIn};
ghost use Rattle.gb_typing.specs.Scopes.{context_of, IsTypedScope};
ghost use Rattle.gb_typing.specs.Sequents.{of_sequent, IsTypedSequent};
ghost use Rattle.gb_pr.specs.Rows.{rule_row, IsTypedRule};

/// Each rule is sound over each typed scope, at the goal of each typed sequent, where the conditions of its step are typed: what it gives
/// is typed, and implies the goal.
pub fn probability_rules()
    ensures { (ds : Declarations) → IsTypedScope (declared ds) → (q : Sequent) (t : IsTypedSequent (context_of (declared ds)) q) → (r : Rule) →
        IsSoundRuleIn (declared ds) (of_sequent (context_of (declared ds)) q t.frames) (rule_row ds r) (IsTypedRule (of_sequent (context_of (declared ds)) q t.frames) r) }
{}
