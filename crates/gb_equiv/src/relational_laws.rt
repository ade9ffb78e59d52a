//! The rules on equivalences are sound.

ghost use Rattle.std.specs.Prelude.{◌≡◌};
ghost use Rattle.gb_core.specs.declared.refusal.Why.TheVariants.{Shape};
ghost use Rattle.gb_goal.specs.Goal.Goal.{ambient};
ghost use Rattle.gb_goal.specs.Rows.{refusing};
ghost use Rattle.gb_goal.specs.Scope.{Declarations};
ghost use Rattle.gb_goal.specs.declared.sequent.Sequent.{Sequent};
ghost use Rattle.gb_meaning.specs.Declared.{declared};
ghost use Rattle.gb_steps.specs.declared.step.Acts.{Acts};
ghost use Rattle.gb_steps.specs.declared.step.Between.{Between};
ghost use Rattle.gb_steps.specs.declared.step.Rule.{Rule};
ghost use Rattle.gb_terms.specs.declared.term.Term.{Term};
ghost use Rattle.gb_typing.specs.Context.{Context};
ghost use Rattle.gb_typing.specs.Rules.{IsSoundRule, IsSoundRuleIn, no_arguments};
ghost use Rattle.gb_typing.specs.Scopes.{context_of, IsTypedScope};
ghost use Rattle.gb_typing.specs.Sequents.{of_sequent, IsTypedSequent};
ghost use Rattle.gb_equiv.specs.OneSide.{drawn_row};
ghost use Rattle.gb_equiv.specs.Rows.{rule_row, IsTypedRule};
ghost use Rattle.gb_equiv.specs.Transitivity.{IsTypedBetween, transitivity_row};

/// `rnd` with a side is sound over each typed scope, at the goal of each typed sequent.
pub fn drawn_is_sound()
    ensures { (ds : Declarations) → IsTypedScope (declared ds) → (q : Sequent) (t : IsTypedSequent (context_of (declared ds)) q) → (a : Acts) →
        IsSoundRuleIn (declared ds) (of_sequent (context_of (declared ds)) q t.frames) (drawn_row ds a) no_arguments }
{}

/// `transitivity` is sound.
pub fn transitivity_is_sound()
    ensures { (c : Context) (t : Between) → IsSoundRule c (transitivity_row t) (IsTypedBetween c t) }
{}

/// Each rule on equivalences with typed arguments is sound over each typed scope, at the goal of each typed sequent.
pub fn relational_rules()
    ensures { (ds : Declarations) → IsTypedScope (declared ds) → (q : Sequent) (t : IsTypedSequent (context_of (declared ds)) q) → (r : Rule) →
        IsSoundRuleIn (declared ds) (of_sequent (context_of (declared ds)) q t.frames) (rule_row ds r)
        (IsTypedRule (of_sequent (context_of (declared ds)) q t.frames) r) }
{}

/// A form that is no judgment is refused.
pub fn other_goals()
    ensures { (ds : Declarations) (r : Rule) (f : Term) → rule_row ds r (ambient f) ≡ refusing Shape }
{}
