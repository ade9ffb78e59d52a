//! What the rules promise that put other statements into a program.

ghost use Rattle.std.specs.Prelude.{◌≡◌, ◌*◌, Bool, List, Some};
ghost use Rattle.gb_core.specs.declared.refusal.Why.TheVariants.{Shape};
ghost use Rattle.gb_dist.specs.WeightedList.{weight};
ghost use Rattle.gb_goal.specs.Goal.Goal.{ambient};
ghost use Rattle.gb_goal.specs.Rows.{refusing};
ghost use Rattle.gb_goal.specs.Scope.{Declarations};
ghost use Rattle.gb_goal.specs.declared.sequent.Sequent.{Sequent};
ghost use Rattle.gb_meaning.specs.Declared.{declared};
ghost use Rattle.gb_steps.specs.declared.step.Rule.{Rule};
ghost use Rattle.gb_steps.specs.declared.step.Calls.{Calls};
ghost use Rattle.gb_terms.specs.declared.decl.TypedName.{TypedName};
ghost use Rattle.gb_terms.specs.declared.op.Side.{Side};
ghost use Rattle.gb_terms.specs.declared.term.Instr.{Instr};
ghost use Rattle.gb_terms.specs.declared.term.Term.{Term};
ghost use Rattle.gb_walk.specs.Clash.{variables_read};
ghost use Rattle.gb_meaning.specs.Memory.{Memory};
ghost use Rattle.gb_meaning.specs.Setting.{Setting};
ghost use Rattle.gb_meaning.specs.State.{State};
ghost use Rattle.gb_typing.specs.Meaning.{denominator, run};
ghost use Rattle.gb_typing.specs.Programs.{IsBody};
ghost use Rattle.gb_typing.specs.Rules.{IsSettingOver};
ghost use Rattle.gb_trans.specs.Events.{ReadsAlone};
ghost use Rattle.gb_inline.specs.Inlined.{inlined};
ghost use Rattle.gb_typing.specs.Scopes.{context_of, IsTypedScope};
ghost use Rattle.gb_typing.specs.Sequents.{of_sequent, IsTypedSequent};
ghost use Rattle.gb_inline.specs.Proved.{IsSoundProvedRule};
ghost use Rattle.gb_inline.specs.Rows.{rule_row};

/// Each such rule is sound over each typed scope, at the goal of each typed sequent: what it gives is typed, and implies the goal where its
/// loops end; then its loops end, where the loops of procedures are good that are proved.
pub fn transforming_rules()
    ensures { (ds : Declarations) → IsTypedScope (declared ds) → (q : Sequent) (t : IsTypedSequent (context_of (declared ds)) q) → (r : Rule) →
        IsSoundProvedRule ds (of_sequent (context_of (declared ds)) q t.frames) (rule_row ds r) }
{}

/// A form that is no judgment is refused.
pub fn untransformed_forms()
    ensures { (ds : Declarations) (r : Rule) (f : Term) → rule_row ds r (ambient f) ≡ refusing Shape }
{}

/// After calls of a typed body are inlined each event has the same probability as before, from each memory, that reads of variables those
/// alone that the postcondition reads.
pub fn same_events()
    ensures { (ds : Declarations) → IsTypedScope (declared ds) → (q : Sequent) (t : IsTypedSequent (context_of (declared ds)) q) (g : Setting) →
        IsSettingOver (declared ds) g → (calls : Calls) (side : Side) (pre post : Term) (is js : List Instr) → inlined ds calls side pre post is ≡ Some js →
        (ls : List TypedName) → IsBody (of_sequent (context_of (declared ds)) q t.frames) ls is →
        (s : State) (m : Memory) (event : Memory → Bool) → ReadsAlone g.types (variables_read side post) event →
        weight (run g s js m) event * denominator g is ≡ weight (run g s is m) event * denominator g js }
{}
