//! What the rules promise that put other statements into a program, and what `kill` leaves of its runs.

ghost use Rattle.std.specs.Prelude.{◌≡◌, ℕ, ◌*◌, Bool, List};
ghost use Rattle.gb_core.specs.declared.refusal.Why.TheVariants.{Shape};
ghost use Rattle.gb_dist.specs.WeightedList.{weight};
ghost use Rattle.gb_terms.specs.declared.decl.TypedName.{TypedName};
ghost use Rattle.gb_terms.specs.declared.term.Instr.{Instr};
ghost use Rattle.gb_terms.specs.declared.term.Term.{Term};
ghost use Rattle.gb_walk.specs.Clash.{variables_read};
ghost use Rattle.gb_meaning.specs.Memory.{Memory};
ghost use Rattle.gb_meaning.specs.Setting.{Setting};
ghost use Rattle.gb_meaning.specs.State.{State};
ghost use Rattle.gb_goal.specs.Answers.Answer.{given};
ghost use Rattle.gb_goal.specs.Goal.Goal.{ambient};
ghost use Rattle.gb_goal.specs.Rows.{refusing};
ghost use Rattle.gb_goal.specs.Scope.{Declarations};
ghost use Rattle.gb_goal.specs.declared.sequent.Sequent.{Sequent};
ghost use Rattle.gb_meaning.specs.Declared.{declared};
ghost use Rattle.gb_steps.specs.declared.step.Rule.{Rule};
ghost use Rattle.gb_typing.specs.Fits.{IsSettingOf};
ghost use Rattle.gb_typing.specs.Meaning.{run, denominator};
ghost use Rattle.gb_typing.specs.Programs.{IsBody};
ghost use Rattle.gb_typing.specs.Rules.{IsSettingOver, no_arguments};
ghost use Rattle.gb_typing.specs.Scopes.{context_of, IsTypedScope};
ghost use Rattle.gb_typing.specs.Sequents.{of_sequent, IsTypedSequent};
ghost use Rattle.gb_prog.specs.OneBody.{OneBody};
ghost use Rattle.gb_prog.specs.Ends.{IsSoundLoopRule};
ghost use Rattle.gb_trans.specs.Events.{ReadsAlone};
ghost use Rattle.gb_trans.specs.Kill.{killed};
ghost use Rattle.gb_trans.specs.KillRows.{rule_row};

/// Each such rule is sound over each typed scope, at the goal of each typed sequent whose loops end: what it gives is typed and implies the
/// goal, and its loops end.
pub fn killing_rules()
    ensures { (ds : Declarations) → IsTypedScope (declared ds) → (q : Sequent) (t : IsTypedSequent (context_of (declared ds)) q) → (r : Rule) →
        IsSoundLoopRule (declared ds) (of_sequent (context_of (declared ds)) q t.frames) (rule_row ds r) no_arguments }
{}

/// A form that is no judgment is refused.
pub fn unkilled_forms()
    ensures { (ds : Declarations) (r : Rule) (f : Term) → rule_row ds r (ambient f) ≡ refusing Shape }
{}

/// Without a statement that `kill` takes away a typed body gives each event the same probability, from each memory, that reads of
/// variables those alone that the postcondition reads.
pub fn same_events()
    ensures { (ds : Declarations) → IsTypedScope (declared ds) → (q : Sequent) (t : IsTypedSequent (context_of (declared ds)) q) (g : Setting) →
        IsSettingOf (of_sequent (context_of (declared ds)) q t.frames) g → IsSettingOver (declared ds) g → (ls : List TypedName) (o : OneBody) →
        IsBody (of_sequent (context_of (declared ds)) q t.frames) ls o.list → (n : ℕ) (js : List Instr) → killed ds n o ≡ given js →
        (s : State) (m : Memory) (event : Memory → Bool) → ReadsAlone g.types (variables_read o.side o.post) event →
        weight (run g s js m) event * denominator g o.list ≡ weight (run g s o.list m) event * denominator g js }
{}
