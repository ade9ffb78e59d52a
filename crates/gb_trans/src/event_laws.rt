//! What `swap` leaves of the runs of a body: each event is as likely before it and after it.

ghost use Rattle.std.specs.Prelude.{◌≡◌, ◌*◌, Bool, List};
ghost use Rattle.gb_dist.specs.WeightedList.{weight};
ghost use Rattle.gb_terms.specs.declared.decl.TypedName.{TypedName};
ghost use Rattle.gb_terms.specs.declared.term.Instr.{Instr};
ghost use Rattle.gb_meaning.specs.Memory.{Memory};
ghost use Rattle.gb_meaning.specs.Setting.{Setting};
ghost use Rattle.gb_meaning.specs.State.{State};
ghost use Rattle.gb_goal.specs.Answers.Answer.{given};
ghost use Rattle.gb_goal.specs.Scope.{Declarations};
ghost use Rattle.gb_goal.specs.declared.sequent.Sequent.{Sequent};
ghost use Rattle.gb_meaning.specs.Declared.{declared};
ghost use Rattle.gb_steps.specs.declared.step.Passing.{Passing};
ghost use Rattle.gb_typing.specs.Meaning.{denominator, run};
ghost use Rattle.gb_typing.specs.Programs.{IsBody};
ghost use Rattle.gb_typing.specs.Rules.{IsSettingOver};
ghost use Rattle.gb_typing.specs.Scopes.{IsTypedScope, context_of};
ghost use Rattle.gb_typing.specs.Sequents.{IsTypedSequent, of_sequent};
ghost use Rattle.gb_trans.specs.Swap.{swapped};

/// After `swap` a typed body gives each event the same probability as before, from each memory.
pub fn swapped_events()
    ensures { (ds : Declarations) → IsTypedScope (declared ds) → (q : Sequent) (t : IsTypedSequent (context_of (declared ds)) q) (g : Setting) →
        IsSettingOver (declared ds) g → (w : Passing) (is js : List Instr) → swapped ds w is ≡ given js →
        (ls : List TypedName) → IsBody (of_sequent (context_of (declared ds)) q t.frames) ls is → (s : State) (m : Memory) (event : Memory → Bool) →
        weight (run g s js m) event * denominator g is ≡ weight (run g s is m) event * denominator g js }
{}
