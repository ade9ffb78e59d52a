//! What `sim` leaves of the runs of the same statements on both sides.

ghost use Rattle.std.specs.Prelude.{◌≡◌, ◌*◌, Bool, List};
ghost use Rattle.std.specs.List.{AllByRecursion};
ghost use Rattle.gb_dist.specs.WeightedList.{weight};
ghost use Rattle.gb_terms.specs.declared.decl.TypedName.{TypedName};
ghost use Rattle.gb_terms.specs.declared.term.Instr.{Instr};
ghost use Rattle.gb_terms.specs.declared.term.Term.{Term};
ghost use Rattle.gb_meaning.specs.Judgments.{IsFair, IsTrueUnder, Judge};
ghost use Rattle.gb_meaning.specs.Memory.{Memory};
ghost use Rattle.gb_meaning.specs.Setting.{Setting};
ghost use Rattle.gb_meaning.specs.State.{State, between};
ghost use Rattle.gb_goal.specs.Answers.Answer.{given};
ghost use Rattle.gb_goal.specs.Goal.{Goal};
ghost use Rattle.gb_goal.specs.Goal.Code.{body};
ghost use Rattle.gb_goal.specs.Goal.Goal.{equiv};
ghost use Rattle.gb_goal.specs.Scope.{Declarations};
ghost use Rattle.gb_goal.specs.declared.sequent.Sequent.{Sequent};
ghost use Rattle.gb_meaning.specs.Declared.{declared};
ghost use Rattle.gb_typing.specs.Fits.{IsSettingOf, IsStateOf};
ghost use Rattle.gb_typing.specs.Goals.{IsGoalOver};
ghost use Rattle.gb_typing.specs.Meaning.{Stands, denominator, run};
ghost use Rattle.gb_typing.specs.Rules.{IsSettingOver};
ghost use Rattle.gb_typing.specs.Scopes.{IsTypedScope, context_of};
ghost use Rattle.gb_typing.specs.Sequents.{IsTypedSequent, of_sequent};
ghost use Rattle.gb_sim.specs.Sim.{sim_row};

/// Where the goal of `sim` stands, the same statements on both sides give an event the same probability, from each two memories of which the
/// precondition p is true. It is told of events that are the same in two memories of which the postcondition q is true: that q says which
/// variables are equal there, and such an event reads those alone.
pub fn alike_events()
    ensures { (ds : Declarations) → IsTypedScope (declared ds) → (t : Sequent) (typed : IsTypedSequent (context_of (declared ds)) t) →
        (ls rs : List TypedName) (is js : List Instr) (p q : Term) → is ≡ js →
        IsGoalOver (of_sequent (context_of (declared ds)) t typed.frames) ls rs (equiv (body is) (body js) p q) →
        (Gs : List Goal) → sim_row ds (equiv (body is) (body js) p q) ≡ given Gs →
        (g : Setting) → IsSettingOf (of_sequent (context_of (declared ds)) t typed.frames) g → IsSettingOver (declared ds) g →
        (j : Judge) → IsFair g j → (s : State) → IsStateOf (of_sequent (context_of (declared ds)) t typed.frames) g s →
        AllByRecursion (Stands g j s) Gs → (m n : Memory) → IsTrueUnder g j p (between s m n) → (event : Memory → Bool) →
        ((a b : Memory) → IsTrueUnder g j q (between s a b) → event a ≡ event b) →
        weight (run g s is m) event * denominator g js ≡ weight (run g s js n) event * denominator g is }
{}
