//! What loses no weight.

ghost use Rattle.std.specs.Prelude.{◌≡◌, List};
ghost use Rattle.gb_terms.specs.declared.decl.TypedName.{TypedName};
ghost use Rattle.gb_terms.specs.declared.term.Instr.{Instr};
ghost use Rattle.gb_dist.specs.WeightedList.{total};
ghost use Rattle.gb_goal.specs.Scope.{Declarations};
ghost use Rattle.gb_goal.specs.declared.sequent.Sequent.{Sequent};
ghost use Rattle.gb_meaning.specs.Declared.{declared};
ghost use Rattle.gb_meaning.specs.Memory.{Memory};
ghost use Rattle.gb_meaning.specs.Setting.{Setting};
ghost use Rattle.gb_meaning.specs.State.{State};
ghost use Rattle.gb_typing.specs.Fits.{IsSettingOf};
ghost use Rattle.gb_typing.specs.Meaning.{run, denominator};
ghost use Rattle.gb_typing.specs.Programs.{IsBody};
ghost use Rattle.gb_typing.specs.Rules.{IsSettingOver};
ghost use Rattle.gb_typing.specs.Scopes.{context_of, IsTypedScope};
ghost use Rattle.gb_typing.specs.Sequents.{of_sequent, IsTypedSequent};
ghost use Rattle.gb_full.specs.Loss.{nowhere, first_loss};

/// Over a typed scope the run of a body has the whole weight where neither it nor what it calls may lose weight.
pub fn full_bodies()
    ensures { (ds : Declarations) → IsTypedScope (declared ds) → (q : Sequent) (t : IsTypedSequent (context_of (declared ds)) q) (g : Setting) →
        IsSettingOf (of_sequent (context_of (declared ds)) q t.frames) g → IsSettingOver (declared ds) g → (ls : List TypedName) (is : List Instr) →
        IsBody (of_sequent (context_of (declared ds)) q t.frames) ls is → first_loss ds is ≡ nowhere →
        (s : State) (m : Memory) → total (run g s is m) ≡ denominator g is }
{}
