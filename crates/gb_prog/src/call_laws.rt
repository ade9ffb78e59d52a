//! Calls of procedures.

ghost use Rattle.std.specs.Prelude.{◌≡◌, ◌*◌, List, [], ◌∷◌, map, Some};
ghost use Rattle.gb_core.specs.declared.value.Value.{Value};
ghost use Rattle.gb_core.specs.declared.var.Var.{Var};
ghost use Rattle.gb_dist.specs.WeightedList.{bind, dmap};
ghost use Rattle.gb_terms.specs.declared.decl.TypedName.{TypedName};
ghost use Rattle.gb_terms.specs.declared.module.ProcRef.{ProcRef};
ghost use Rattle.gb_terms.specs.declared.term.Head.TheVariants.{Call};
ghost use Rattle.gb_terms.specs.declared.term.Instr.{Instr};
ghost use Rattle.gb_terms.specs.declared.term.Term.{Term};
ghost use Rattle.gb_meaning.specs.Judgments.{from_frame};
ghost use Rattle.gb_meaning.specs.Memory.{Memory};
ghost use Rattle.gb_meaning.specs.Names.{Path, Map};
ghost use Rattle.gb_meaning.specs.Program.{Routine};
ghost use Rattle.gb_meaning.specs.Runs.{outcomes, routine_denominator, valued, returned};
ghost use Rattle.gb_meaning.specs.Setting.{Setting};
ghost use Rattle.gb_meaning.specs.State.{State};
ghost use Rattle.gb_meaning.specs.Written.{params_of};
ghost use Rattle.gb_laws.specs.Cells.{Key, get_at};
ghost use Rattle.gb_laws.specs.Writes.{Spares};
ghost use Rattle.gb_laws.specs.Programs.{AreValuesOf};
ghost use Rattle.gb_typing.specs.Context.{Context};
ghost use Rattle.gb_typing.specs.Fits.{IsSettingOf};
ghost use Rattle.gb_typing.specs.Programs.{AreArguments};
ghost use Rattle.gb_typing.specs.Meaning.{run, denominator};
ghost use Rattle.gb_prog.specs.Calls.{called_from};

/// A call runs the outcomes of its procedure, in a frame of its own, from the values of its arguments, and returns to the caller.
pub fn calls()
    ensures alone { (g : Setting) (xs : List Var) (p : ProcRef) (es : List Term) (r : Routine) → g.procedure p ≡ Some r → (s : State) (m : Memory) →
        run g s (Call xs p es ∷ []) m ≡ dmap (returned g xs m) (outcomes g r (map (λ e. valued g s e m) es) m.globals) }
    ensures run { (g : Setting) (xs : List Var) (p : ProcRef) (es : List Term) (r : Routine) → g.procedure p ≡ Some r → (s : State)
        (is : List Instr) (m : Memory) → run g s (Call xs p es ∷ is) m ≡
        bind (dmap (returned g xs m) (outcomes g r (map (λ e. valued g s e m) es) m.globals)) (λ n. run g s is n) }
    ensures denominator { (g : Setting) (xs : List Var) (p : ProcRef) (es : List Term) (r : Routine) → g.procedure p ≡ Some r → (is : List Instr) →
        denominator g (Call xs p es ∷ is) ≡ routine_denominator g r * denominator g is }
{}

/// The caller's locals stay but those of the left side, and the globals are those of the outcome but those of the left side.
pub fn returns()
    ensures local { (g : Setting) (xs : List Var) (m n : Memory) (x : Path) → Spares g.types xs (Key.local x) →
        get_at (returned g xs m n) (Key.local x) ≡ get_at m (Key.local x) }
    ensures global { (g : Setting) (xs : List Var) (m n : Memory) (x : Path) → Spares g.types xs (Key.global x) →
        get_at (returned g xs m n) (Key.global x) ≡ get_at n (Key.global x) }
{}

/// The arguments of a typed call have values of the parameters' types, and from such values a judgment of the procedure speaks of the
/// call's outcomes: it starts from the memory whose frame holds them for the parameters.
pub fn judged_calls()
    ensures arguments { (c : Context) (g : Setting) → IsSettingOf c g → (ls : List TypedName) (s : State) (m : Memory) (es : List Term)
        (ps : List TypedName) → AreArguments c ls es ps → AreValuesOf g.types ps (map (λ e. valued g s e m) es) }
    ensures outcomes { (g : Setting) (r : Routine) (vs : List Value) → AreValuesOf g.types (params_of r) vs → (globals : Map) →
        from_frame g (Some r) (called_from r vs globals) ≡ outcomes g r vs globals }
{}
