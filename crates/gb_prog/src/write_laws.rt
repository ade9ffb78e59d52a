//! What programs write.

ghost use Rattle.std.specs.Prelude.{◌≡◌, Bool, true, List, [], ◌∷◌, ◌++◌, Some};
ghost use Rattle.std.specs.List.{AllByRecursion, list_any};
ghost use Rattle.gb_core.specs.declared.ty.Ty.{Ty};
ghost use Rattle.gb_core.specs.declared.var.Var.{Var};
ghost use Rattle.gb_dist.specs.WeightedList.{Every};
ghost use Rattle.gb_terms.specs.declared.op.Side.{Side};
ghost use Rattle.gb_terms.specs.declared.module.ProcRef.{ProcRef};
ghost use Rattle.gb_terms.specs.declared.term.Cmd.{Cmd};
ghost use Rattle.gb_terms.specs.declared.term.Head.TheVariants.{Assign, Sample, Call, If, While};
ghost use Rattle.gb_terms.specs.declared.term.Instr.{Instr};
ghost use Rattle.gb_terms.specs.declared.term.Term.{Term};
ghost use Rattle.gb_meaning.specs.Commands.{statements};
ghost use Rattle.gb_meaning.specs.Values.{Types};
ghost use Rattle.gb_terms.specs.Equal.{var_eq};
ghost use Rattle.gb_meaning.specs.Memory.{Memory, read};
ghost use Rattle.gb_meaning.specs.Program.{Program, Routine};
ghost use Rattle.gb_meaning.specs.Runs.{out};
ghost use Rattle.gb_meaning.specs.Setting.{Setting};
ghost use Rattle.gb_meaning.specs.State.{State};
ghost use Rattle.gb_meaning.specs.Judgments.{Judge, IsFair, den};
ghost use Rattle.gb_laws.specs.Uses.{IsWithin};
ghost use Rattle.gb_laws.specs.Written.{IsSide, with_side};
ghost use Rattle.gb_typing.specs.Context.{Context, Frame, frame_of, reframed};
ghost use Rattle.gb_typing.specs.Typing.{IsForm};
ghost use Rattle.gb_typing.specs.Fits.{IsSettingOf};
ghost use Rattle.gb_typing.specs.Puts.{Readable, reading};
ghost use Rattle.gb_typing.specs.Forms.{IsAlone};
ghost use Rattle.gb_prog.specs.Writes.{written, written_by, WritesWithin, RoutineWritesWithin, AreWithin, DifferIn, IsApart};
ghost use Rattle.gb_prog.specs.Writes.{TypedVariable, variables, overwritten, AreIn, Covers, read_among};

/// A program changes a memory at the places of the variables alone that it writes, through all procedures that it calls. So each
/// variable that clashes with none of them is read at each end as it was at the start.
pub fn writes()
    ensures within { (g : Setting) (c : Program) → WritesWithin g (written c) c }
    ensures places { (g : Setting) (s : State) (W : List Var) (c : Program) → WritesWithin g W c → (m : Memory) → Every (DifferIn g.types W m) (out g s c m) }
    ensures reads { (g : Setting) (s : State) (W : List Var) (c : Program) → WritesWithin g W c → (m : Memory) →
        Every (λ n. (y : Var) (t : Ty) → IsApart g W y → read g.types n y t ≡ read g.types m y t) (out g s c m) }
{}

/// When a list of statements writes at the places of variables alone, from its parts.
pub fn within()
    ensures assignment { (g : Setting) (W xs : List Var) (e : Term) (is : List Instr) → AreWithin g.types W xs →
        WritesWithin g W (statements g is) → WritesWithin g W (statements g (Assign xs e ∷ is)) }
    ensures sampling { (g : Setting) (W : List Var) (x : Var) (d : Term) (is : List Instr) → AreWithin g.types W (x ∷ []) →
        WritesWithin g W (statements g is) → WritesWithin g W (statements g (Sample x d ∷ is)) }
    ensures call { (g : Setting) (W xs : List Var) (p : ProcRef) (es : List Term) (r : Routine) → g.procedure p ≡ Some r → (is : List Instr) →
        AreWithin g.types W xs → RoutineWritesWithin g W r →
        WritesWithin g W (statements g is) → WritesWithin g W (statements g (Call xs p es ∷ is)) }
    ensures branch { (g : Setting) (W : List Var) (e : Term) (a b : Cmd) (is : List Instr) → WritesWithin g W (statements g a.list) →
        WritesWithin g W (statements g b.list) → WritesWithin g W (statements g is) → WritesWithin g W (statements g (If e a b ∷ is)) }
    ensures repetition { (g : Setting) (W : List Var) (e v : Term) (b : Cmd) (is : List Instr) → WritesWithin g W (statements g b.list) →
        WritesWithin g W (statements g is) → WritesWithin g W (statements g (While e v b ∷ is)) }
    ensures sequence { (g : Setting) (W : List Var) (is js : List Instr) → WritesWithin g W (statements g is) →
        WritesWithin g W (statements g js) → WritesWithin g W (statements g (is ++ js)) }
    ensures procedure { (g : Setting) (W : List Var) (r : Routine) → AreWithin g.types W (written_by r) → RoutineWritesWithin g W r }
    ensures variables { (t : Types) (W : List Var) (x : Var) → list_any (var_eq x) W ≡ true → (xs : List Var) → AreWithin t W xs → AreWithin t W (x ∷ xs) }
{}

/// Where two memories differ in the places of some variables alone, typed variables cover those as far as a form reads, and it reads of
/// no other variable that clashes with one of these, the form is true in the second memory exactly where it is true in the first with
/// the values that the typed variables have in the second. Variables cover themselves, and those that may be read cover all.
pub fn frames()
    ensures forms { (c : Context) (g : Setting) → IsSettingOf c g → (r : Side) → IsSide r → (P : Readable) (U : List Var) (W : List TypedVariable) →
        Covers g (P r) U W → AllByRecursion (λ w. IsAlone g w.variable (P r)) W → AreIn c (frame_of c r) W →
        (m n : Memory) → DifferIn g.types U m n → (j : Judge) → IsFair g j → (q : Term) → IsForm c q → IsWithin (reading P) q → (s : State) →
        den g j q (with_side s r n) ≡ den g j q (with_side s r (overwritten g.types W n m)) }
    ensures all { (g : Setting) (P : Var → Bool) (W : List TypedVariable) → AllByRecursion (λ w. IsAlone g w.variable P) W → Covers g P (variables W) W }
    ensures read { (g : Setting) (P : Var → Bool) (W : List TypedVariable) → AllByRecursion (λ w. IsAlone g w.variable P) W →
        Covers g P (variables W) (read_among P W) }
{}
