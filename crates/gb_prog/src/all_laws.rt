//! Forms for all values of variables.

ghost use Rattle.std.specs.Prelude.{◌≡◌, true, List, ◌++◌};
ghost use Rattle.gb_core.specs.declared.var.Var.{Var};
ghost use Rattle.gb_dist.specs.WeightedList.{Every};
ghost use Rattle.gb_terms.specs.declared.op.Side.{Side};
ghost use Rattle.gb_terms.specs.declared.op.Side.TheVariants.{Own, Left, Right};
ghost use Rattle.gb_terms.specs.declared.term.Instr.{Instr};
ghost use Rattle.gb_terms.specs.declared.term.Term.{Term};
ghost use Rattle.gb_meaning.specs.Commands.{statements};
ghost use Rattle.gb_meaning.specs.Judgments.{Judge, IsFair, den};
ghost use Rattle.gb_meaning.specs.Memory.{Memory};
ghost use Rattle.gb_meaning.specs.Setting.{Setting};
ghost use Rattle.gb_meaning.specs.State.{State, at, between, memory_of};
ghost use Rattle.gb_laws.specs.Uses.{IsWithin};
ghost use Rattle.gb_laws.specs.Written.{IsSide, with_side};
ghost use Rattle.gb_typing.specs.Context.{Context, Frame, reframed};
ghost use Rattle.gb_typing.specs.Typing.{IsForm};
ghost use Rattle.gb_typing.specs.Fits.{IsSettingOf, IsStateOf};
ghost use Rattle.gb_typing.specs.Puts.{Readable, reading};
ghost use Rattle.gb_typing.specs.Rules.{outermost};
ghost use Rattle.gb_typing.specs.Meaning.{run};
ghost use Rattle.gb_prog.specs.Writes.{WritesWithin, DifferIn, TypedVariable, Covers};
ghost use Rattle.gb_prog.specs.AllValues.{Located, in_memory, all_values, AreLocated, AreAlone};

/// A form for all values of variables is typed where the form is. Where it is true, the form is true in all memories that differ in
/// variables alone that these cover, in one memory or on both sides; so it is true where a body ends that writes such variables alone.
/// A variable that the form doesn't read needs no quantifier.
pub fn all_values_of_variables()
    ensures typed { (c : Context) → c ≡ outermost c → (F L K : Frame) (f : Term) → IsForm (reframed c F L K) f → (W : List Located) →
        AreLocated (reframed c F L K) W → IsForm (reframed c F L K) (all_values W f) }
    ensures one { (c : Context) → c ≡ outermost c → (F L K : Frame) (f : Term) → IsForm (reframed c F L K) f → (g : Setting) → IsSettingOf c g →
        (j : Judge) → IsFair g j → (P : Readable) → IsWithin (reading P) f → (s : State) → IsStateOf (reframed c F L K) g s →
        (r : Side) → IsSide r → (U : List Var) (W : List TypedVariable) → Covers g (P r) U W →
        AreLocated (reframed c F L K) (in_memory r W) → AreAlone g P (in_memory r W) →
        den g j (all_values (in_memory r W) f) s ≡ true → (n : Memory) → DifferIn g.types U (memory_of s r) n →
        den g j f (with_side s r n) ≡ true }
    ensures two { (c : Context) → c ≡ outermost c → (F L K : Frame) (f : Term) → IsForm (reframed c F L K) f → (g : Setting) → IsSettingOf c g →
        (j : Judge) → IsFair g j → (P : Readable) → IsWithin (reading P) f → (s : State) → IsStateOf (reframed c F L K) g s →
        (T U : List Var) (V W : List TypedVariable) → Covers g (P Left) T V → Covers g (P Right) U W →
        AreLocated (reframed c F L K) (in_memory Left V ++ in_memory Right W) →
        AreAlone g P (in_memory Left V ++ in_memory Right W) → den g j (all_values (in_memory Left V ++ in_memory Right W) f) s ≡ true →
        (m n : Memory) → DifferIn g.types T s.left m → DifferIn g.types U s.right n → den g j f (between s m n) ≡ true }
    ensures ends { (c : Context) → c ≡ outermost c → (F L K : Frame) (f : Term) → IsForm (reframed c F L K) f → (g : Setting) → IsSettingOf c g →
        (j : Judge) → IsFair g j → (P : Readable) → IsWithin (reading P) f → (s : State) → IsStateOf (reframed c F L K) g s →
        (U : List Var) (W : List TypedVariable) → Covers g (P Own) U W →
        AreLocated (reframed c F L K) (in_memory Own W) → AreAlone g P (in_memory Own W) → (m : Memory) →
        den g j (all_values (in_memory Own W) f) (at s m) ≡ true → (is : List Instr) → WritesWithin g U (statements g is) →
        Every (λ n. den g j f (at s n) ≡ true) (run g s is m) }
{}
