//! Couplings of runs, and runs that are one distribution. Relations are tests here, as forms are under a judge.

ghost use Rattle.std.specs.Prelude.{◌≡◌, ℕ, ◌<◌, Bool, true, List, [], ◌++◌};
ghost use Rattle.gb_dist.specs.WeightedList.{WeightedList, Every};
ghost use Rattle.gb_dist.specs.Coupling.{Coupling, Passes};
ghost use Rattle.gb_terms.specs.declared.op.Rel.{Rel};
ghost use Rattle.gb_terms.specs.declared.term.Instr.{Instr};
ghost use Rattle.gb_terms.specs.declared.term.Term.{Term};
ghost use Rattle.gb_meaning.specs.Commands.{statements};
ghost use Rattle.gb_meaning.specs.Fractions.{Fraction};
ghost use Rattle.gb_meaning.specs.Judgments.{Judge, IsFair, den, IsTrueUnder, compares, chance};
ghost use Rattle.gb_meaning.specs.Memory.{Memory};
ghost use Rattle.gb_meaning.specs.Program.{Program};
ghost use Rattle.gb_meaning.specs.Runs.{out, run_denominator};
ghost use Rattle.gb_meaning.specs.Setting.{Setting};
ghost use Rattle.gb_meaning.specs.Sound.{IsSound, Full};
ghost use Rattle.gb_meaning.specs.State.{State, between};
ghost use Rattle.gb_typing.specs.Context.{Context, Frame, with_sides};
ghost use Rattle.gb_typing.specs.Typing.{IsForm};
ghost use Rattle.gb_typing.specs.Fits.{IsSettingOf};
ghost use Rattle.gb_typing.specs.Meaning.{run, denominator};
ghost use Rattle.gb_typing.specs.Rules.{outermost};
ghost use Rattle.gb_prog.specs.Exchanged.{exchanged};
ghost use Rattle.gb_prog.specs.Loops.{RunAlike};

/// Statements that are coupled on a relation, followed by statements that are coupled from memories in it, are coupled.
pub fn sequence()
    ensures { (g : Setting) (s : State) (is js ks ls : List Instr) (R Q : Memory → Memory → Bool) (m n : Memory) →
        Coupling (Passes R) (run g s is m) (denominator g is) (run g s js n) (denominator g js) →
        ((x y : Memory) → R x y ≡ true → Coupling (Passes Q) (run g s ks x) (denominator g ks) (run g s ls y) (denominator g ls)) →
        Coupling (Passes Q) (run g s (is ++ ks) m) (denominator g (is ++ ks)) (run g s (js ++ ls) n) (denominator g (js ++ ls)) }
{}

/// A body is coupled with itself on equality, and on what holds at its ends.
pub fn identity()
    ensures { (g : Setting) (s : State) (is : List Instr) → IsSound g (statements g is) → (I : Memory → Bool) (m : Memory) →
        Every (λ n. I n ≡ true) (run g s is m) →
        Coupling (λ (x y : Memory). (I x ≡ true) × (x ≡ y)) (run g s is m) (denominator g is) (run g s is m) (denominator g is) }
{}

/// Couplings with a body between are one coupling, on what a memory between joins.
pub fn gluing()
    ensures { (g : Setting) (s : State) (is js ks : List Instr) → IsSound g (statements g js) → (R Q S : Memory → Memory → Bool) →
        ((x y z : Memory) → R x y ≡ true → Q y z ≡ true → S x z ≡ true) → (m n o : Memory) →
        Coupling (Passes R) (run g s is m) (denominator g is) (run g s js n) (denominator g js) →
        Coupling (Passes Q) (run g s js n) (denominator g js) (run g s ks o) (denominator g ks) →
        Coupling (Passes S) (run g s is m) (denominator g is) (run g s ks o) (denominator g ks) }
{}

/// Bodies that lose no weight are coupled on what relates all their ends; such a body is coupled with an empty one where its ends are
/// related to the memory there.
pub fn independence()
    ensures both { (g : Setting) (s : State) (is js : List Instr) → IsSound g (statements g is) → IsSound g (statements g js) →
        Full g (statements g is) → Full g (statements g js) → (I J : Memory → Bool) (R : Memory → Memory → Bool) →
        ((x y : Memory) → I x ≡ true → J y ≡ true → R x y ≡ true) → (m n : Memory) →
        Every (λ x. I x ≡ true) (run g s is m) → Every (λ y. J y ≡ true) (run g s js n) →
        Coupling (Passes R) (run g s is m) (denominator g is) (run g s js n) (denominator g js) }
    ensures left { (g : Setting) (s : State) (is : List Instr) → IsSound g (statements g is) → Full g (statements g is) →
        (R : Memory → Memory → Bool) (m n : Memory) → Every (λ x. R x n ≡ true) (run g s is m) →
        Coupling (Passes R) (run g s is m) (denominator g is) (run g s [] n) (denominator g []) }
    ensures right { (g : Setting) (s : State) (is : List Instr) → IsSound g (statements g is) → Full g (statements g is) →
        (R : Memory → Memory → Bool) (m n : Memory) → Every (λ y. R m y ≡ true) (run g s is n) →
        Coupling (Passes R) (run g s [] m) (denominator g []) (run g s is n) (denominator g is) }
{}

/// What holds at all ends of coupled bodies may be added to the relation.
pub fn facts()
    ensures { (g : Setting) (s : State) (is js : List Instr) → IsSound g (statements g is) → IsSound g (statements g js) →
        (I J : Memory → Bool) (R : Memory → Memory → Bool) (m n : Memory) →
        Every (λ x. I x ≡ true) (run g s is m) → Every (λ y. J y ≡ true) (run g s js n) →
        Coupling (Passes R) (run g s is m) (denominator g is) (run g s js n) (denominator g js) →
        Coupling (λ x y. Passes R x y × (I x ≡ true) × (J y ≡ true)) (run g s is m) (denominator g is) (run g s js n) (denominator g js) }
{}

/// To run alike is an equivalence of sound programs, which statements around keep.
pub fn running_alike()
    ensures symmetric { (g : Setting) (s : State) (a b : Program) → RunAlike g s a b → RunAlike g s b a }
    ensures transitive { (g : Setting) (s : State) (a b c : Program) → IsSound g b → RunAlike g s a b → RunAlike g s b c → RunAlike g s a c }
    ensures around { (g : Setting) (s : State) (ks is js ls : List Instr) → RunAlike g s (statements g is) (statements g js) →
        RunAlike g s (statements g (ks ++ (is ++ ls))) (statements g (ks ++ (js ++ ls))) }
{}

/// Programs that run alike have the same ends, the same chances, and the same couplings.
pub fn alike_programs()
    ensures every { (g : Setting) (s : State) (a b : Program) → IsSound g a → IsSound g b → RunAlike g s a b → (I : Memory → Bool) (m : Memory) →
        Every (λ n. I n ≡ true) (out g s a m) → Every (λ n. I n ≡ true) (out g s b m) }
    ensures chances { (g : Setting) (s : State) (a b : Program) → IsSound g a → IsSound g b → RunAlike g s a b → (m : Memory)
        (event : Memory → Bool) (r : Rel) (x : Fraction) →
        compares r (chance (out g s a m) (run_denominator g a) event) x ≡ compares r (chance (out g s b m) (run_denominator g b) event) x }
    ensures left { (g : Setting) (s : State) (a b : Program) → IsSound g a → IsSound g b → RunAlike g s a b →
        (R : Memory → Memory → Bool) (l : WeightedList Memory) (k : ℕ) → 0 < k → (m : Memory) →
        Coupling (Passes R) (out g s a m) (run_denominator g a) l k → Coupling (Passes R) (out g s b m) (run_denominator g b) l k }
    ensures right { (g : Setting) (s : State) (a b : Program) → IsSound g a → IsSound g b → RunAlike g s a b →
        (R : Memory → Memory → Bool) (l : WeightedList Memory) (k : ℕ) → 0 < k → (m : Memory) →
        Coupling (Passes R) l k (out g s a m) (run_denominator g a) → Coupling (Passes R) l k (out g s b m) (run_denominator g b) }
{}

/// A form with its sides exchanged is typed where the sides are exchanged, and says what the form says with its memories exchanged. So
/// bodies that are coupled on it are coupled on the form in the other order.
pub fn symmetry()
    ensures typed { (c : Context) → c ≡ outermost c → (F G : Frame) (f : Term) → IsForm (with_sides c F G) f → IsForm (with_sides c G F) (exchanged f) }
    ensures meaning { (c : Context) → c ≡ outermost c → (F G : Frame) (f : Term) → IsForm (with_sides c F G) f → (g : Setting) → IsSettingOf c g →
        (j : Judge) → IsFair g j → (s : State) (m n : Memory) → den g j (exchanged f) (between s m n) ≡ den g j f (between s n m) }
    ensures couplings { (c : Context) → c ≡ outermost c → (F G : Frame) (f : Term) → IsForm (with_sides c F G) f → (g : Setting) → IsSettingOf c g →
        (j : Judge) → IsFair g j → (s : State) (l : WeightedList Memory) (k : ℕ) (r : WeightedList Memory) (d : ℕ) →
        Coupling (λ y x. IsTrueUnder g j (exchanged f) (between s y x)) r d l k → Coupling (λ x y. IsTrueUnder g j f (between s x y)) l k r d }
{}
