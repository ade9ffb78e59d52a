//! Loops that end.

ghost use Rattle.std.specs.Prelude.{◌≡◌, ℕ, ◌<◌, Bool, true, false, not, ◌&&◌, ◌↔◌, List, [], ◌∷◌, ◌++◌};
ghost use Rattle.gb_dist.specs.WeightedList.{SameDistribution, Every, weight};
ghost use Rattle.gb_dist.specs.Coupling.{Coupling};
ghost use Rattle.gb_terms.specs.declared.decl.TypedName.{TypedName};
ghost use Rattle.gb_terms.specs.declared.term.Cmd.{Cmd};
ghost use Rattle.gb_terms.specs.declared.term.Head.TheVariants.{If, While};
ghost use Rattle.gb_terms.specs.declared.term.Instr.{Instr};
ghost use Rattle.gb_terms.specs.declared.term.Term.{Term};
ghost use Rattle.gb_meaning.specs.Commands.{statements};
ghost use Rattle.gb_meaning.specs.Loops.{IsGood};
ghost use Rattle.gb_meaning.specs.Memory.{Memory};
ghost use Rattle.gb_meaning.specs.Program.{Program};
ghost use Rattle.gb_meaning.specs.Program.Program.{loop};
ghost use Rattle.gb_meaning.specs.Runs.{is_true, run_denominator};
ghost use Rattle.gb_meaning.specs.Setting.{Setting};
ghost use Rattle.gb_meaning.specs.Sound.{IsSound};
ghost use Rattle.gb_meaning.specs.State.{State, closed};
ghost use Rattle.gb_typing.specs.Context.{Context};
ghost use Rattle.gb_typing.specs.Programs.{IsExpression, EachStatement, IsBody};
ghost use Rattle.gb_typing.specs.Meaning.{run, denominator};
ghost use Rattle.gb_prog.specs.Loops.{EachLoopIsGood, unrolled, unrolled_statement, RunAlike};

/// A good loop runs as one turn where its guard is true, and the loop again.
pub fn unrolling()
    ensures program { (g : Setting) (s : State) (e v : Term) (a : Program) → IsGood g s e v a → 0 < run_denominator g a → (c : Program) →
        RunAlike g s (loop e v a c) (unrolled e v a c) }
    ensures statements { (g : Setting) (s : State) (e v : Term) (b : Cmd) → IsGood g s e v (statements g b.list) → 0 < denominator g b.list →
        (is : List Instr) → RunAlike g s (statements g (While e v b ∷ is)) (statements g (unrolled_statement e v b ∷ is)) }
{}

/// An invariant that the body of a good loop keeps from memories where the guard is true holds at each end, where the guard is false.
/// An event that the body keeps so with certainty is certain after the loop.
pub fn invariants()
    ensures every { (g : Setting) (s : State) (e v : Term) (b : Cmd) → IsGood g s e v (statements g b.list) → IsSound g (statements g b.list) →
        (I : Memory → Bool) →
        ((m : Memory) → I m ≡ true → is_true g s e m ≡ true → Every (λ n. I n ≡ true) (run g s b.list m)) → (m : Memory) → I m ≡ true →
        Every (λ n. (I n ≡ true) × (is_true g s e n ≡ false)) (run g s (While e v b ∷ []) m) }
    ensures certain { (g : Setting) (s : State) (e v : Term) (b : Cmd) → IsGood g s e v (statements g b.list) → IsSound g (statements g b.list) →
        (I : Memory → Bool) →
        ((m : Memory) → I m ≡ true → is_true g s e m ≡ true → weight (run g s b.list m) I ≡ denominator g b.list) → (m : Memory) → I m ≡ true →
        weight (run g s (While e v b ∷ []) m) (λ n. I n && not (is_true g s e n)) ≡ denominator g (While e v b ∷ []) }
{}

/// Two good loops whose guards are equal while a relation holds, and whose bodies are coupled on it from memories where the guards are
/// true, are coupled on it where they end, both guards false.
pub fn lock_step()
    ensures { (g : Setting) (s : State) (e v f w : Term) (a b : Cmd) → IsGood g s e v (statements g a.list) → IsSound g (statements g a.list) →
        IsGood g s f w (statements g b.list) → IsSound g (statements g b.list) →
        (R : Memory → Memory → Bool) → ((m n : Memory) → R m n ≡ true → is_true g s e m ≡ is_true g s f n) →
        ((m n : Memory) → R m n ≡ true → is_true g s e m ≡ true →
        Coupling (λ x y. R x y ≡ true) (run g s a.list m) (denominator g a.list) (run g s b.list n) (denominator g b.list)) →
        (m n : Memory) → R m n ≡ true →
        Coupling (λ x y. (R x y ≡ true) × (is_true g s e x ≡ false) × (is_true g s f y ≡ false))
        (run g s (While e v a ∷ []) m) (denominator g (While e v a ∷ [])) (run g s (While f w b ∷ []) n) (denominator g (While f w b ∷ [])) }
{}

/// A good loop whose body is coupled with an empty one on a relation, from memories where the guard is true, is so itself, the guard
/// false where it ends.
pub fn one_side()
    ensures left { (g : Setting) (s : State) (e v : Term) (b : Cmd) → IsGood g s e v (statements g b.list) → IsSound g (statements g b.list) →
        (R : Memory → Memory → Bool) (n : Memory) → ((m : Memory) → R m n ≡ true → is_true g s e m ≡ true →
        Coupling (λ x y. R x y ≡ true) (run g s b.list m) (denominator g b.list) (run g s [] n) (denominator g [])) → (m : Memory) → R m n ≡ true →
        Coupling (λ x y. (R x y ≡ true) × (is_true g s e x ≡ false))
        (run g s (While e v b ∷ []) m) (denominator g (While e v b ∷ [])) (run g s [] n) (denominator g []) }
    ensures right { (g : Setting) (s : State) (e v : Term) (b : Cmd) → IsGood g s e v (statements g b.list) → IsSound g (statements g b.list) →
        (R : Memory → Memory → Bool) (m : Memory) → ((n : Memory) → R m n ≡ true → is_true g s e n ≡ true →
        Coupling (λ x y. R x y ≡ true) (run g s [] m) (denominator g []) (run g s b.list n) (denominator g b.list)) → (n : Memory) → R m n ≡ true →
        Coupling (λ x y. (R x y ≡ true) × (is_true g s e y ≡ false))
        (run g s [] m) (denominator g []) (run g s (While e v b ∷ []) n) (denominator g (While e v b ∷ [])) }
{}

/// A list of statements reaches the loops of its statements and of those inside of them.
pub fn reached_loops()
    ensures sequence { (g : Setting) (is js : List Instr) →
        EachLoopIsGood g (statements g (is ++ js)) ↔ (EachLoopIsGood g (statements g is) × EachLoopIsGood g (statements g js)) }
    ensures branch { (g : Setting) (e : Term) (a b : Cmd) (is : List Instr) → EachLoopIsGood g (statements g (If e a b ∷ is)) ↔
        (EachLoopIsGood g (statements g a.list) × EachLoopIsGood g (statements g b.list) × EachLoopIsGood g (statements g is)) }
    ensures repetition { (g : Setting) (e v : Term) (b : Cmd) (is : List Instr) → EachLoopIsGood g (statements g (While e v b ∷ is)) ↔
        (IsGood g closed e v (statements g b.list) × EachLoopIsGood g (statements g b.list) × EachLoopIsGood g (statements g is)) }
{}

/// A typed body sees nothing of a state but the memory in which it runs: no logical variable, nothing bound, no other memory. So a loop
/// that is good in one state is good in each.
pub fn closed_bodies()
    ensures run { (c : Context) (ls : List TypedName) (is : List Instr) → IsBody c ls is → (g : Setting) (s q : State) (m : Memory) →
        run g s is m ≡ run g q is m }
    ensures test { (c : Context) (ls : List TypedName) (e : Term) → IsExpression c ls e → (g : Setting) (s q : State) (m : Memory) →
        is_true g s e m ≡ is_true g q e m }
    ensures good { (c : Context) (ls : List TypedName) (e v : Term) (b : Cmd) → EachStatement c ls (While e v b ∷ []) → (g : Setting) (s q : State) →
        IsGood g s e v (statements g b.list) → IsGood g q e v (statements g b.list) }
{}
