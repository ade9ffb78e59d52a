//! What is true under fair judges.

ghost use Rattle.std.specs.Prelude.{◌≡◌, ◌↔◌, Bool, true, not, ◌&&◌, ◌||◌, List, [], ◌∷◌, ◌++◌, map};
ghost use Rattle.gb_core.specs.declared.ty.Ty.{Ty};
ghost use Rattle.gb_core.specs.declared.ty.Ty.TheVariants.{Bool as truths, Real};
ghost use Rattle.gb_core.specs.declared.value.Value.{Value};
ghost use Rattle.gb_terms.specs.declared.op.Op.TheVariants as op;
ghost use Rattle.gb_terms.specs.declared.op.Rel.{Rel};
ghost use Rattle.gb_terms.specs.declared.op.Side.{Side};
ghost use Rattle.gb_terms.specs.declared.module.ProcRef.{ProcRef};
ghost use Rattle.gb_terms.specs.declared.term.Term.{Term};
ghost use Rattle.gb_terms.specs.declared.term.Subject.{Subject};
ghost use Rattle.gb_terms.specs.declared.term.Head.TheVariants as head;
ghost use Rattle.gb_terms.specs.Make.{node, applied};
ghost use Rattle.gb_dist.specs.WeightedList.{Every};
ghost use Rattle.gb_dist.specs.Coupling.{Coupling};
ghost use Rattle.gb_meaning.specs.Values.{has};
ghost use Rattle.gb_meaning.specs.Memory.{Memory};
ghost use Rattle.gb_meaning.specs.Setting.{Setting};
ghost use Rattle.gb_meaning.specs.Setting.Meaning.{finite, fraction};
ghost use Rattle.gb_meaning.specs.Meanings.{value_in, fraction_in};
ghost use Rattle.gb_meaning.specs.Operators.{alike};
ghost use Rattle.gb_meaning.specs.State.{State, at, between, under, memory_of};
ghost use Rattle.gb_meaning.specs.State.Binding.{value, memory};
ghost use Rattle.gb_meaning.specs.Terms.{val};
ghost use Rattle.gb_meaning.specs.Judgments.{Judge, IsFair, speaking, den, IsSoundForm, IsSoundSubject, IsTrueUnder, IsTrueIn};
ghost use Rattle.gb_laws.specs.Cells.{In};
ghost use Rattle.gb_laws.specs.States.{Near};
ghost use Rattle.gb_laws.specs.FormReads.{form_cells};
ghost use Rattle.gb_meaning.specs.Judgments.{run_of, subject_denominator, probability, chance, compares};

/// Every setting has a fair judge.
pub fn fair_judge()
    ensures { (g : Setting) → (j : Judge) × IsFair g j }
{}

/// Two fair judges give a form whose judgments are of sound subjects the same meaning; so it is true exactly where any one
/// fair judge makes it true.
pub fn one_meaning()
    ensures meaning { (g : Setting) (j i : Judge) → IsFair g j → IsFair g i → (f : Term) → IsSoundForm g f → (s : State) →
        val g (speaking g j) f s ≡ val g (speaking g i) f s }
    ensures truth { (g : Setting) (j : Judge) → IsFair g j → (f : Term) → IsSoundForm g f → (s : State) →
        IsTrueIn g f s ↔ IsTrueUnder g j f s }
{}

/// The connectives have their tables, under each judge; an equation of values is true where they are equal.
pub fn connectives()
    ensures negation { (g : Setting) (j : Judge) (a : Term) (s : State) → den g j (applied op.Not (a ∷ []) truths) s ≡ not (den g j a s) }
    ensures conjunction { (g : Setting) (j : Judge) (a b : Term) (s : State) →
        den g j (applied op.And (a ∷ b ∷ []) truths) s ≡ (den g j a s && den g j b s) }
    ensures disjunction { (g : Setting) (j : Judge) (a b : Term) (s : State) →
        den g j (applied op.Or (a ∷ b ∷ []) truths) s ≡ (den g j a s || den g j b s) }
    ensures implication { (g : Setting) (j : Judge) (a b : Term) (s : State) →
        den g j (applied op.Implies (a ∷ b ∷ []) truths) s ≡ (not (den g j a s) || den g j b s) }
    ensures equivalence { (g : Setting) (j : Judge) (a b : Term) (s : State) →
        den g j (applied op.Iff (a ∷ b ∷ []) truths) s ≡ alike (den g j a s) (den g j b s) }
    ensures equation { (g : Setting) (j : Judge) (a b : Term) (v w : Value) (s : State) →
        val g (speaking g j) a s ≡ finite v → val g (speaking g j) b s ≡ finite w →
        (den g j (applied op.Equal (a ∷ b ∷ []) truths) s ≡ true) ↔ (v ≡ w) }
{}

/// A quantifier over a type goes over the values of the type, under each judge; one over memories over all memories, under a
/// fair one.
pub fn quantifiers()
    ensures each_value { (g : Setting) (j : Judge) (ty : Ty) (f : Term) (s : State) →
        (den g j (node (head.All ty) (f ∷ []) truths) s ≡ true) ↔
        ((v : Value) → has g.types ty v ≡ true → den g j f (under s (value (finite v))) ≡ true) }
    ensures some_value { (g : Setting) (j : Judge) (ty : Ty) (f : Term) (s : State) →
        (den g j (node (head.Some ty) (f ∷ []) truths) s ≡ true) ↔
        ((v : Value) × (has g.types ty v ≡ true) × (den g j f (under s (value (finite v))) ≡ true)) }
    ensures each_memory { (g : Setting) (j : Judge) → IsFair g j → (f : Term) (s : State) →
        (den g j (node head.AllMemory (f ∷ []) truths) s ≡ true) ↔ ((m : Memory) → den g j f (under s (memory m)) ≡ true) }
    ensures some_memory { (g : Setting) (j : Judge) → IsFair g j → (f : Term) (s : State) →
        (den g j (node head.SomeMemory (f ∷ []) truths) s ≡ true) ↔ ((m : Memory) × (den g j f (under s (memory m)) ≡ true)) }
{}

/// Under a fair judge a judgment of sound subjects is true where it stands. For `hoare`: from each memory that makes P true,
/// each entry of the run makes Q true. For `phoare`: from each such memory, the probability of Q is in the relation to the bound.
/// For `equiv`: from each two memories that make P true there is a coupling on Q of both runs.
pub fn judgments()
    ensures hoare { (g : Setting) (j : Judge) → IsFair g j → (c : Subject) (P Q : Term) (s : State) → IsSoundSubject g c →
        (den g j (node (head.Hoare c) (P ∷ Q ∷ []) truths) s ≡ true) ↔
        ((m : Memory) → den g j P (at s m) ≡ true → Every (λ n. den g j Q (at s n) ≡ true) (run_of g s c m)) }
    ensures phoare { (g : Setting) (j : Judge) → IsFair g j → (c : Subject) (r : Rel) (P Q b : Term) (s : State) → IsSoundSubject g c →
        (den g j (node (head.Phoare c r) (P ∷ Q ∷ b ∷ []) truths) s ≡ true) ↔
        ((m : Memory) → den g j P (at s m) ≡ true → compares r (chance (run_of g s c m) (subject_denominator g c)
        (λ n. den g j Q (at s n))) (fraction_in (val g (speaking g j) b s)) ≡ true) }
    ensures equiv { (g : Setting) (j : Judge) → IsFair g j → (c d : Subject) (P Q : Term) (s : State) →
        IsSoundSubject g c → IsSoundSubject g d →
        (den g j (node (head.Equiv c d) (P ∷ Q ∷ []) truths) s ≡ true) ↔
        ((m n : Memory) → den g j P (between s m n) ≡ true → Coupling (λ a b. den g j Q (between s a b) ≡ true)
        (run_of g s c m) (subject_denominator g c) (run_of g s d n) (subject_denominator g d)) }
{}

/// Under a fair judge the meaning of a form depends on what it reads alone: it is the same in two states with the same values
/// and memories that agree on the cells that the form and its programs read.
pub fn locality()
    ensures { (g : Setting) (j : Judge) → IsFair g j → (f : Term) → IsSoundForm g f → (s q : State) →
        Near g.types (λ c. In c (form_cells g f)) s q → val g (speaking g j) f s ≡ val g (speaking g j) f q }
{}

/// `Pr[M.f(a) @ &m : E]` is the probability of E after M.f from the values of the arguments and the memory.
pub fn probabilities()
    ensures { (g : Setting) (j : Judge) (p : ProcRef) (r : Side) (ts : List Term) (e : Term) (s : State) →
        val g (speaking g j) (node (head.Pr p r) (ts ++ e ∷ []) Real) s ≡
        fraction (probability g p (map (λ t. value_in (val g (speaking g j) t s)) ts) (memory_of s r) (λ n. den g j e (at s n))) }
{}
