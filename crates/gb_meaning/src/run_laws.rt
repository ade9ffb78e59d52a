//! The weights of runs.

ghost use Rattle.std.specs.Prelude.{◌≡◌, Bool, true, false, ◌<◌, ◌≤◌, ◌*◌, List};
ghost use Rattle.gb_core.specs.declared.value.Value.{Value};
ghost use Rattle.gb_terms.specs.declared.term.Term.{Term};
ghost use Rattle.gb_dist.specs.WeightedList.{total, bind, Every, IsPositive};
ghost use Rattle.gb_meaning.specs.Names.{Map};
ghost use Rattle.gb_meaning.specs.Memory.{Memory};
ghost use Rattle.gb_meaning.specs.Program.{Program, Routine, followed_by};
ghost use Rattle.gb_meaning.specs.Setting.{Setting};
ghost use Rattle.gb_meaning.specs.State.{State};
ghost use Rattle.gb_meaning.specs.Runs.{run_denominator, routine_denominator, out, outcomes, is_true, most_turns, variant_value};
ghost use Rattle.gb_meaning.specs.Loops.{IsGood};
ghost use Rattle.gb_meaning.specs.Sound.{IsDistribution, IsFull, IsSound, IsSoundRoutine, Full, FullRoutine};
ghost use Rattle.gb_meaning.specs.Drawn.{Drawing, OperatorsDraw, draws, program_draws, routine_draws};

/// A program that draws from distributions has a denominator above 0, entries of weight 1 or more, and at most its
/// denominator as the total; exactly its denominator where no sampling loses weight.
pub fn programs()
    ensures denominator { (g : Setting) (c : Program) → IsSound g c → 0 < run_denominator g c }
    ensures entries { (g : Setting) (s : State) (c : Program) → IsSound g c → (m : Memory) → IsPositive (out g s c m) }
    ensures at_most { (g : Setting) (s : State) (c : Program) → IsSound g c → (m : Memory) → total (out g s c m) ≤ run_denominator g c }
    ensures full { (g : Setting) (s : State) (c : Program) → Full g c → (m : Memory) → total (out g s c m) ≡ run_denominator g c }
{}

/// The same of procedures.
pub fn procedures()
    ensures denominator { (g : Setting) (r : Routine) → IsSoundRoutine g r → 0 < routine_denominator g r }
    ensures entries { (g : Setting) (r : Routine) → IsSoundRoutine g r → (vs : List Value) (globals : Map) → IsPositive (outcomes g r vs globals) }
    ensures at_most { (g : Setting) (r : Routine) → IsSoundRoutine g r → (vs : List Value) (globals : Map) →
        total (outcomes g r vs globals) ≤ routine_denominator g r }
    ensures full { (g : Setting) (r : Routine) → FullRoutine g r → (vs : List Value) (globals : Map) →
        total (outcomes g r vs globals) ≡ routine_denominator g r }
{}

/// A program behind another one runs from each memory in which the first ends, over the product of the denominators.
pub fn sequence()
    ensures denominator { (g : Setting) (c d : Program) →
        run_denominator g (followed_by c d) ≡ run_denominator g c * run_denominator g d }
    ensures run { (g : Setting) (s : State) (c d : Program) (m : Memory) →
        out g s (followed_by c d) m ≡ bind (out g s c m) (λ n. out g s d n) }
{}

/// A tree that passes the test of distributions is one, and full where nothing restricts; a program that samples from such
/// trees alone is sound, and full.
pub fn samplings()
    ensures distribution { (g : Setting) (d : Drawing) → OperatorsDraw g d → (t : Term) → draws g d t ≡ true → IsDistribution g t }
    ensures full_distribution { (g : Setting) (d : Drawing) → OperatorsDraw g d → d.restricts ≡ false → (t : Term) →
        draws g d t ≡ true → IsFull g t }
    ensures sound { (g : Setting) (d : Drawing) → OperatorsDraw g d → (c : Program) → program_draws g d c ≡ true → IsSound g c }
    ensures full { (g : Setting) (d : Drawing) → OperatorsDraw g d → d.restricts ≡ false → (c : Program) →
        program_draws g d c ≡ true → Full g c }
    ensures sound_procedure { (g : Setting) (d : Drawing) → OperatorsDraw g d → (r : Routine) →
        routine_draws g d r ≡ true → IsSoundRoutine g r }
    ensures full_procedure { (g : Setting) (d : Drawing) → OperatorsDraw g d → d.restricts ≡ false → (r : Routine) →
        routine_draws g d r ≡ true → FullRoutine g r }
{}

/// A loop is good if the variant's value is within its type, is above 0 while the guard is true, and is less after each turn.
pub fn loops()
    ensures { (g : Setting) (s : State) (e v : Term) (a : Program) → ((m : Memory) → variant_value g s v m ≤ most_turns v) →
        ((m : Memory) → is_true g s e m ≡ true → 0 < variant_value g s v m) →
        ((m : Memory) → is_true g s e m ≡ true → Every (λ n. variant_value g s v n < variant_value g s v m) (out g s a m)) →
        IsGood g s e v a }
{}
