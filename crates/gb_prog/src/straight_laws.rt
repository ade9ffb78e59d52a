//! Statements without chance.

ghost use Rattle.std.specs.Prelude.{◌≡◌, if◌then◌else◌, List, ◌∷◌, ◌++◌};
ghost use Rattle.gb_dist.specs.WeightedList.{unit};
ghost use Rattle.gb_terms.specs.declared.term.Cmd.{Cmd};
ghost use Rattle.gb_terms.specs.declared.term.Head.TheVariants.{If};
ghost use Rattle.gb_terms.specs.declared.term.Instr.{Instr};
ghost use Rattle.gb_terms.specs.declared.term.Term.{Term};
ghost use Rattle.gb_meaning.specs.Memory.{Memory};
ghost use Rattle.gb_meaning.specs.Runs.{is_true};
ghost use Rattle.gb_meaning.specs.Setting.{Setting};
ghost use Rattle.gb_meaning.specs.State.{State};
ghost use Rattle.gb_typing.specs.Meaning.{run, denominator};
ghost use Rattle.gb_prog.specs.Straight.{AreStraight, after};

/// Statements without chance end in one memory, over the denominator 1: a branch in that of its chosen side, a list of statements
/// in that of one after another.
pub fn straight()
    ensures run { (g : Setting) (s : State) (is : List Instr) → AreStraight is → (m : Memory) → run g s is m ≡ unit (after g s is m) }
    ensures denominator { (g : Setting) (is : List Instr) → AreStraight is → denominator g is ≡ 1 }
    ensures branch { (g : Setting) (s : State) (e : Term) (a b : Cmd) (is : List Instr) (m : Memory) →
        after g s (If e a b ∷ is) m ≡ after g s is (if is_true g s e m then after g s a.list m else after g s b.list m) }
    ensures sequence { (g : Setting) (s : State) (is js : List Instr) → AreStraight is → (m : Memory) →
        after g s (is ++ js) m ≡ after g s js (after g s is m) }
{}
