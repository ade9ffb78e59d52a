//! Laws of runs that rules cite.

ghost use Rattle.std.specs.Prelude.{◌≡◌, ℕ, ◌*◌, ◌<◌, Bool, if◌then◌else◌, List, ◌∷◌, ◌++◌};
ghost use Rattle.gb_dist.specs.WeightedList.{WeightedList, bind, scale};
ghost use Rattle.gb_terms.specs.declared.decl.TypedName.{TypedName};
ghost use Rattle.gb_terms.specs.declared.op.Rel.{Rel};
ghost use Rattle.gb_terms.specs.declared.term.Cmd.{Cmd};
ghost use Rattle.gb_terms.specs.declared.term.Head.TheVariants.{If};
ghost use Rattle.gb_terms.specs.declared.term.Instr.{Instr};
ghost use Rattle.gb_terms.specs.declared.term.Term.{Term};
ghost use Rattle.gb_meaning.specs.Memory.{Memory};
ghost use Rattle.gb_meaning.specs.Runs.{is_true};
ghost use Rattle.gb_meaning.specs.Setting.{Setting};
ghost use Rattle.gb_meaning.specs.State.{State};
ghost use Rattle.gb_meaning.specs.Fractions.{Fraction};
ghost use Rattle.gb_meaning.specs.Judgments.{IsSoundSubject, compares, chance};
ghost use Rattle.gb_typing.specs.Context.{Context};
ghost use Rattle.gb_typing.specs.Fits.{IsSettingOf};
ghost use Rattle.gb_goal.specs.Goal.{Code, subject_of};
ghost use Rattle.gb_typing.specs.Goals.{IsCode};
ghost use Rattle.gb_typing.specs.Meaning.{run, denominator};

/// Statements run one after another. What typed goals speak of draws from distributions.
pub fn bodies()
    ensures run { (g : Setting) (s : State) (is js : List Instr) (m : Memory) → run g s (is ++ js) m ≡ bind (run g s is m) (λ n. run g s js n) }
    ensures denominator { (g : Setting) (is js : List Instr) → denominator g (is ++ js) ≡ denominator g is * denominator g js }
    ensures sound { (c : Context) (g : Setting) → IsSettingOf c g → (ls : List TypedName) (a : Code) → IsCode c ls a → IsSoundSubject g (subject_of a) }
{}

/// The run of a body that begins with a branch is that of the chosen side and the rest, at the scale of the other side.
pub fn branches()
    ensures run { (g : Setting) (s : State) (e : Term) (a b : Cmd) (is : List Instr) (m : Memory) → run g s (If e a b ∷ is) m ≡
        (if is_true g s e m then scale (denominator g b.list) (run g s (a.list ++ is) m) else scale (denominator g a.list) (run g s (b.list ++ is) m)) }
    ensures where_true { (g : Setting) (e : Term) (a b : Cmd) (is : List Instr) →
        denominator g (If e a b ∷ is) ≡ denominator g b.list * denominator g (a.list ++ is) }
    ensures where_false { (g : Setting) (e : Term) (a b : Cmd) (is : List Instr) →
        denominator g (If e a b ∷ is) ≡ denominator g a.list * denominator g (b.list ++ is) }
{}

/// The chance of an event compares with a bound at each scale as it does.
pub fn chances()
    ensures { (k : ℕ) → 0 < k → (l : WeightedList Memory) (d : ℕ) (event : Memory → Bool) (r : Rel) (b : Fraction) →
        compares r (chance (scale k l) (k * d) event) b ≡ compares r (chance l d event) b }
{}
