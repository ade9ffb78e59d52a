//! Small forms with judgments and quantifiers over memories.

ghost use Rattle.std.specs.Prelude.{◌≡◌, true, false, [], ◌∷◌};
ghost use Rattle.gb_core.specs.declared.ty.Ty.TheVariants.{Bool as truths, Bits};
ghost use Rattle.gb_core.specs.declared.value.Value.TheVariants.{Num};
ghost use Rattle.gb_terms.specs.declared.op.Op.TheVariants as op;
ghost use Rattle.gb_terms.specs.Make.{applied};
ghost use Rattle.gb_meaning.specs.Memory.{Memory};
ghost use Rattle.gb_meaning.specs.Setting.{Setting};
ghost use Rattle.gb_meaning.specs.Setting.Meaning.{finite};
ghost use Rattle.gb_meaning.specs.State.{State, between};
ghost use Rattle.gb_meaning.specs.Terms.{val};
ghost use Rattle.gb_meaning.specs.Judgments.{Judge, IsFair, IsTrueIn, speaking, den};
ghost use Rattle.gb_meaning.specs.Examples.{number};
ghost use Rattle.gb_laws.specs.TruthExamples.{flips_are_opposite, flips_are_alike, tossed, CoinCoupling, ArePairsOfCoins, each_shows, some_shows};

/// Two fair coins are coupled so that one is the negation of the other: the equivalence is true in each state of each setting.
pub fn opposite_coins()
    ensures { (g : Setting) (s : State) → IsTrueIn g flips_are_opposite s }
{}

/// The equivalence of two fair coins with `x{1} = x{2}` is true, and gives from any two memories a coupling of both runs. As a
/// list over its number k, each such coupling has entries in which both coins fell alike, half of k for each side of the
/// coin. One of them, over 2, has two entries of weight 1.
pub fn coupling_of_coins()
    ensures truth { (g : Setting) (s : State) → IsTrueIn g flips_are_alike s }
    ensures given { (g : Setting) (j : Judge) → IsFair g j → (s : State) → den g j flips_are_alike s ≡ true → (m n : Memory) →
        den g j (number 1 truths) (between s m n) ≡ true → CoinCoupling g j s m n }
    ensures pairs { (g : Setting) (j : Judge) (s : State) (m n : Memory) (c : CoinCoupling g j s m n) →
        ArePairsOfCoins m n c.denominator c.pairs }
    ensures written_out { (g : Setting) (j : Judge) (s : State) (m n : Memory) → (c : CoinCoupling g j s m n) × (c.denominator ≡ 2) ×
        (c.pairs ≡ ((tossed m false, tossed n false), 1) ∷ ((tossed m true, tossed n true), 1) ∷ []) }
{}

/// A quantifier over memories in an argument of an operator has a value, under each fair judge: `forall &m, x{m}` is false and
/// `exists &m, x{m}` is true, so `!(forall &m, x{m})` is 1, their equation is 0, and `(forall &m, x{m}) ? 2 : 3` is 3.
pub fn quantified_arguments()
    ensures negation { (g : Setting) (j : Judge) → IsFair g j → (s : State) →
        val g (speaking g j) (applied op.Not (each_shows ∷ []) truths) s ≡ finite (Num 1) }
    ensures equation { (g : Setting) (j : Judge) → IsFair g j → (s : State) →
        val g (speaking g j) (applied op.Equal (each_shows ∷ some_shows ∷ []) truths) s ≡ finite (Num 0) }
    ensures conditional { (g : Setting) (j : Judge) → IsFair g j → (s : State) →
        val g (speaking g j) (applied op.If (each_shows ∷ number 2 (Bits 2) ∷ number 3 (Bits 2) ∷ []) (Bits 2)) s ≡ finite (Num 3) }
{}
