// Laws of kinds of token, and of the first places at which a text is refused.

ghost use Rattle.std.specs.Prelude.{◌≡◌, ◌⊎◌, ℕ, ℤ, List};
ghost use Rattle.std.specs.List.{All};
ghost use Rattle.gb_script.specs.declared.table.Step.{Step};
ghost use Rattle.gb_script.specs.Parsing.{IsKind};
ghost use Rattle.gb_script.specs.declared.action.Rule.{Rule};
ghost use Rattle.gb_script.specs.declared.text.Text.{Text};
ghost use Rattle.gb_limits.specs.LeftOut.{IsFirstLeftOut, NoneLeftOut};
ghost use Rattle.gb_limits.specs.Lexeme.{kinds_of};
ghost use Rattle.gb_limits.specs.Limits.{IsFirstTooDeep, NoneTooDeep, IsFirstLong, NoneLong};
ghost use Rattle.gb_limits.specs.Numbers.{IsFirstOverflow, NoneOverflow};

/// The kinds of token of a text are kinds of the table.
pub fn kinds_are_kinds()
    ensures { (t : Text) → All IsKind (kinds_of t) }
{}

/// Of the tokens that are left out, of those in too many levels, of those with which operands too many begin, and of the
/// numbers out of range, one at most is the first; of such a number one operation at most is the first that leads out.
pub fn first_places_are_unique()
    ensures left_out { (t : Text) (i j : ℕ) → IsFirstLeftOut t i → IsFirstLeftOut t j → i ≡ j }
    ensures deep { (t : Text) (steps : List (Step Rule)) (fault i j : ℕ) →
        IsFirstTooDeep t steps fault i → IsFirstTooDeep t steps fault j → i ≡ j }
    ensures long { (t : Text) (steps : List (Step Rule)) (i j : ℕ) → IsFirstLong t steps i → IsFirstLong t steps j → i ≡ j }
    ensures overflow { (t : Text) (i j : ℕ) (a b c d : ℤ) → IsFirstOverflow t i a b → IsFirstOverflow t j c d
        → (i ≡ j) × (a ≡ c) × (b ≡ d) }
{}

/// Of the tokens that are left out, of those in too many levels, of those with which operands too many begin, and of the
/// numbers out of range, there is none, or one is the first; of such a number some operation is the first that leads out.
pub fn none_or_a_first_place()
    ensures left_out { (t : Text) → NoneLeftOut t ⊎ ((i : ℕ) × IsFirstLeftOut t i) }
    ensures deep { (t : Text) (steps : List (Step Rule)) (fault : ℕ) → NoneTooDeep t steps fault ⊎ ((i : ℕ) × IsFirstTooDeep t steps fault i) }
    ensures long { (t : Text) (steps : List (Step Rule)) → NoneLong t steps ⊎ ((i : ℕ) × IsFirstLong t steps i) }
    ensures overflow { (t : Text) → NoneOverflow t ⊎ ((i : ℕ) × (left : ℤ) × (right : ℤ) × IsFirstOverflow t i left right) }
{}
