// A script has one verdict.

ghost use Rattle.std.specs.Prelude.{◌≡◌, ℕ, List};
ghost use Rattle.gb_state.specs.declared.verdict.Verdict.{Verdict};
ghost use Rattle.gb_theory.specs.Verdicts.{IsVerdict};

use crate::outcome_laws::{each_text_has_an_outcome, one_outcome};

/// Exactly one verdict is due on each script.
pub fn one_verdict()
    ensures some { (text : List ℕ) → (v : Verdict) × IsVerdict text v }
    ensures only { (text : List ℕ) (v w : Verdict) → IsVerdict text v → IsVerdict text w → v ≡ w }
{
    each_text_has_an_outcome();
    one_outcome();
}
