// Conclusions that are hypotheses.

ghost use Rattle.std.specs.Prelude.{◌↔◌, IsTrue};
ghost use Rattle.gb_amb.specs.Closed.{IsAmong};

use gb_goal::sequent::Hyp;
use gb_terms::same::same;
use gb_terms::term::Form;

/// Whether a form is that of a hypothesis.
pub fn is_among(hyps: &[Hyp], form: &Form) -> bool
    ensures { IsTrue result ↔ IsAmong hyps.now form.now }
{
    match hyps {
        [] => false,
        [first, others @ ..] => same(&first.form, form) || is_among(others, form),
    }
}
