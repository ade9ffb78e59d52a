// What is to hold before a branch.

ghost use Rattle.std.specs.Prelude.{◌≡◌, IfOk};
ghost use Rattle.gb_forms.specs.Branches.{by_test};

use gb_terms::make::{conjunction, implication, negation};
use gb_terms::term::Form;
use std::alloc::{AllocError, Global};

/// What is so where a test is true, and what where it is false.
pub fn by_test(alloc: Global, test: Form, yes: Form, no: Form) -> Result<Form, AllocError>
    ensures { IfOk result (λ made. made ≡ by_test test yes no) }
{
    let holds = test.share()?;
    let yes = implication(alloc, holds, yes)?;
    let fails = negation(alloc, test)?;
    let no = implication(alloc, fails, no)?;
    conjunction(alloc, yes, no)
}
