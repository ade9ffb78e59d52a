//! What is to hold where a guard is known.

ghost use Rattle.std.specs.Prelude.{◌≡◌, IfOk};
ghost use Rattle.gb_forms.specs.Decided.{deciding};

use gb_terms::make::negation;
use gb_terms::term::{Form, Term};
use std::alloc::{AllocError, Global};

/// What is to hold where the statement stands.
pub fn deciding(alloc: Global, holds: bool, guard: &Term) -> Result<Form, AllocError>
    ensures { IfOk result (λ made. made ≡ deciding holds guard.now) }
{
    let guard = guard.share()?;
    if holds {
        Ok(guard)
    } else {
        negation(alloc, guard)
    }
}
