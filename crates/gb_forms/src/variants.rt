//! Values that become less.

ghost use Rattle.std.specs.Prelude.{◌≡◌, IfOk};
ghost use Rattle.gb_forms.specs.Variants.{less};

use gb_terms::make::{binary, truth_ty};
use gb_terms::op::Op;
use gb_terms::term::{Form, Term};
use std::alloc::{AllocError, Global};

/// One term is less than another one.
pub fn less(alloc: Global, a: Term, b: Term) -> Result<Form, AllocError>
    ensures { IfOk result (λ made. made ≡ less a b) }
{
    let ty = truth_ty(alloc)?;
    binary(alloc, Op::Less, a, b, ty)
}
