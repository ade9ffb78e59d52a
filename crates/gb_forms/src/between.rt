//! A memory between two others.

ghost use Rattle.std.specs.Prelude.{◌≡◌, IfOk};
ghost use Rattle.gb_forms.specs.Between.{from_left, reads_between, some_between, to_right};

use gb_terms::make::{conjunction, over, truth_ty};
use gb_terms::op::Side;
use gb_terms::term::{Form, Head};
use gb_walk::change::Change;
use gb_walk::sides::reads_side;
use gb_walk::walk::changed;
use std::alloc::{AllocError, Global};

/// A relation of both sides, of the left memory and the nearest bound one.
pub fn from_left(alloc: Global, form: &Form) -> Result<Form, AllocError>
    ensures { IfOk result (λ made. made ≡ from_left form.now) }
{
    changed(alloc, form, &[Change::ToSide(Side::Right, Side::Bound(0))])
}

/// A relation of both sides, of the nearest bound memory and the right one.
pub fn to_right(alloc: Global, form: &Form) -> Result<Form, AllocError>
    ensures { IfOk result (λ made. made ≡ to_right form.now) }
{
    changed(alloc, form, &[Change::ToSide(Side::Left, Side::Bound(0))])
}

/// Whether the memory between two relations is read.
pub fn reads_between(left: &Form, right: &Form) -> bool
    ensures { result ≡ reads_between left.now right.now }
{
    reads_side(left, &Side::Right) || reads_side(right, &Side::Left)
}

/// There is a memory between for which both relations hold.
pub fn some_between(alloc: Global, left: &Form, right: &Form) -> Result<Form, AllocError>
    ensures { IfOk result (λ made. made ≡ some_between left.now right.now) }
{
    if !reads_between(left, right) {
        let left = left.share()?;
        return conjunction(alloc, left, right.share()?);
    }
    let first = from_left(alloc, left)?;
    let both = conjunction(alloc, first, to_right(alloc, right)?)?;
    let ty = truth_ty(alloc)?;
    over(alloc, Head::SomeMemory, both, ty)
}
