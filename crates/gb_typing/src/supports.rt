// Forms on the values that a distribution gives.

ghost use Rattle.std.specs.Prelude.{◌≡◌, IfOk};
ghost use Rattle.gb_typing.specs.Supports.{nearest, in_support, weight, for_support};

use gb_core::Shared;
use gb_core::ty::Ty;
use gb_terms::make::{binary, forall, implication, leaf, truth_ty};
use gb_terms::op::Op;
use gb_terms::term::{Form, Head, Term};
use std::alloc::{AllocError, Global};

/// The value under the nearest binder.
pub fn nearest(alloc: Global, ty: &Shared<Ty>) -> Result<Term, AllocError>
    ensures { IfOk result (λ made. made ≡ nearest ty.now) }
{
    let ty = ty.share()?;
    leaf(alloc, Head::Bound(0), ty)
}

/// `v \in d`.
pub fn in_support(alloc: Global, value: Term, from: &Term) -> Result<Form, AllocError>
    ensures { IfOk result (λ made. made ≡ in_support value from.now) }
{
    let from = from.share()?;
    let ty = truth_ty(alloc)?;
    binary(alloc, Op::InSupport, value, from, ty)
}

/// `mu1 d v`.
pub fn weight(alloc: Global, from: &Term, value: Term) -> Result<Term, AllocError>
    ensures { IfOk result (λ made. made ≡ weight from.now value) }
{
    let from = from.share()?;
    let ty = Shared::new(alloc, Ty::Real)?;
    binary(alloc, Op::Mu1, from, value, ty)
}

/// `forall v, v \in d => F`, over the type of the values.
pub fn for_support(
    alloc: Global,
    ty: &Shared<Ty>,
    from: &Term,
    form: Form,
) -> Result<Form, AllocError>
    ensures { IfOk result (λ made. made ≡ for_support ty.now from.now form) }
{
    let value = nearest(alloc, ty)?;
    let premise = in_support(alloc, value, from)?;
    let body = implication(alloc, premise, form)?;
    let ty = ty.share()?;
    forall(alloc, ty, body)
}
