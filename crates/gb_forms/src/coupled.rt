// The postcondition of two coupled samplings.

ghost use Rattle.std.specs.Prelude.{◌≡◌, IfOk};
ghost use Rattle.gb_forms.specs.Coupled.{composed, keeps_weights, couples, coupled_post};

use gb_core::Shared;
use gb_core::ty::Ty;
use gb_terms::make::{conjunction, equality};
use gb_terms::term::{Form, Term};
use gb_typing::supports::{for_support, in_support, nearest, weight};
use gb_walk::change::Change;
use gb_walk::walk::changed;
use std::alloc::{AllocError, Global};

/// A distribution that is sampled on one side, read there, and the type of its values.
pub struct Sampled {
    pub from: Term,
    pub ty: Shared<Ty>,
}

impl Drop for Sampled {
    fn drop(self) {
        let Sampled { from, ty } = self;
        drop(from);
        drop(ty);
    }
}

/// Functions between the values of two samplings, from left to right and from right to left. The argument of a function
/// is its innermost bound variable.
pub struct Maps {
    pub forth: Term,
    pub back: Term,
}

impl Drop for Maps {
    fn drop(self) {
        let Maps { forth, back } = self;
        drop(forth);
        drop(back);
    }
}

/// Two samplings and functions between their values.
pub struct Coupled {
    pub left: Sampled,
    pub right: Sampled,
    pub maps: Maps,
}

impl Drop for Coupled {
    fn drop(self) {
        let Coupled { left, right, maps } = self;
        drop(left);
        drop(right);
        drop(maps);
    }
}

/// The function `outer` after `inner`.
fn composed(alloc: Global, outer: &Term, inner: &Term) -> Result<Term, AllocError>
    ensures { IfOk result (λ made. made ≡ composed outer.now inner.now) }
{
    let inner = inner.share()?;
    changed(alloc, outer, &[Change::OfBound(0, inner)])
}

/// Each value v on the right is the image of its source on the left, which has the same probability:
/// `forall v, v \in d2 => v = f (g v) /\ mu1 d2 v = mu1 d1 (g v)`.
fn keeps_weights(alloc: Global, c: &Coupled) -> Result<Form, AllocError>
    ensures { IfOk result (λ made. made ≡ keeps_weights c.now) }
{
    let round = composed(alloc, &c.maps.forth, &c.maps.back)?;
    let returns = equality(alloc, nearest(alloc, &c.right.ty)?, round)?;
    let here = weight(alloc, &c.right.from, nearest(alloc, &c.right.ty)?)?;
    let there = weight(alloc, &c.left.from, c.maps.back.share()?)?;
    let keeps = equality(alloc, here, there)?;
    let form = conjunction(alloc, returns, keeps)?;
    for_support(alloc, &c.right.ty, &c.right.from, form)
}

/// Each value v on the left has an image on the right, of which it is the source, and the postcondition holds of the
/// two: `forall v, v \in d1 => f v \in d2 /\ v = g (f v) /\ Q`.
fn couples(alloc: Global, c: &Coupled, post: Form) -> Result<Form, AllocError>
    ensures { IfOk result (λ made. made ≡ couples c.now post) }
{
    let lands = in_support(alloc, c.maps.forth.share()?, &c.right.from)?;
    let round = composed(alloc, &c.maps.back, &c.maps.forth)?;
    let returns = equality(alloc, nearest(alloc, &c.left.ty)?, round)?;
    let form = conjunction(alloc, conjunction(alloc, lands, returns)?, post)?;
    for_support(alloc, &c.left.ty, &c.left.from, form)
}

/// What must hold before two coupled samplings, so that `post`, in which the two values stand already, holds after them.
pub fn coupled_post(alloc: Global, c: &Coupled, post: Form) -> Result<Form, AllocError>
    ensures { IfOk result (λ made. made ≡ coupled_post c.now post) }
{
    let first = keeps_weights(alloc, c)?;
    let second = couples(alloc, c, post)?;
    conjunction(alloc, first, second)
}
