// Equivalences in the other order.

ghost use Rattle.std.specs.Prelude.{◌≡◌, [], ◌∷◌, IfOk};
ghost use Rattle.gb_terms.specs.Make.{node};
ghost use Rattle.gb_terms.specs.declared.term.Head.TheVariants.{Equiv};
ghost use Rattle.gb_prog.specs.Exchanged.{exchanged};

use gb_core::ty::Ty;
use gb_terms::make::{term, truth_ty};
use gb_terms::op::Side;
use gb_terms::term::{Form, Head, Subject, Terms};
use gb_walk::change::Change;
use gb_walk::walk::changed;
use sqlite_items::Items;
use std::alloc::{AllocError, Global};

/// A form with the left memory in the place of the right one, and the right one in that of the left.
fn exchanged(alloc: Global, form: &Form) -> Result<Form, AllocError>
    ensures { IfOk result (λ made. made ≡ exchanged form.now) }
{
    let changes = [
        Change::ToSide(Side::Left, Side::Right),
        Change::ToSide(Side::Right, Side::Left),
    ];
    changed(alloc, form, &changes)
}

/// Both conditions of an equivalence in the other order.
fn exchanged_conditions(alloc: Global, pre: &Form, post: &Form) -> Result<Terms, AllocError>
    ensures { IfOk result (λ made. made ≡ exchanged pre.now ∷ exchanged post.now ∷ []) }
{
    let pre = exchanged(alloc, pre)?;
    let post = exchanged(alloc, post)?;
    Ok(Items::from_vec(vec![in alloc; pre, post]?))
}

/// The equivalence of two programs in the other order.
pub fn turned(
    alloc: Global,
    left: &Subject,
    right: &Subject,
    pre: &Form,
    post: &Form,
) -> Result<Form, AllocError>
    ensures { IfOk result (λ made. made ≡ node (Equiv right.now left.now) (exchanged pre.now ∷ exchanged post.now ∷ []) Ty.Bool) }
{
    let args = exchanged_conditions(alloc, pre, post)?;
    let ty = truth_ty(alloc)?;
    let left = left.share()?;
    let right = right.share()?;
    term(alloc, Head::Equiv(right, left), args, ty)
}
