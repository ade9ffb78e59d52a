//! Forms that rules make.

ghost use Rattle.std.specs.Prelude.{◌≡◌, IfOk};
ghost use Rattle.gb_typing.specs.Forms.{located, every, every_pair, implies_form};
ghost use Rattle.gb_prog.specs.Likely.{as_likely};

use gb_terms::make::{binary, implication, over, truth_ty};
use gb_terms::op::{Op, Rel, Side};
use gb_terms::term::{Form, Head, Term};
use gb_walk::change::Change;
use gb_walk::sides::reads_side;
use gb_walk::walk::changed;
use std::alloc::{AllocError, Global};

/// A term of a program, read in a memory of a goal.
pub fn located(alloc: Global, term: &Term, side: Side) -> Result<Term, AllocError>
    ensures { IfOk result (λ made. made ≡ located side term.now) }
{
    match side {
        Side::Own => term.share(),
        _ => changed(alloc, term, &[Change::ToSide(Side::Own, side)]),
    }
}

/// The form for every memory in place of one. Where the form doesn't read that memory it stays as it is.
pub fn every(alloc: Global, side: Side, form: Form) -> Result<Form, AllocError>
    ensures { IfOk result (λ made. made ≡ every side form) }
{
    if !reads_side(&form, &side) {
        return Ok(form);
    }
    let body = changed(alloc, &form, &[Change::ToSide(side, Side::Bound(0))])?;
    let ty = truth_ty(alloc)?;
    over(alloc, Head::AllMemory, body, ty)
}

/// The form for every two memories in place of both sides.
pub fn every_pair(alloc: Global, form: Form) -> Result<Form, AllocError>
    ensures { IfOk result (λ made. made ≡ every_pair form) }
{
    let inner = every(alloc, Side::Right, form)?;
    every(alloc, Side::Left, inner)
}

/// One form implies the other.
pub fn implied(alloc: Global, pre: &Form, post: &Form) -> Result<Form, AllocError>
    ensures { IfOk result (λ made. made ≡ implies_form pre.now post.now) }
{
    let pre = pre.share()?;
    let post = post.share()?;
    implication(alloc, pre, post)
}

/// The old postcondition and the new one, so that one is as likely as the relation to the bound asks.
pub fn likely(alloc: Global, rel: Rel, old: &Form, new: &Form) -> Result<Form, AllocError>
    ensures { IfOk result (λ made. made ≡ as_likely rel old.now new.now) }
{
    match rel {
        Rel::AtMost => implied(alloc, old, new),
        Rel::AtLeast => implied(alloc, new, old),
        Rel::Equal => {
            let ty = truth_ty(alloc)?;
            let old = old.share()?;
            binary(alloc, Op::Iff, old, new.share()?, ty)
        }
    }
}
