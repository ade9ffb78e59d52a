// What is to hold before a sampling.

ghost use Rattle.std.specs.Prelude.{◌≡◌, IfOk};
ghost use Rattle.gb_terms.specs.declared.op.Read.TheVariants.{Program};
ghost use Rattle.gb_walk.specs.declared.change.Change.TheVariants.{ToTerm};
ghost use Rattle.gb_typing.specs.Samplings.{sampling_of};
ghost use Rattle.gb_forms.specs.Drawn.{each_drawn};

use gb_core::copy::copy_var;
use gb_terms::op::{Read, Side};
use gb_terms::term::{Form, Term};
use gb_typing::samplings::Last;
use gb_typing::supports::{for_support, nearest};
use gb_walk::change::Change;
use gb_walk::walk::changed;
use std::alloc::{AllocError, Global};

/// What was sampled on one side becomes a term.
pub fn target_change(
    alloc: Global,
    sampling: &Last<'_>,
    side: Side,
    by: Term,
) -> Result<Change, AllocError>
    ensures { IfOk result (λ made. made ≡ ToTerm (Program sampling.now.target.now side) by) }
{
    let var = copy_var(alloc, sampling.target)?;
    Ok(Change::ToTerm(Read::Program { var, side }, by))
}

/// What is to hold before a sampling, so that the postcondition holds of each value that it may draw.
pub fn each_drawn(alloc: Global, sampling: &Last<'_>, post: &Form) -> Result<Form, AllocError>
    ensures { IfOk result (λ made. made ≡ each_drawn (sampling_of sampling.now) post.now) }
{
    let value = nearest(alloc, sampling.ty)?;
    let change = target_change(alloc, sampling, Side::Own, value)?;
    let post = changed(alloc, post, &[change])?;
    for_support(alloc, sampling.ty, sampling.from, post)
}
