// That some value is drawn.

ghost use Rattle.std.specs.Prelude.{◌≡◌, if◌then◌else◌, IfOk};
ghost use Rattle.gb_typing.specs.Forms.{and_form};
ghost use Rattle.gb_typing.specs.Samplings.{sampling_of};
ghost use Rattle.gb_forms.specs.Surely.{drawing, surely_drawn};

use gb_core::Shared;
use gb_core::ty::Ty;
use gb_prog::compared::{compared, number};
use gb_prog::forms::located;
use gb_terms::make::{boolean, conjunction, term};
use gb_terms::op::{Rel, Side};
use gb_terms::term::{Form, Head, RealTerm};
use gb_typing::samplings::Last;
use sqlite_items::Items;
use std::alloc::{AllocError, Global};

/// How likely any value is drawn at all.
fn drawing(alloc: Global, sampling: &Last<'_>, side: Side) -> Result<RealTerm, AllocError>
    ensures { IfOk result (λ made. made ≡ drawing side (sampling_of sampling.now)) }
{
    let from = located(alloc, sampling.from, side)?;
    let truth = boolean(alloc, true)?;
    let args = Items::from_vec(vec![in alloc; from, truth]?);
    let real = Shared::new(alloc, Ty::Real)?;
    term(alloc, Head::Mu, args, real)
}

/// Some value is drawn.
fn surely_drawn(alloc: Global, sampling: &Last<'_>, side: Side) -> Result<Form, AllocError>
    ensures { IfOk result (λ made. made ≡ surely_drawn side (sampling_of sampling.now)) }
{
    let chance = drawing(alloc, sampling, side)?;
    let one = number(alloc, 1)?;
    compared(alloc, Rel::Equal, chance, one)
}

/// A form, and in front of it that some value is drawn, where the distribution may lose weight.
pub fn surely_if(
    alloc: Global,
    loses: bool,
    sampling: &Last<'_>,
    side: Side,
    form: Form,
) -> Result<Form, AllocError>
    ensures { IfOk result (λ made. made ≡ (if loses then and_form (surely_drawn side (sampling_of sampling.now)) form else form)) }
{
    if !loses {
        return Ok(form);
    }
    let surely = surely_drawn(alloc, sampling, side)?;
    conjunction(alloc, surely, form)
}
