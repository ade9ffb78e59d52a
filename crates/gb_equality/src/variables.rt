// The variables and reads of terms.

ghost use Rattle.std.specs.Prelude.{◌≡◌, [], IfOk, OnOk};
ghost use Rattle.std.specs.Option.{option_copied};
ghost use Rattle.std.specs.List.{flat_map};
ghost use Rattle.gb_equality.specs.Variables.{head_read, term_variables, noted, with_new, variable_of, variables, variables_in};

use gb_closing::linked::{Variable, Variables, is_among};
use gb_core::Shared;
use gb_core::ty::Ty;
use gb_terms::op::{Read, Side};
use gb_terms::share::copy_read;
use gb_terms::term::{Head, Term};
use sqlite_items::Items;
use std::alloc::{AllocError, Global};

/// A read, but one of a memory that a binder binds.
fn variable_of(r: &Read) -> Option<&Read>
    ensures { option_copied result ≡ variable_of r.now }
{
    match r {
        Read::Program {
            side: Side::Bound(_),
            ..
        } => None,
        _ => Some(r),
    }
}

/// The variable or read of the term that a head is.
fn read_of(head: &Head) -> Option<&Read>
    ensures { option_copied result ≡ head_read head.now }
{
    match head {
        Head::Read(r) => variable_of(r),
        _ => None,
    }
}

/// Adds a variable, if it isn't there yet.
fn note_read(
    alloc: Global,
    r: &Read,
    ty: &Shared<Ty>,
    list: &mut Variables,
) -> Result<(), AllocError>
    ensures { OnOk result (list.new ≡ with_new list.old (record { read = r.now; ty = ty.now })) }
{
    if is_among(list.as_slice(), r) {
        return Ok(());
    }
    let read = Shared::new(alloc, copy_read(alloc, r)?)?;
    let ty = ty.share()?;
    list.push(Variable { read, ty })
}

/// Adds the variables and reads of a term that aren't there yet.
#[cycle(note)]
#[tactic(auto, using(crate::proofs::Layers::variables_out, crate::proofs::Noted::noted_more))]
fn note(alloc: Global, t: &Term, list: &mut Variables) -> Result<(), AllocError>
    ensures { OnOk result (list.new ≡ noted list.old (term_variables t.now)) }
{
    match read_of(t.head.get()) {
        Some(r) => note_read(alloc, r, &t.ty, list),
        None => note_all(alloc, t.args.as_slice(), list),
    }
}

#[cycle(note)]
#[tactic(auto, using(crate::proofs::Layers::variables_out, crate::proofs::Noted::noted_more))]
fn note_all(alloc: Global, terms: &[Term], list: &mut Variables) -> Result<(), AllocError>
    ensures { OnOk result (list.new ≡ noted list.old (flat_map term_variables terms.now)) }
{
    for t in terms {
        note(alloc, t, list)?;
    }
    Ok(())
}

/// The variables and reads of a term, each once, in the order of their first places.
pub fn variables(alloc: Global, t: &Term) -> Result<Variables, AllocError>
    ensures { IfOk result (λ vs. vs ≡ variables t.now) }
{
    let mut list = Items::new(alloc);
    note(alloc, t, &mut list)?;
    Ok(list)
}

/// Those of hypotheses, and then of a conclusion.
pub fn variables_in(
    alloc: Global,
    hyps: &[Term],
    conclusion: &Term,
) -> Result<Variables, AllocError>
    ensures { IfOk result (λ vs. vs ≡ variables_in hyps.now conclusion.now) }
{
    let mut list = Items::new(alloc);
    note_all(alloc, hyps, &mut list)?;
    note(alloc, conclusion, &mut list)?;
    Ok(list)
}
