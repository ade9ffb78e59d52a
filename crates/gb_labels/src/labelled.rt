// Terms with labels in place of the values of modules' globals.

ghost use Rattle.std.specs.Prelude.{◌≡◌, map, IfOk};
ghost use Rattle.gb_terms.specs.declared.term.Term.{out-Term};
ghost use Rattle.gb_terms.specs.Make.{node};
ghost use Rattle.gb_labels.specs.Labels.{labelled_ty};
ghost use Rattle.gb_labels.specs.Labelled.{labelled_head, labelled};

use crate::labels::Label;
use crate::types::labelled_part;
use gb_core::{Shared, SharedItems};
use gb_terms::term::{Head, Term, Terms};
use sqlite_items::Items;
use std::alloc::{AllocError, Global};

fn labelled_head(
    alloc: Global,
    head: &Shared<Head>,
    list: &[Label],
) -> Result<Shared<Head>, AllocError>
    ensures { IfOk result (λ made. made ≡ labelled_head list.now head.now) }
{
    match head.get() {
        Head::All(ty) => {
            let ty = labelled_part(alloc, ty, list)?;
            Shared::new(alloc, Head::All(ty))
        }
        Head::Some(ty) => {
            let ty = labelled_part(alloc, ty, list)?;
            Shared::new(alloc, Head::Some(ty))
        }
        _ => head.share(),
    }
}

/// A term with labels in its head and its type, and with these arguments.
fn labelled_node(alloc: Global, t: &Term, args: Terms, list: &[Label]) -> Result<Term, AllocError>
    ensures { IfOk result (λ made. made ≡ node (labelled_head list.now (out-Term t.now).head) args (labelled_ty list.now (out-Term t.now).ty)) }
{
    let args = SharedItems::new(alloc, args)?;
    let head = labelled_head(alloc, &t.head, list)?;
    let ty = labelled_part(alloc, &t.ty, list)?;
    Ok(Term { head, args, ty })
}

/// A term with labels in place of the globals of the modules that have numbers of these, in each type in it. Without numbers of labels
/// the term is shared.
#[cycle(labelled)]
pub fn labelled(alloc: Global, t: &Term, list: &[Label]) -> Result<Term, AllocError>
    ensures { IfOk result (λ made. made ≡ labelled list.now t.now) }
{
    if list.is_empty() {
        return t.share();
    }
    let args = labelled_all(alloc, t.args.as_slice(), list)?;
    labelled_node(alloc, t, args, list)
}

/// The same of each of these terms.
#[cycle(labelled)]
pub fn labelled_all(alloc: Global, terms: &[Term], list: &[Label]) -> Result<Terms, AllocError>
    ensures { IfOk result (λ made. made ≡ map (labelled list.now) terms.now) }
{
    let mut out = Items::new(alloc);
    for t in terms {
        out.push(labelled(alloc, t, list)?)?;
    }
    Ok(out)
}
