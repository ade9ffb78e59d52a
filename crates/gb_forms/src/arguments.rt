// Bodies of operators at arguments.

ghost use Rattle.std.specs.Prelude.{◌≡◌, IfOk};
ghost use Rattle.gb_walk.specs.Change.{term_changed};
ghost use Rattle.gb_forms.specs.Arguments.{in_places};

use gb_terms::term::Term;
use gb_walk::change::{Change, Changes};
use gb_walk::walk::changed;
use sqlite_items::Items;
use std::alloc::{AllocError, Global};

/// Terms in the places of the variables that an operator's body binds, the last one innermost. A list that is longer than numbers of
/// 32 bits doesn't fit in memory, and so counts as a want of it.
fn in_places(alloc: Global, terms: &[Term]) -> Result<Changes, AllocError>
    ensures { IfOk result (λ made. made ≡ in_places terms.now) }
{
    let mut changes = Items::new(alloc);
    for i in 0..terms.len() {
        let place = u32::try_from(terms.len() - 1 - i).or(Err(AllocError))?;
        changes.push(Change::OfBound(place, terms[i].share()?))?;
    }
    Ok(changes)
}

/// A body with arguments in the places of its variables.
pub fn at_arguments(alloc: Global, body: &Term, args: &[Term]) -> Result<Term, AllocError>
    ensures { IfOk result (λ made. made ≡ term_changed body.now (in_places args.now)) }
{
    let changes = in_places(alloc, args)?;
    changed(alloc, body, changes.as_slice())
}
