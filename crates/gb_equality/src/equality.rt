// The equality procedure.

ghost use Rattle.std.specs.Prelude.{◌≡◌, length, IfOk};
ghost use Rattle.gb_equality.specs.Answer.{AreFresh, IsAnswer, IsAssumed, IsRefuting, with_labels};
ghost use Rattle.gb_equality.specs.Table.{IsTable};

use crate::closing::equate;
use crate::search::search;
use crate::table::{Node, Table, table_of};
use gb_closing::labels::{FALSE, TRUE, label_at};
use gb_terms::term::Term;
use sqlite_items::Items;
use std::alloc::{AllocError, Global};

/// A term and its label. That of a form is 1 where it is true, and 0 where it is false.
#[derive(Drop)]
pub struct Labelled {
    pub term: Term,
    pub label: usize,
}

/// One label per term, in order of first occurrence, the arguments of a term before it.
pub type Labelling = Items<Labelled>;

/// A label of its own for each row. A table with more rows than labels has no room in memory.
fn fresh_labels(alloc: Global, count: usize) -> Result<Vec<usize>, AllocError>
    ensures { IfOk result (λ labels. AreFresh count labels.items) }
{
    let mut labels = Vec::new(alloc);
    for at in 0..count {
        let label = at.checked_add(2).ok_or(AllocError)?;
        labels.push(label)?;
    }
    Ok(labels)
}

/// Makes the hypotheses at these places true and the conclusion false, unless they clash.
fn assume(hyps: &[usize], conclusion: usize, labels: &mut [usize]) -> bool
    ensures { IsAssumed hyps.now conclusion labels.old labels.new result }
{
    for place in hyps {
        let label = label_at(labels, *place);
        if !equate(labels, label, TRUE) {
            return false;
        }
    }
    let label = label_at(labels, conclusion);
    equate(labels, label, FALSE)
}

/// Labels of the rows that make the hypotheses true and the conclusion false, if there are some.
fn refuting(alloc: Global, table: &Table) -> Result<Option<Items<usize>>, AllocError>
    requires { IsTable table.now.nodes }
    ensures { IfOk result (IsRefuting table.now) }
{
    let nodes = table.nodes.as_slice();
    let mut labels = fresh_labels(alloc, nodes.len())?;
    if !assume(table.hyps.as_slice(), table.conclusion, &mut labels) {
        return Ok(None);
    }
    if !search(alloc, nodes, &mut labels)? {
        return Ok(None);
    }
    Ok(Some(Items::from_vec(labels)))
}

/// The terms of the rows with their labels.
fn with_labels(alloc: Global, nodes: &[Node], labels: &[usize]) -> Result<Labelling, AllocError>
    requires { length labels.now ≡ length nodes.now }
    ensures { IfOk result (λ list. list ≡ with_labels nodes.now labels.now) }
{
    let mut list = Items::new(alloc);
    for at in 0..nodes.len() {
        let term = nodes[at].term.share()?;
        let label = label_at(labels, at);
        list.push(Labelled { term, label })?;
    }
    Ok(list)
}

/// Whether a leaf is valid by equality: none, where no labelling of its terms makes the hypotheses true and the conclusion false, and
/// else such a labelling.
///
/// # Errors
/// Want of memory.
pub fn equality(
    alloc: Global,
    hyps: &[Term],
    conclusion: &Term,
) -> Result<Option<Labelling>, AllocError>
    ensures { IfOk result (IsAnswer hyps.now conclusion.now) }
{
    let table = table_of(alloc, hyps, conclusion)?;
    let Some(labels) = refuting(alloc, &table)? else {
        return Ok(None);
    };
    let list = with_labels(alloc, table.nodes.as_slice(), labels.as_slice())?;
    Ok(Some(list))
}
