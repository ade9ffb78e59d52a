// The search for a labelling.

ghost use Rattle.std.specs.Prelude.{◌≡◌, length, IfOk, MatchOption};
ghost use Rattle.gb_equality.specs.Table.{IsDecided, IsTable};
ghost use Rattle.gb_equality.specs.Search.{IsOpen, IsSearched};

use crate::closing::{close, relabel};
use crate::connectives::is_form;
use crate::table::Node;
use gb_closing::labels::{FALSE, TRUE, label_at};
use std::alloc::{AllocError, Global};

/// The label of the first form that isn't known to be true or false.
fn undecided(nodes: &[Node], labels: &[usize]) -> Option<usize>
    requires { length labels.now ≡ length nodes.now }
    ensures { MatchOption result (IsDecided nodes.now labels.now) (IsOpen nodes.now labels.now) }
{
    for at in 0..nodes.len() {
        let label = label_at(labels, at);
        if label > TRUE && is_form(&nodes[at].term) {
            return Some(label);
        }
    }
    None
}

/// Looks for a labelling that is a reading of the labels, and makes it of them: what is implied first, and then both truths of the
/// first form that is left.
pub fn search(alloc: Global, nodes: &[Node], labels: &mut [usize]) -> Result<bool, AllocError>
    requires table { IsTable nodes.now }
    requires rows { length labels.old ≡ length nodes.now }
    ensures { IfOk result (IsSearched nodes.now labels.old labels.new) }
{
    if !close(nodes, labels) {
        return Ok(false);
    }
    let Some(label) = undecided(nodes, labels) else {
        return Ok(true);
    };
    let mut tried = Vec::from_slice(alloc, labels)?;
    relabel(&mut tried, label, TRUE);
    if search(alloc, nodes, &mut tried)? {
        labels.copy_from_slice(&tried);
        return Ok(true);
    }
    relabel(labels, label, FALSE);
    search(alloc, nodes, labels)
}
