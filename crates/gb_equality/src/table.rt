// The table of the terms of a leaf, each once, its arguments before it.

ghost use Rattle.std.specs.Prelude.{◌≡◌, ◌≤◌, ◌↔◌, [], ◌∷◌, take, length, IfOk, IsTrue, MatchOption, slice_get, Some};
ghost use Rattle.std.specs.List.{Contains, flat_map};
ghost use Rattle.gb_terms.specs.declared.term.Term.{out-Term};
ghost use Rattle.gb_equality.specs.Parts.{arguments_of, parts_of};
ghost use Rattle.gb_equality.specs.Table.{IsAdded, IsTable, IsTableOf, StandAt, terms};

use crate::parts::{number_reached, same_operator};
use gb_terms::term::Term;
use sqlite_items::Items;
use std::alloc::{AllocError, Global};

/// A row of the table: a term, and the places of its arguments.
#[derive(Drop)]
pub struct Node {
    pub term: Term,
    pub args: Items<usize>,
}

pub type Nodes = Items<Node>;

fn same_places(a: &[usize], b: &[usize]) -> bool
    ensures { IsTrue result ↔ a.now ≡ b.now }
{
    if a.len() != b.len() {
        return false;
    }
    for at in 0..a.len() {
        if a[at] != b[at] {
            return false;
        }
    }
    true
}

/// The place of a term whose arguments stand at these places.
fn place_of(nodes: &[Node], t: &Term, args: &[usize]) -> Option<usize>
    requires table { IsTable nodes.now }
    requires arguments { StandAt (terms nodes.now) args.now (arguments_of t.now) }
    ensures { MatchOption result (Contains (terms nodes.now) t.now → ⊥) (λ place. slice_get (terms nodes.now) place ≡ Some t.now) }
{
    for place in 0..nodes.len() {
        let node = &nodes[place];
        if same_places(node.args.as_slice(), args) && same_operator(&node.term, t) {
            return Some(place);
        }
    }
    None
}

/// Adds a row, unless its term is there, and tells its place.
fn add_row(t: &Term, args: Items<usize>, nodes: &mut Nodes) -> Result<usize, AllocError>
    requires table { IsTable nodes.old }
    requires arguments { StandAt (terms nodes.old) args (arguments_of t.now) }
    ensures added { IfOk result (λ place. IsAdded nodes.old (t.now ∷ []) nodes.new) }
    ensures place { IfOk result (λ place. slice_get (terms nodes.new) place ≡ Some t.now) }
{
    if let Some(place) = place_of(nodes.as_slice(), t, args.as_slice()) {
        return Ok(place);
    }
    let place = nodes.len();
    let term = t.share()?;
    nodes.push(Node { term, args })?;
    Ok(place)
}

/// Adds the terms in a term that aren't there yet, and tells its place.
#[cycle(add)]
fn add(alloc: Global, t: &Term, nodes: &mut Nodes) -> Result<usize, AllocError>
    requires { IsTable nodes.old }
    ensures added { IfOk result (λ place. IsAdded nodes.old (parts_of t.now) nodes.new) }
    ensures place { IfOk result (λ place. slice_get (terms nodes.new) place ≡ Some t.now) }
{
    let args = add_first(alloc, t.args.as_slice(), number_reached(t), nodes)?;
    add_row(t, args, nodes)
}

/// Adds those in the first terms of a list, and tells the places of these.
#[cycle(add)]
pub fn add_first(
    alloc: Global,
    list: &[Term],
    count: usize,
    nodes: &mut Nodes,
) -> Result<Items<usize>, AllocError>
    requires table { IsTable nodes.old }
    requires within { count ≤ length list.now }
    ensures added { IfOk result (λ places. IsAdded nodes.old (flat_map parts_of (take count list.now)) nodes.new) }
    ensures places { IfOk result (λ places. StandAt (terms nodes.new) places (take count list.now)) }
{
    let mut places = Items::new(alloc);
    for at in 0..count {
        places.push(add(alloc, &list[at], nodes)?)?;
    }
    Ok(places)
}

/// The terms of a leaf, and where its hypotheses and its conclusion stand.
#[derive(Drop)]
pub struct Table {
    pub nodes: Nodes,
    pub hyps: Items<usize>,
    pub conclusion: usize,
}

/// The table of hypotheses and a conclusion.
pub fn table_of(alloc: Global, hyps: &[Term], conclusion: &Term) -> Result<Table, AllocError>
    ensures { IfOk result (IsTableOf hyps.now conclusion.now) }
{
    let mut nodes = Items::new(alloc);
    let hyps = add_first(alloc, hyps, hyps.len(), &mut nodes)?;
    let conclusion = add(alloc, conclusion, &mut nodes)?;
    Ok(Table {
        nodes,
        hyps,
        conclusion,
    })
}
