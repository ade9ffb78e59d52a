// The tree of a text.

ghost use Rattle.std.specs.Prelude.{◌≡◌, [], ◌∷◌, ◌++◌, IfOk};
ghost use Rattle.gb_script.specs.declared.tree.Node.{out-Node};
ghost use Rattle.gb_script.specs.Tree.{node, fields_of, parts_of, behind, attach, attached};

use crate::head::{Head, goes_under, joins};
use gb_core::Stack;
use gb_core::name::Name;
use gb_core::place::Place;
use sqlite_items::Items;
use std::alloc::{AllocError, Global};

/// A tree: what it is, its text, which is empty where it has none of its own, its parts, and the place of its first token.
pub struct Node {
    pub head: Head,
    pub text: Name,
    pub parts: Nodes,
    pub place: Place,
}

pub type Nodes = Items<Node>;

impl Drop for Node {
    fn drop(self) {
        let Node {
            head: _,
            text: _,
            parts,
            place: _,
        } = self;
        drop(parts);
    }
}

impl Node {
    /// A node that has no text of its own.
    pub fn new(alloc: Global, head: Head, parts: Nodes, place: Place) -> Node
        ensures { result ≡ node head [] parts place }
    {
        Node {
            head,
            text: Name::new(String::new(alloc)),
            parts,
            place,
        }
    }

    /// What it is made of.
    pub fn into_fields(self) -> (Head, Name, Nodes, Place)
        ensures { result ≡ fields_of self }
    {
        let Node {
            head,
            text,
            parts,
            place,
        } = self;
        (head, text, parts, place)
    }

    /// Its parts alone.
    pub fn into_parts(self) -> Nodes
        ensures { result ≡ parts_of self }
    {
        let Node {
            head: _,
            text: _,
            parts,
            place: _,
        } = self;
        parts
    }
}

// Arguments, with further ones behind them.
fn joined(before: Node, item: Node) -> Result<Node, AllocError>
    ensures { IfOk result (λ n. n ≡ node (out-Node before).head (out-Node before).text (parts_of before ++ parts_of item) (out-Node before).place) }
{
    let further = item.into_parts();
    let (head, text, mut parts, place) = before.into_fields();
    parts.append(further)?;
    Ok(Node {
        head,
        text,
        parts,
        place,
    })
}

// An item with an operand in front of its parts.
fn headed(alloc: Global, operand: Node, item: Node) -> Result<Node, AllocError>
    ensures { IfOk result (λ n. n ≡ node (out-Node item).head (out-Node item).text (operand ∷ parts_of item) (out-Node operand).place) }
{
    let place = operand.place;
    let (head, text, further, _) = item.into_fields();
    let mut parts = Items::new(alloc);
    parts.push(operand)?;
    parts.append(further)?;
    Ok(Node {
        head,
        text,
        parts,
        place,
    })
}

// An item behind the whole of what stands before it.
fn behind(alloc: Global, before: Node, item: Node) -> Result<Node, AllocError>
    ensures { IfOk result (λ n. n ≡ behind before item) }
{
    if joins(item.head, before.head) {
        joined(before, item)
    } else {
        headed(alloc, before, item)
    }
}

/// An item behind what stands before it.
pub fn attach(alloc: Global, before: Node, item: Node) -> Result<Node, AllocError>
    ensures { IfOk result (λ n. n ≡ attach before item) }
{
    if !goes_under(item.head, before.head) {
        return behind(alloc, before, item);
    }
    let (head, text, mut parts, place) = before.into_fields();
    match parts.pop() {
        None => Ok(Node {
            head,
            text,
            parts,
            place,
        }),
        Some(last) => {
            let longer = attach(alloc, last, item)?;
            parts.push(longer)?;
            Ok(Node {
                head,
                text,
                parts,
                place,
            })
        }
    }
}

/// Items behind an operand, from left to right.
pub fn attached(alloc: Global, first: Node, mut items: Stack<Node>) -> Result<Node, AllocError>
    ensures { IfOk result (λ n. n ≡ attached first items) }
{
    let mut tree = first;
    while let Some(item) = items.pop() {
        tree = attach(alloc, tree, item)?;
    }
    Ok(tree)
}
