// What stands on the stack.

ghost use Rattle.std.specs.Prelude.{◌≡◌};
ghost use Rattle.gb_script.specs.Value.{part_of};

use crate::head::Head;
use crate::tree::Node;
use gb_core::Stack;
use gb_core::place::Place;
use std::alloc::Global;

/// The value of a part: a tree, or several.
#[derive(Drop)]
pub enum Value {
    Tree(Node),
    Trees(Stack<Node>),
}

/// A value as a part of a node.
pub fn part_of(alloc: Global, place: Place, value: Value) -> Node
    ensures { result ≡ part_of place value }
{
    match value {
        Value::Tree(tree) => tree,
        Value::Trees(trees) => Node::new(alloc, Head::List, trees.into_items(), place),
    }
}
