// The tree of a text from the steps of its derivation.

ghost use Rattle.std.specs.Prelude.{◌≡◌, ◌++◌, [], ◌∷◌, IfOk, OnOk, take, drop, map};
ghost use Rattle.gb_script.specs.Build.{parts, flat, led, grown, into, extended, all_attached, makes_one, made, run, built};
ghost use Rattle.gb_script.specs.Tree.{node};
ghost use Rattle.gb_script.specs.declared.value.Value.TheVariants.{Trees};
ghost use Rattle.gb_script.specs.Value.{part_of as part_for, flattened, trees_of};

use crate::action::{Action, Rule};
use crate::head::Head;
use crate::table::Step;
use crate::text::{Text, name_at, place_at, place_before};
use crate::tree::{Node, attached};
use crate::value::{Value, part_of};
use gb_core::Stack;
use gb_core::place::Place;
use sqlite_items::Items;
use std::alloc::{AllocError, Global};

type Values = Items<Value>;

// So many values off the stack, the top first.
fn take_off(alloc: Global, stack: &mut Stack<Value>, count: u8) -> Result<Values, AllocError>
    ensures { IfOk result (λ xs. (xs ≡ take count stack.old) × (stack.new ≡ drop count stack.old)) }
{
    let mut taken = Items::new(alloc);
    for _i in 0..count {
        match stack.pop() {
            None => return Ok(taken),
            Some(value) => taken.push(value)?,
        }
    }
    Ok(taken)
}

// Values on the stack, the first on top.
fn put_on(stack: &mut Stack<Value>, values: Values) -> Result<(), AllocError>
    ensures { OnOk result (stack.new ≡ values ++ stack.old) }
{
    let mut rest = values;
    while let Some(value) = rest.pop() {
        stack.push(value)?;
    }
    Ok(())
}

// A list in front of another one, which costs nothing where the other is empty.
fn list_before(front: Stack<Node>, behind: Stack<Node>) -> Result<Stack<Node>, AllocError>
    ensures { IfOk result (λ all. all ≡ front ++ behind) }
{
    if behind.len() == 0 {
        return Ok(front);
    }
    let mut rest = front.into_items();
    let mut all = behind;
    while let Some(tree) = rest.pop() {
        all.push(tree)?;
    }
    Ok(all)
}

// A value in front of a list.
fn value_before(value: Value, behind: Stack<Node>) -> Result<Stack<Node>, AllocError>
    ensures { IfOk result (λ all. all ≡ trees_of value ++ behind) }
{
    match value {
        Value::Tree(tree) => {
            let mut all = behind;
            all.push(tree)?;
            Ok(all)
        }
        Value::Trees(trees) => list_before(trees, behind),
    }
}

// The values, and the elements of lists among them, in front of a list.
fn flattened_before(values: Values, behind: Stack<Node>) -> Result<Stack<Node>, AllocError>
    ensures { IfOk result (λ all. all ≡ flattened values ++ behind) }
{
    let mut rest = values;
    let mut all = behind;
    while let Some(value) = rest.pop() {
        all = value_before(value, all)?;
    }
    Ok(all)
}

// The values, and the elements of lists among them.
fn flattened(alloc: Global, values: Values) -> Result<Stack<Node>, AllocError>
    ensures { IfOk result (λ all. all ≡ flattened values) }
{
    flattened_before(values, Stack::new(alloc))
}

// The values as parts of a node, in front of others.
fn parts_before(
    alloc: Global,
    place: Place,
    values: Values,
    behind: Stack<Node>,
) -> Result<Stack<Node>, AllocError>
    ensures { IfOk result (λ all. all ≡ map (λ v. part_for place v) values ++ behind) }
{
    let mut rest = values;
    let mut all = behind;
    while let Some(value) = rest.pop() {
        all.push(part_of(alloc, place, value))?;
    }
    Ok(all)
}

// The values as parts of a node.
fn parts(alloc: Global, place: Place, values: Values) -> Result<Items<Node>, AllocError>
    ensures { IfOk result (λ all. all ≡ map (λ v. part_for place v) values) }
{
    let all = parts_before(alloc, place, values, Stack::new(alloc))?;
    Ok(all.into_items())
}

// A node of the values.
fn node(alloc: Global, head: Head, place: Place, values: Values) -> Result<Node, AllocError>
    ensures { IfOk result (λ n. n ≡ node head [] (parts place values) place) }
{
    let parts = parts(alloc, place, values)?;
    Ok(Node::new(alloc, head, parts, place))
}

// A lone part itself, and a node of others.
fn flat(alloc: Global, head: Head, place: Place, mut trees: Stack<Node>) -> Node
    ensures { result ≡ flat head place trees }
{
    if trees.len() == 1 {
        if let Some(only) = trees.pop() {
            return only;
        }
    }
    Node::new(alloc, head, trees.into_items(), place)
}

// The first value as the parts of a node, and the others flattened.
fn led(alloc: Global, head: Head, place: Place, values: Values) -> Result<Stack<Node>, AllocError>
    ensures { IfOk result (λ xs. xs ≡ led head place values) }
{
    let mut rest = Stack::from_items(alloc, values)?;
    match rest.pop() {
        None => Ok(Stack::new(alloc)),
        Some(first) => {
            let mut others = flattened(alloc, rest.into_items())?;
            let item = value_before(first, Stack::new(alloc))?;
            others.push(Node::new(alloc, head, item.into_items(), place))?;
            Ok(others)
        }
    }
}

// A node that begins here, with these values in front of its parts.
fn grown(alloc: Global, place: Place, front: Values, last: Node) -> Result<Node, AllocError>
    ensures { IfOk result (λ n. n ≡ grown place front last) }
{
    let (head, text, parts, _) = last.into_fields();
    let behind = Stack::from_items(alloc, parts)?;
    let all = parts_before(alloc, place, front, behind)?;
    Ok(Node {
        head,
        text,
        parts: all.into_items(),
        place,
    })
}

// A list whose first element begins here, with these values in front of its parts.
fn first_grown(
    alloc: Global,
    place: Place,
    front: Values,
    mut trees: Stack<Node>,
) -> Result<Value, AllocError>
    ensures { IfOk result (λ v. v ≡ into place front (Trees trees)) }
{
    match trees.pop() {
        None => Ok(Value::Trees(trees)),
        Some(first) => {
            let longer = grown(alloc, place, front, first)?;
            trees.push(longer)?;
            Ok(Value::Trees(trees))
        }
    }
}

// A value, or the first of its elements, that begins here, with these values in front of its parts.
fn into(alloc: Global, place: Place, front: Values, last: Value) -> Result<Value, AllocError>
    ensures { IfOk result (λ v. v ≡ into place front last) }
{
    match last {
        Value::Tree(tree) => Ok(Value::Tree(grown(alloc, place, front, tree)?)),
        Value::Trees(trees) => first_grown(alloc, place, front, trees),
    }
}

// The last value, or the first of its elements, which begins here, with the others in front of its parts.
fn extended(alloc: Global, place: Place, values: Values) -> Result<Value, AllocError>
    ensures { IfOk result (λ v. v ≡ extended place values) }
{
    let mut front = values;
    match front.pop() {
        None => Ok(Value::Trees(Stack::new(alloc))),
        Some(last) => into(alloc, place, front, last),
    }
}

// The first with the others as items behind it.
fn all_attached(alloc: Global, place: Place, mut trees: Stack<Node>) -> Result<Node, AllocError>
    ensures { IfOk result (λ n. n ≡ all_attached place trees) }
{
    match trees.pop() {
        None => Ok(Node::new(alloc, Head::List, Items::new(alloc), place)),
        Some(first) => attached(alloc, first, trees),
    }
}

// What an action that makes one value makes at a token of these values.
fn one_made(
    alloc: Global,
    action: Action,
    text: &Text,
    at: usize,
    values: Values,
) -> Result<Value, AllocError>
    ensures { IfOk result (λ v. makes_one action → made action text.now at values ≡ v ∷ []) }
{
    let place = place_at(text, at);
    match action {
        Action::Nothing | Action::Pass => Ok(Value::Trees(Stack::new(alloc))),
        Action::Make(head) => Ok(Value::Tree(node(alloc, head, place, values)?)),
        Action::Enclose(head) => {
            let place = place_before(text, at);
            Ok(Value::Tree(node(alloc, head, place, values)?))
        }
        Action::Spell(head) => Ok(Value::Tree(Node {
            head,
            text: name_at(alloc, text, at)?,
            parts: parts(alloc, place, values)?,
            place,
        })),
        Action::Graft(head) => {
            let parts = flattened(alloc, values)?.into_items();
            Ok(Value::Tree(Node::new(alloc, head, parts, place)))
        }
        Action::Flat(head) => {
            let trees = flattened(alloc, values)?;
            Ok(Value::Tree(flat(alloc, head, place, trees)))
        }
        Action::Extend => extended(alloc, place, values),
        Action::Many => Ok(Value::Trees(flattened(alloc, values)?)),
        Action::Lead(head) => Ok(Value::Trees(led(alloc, head, place, values)?)),
        Action::Attach => {
            let trees = flattened(alloc, values)?;
            Ok(Value::Tree(all_attached(alloc, place, trees)?))
        }
    }
}

// A step: its values are taken off the stack, and what it makes put on.
fn run(
    alloc: Global,
    text: &Text,
    step: Step<Rule>,
    stack: &mut Stack<Value>,
) -> Result<(), AllocError>
    ensures { OnOk result (stack.new ≡ run text.now step stack.old) }
{
    let values = take_off(alloc, stack, step.rule.takes)?;
    match step.rule.action {
        Action::Nothing => Ok(()),
        Action::Pass => put_on(stack, values),
        action => {
            let made = one_made(alloc, action, text, step.at, values)?;
            stack.push(made)
        }
    }
}

/// The values that the steps of a derivation build, from the last step to the first.
pub fn built(alloc: Global, text: &Text, steps: Vec<Step<Rule>>) -> Result<Stack<Value>, AllocError>
    ensures { IfOk result (λ s. s ≡ built text.now steps.items) }
{
    let mut left = steps;
    let mut stack = Stack::new(alloc);
    while let Some(step) = left.pop() {
        run(alloc, text, step, &mut stack)?;
    }
    Ok(stack)
}
