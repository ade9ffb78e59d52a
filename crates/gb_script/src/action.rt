// What the productions of a grammar make.

use crate::head::Head;

/// How the values of a production are made from those of its parts.
#[derive(Clone, Copy)]
pub enum Action {
    /// No value.
    Nothing,
    /// The values, as they are.
    Pass,
    /// A node of the values, lists among them as nodes.
    Make(Head),
    /// The same, of a node that begins with the token before: an opening bracket.
    Enclose(Head),
    /// The same as `Make`, with the first token as the node's text.
    Spell(Head),
    /// A node of the values and of the elements of lists among them.
    Graft(Head),
    /// The same, but a lone part itself.
    Flat(Head),
    /// The last value, which begins here, with the others in front of its parts.
    Extend,
    /// A list of the values and of the elements of lists among them.
    Many,
    /// The same as `Many`, but the first value is the parts of a node, an item.
    Lead(Head),
    /// The first of the values and of the elements of lists among them, with the others as items behind it.
    Attach,
}

/// What a production begins or ends among the levels of nesting of a text and the chains in them.
#[derive(Clone, Copy)]
pub enum Mark {
    /// Nothing.
    Plain,
    /// A level that isn't of brackets begins.
    Begin,
    /// Such a level ends.
    End,
    /// A chain of `=>` begins.
    Implication,
    /// An operand of `=>`, and with it a chain of `\/`.
    Disjunction,
    /// An operand of `\/`, and with it a chain of `/\`.
    Conjunction,
    /// An operand of `/\`.
    Conjunct,
    /// A sum of products, with the first operand of its first product.
    Sum,
    /// An operand: behind an operator a further one of the sum or the product.
    Operand,
    /// The same, a prefix `-`: what stands behind it is a level.
    Negative,
    /// An operator behind an operand: the operands of prefixes `-` before it end.
    Operator,
    /// The bound of a `phoare`: it belongs to the operand of a prefix `-` before it.
    Bounded,
    /// The end of a sum: the operands of prefixes `-` in it end, also those with a bound.
    SumEnd,
    /// The end of the form of a `have`, and of its levels.
    FormEnd,
}

/// An action, and of how many values: the first ones of the parts. The others stay as they are. No law of this crate
/// looks at the mark.
#[derive(Clone, Copy)]
pub struct Rule {
    pub takes: u8,
    pub action: Action,
    pub mark: Mark,
}
