// Shapes of forms, by which operands get their brackets.

ghost use Rattle.std.specs.Prelude.{◌≡◌};
ghost use Rattle.gb_print_names.specs.Shapes.{spelling, shape, stands_alone, encloses, runs_on};

use gb_terms::op::Op;
use gb_terms::term::{Head, Term};

/// How a form stands among others.
#[derive(Clone, Copy)]
pub enum Shape {
    /// What arguments it has stand in brackets or bars of its own.
    Atom,
    /// The first argument is an operand; the others stand in brackets.
    Postfix,
    /// A judgment with a bound: an atom whose bound is an operand.
    Bounded,
    /// A name and, side by side, its arguments.
    Application,
    /// Operands and an operator of sums.
    Sum,
    /// Another operation, or a quantifier.
    Operation,
}

fn operator_shape(op: Op) -> Shape
    ensures { result ≡ (spelling op).shape }
{
    match op {
        Op::None | Op::Empty | Op::Coin | Op::Uniform | Op::Tuple | Op::Abs => Shape::Atom,
        Op::Part(_) | Op::Get | Op::Set | Op::ToReal => Shape::Postfix,
        Op::Some | Op::Oget | Op::Dunit | Op::Mu1 => Shape::Application,
        Op::Xor => Shape::Sum,
        _ => Shape::Operation,
    }
}

/// The shape of a form with this head.
pub fn shape_of(head: &Head) -> Shape
    ensures { result ≡ shape head.now }
{
    match head {
        Head::Whole(n) => {
            if *n >= 0 {
                Shape::Atom
            } else {
                Shape::Operation
            }
        }
        Head::Builtin(op) => operator_shape(*op),
        Head::All(_) | Head::Some(_) | Head::AllMemory | Head::SomeMemory | Head::AllModule(_) =>
            Shape::Operation,
        Head::User(_) | Head::Mu | Head::Sum(_) | Head::Map | Head::Restrict => Shape::Application,
        Head::Phoare(..) => Shape::Bounded,
        _ => Shape::Atom,
    }
}

/// Whether a form of this shape, with these arguments, needs no brackets as an operand.
pub fn stands_alone(shape: Shape, args: &[Term]) -> bool
    ensures { result ≡ stands_alone shape args.now }
{
    match shape {
        Shape::Atom | Shape::Postfix | Shape::Bounded => true,
        Shape::Application => args.is_empty(),
        Shape::Sum | Shape::Operation => false,
    }
}

/// Whether an argument stands in brackets or bars of the form around it.
pub fn encloses(around: Shape, i: usize) -> bool
    ensures { result ≡ encloses around i }
{
    match around {
        Shape::Atom => true,
        Shape::Postfix => i != 0,
        Shape::Bounded => i < 2,
        _ => false,
    }
}

/// Whether the bound of an argument would run on behind it.
pub fn runs_on(around: Shape, i: usize, argument: Shape) -> bool
    ensures { result ≡ runs_on around i argument }
{
    match (around, argument) {
        (Shape::Application, Shape::Bounded) => true,
        (Shape::Sum, Shape::Bounded) => i == 0,
        _ => false,
    }
}
