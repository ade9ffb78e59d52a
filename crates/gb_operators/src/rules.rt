// The rules by which forms are made of typed parts.

ghost use Rattle.std.specs.Prelude.{◌≡◌};
ghost use Rattle.gb_operators.specs.Rules.{no_divisor, of_arity, rule_for, rule_of, turned};

use crate::domain::Domain;
use crate::drawn::Drawn;
use crate::literals::{is_divisor, place_inside};
use crate::operators::{Infix, Operator, Prefix};
use gb_core::Shared;
use gb_core::name::Name;
use gb_core::place::Place;
use gb_core::ty::Ty;
use gb_goal::scope::OperatorType;
use gb_names::names::Known;
use gb_script::tree::Node;

/// How a form is made of typed parts.
pub enum Rule {
    /// The form itself, of a type that the text gives.
    Annotated(Shared<Ty>),
    /// A tuple of so many parts.
    Tuple(usize),
    /// A part of a tuple, by its number, which stands at a place.
    Part(u8, Place),
    /// A test and two branches.
    If,
    /// What a map has at a key.
    Get,
    /// A map with another value at a key.
    Set,
    /// An operator of one operand.
    One(Prefix),
    /// An operator of two sides.
    Two(Infix),
    /// A quotient: whether its divisor is typed first, and the place of one that is no literal above 0.
    Quotient(bool, Option<Place>),
    /// `\in`, with whether its right side is typed first.
    Member(bool),
    /// An operator of the script.
    User(Name, OperatorType),
    /// A product of distributions.
    Product,
    /// A form that binds an outcome of a distribution.
    Drawn(Drawn),
    /// The weight of a value in a distribution.
    Mass,
    /// A sum over the numbers below one.
    Sum(u32),
}

impl Drop for Rule {
    fn drop(self) {
        match self {
            Rule::Annotated(ty) => drop(ty),
            Rule::Tuple(_) => {}
            Rule::Part(_, _) => {}
            Rule::If | Rule::Get | Rule::Set | Rule::Product | Rule::Mass => {}
            Rule::One(_) => {}
            Rule::Two(_) => {}
            Rule::Quotient(_, _) => {}
            Rule::Member(_) => {}
            Rule::User(name, operator) => {
                drop(name);
                drop(operator);
            }
            Rule::Drawn(_) => {}
            Rule::Sum(_) => {}
        }
    }
}

/// What is asked of a part, with the type that is wanted of it, if one is.
pub enum Asked {
    Form(Option<Shared<Ty>>),
    /// A form that may stand for the whole one.
    Branch(Option<Shared<Ty>>),
    /// A distribution that is sampled where the form is.
    Source(Option<Shared<Ty>>),
    /// A function of one variable, with the type that is wanted of its value.
    Function(Domain, Option<Shared<Ty>>),
}

impl Drop for Asked {
    fn drop(self) {
        match self {
            Asked::Form(want) => drop(want),
            Asked::Branch(want) => drop(want),
            Asked::Source(want) => drop(want),
            Asked::Function(domain, want) => {
                drop(domain);
                drop(want);
            }
        }
    }
}

/// An operator with its sides exchanged, or not.
fn turned(backwards: bool, operator: Infix) -> Infix
    ensures { result ≡ turned backwards operator }
{
    Infix {
        op: operator.op,
        operands: operator.operands,
        exchanged: if backwards {
            !operator.exchanged
        } else {
            operator.exchanged
        },
    }
}

/// The place of a divisor that isn't a literal above 0.
fn no_divisor(divisor: &Node) -> Option<Place>
    ensures { result ≡ no_divisor divisor.now }
{
    if is_divisor(divisor) {
        None
    } else {
        Some(place_inside(divisor))
    }
}

/// The rule of an operator, with whether its right side is typed first, and that side.
pub fn rule_for(operator: Operator, backwards: bool, right: &Node) -> Rule
    ensures { result ≡ rule_for operator backwards right.now }
{
    match operator {
        Operator::One(prefix) => Rule::One(prefix),
        Operator::Two(operator) => Rule::Two(turned(backwards, operator)),
        Operator::Quotient => Rule::Quotient(backwards, no_divisor(right)),
        Operator::Member => Rule::Member(backwards),
    }
}

fn of_arity(count: usize, arity: usize, rule: Rule) -> Option<Rule>
    ensures { result ≡ of_arity count arity rule }
{
    if count == arity { Some(rule) } else { None }
}

/// The rule of a built-in operator with so many arguments.
pub fn rule_of(known: Known, count: usize) -> Option<Rule>
    ensures { result ≡ rule_of known count }
{
    match known {
        Known::Some => of_arity(count, 1, Rule::One(Prefix::Some)),
        Known::Oget => of_arity(count, 1, Rule::One(Prefix::Oget)),
        Known::Dunit => of_arity(count, 1, Rule::One(Prefix::Dunit)),
        Known::Mu => of_arity(count, 2, Rule::Drawn(Drawn::Measure)),
        Known::Dmap => of_arity(count, 2, Rule::Drawn(Drawn::Image)),
        Known::Drestrict => of_arity(count, 2, Rule::Drawn(Drawn::Restriction)),
        Known::Mu1 => of_arity(count, 2, Rule::Mass),
        _ => None,
    }
}
