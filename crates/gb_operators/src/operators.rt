// The operators of forms: which types they take, what is wanted of their operands, and what they give.

ghost use Rattle.std.specs.Prelude.{◌≡◌, IfOk};
ghost use Rattle.std.specs.Option.{option_copied};
ghost use Rattle.gb_goal.specs.Answers.{Answers};
ghost use Rattle.gb_goal.specs.Answers.Answer.{given};
ghost use Rattle.gb_names.specs.Allowed.{stands};
ghost use Rattle.gb_names.specs.Environment.{environment};
ghost use Rattle.gb_operators.specs.Kinds.{inside_option, outcome};
ghost use Rattle.gb_operators.specs.Operators.{comparison, exchanged, first_wanted, joining, operand_wanted, operator_of, option_wanted, part_wanted, prefix_operator, prefix_result, result_type, shaped, takes};

use crate::kinds::{
    inside_option, is_arithmetic, is_of_bits, is_of_numbers, is_of_values, is_ordered, is_signed,
    outcome,
};
use gb_core::Shared;
use gb_core::copy::copy_ty;
use gb_core::name::Name;
use gb_core::place::Place;
use gb_core::refusal::Refused;
use gb_core::ty::Ty;
use gb_names::allowed::{distribution_here, is_distribution, is_program, stands, truth};
use gb_names::refusals::{argument, mismatch};
use gb_names::setting::Setting;
use gb_script::head::Head;
use gb_terms::op::Op;
use std::alloc::{AllocError, Global};

/// What an operator of two sides takes.
#[derive(Clone, Copy)]
pub enum Operands {
    /// Truths, of which it makes one.
    Truths,
    /// Any one type but distributions, as an equation.
    Alike,
    /// What is in order, as a comparison.
    Ordered,
    /// What can be counted with.
    Numbers,
    /// Truth values and texts of bits.
    Bits,
}

/// An operator of two sides of one type.
#[derive(Clone, Copy)]
pub struct Infix {
    pub op: Op,
    pub operands: Operands,
    /// Whether the sides are exchanged in the tree.
    pub exchanged: bool,
}

/// An operator of one operand.
#[derive(Clone, Copy)]
pub enum Prefix {
    Not,
    Negate,
    ToReal,
    Absolute,
    Some,
    Oget,
    Dunit,
}

/// An operator of a form.
#[derive(Clone, Copy)]
pub enum Operator {
    Two(Infix),
    One(Prefix),
    Quotient,
    /// `\in`, of a map or of a distribution.
    Member,
}

fn joining(op: Op, operands: Operands) -> Option<Operator>
    ensures { result ≡ joining op operands }
{
    Some(Operator::Two(Infix {
        op,
        operands,
        exchanged: false,
    }))
}

fn exchanged(op: Op, operands: Operands) -> Option<Operator>
    ensures { result ≡ exchanged op operands }
{
    Some(Operator::Two(Infix {
        op,
        operands,
        exchanged: true,
    }))
}

/// The operator of a comparison.
fn comparison(text: &Name) -> Option<Operator>
    ensures { result ≡ comparison text.now }
{
    match text.as_str() {
        "=" => joining(Op::Equal, Operands::Alike),
        "<>" => joining(Op::NotEqual, Operands::Alike),
        "<" => joining(Op::Less, Operands::Ordered),
        "<=" => joining(Op::AtMost, Operands::Ordered),
        ">" => exchanged(Op::Less, Operands::Ordered),
        ">=" => exchanged(Op::AtMost, Operands::Ordered),
        "\\in" => Some(Operator::Member),
        _ => None,
    }
}

/// The operator that a form of this head and this text is made by.
#[tactic(auto, unfolding(crate::specs::Operators::operator_of))]
pub fn operator_of(head: Head, text: &Name) -> Option<Operator>
    ensures { result ≡ operator_of head text.now }
{
    match head {
        Head::Not => Some(Operator::One(Prefix::Not)),
        Head::Negative => Some(Operator::One(Prefix::Negate)),
        Head::ToReal => Some(Operator::One(Prefix::ToReal)),
        Head::Absolute => Some(Operator::One(Prefix::Absolute)),
        Head::And => joining(Op::And, Operands::Truths),
        Head::Or => joining(Op::Or, Operands::Truths),
        Head::Implies => joining(Op::Implies, Operands::Truths),
        Head::Iff => joining(Op::Iff, Operands::Truths),
        Head::Sum => joining(Op::Plus, Operands::Numbers),
        Head::Difference => joining(Op::Minus, Operands::Numbers),
        Head::Product => joining(Op::Times, Operands::Numbers),
        Head::Xor => joining(Op::Xor, Operands::Bits),
        Head::Quotient => Some(Operator::Quotient),
        Head::Compared => comparison(text),
        _ => None,
    }
}

/// Refuses an operator of two sides where its shape tells that another type is wanted.
pub fn shaped(operands: Operands, want: Option<&Ty>, place: Place) -> Result<(), Refused>
    ensures { Answers (shaped operands (option_copied want.entry) place) result }
{
    match operands {
        Operands::Truths | Operands::Alike | Operands::Ordered => truth(want, place),
        Operands::Numbers | Operands::Bits => Ok(()),
    }
}

/// The type that is wanted of the side that is typed first.
pub fn first_wanted(
    alloc: Global,
    operands: Operands,
    want: Option<&Ty>,
) -> Result<Option<Shared<Ty>>, Refused>
    ensures { Answers (given (first_wanted operands (option_copied want.entry))) result }
{
    match operands {
        Operands::Truths => wanted_type(alloc, Some(&Ty::Bool)),
        Operands::Alike | Operands::Ordered => Ok(None),
        Operands::Numbers | Operands::Bits => wanted_type(alloc, want),
    }
}

/// Whether sides may have this type.
pub fn takes(operands: Operands, ty: &Ty) -> bool
    ensures { result ≡ takes operands ty.now }
{
    match operands {
        Operands::Alike => !is_distribution(ty),
        Operands::Ordered => is_ordered(ty),
        Operands::Numbers => is_arithmetic(ty),
        Operands::Bits => is_of_bits(ty),
        Operands::Truths => true,
    }
}

/// The type of what an operator gives of sides of this type.
pub fn result_type(
    alloc: Global,
    operands: Operands,
    ty: &Shared<Ty>,
) -> Result<Shared<Ty>, AllocError>
    ensures { IfOk result (λ made. made ≡ result_type operands ty.now) }
{
    match operands {
        Operands::Numbers | Operands::Bits => ty.share(),
        Operands::Truths | Operands::Alike | Operands::Ordered => Shared::new(alloc, Ty::Bool),
    }
}

/// Refuses a fraction where none may stand, and one where another type is wanted.
pub fn fraction(at: &Setting<'_>, want: Option<&Ty>, place: Place) -> Result<(), Refused>
    ensures { Answers (stands (environment at.now) (option_copied want.entry) place Ty.Real) result }
{
    stands(at, want, place, &Ty::Real)
}

/// What is wanted of the inside of an option.
fn some_wanted(want: Option<&Ty>, place: Place) -> Result<Option<Shared<Ty>>, Refused>
    ensures { Answers (part_wanted inside_option (option_copied want.entry) place) result }
{
    match want {
        None => Ok(None),
        Some(ty) => match inside_option(ty) {
            Some(inner) => Ok(Some(inner.share()?)),
            None => Err(mismatch(place)),
        },
    }
}

/// What is wanted of the outcomes of a distribution.
pub fn outcome_wanted(want: Option<&Ty>, place: Place) -> Result<Option<Shared<Ty>>, Refused>
    ensures { Answers (part_wanted outcome (option_copied want.entry) place) result }
{
    match want {
        None => Ok(None),
        Some(ty) => match outcome(ty) {
            Some(inner) => Ok(Some(inner.share()?)),
            None => Err(mismatch(place)),
        },
    }
}

/// The type of options of a type of values, where one is wanted.
fn option_wanted(
    alloc: Global,
    want: Option<&Ty>,
    place: Place,
) -> Result<Option<Shared<Ty>>, Refused>
    ensures { Answers (option_wanted (option_copied want.entry) place) result }
{
    let Some(ty) = want else {
        return Ok(None);
    };
    if !is_of_values(ty) {
        return Err(mismatch(place));
    }
    let inner = owned(alloc, ty)?;
    Ok(Some(Shared::new(alloc, Ty::Opt(inner))?))
}

/// The type that is wanted of an operand, where the form may stand.
pub fn operand_wanted(
    alloc: Global,
    prefix: Prefix,
    at: &Setting<'_>,
    want: Option<&Ty>,
    place: Place,
) -> Result<Option<Shared<Ty>>, Refused>
    ensures { Answers (operand_wanted prefix (environment at.now) (option_copied want.entry) place) result }
{
    match prefix {
        Prefix::Not => {
            truth(want, place)?;
            wanted_type(alloc, Some(&Ty::Bool))
        }
        Prefix::Negate => {
            if is_program(at.language) {
                Err(argument(place))
            } else {
                wanted_type(alloc, want)
            }
        }
        Prefix::ToReal => {
            fraction(at, want, place)?;
            Ok(None)
        }
        Prefix::Absolute => {
            fraction(at, want, place)?;
            wanted_type(alloc, Some(&Ty::Real))
        }
        Prefix::Some => some_wanted(want, place),
        Prefix::Oget => option_wanted(alloc, want, place),
        Prefix::Dunit => {
            distribution_here(at, place)?;
            outcome_wanted(want, place)
        }
    }
}

/// A copy of a type, with an owner of its own.
pub fn owned(alloc: Global, ty: &Ty) -> Result<Shared<Ty>, AllocError>
    ensures { IfOk result (λ made. made ≡ ty.now) }
{
    let ty = copy_ty(alloc, ty)?;
    Shared::new(alloc, ty)
}

/// A wanted type itself.
pub fn wanted_type(alloc: Global, want: Option<&Ty>) -> Result<Option<Shared<Ty>>, Refused>
    ensures { Answers (given (option_copied want.entry)) result }
{
    match want {
        None => Ok(None),
        Some(ty) => Ok(Some(owned(alloc, ty)?)),
    }
}

/// The type of what an operator gives of an operand of this type, if it takes one of it.
pub fn prefix_result(
    alloc: Global,
    prefix: Prefix,
    ty: &Shared<Ty>,
) -> Result<Option<Shared<Ty>>, AllocError>
    ensures { IfOk result (λ made. made ≡ prefix_result prefix ty.now) }
{
    let made = match prefix {
        Prefix::Not => Ty::Bool,
        Prefix::ToReal if is_of_numbers(ty.get()) => Ty::Real,
        Prefix::Absolute => Ty::Real,
        Prefix::Negate if is_signed(ty.get()) => return Ok(Some(ty.share()?)),
        Prefix::Some if is_of_values(ty.get()) => Ty::Opt(ty.share()?),
        Prefix::Dunit if is_of_values(ty.get()) => Ty::Distr(ty.share()?),
        Prefix::Oget => return inside(ty.get()),
        _ => return Ok(None),
    };
    Ok(Some(Shared::new(alloc, made)?))
}

/// The type of the values of an option.
fn inside(ty: &Ty) -> Result<Option<Shared<Ty>>, AllocError>
    ensures { IfOk result (λ made. made ≡ inside_option ty.now) }
{
    match inside_option(ty) {
        Some(inner) => Ok(Some(inner.share()?)),
        None => Ok(None),
    }
}

/// An operator of one operand as trees have it.
pub fn prefix_operator(prefix: Prefix) -> Op
    ensures { result ≡ prefix_operator prefix }
{
    match prefix {
        Prefix::Not => Op::Not,
        Prefix::Negate => Op::Negate,
        Prefix::ToReal => Op::ToReal,
        Prefix::Absolute => Op::Abs,
        Prefix::Some => Op::Some,
        Prefix::Oget => Op::Oget,
        Prefix::Dunit => Op::Dunit,
    }
}
