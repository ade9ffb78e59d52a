// What is made of typed parts.

ghost use Rattle.std.specs.Prelude.{◌≡◌, [], ◌∷◌, IfOk, map};
ghost use Rattle.gb_core.specs.declared.refusal.Why.TheVariants.{TypeMismatch};
ghost use Rattle.gb_terms.specs.Make.{applied, node};
ghost use Rattle.gb_goal.specs.Answers.{Answers, given_or, ◌>>=◌ as ◌and_then◌};
ghost use Rattle.gb_goal.specs.Answers.Answer.{given};
ghost use Rattle.gb_names.specs.Wanted.{type_of_term};
ghost use Rattle.gb_operators.specs.Kinds.{entries};
ghost use Rattle.gb_operators.specs.Rules.{annotated_made, branches_made, drawn_made, get_made, in_order, made, mass_made, member, member_made, part_made, part_type, prefix_made, product_made, product_type, quotient_made, set_made, sides_made, sum_made, tuple_made, user_made};

use crate::asked::values;
use crate::drawn::{Drawn, drawn_head, drawn_result, too_large};
use crate::kinds::{component, components, element, entries, is_small, outcome};
use crate::operators::{Infix, Prefix, owned, prefix_operator, prefix_result, result_type};
use crate::rules::Rule;
use gb_core::copy::copy_ty;
use gb_core::name::Name;
use gb_core::place::Place;
use gb_core::refusal::Refused;
use gb_core::same::same_types;
use gb_core::ty::{Ty, Tys};
use gb_core::{Shared, SharedItems};
use gb_goal::scope::OperatorType;
use gb_names::allowed::is_distribution;
use gb_names::refusals::{argument, mismatch, not_built};
use gb_terms::make;
use gb_terms::op::Op;
use gb_terms::term::{Head, Term, Terms};
use sqlite_items::Items;
use std::alloc::{AllocError, Global};

/// The term of this head, these arguments and this type.
fn headed(alloc: Global, head: Head, args: Terms, ty: Shared<Ty>) -> Result<Term, Refused>
    ensures { Answers (given (node head args ty)) result }
{
    Ok(make::term(alloc, head, args, ty)?)
}

/// The term of this head and this type that has no arguments.
pub fn leaf(alloc: Global, head: Head, ty: Shared<Ty>) -> Result<Term, Refused>
    ensures { Answers (given (node head [] ty)) result }
{
    Ok(make::leaf(alloc, head, ty)?)
}

/// An operator at its arguments.
fn applied(alloc: Global, op: Op, args: Terms, ty: Shared<Ty>) -> Result<Term, Refused>
    ensures { Answers (given (applied op args ty)) result }
{
    headed(alloc, Head::Builtin(op), args, ty)
}

/// A form itself.
fn annotated_made(place: Place, typed: &[Term]) -> Result<Term, Refused>
    ensures { Answers (annotated_made place typed.now) result }
{
    match typed {
        [form] => Ok(form.share()?),
        _ => Err(not_built(place)),
    }
}

/// The types of terms.
fn types_of(alloc: Global, terms: &[Term]) -> Result<Tys, AllocError>
    ensures { IfOk result (λ made. made ≡ map type_of_term terms.now) }
{
    let mut all = Items::new(alloc);
    for t in terms {
        let ty = copy_ty(alloc, t.ty.get())?;
        all.push(ty)?;
    }
    Ok(all)
}

/// The type of the tuple of these parts.
fn tuple_type(alloc: Global, parts: &[Term]) -> Result<Shared<Ty>, AllocError>
    ensures { IfOk result (λ made. made ≡ Ty.Tuple (map type_of_term parts.now)) }
{
    let types = SharedItems::new(alloc, types_of(alloc, parts)?)?;
    Shared::new(alloc, Ty::Tuple(types))
}

/// The tuple of its parts.
fn tuple_made(alloc: Global, place: Place, typed: Terms) -> Result<Term, Refused>
    ensures { Answers (tuple_made place typed) result }
{
    values(typed.as_slice(), place)?;
    let ty = tuple_type(alloc, typed.as_slice())?;
    applied(alloc, Op::Tuple, typed, ty)
}

/// The type of a part of a tuple, by its number.
fn part_type(
    alloc: Global,
    tuple: &Ty,
    number: u8,
    digits: Place,
    place: Place,
) -> Result<Shared<Ty>, Refused>
    ensures { Answers (part_type tuple.now number digits place) result }
{
    let Some(parts) = components(tuple) else {
        return Err(mismatch(place));
    };
    match component(parts, number) {
        Some(part) => Ok(owned(alloc, part)?),
        None => Err(argument(digits)),
    }
}

/// A part of a tuple, whose number stands at a place.
fn part_made(
    alloc: Global,
    number: u8,
    digits: Place,
    place: Place,
    typed: Terms,
) -> Result<Term, Refused>
    ensures { Answers (part_made number digits place typed) result }
{
    let ty = match typed.as_slice() {
        [tuple] => part_type(alloc, tuple.ty.get(), number, digits, place)?,
        _ => return Err(not_built(place)),
    };
    applied(alloc, Op::Part(number), typed, ty)
}

/// A test and two branches.
fn branches_made(alloc: Global, place: Place, typed: Terms) -> Result<Term, Refused>
    ensures { Answers (branches_made place typed) result }
{
    let ty = match typed.as_slice() {
        [_, first, _] => first.ty.share()?,
        _ => return Err(not_built(place)),
    };
    applied(alloc, Op::If, typed, ty)
}

/// The type of what a map of this type has at a key.
fn value_type(alloc: Global, map: &Ty, place: Place) -> Result<Shared<Ty>, Refused>
    ensures { Answers (given_or (entries map.now) TypeMismatch place and_then λ e. given (Ty.Opt e.1)) result }
{
    match entries(map) {
        Some((_, value)) => {
            let value = value.share()?;
            Ok(Shared::new(alloc, Ty::Opt(value))?)
        }
        None => Err(mismatch(place)),
    }
}

/// What a map has at a key.
fn get_made(alloc: Global, place: Place, typed: Terms) -> Result<Term, Refused>
    ensures { Answers (get_made place typed) result }
{
    let ty = match typed.as_slice() {
        [map, _] => value_type(alloc, map.ty.get(), place)?,
        _ => return Err(not_built(place)),
    };
    applied(alloc, Op::Get, typed, ty)
}

/// A map with another value at a key.
fn set_made(alloc: Global, place: Place, typed: Terms) -> Result<Term, Refused>
    ensures { Answers (set_made place typed) result }
{
    let ty = match typed.as_slice() {
        [map, _, _] => map.ty.share()?,
        _ => return Err(not_built(place)),
    };
    applied(alloc, Op::Set, typed, ty)
}

/// An operator of one operand.
fn prefix_made(alloc: Global, prefix: Prefix, place: Place, typed: Terms) -> Result<Term, Refused>
    ensures { Answers (prefix_made prefix place typed) result }
{
    let ty = match typed.as_slice() {
        [operand] => prefix_result(alloc, prefix, &operand.ty)?,
        _ => return Err(not_built(place)),
    };
    match ty {
        Some(ty) => applied(alloc, prefix_operator(prefix), typed, ty),
        None => Err(mismatch(place)),
    }
}

/// An operator at two terms in the order of the text, which were typed in the other order where it is backwards.
fn in_order(
    alloc: Global,
    op: Op,
    backwards: bool,
    first: &Term,
    second: &Term,
    ty: Shared<Ty>,
) -> Result<Term, AllocError>
    ensures { IfOk result (λ made. made ≡ applied op (in_order backwards first.now second.now) ty) }
{
    let first = first.share()?;
    let second = second.share()?;
    if backwards {
        make::binary(alloc, op, second, first, ty)
    } else {
        make::binary(alloc, op, first, second, ty)
    }
}

/// An operator of two sides.
fn sides_made(alloc: Global, operator: Infix, place: Place, typed: &[Term]) -> Result<Term, Refused>
    ensures { Answers (sides_made operator place typed.now) result }
{
    match typed {
        [first, second] => {
            let ty = result_type(alloc, operator.operands, &first.ty)?;
            Ok(in_order(alloc, operator.op, operator.exchanged, first, second, ty)?)
        }
        _ => Err(not_built(place)),
    }
}

/// A quotient, unless its divisor is refused at a place.
fn quotient_made(
    alloc: Global,
    backwards: bool,
    refused: &Option<Place>,
    place: Place,
    typed: &[Term],
) -> Result<Term, Refused>
    ensures { Answers (quotient_made backwards refused.now place typed.now) result }
{
    if let Some(divisor) = refused {
        return Err(argument(*divisor));
    }
    match typed {
        [first, second] => {
            let ty = Shared::new(alloc, Ty::Real)?;
            Ok(in_order(alloc, Op::Divide, backwards, first, second, ty)?)
        }
        _ => Err(not_built(place)),
    }
}

/// Whether a map has a key, or a distribution an outcome.
fn member(alloc: Global, element: &Term, of: &Term) -> Result<Term, Refused>
    ensures { Answers (given (member element.now of.now)) result }
{
    let op = if is_distribution(of.ty.get()) {
        Op::InSupport
    } else {
        Op::InMap
    };
    let ty = make::truth_ty(alloc)?;
    Ok(in_order(alloc, op, false, element, of, ty)?)
}

/// `\in`, with whether its right side was typed first.
fn member_made(
    alloc: Global,
    backwards: bool,
    place: Place,
    typed: &[Term],
) -> Result<Term, Refused>
    ensures { Answers (member_made backwards place typed.now) result }
{
    match typed {
        [first, second] => {
            if backwards {
                return member(alloc, second, first);
            }
            match element(second.ty.get()) {
                Some(ty) if same_types(ty.get(), first.ty.get()) => member(alloc, first, second),
                _ => Err(mismatch(place)),
            }
        }
        _ => Err(not_built(place)),
    }
}

/// A form that binds an outcome of a distribution.
fn drawn_made(alloc: Global, drawn: Drawn, place: Place, typed: Terms) -> Result<Term, Refused>
    ensures { Answers (drawn_made drawn place typed) result }
{
    let ty = match typed.as_slice() {
        [source, value] => drawn_result(alloc, drawn, &source.ty, &value.ty)?,
        _ => return Err(not_built(place)),
    };
    match ty {
        Some(ty) => headed(alloc, drawn_head(drawn), typed, ty),
        None => Err(mismatch(place)),
    }
}

/// An operator of the script at all its arguments.
pub fn user_made(
    alloc: Global,
    name: &Name,
    operator: &OperatorType,
    place: Place,
    typed: Terms,
) -> Result<Term, Refused>
    ensures { Answers (user_made name.now operator.now place typed) result }
{
    if typed.len() != operator.params.len() {
        return Err(mismatch(place));
    }
    let name = name.copy(alloc)?;
    let ty = operator.result.share()?;
    headed(alloc, Head::User(name), typed, ty)
}

/// The type of pairs.
fn pair_type(alloc: Global, first: &Ty, second: &Ty) -> Result<Shared<Ty>, AllocError>
    ensures { IfOk result (λ made. made ≡ Ty.Tuple (first.now ∷ second.now ∷ [])) }
{
    let first = copy_ty(alloc, first)?;
    let second = copy_ty(alloc, second)?;
    let types = SharedItems::new(alloc, Items::from_vec(vec![in alloc; first, second]?))?;
    Shared::new(alloc, Ty::Tuple(types))
}

/// The type of a product of distributions of these types, which has at most 65,536 outcomes.
fn product_type(alloc: Global, left: &Ty, right: &Ty, place: Place) -> Result<Shared<Ty>, Refused>
    ensures { Answers (product_type left.now right.now place) result }
{
    let (Some(first), Some(second)) = (outcome(left), outcome(right)) else {
        return Err(mismatch(place));
    };
    let pair = pair_type(alloc, first.get(), second.get())?;
    if is_small(pair.get()) {
        Ok(Shared::new(alloc, Ty::Distr(pair))?)
    } else {
        Err(too_large(place))
    }
}

/// A product of distributions.
fn product_made(alloc: Global, place: Place, typed: Terms) -> Result<Term, Refused>
    ensures { Answers (product_made place typed) result }
{
    let ty = match typed.as_slice() {
        [left, right] => product_type(alloc, left.ty.get(), right.ty.get(), place)?,
        _ => return Err(not_built(place)),
    };
    applied(alloc, Op::Product, typed, ty)
}

/// The weight of a value in a distribution.
fn mass_made(alloc: Global, place: Place, typed: Terms) -> Result<Term, Refused>
    ensures { Answers (mass_made place typed) result }
{
    match typed.as_slice() {
        [_, _] => {}
        _ => return Err(not_built(place)),
    }
    let ty = Shared::new(alloc, Ty::Real)?;
    applied(alloc, Op::Mu1, typed, ty)
}

/// A sum over the numbers below one.
fn sum_made(alloc: Global, below: u32, place: Place, typed: Terms) -> Result<Term, Refused>
    ensures { Answers (sum_made below place typed) result }
{
    match typed.as_slice() {
        [_] => {}
        _ => return Err(not_built(place)),
    }
    let ty = Shared::new(alloc, Ty::Real)?;
    headed(alloc, Head::Sum(u128::from(below)), typed, ty)
}

/// What is made of the typed parts.
///
/// # Errors
///
/// `TypeMismatch` where the parts have types that no operator of this kind takes; `Argument` of a part that a tuple doesn't
/// have, and of a divisor that isn't a literal above 0.
#[tactic(auto, unfolding(crate::specs::Rules::made))]
pub fn made(alloc: Global, rule: &Rule, place: Place, typed: Terms) -> Result<Term, Refused>
    ensures { Answers (made rule.now place typed) result }
{
    match rule {
        Rule::Annotated(_) => annotated_made(place, typed.as_slice()),
        Rule::Tuple(_) => tuple_made(alloc, place, typed),
        Rule::Part(number, digits) => part_made(alloc, *number, *digits, place, typed),
        Rule::If => branches_made(alloc, place, typed),
        Rule::Get => get_made(alloc, place, typed),
        Rule::Set => set_made(alloc, place, typed),
        Rule::One(prefix) => prefix_made(alloc, *prefix, place, typed),
        Rule::Two(operator) => sides_made(alloc, *operator, place, typed.as_slice()),
        Rule::Quotient(backwards, refused) => {
            quotient_made(alloc, *backwards, refused, place, typed.as_slice())
        }
        Rule::Member(backwards) => member_made(alloc, *backwards, place, typed.as_slice()),
        Rule::User(name, operator) => user_made(alloc, name, operator, place, typed),
        Rule::Product => product_made(alloc, place, typed),
        Rule::Drawn(drawn) => drawn_made(alloc, *drawn, place, typed),
        Rule::Mass => mass_made(alloc, place, typed),
        Rule::Sum(below) => sum_made(alloc, *below, place, typed),
    }
}
