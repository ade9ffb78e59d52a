// Numerals.

ghost use Rattle.std.specs.Prelude.{◌≡◌, ◌<◌, ◌^◌, []};
ghost use Rattle.std.specs.Option.{option_copied};
ghost use Rattle.gb_core.specs.declared.value.Value.TheVariants.{Num};
ghost use Rattle.gb_terms.specs.declared.term.Head.TheVariants.{Lit};
ghost use Rattle.gb_terms.specs.Make.{node};
ghost use Rattle.gb_goal.specs.Answers.{Answers};
ghost use Rattle.gb_goal.specs.Answers.Answer.{given};
ghost use Rattle.gb_names.specs.Environment.{environment};
ghost use Rattle.gb_operators.specs.Literals.{as_whole, bound_of, dividing, divisor_in, holds, is_divisor, number_in, numbering, numeral, part_number, place_inside, placing, with_divisors, with_numbers, with_places};

use crate::made::leaf;
use crate::operators::owned;
use gb_core::Shared;
use gb_core::name::Name;
use gb_core::place::Place;
use gb_core::refusal::Refused;
use gb_core::size::power;
use gb_core::ty::Ty;
use gb_core::value::Value;
use gb_limits::numbers::number;
use gb_names::allowed::stands;
use gb_names::refusals::{argument, not_built};
use gb_names::setting::Setting;
use gb_script::head::Head as NodeHead;
use gb_script::tree::Node;
use gb_terms::term::{Head, Term};
use std::alloc::Global;

/// Numbers of values are below this one.
const VALUES: u128 = 1 << 63;

/// The greatest number below which a sum counts.
const BOUND: u128 = 65_536;

/// Whether `int[n]` or `bits n` holds a number.
fn holds(n: u128, ty: &Ty) -> bool
    ensures { result ≡ holds n ty.now }
{
    match ty {
        Ty::Mod(modulus) => n < u128::from(*modulus),
        Ty::Bits(count) => n < u128::from(power(2, u64::from(*count))),
        _ => false,
    }
}

/// A whole number of type `int`.
fn as_whole(
    alloc: Global,
    at: &Setting<'_>,
    n: u128,
    want: Option<&Ty>,
    place: Place,
) -> Result<Term, Refused>
    requires { n < 2 ^ 127 }
    ensures { Answers (as_whole (environment at.now) n (option_copied want.entry) place) result }
{
    let ty = Shared::new(alloc, Ty::Int)?;
    stands(at, want, place, ty.get())?;
    leaf(alloc, Head::Whole(n as i128), ty)
}

/// A number of a type that holds it.
fn as_value(alloc: Global, n: u64, ty: &Ty) -> Result<Term, Refused>
    ensures { Answers (given (node (Lit (Num n)) [] ty.now)) result }
{
    let ty = owned(alloc, ty)?;
    leaf(alloc, Head::Lit(Value::Num(n)), ty)
}

/// A numeral: a number of a wanted type that holds it, else a whole number.
///
/// # Errors
///
/// `Argument` of a whole number in a program, `TypeMismatch` where another type is wanted, `Syntax` from 2^127 on, where the
/// readers have refused it.
pub fn numeral(
    alloc: Global,
    at: &Setting<'_>,
    text: &Name,
    want: Option<&Ty>,
    place: Place,
) -> Result<Term, Refused>
    ensures { Answers (numeral (environment at.now) text.now (option_copied want.entry) place) result }
{
    let Ok(n) = number(text.as_str().as_bytes()) else {
        return Err(not_built(place));
    };
    if let Some(ty) = want {
        if n < VALUES && holds(n, ty) {
            return as_value(alloc, n as u64, ty);
        }
    }
    as_whole(alloc, at, n, want, place)
}

/// The number that a numeral is. Brackets may stand round it.
#[cycle(numbers)]
fn number_in(t: &Node) -> Option<u128>
    ensures { result ≡ number_in t.now }
{
    numbering(t.head, &t.text, t.parts.as_slice())
}

/// .. from its head, its text and its parts.
#[cycle(numbers)]
#[tactic(auto, unfolding(crate::specs::Literals::numbering))]
fn numbering(head: NodeHead, text: &Name, parts: &[Node]) -> Option<u128>
    ensures { result ≡ numbering head text.now (with_numbers parts.now) }
{
    match head {
        NodeHead::Number => number(text.as_str().as_bytes()).ok(),
        NodeHead::Bracketed => match parts {
            [inner] => number_in(inner),
            _ => None,
        },
        _ => None,
    }
}

/// The number of a divisor, a numeral as a fraction. Brackets may stand round it.
#[cycle(divisors)]
fn divisor_in(t: &Node) -> Option<u128>
    ensures { result ≡ divisor_in t.now }
{
    dividing(t.head, t.parts.as_slice())
}

/// .. from its head and its parts.
#[cycle(divisors)]
#[tactic(auto, unfolding(crate::specs::Literals::dividing))]
fn dividing(head: NodeHead, parts: &[Node]) -> Option<u128>
    ensures { result ≡ dividing head (with_divisors parts.now) }
{
    match head {
        NodeHead::ToReal => match parts {
            [numeral] => number_in(numeral),
            _ => None,
        },
        NodeHead::Bracketed => match parts {
            [inner] => divisor_in(inner),
            _ => None,
        },
        _ => None,
    }
}

/// Whether a form is a literal above 0, by which a fraction is divided.
pub fn is_divisor(t: &Node) -> bool
    ensures { result ≡ is_divisor t.now }
{
    match divisor_in(t) {
        Some(n) => n > 0,
        None => false,
    }
}

/// The place of a form. Brackets round it are passed over.
#[cycle(places)]
pub fn place_inside(t: &Node) -> Place
    ensures { result ≡ place_inside t.now }
{
    placing(t.head, t.parts.as_slice(), t.place)
}

/// .. from its head, its parts and its place.
#[cycle(places)]
#[tactic(auto, unfolding(crate::specs::Literals::placing))]
fn placing(head: NodeHead, parts: &[Node], place: Place) -> Place
    ensures { result ≡ placing head (with_places parts.now) place }
{
    match head {
        NodeHead::Bracketed => match parts {
            [inner] => place_inside(inner),
            _ => place,
        },
        _ => place,
    }
}

/// The number below which a sum counts, from 1 to 65,536.
pub fn bound_of(t: &Node) -> Result<u32, Refused>
    ensures { Answers (bound_of t.now) result }
{
    match number_in(t) {
        Some(n) if n > 0 && n <= BOUND => Ok(n as u32),
        _ => Err(argument(place_inside(t))),
    }
}

/// The number of a part of a tuple, or 0, which no part has.
pub fn part_number(text: &Name) -> u8
    ensures { result ≡ part_number text.now }
{
    match number(text.as_str().as_bytes()) {
        Ok(n) if n < 256 => n as u8,
        _ => 0,
    }
}
