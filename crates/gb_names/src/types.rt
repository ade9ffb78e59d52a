// Types, and the type that a form is wanted to have.

ghost use Rattle.std.specs.Prelude.{◌≡◌, ◌≤◌, IfOk, Some, None, take, codes, bytes_eq, if◌then◌else◌};
ghost use Rattle.std.specs.Option.{option_copied};
ghost use Rattle.gb_terms.specs.declared.term.Term.{Term};
ghost use Rattle.gb_goal.specs.Answers.{Answer, Answers, ◌>>=◌ as ◌and_then◌};
ghost use Rattle.gb_names.specs.Names.{path};
ghost use Rattle.gb_names.specs.Wanted.{fits, wanted};
ghost use Rattle.gb_names.specs.Types.{all_spelled, bits_type, bracketed_type, declared_type, int_type, map_type, number_type, number_typing, option_type, plain_type, spelled, spelling, tuple_type, type_of, type_or_number, up_to, with_number_types, with_spellings};

use crate::globals::no_declared;
use crate::names::path;
use crate::refusals::{argument, mismatch, not_built};
use gb_core::copy::copy_ty;
use gb_core::name::Name;
use gb_core::place::Place;
use gb_core::refusal::Refused;
use gb_core::same::same_types;
use gb_core::ty::{Ty, Tys};
use gb_core::{Shared, SharedItems};
use gb_goal::scope::Scope;
use gb_limits::numbers::number;
use gb_script::head::Head;
use gb_script::tree::Node;
use gb_terms::term::Term;
use sqlite_items::Items;
use std::alloc::{AllocError, Global};

/// The most bits of a string.
const BITS: u32 = 16;

/// The greatest modulus.
const MODULUS: u32 = 65_536;

/// The most parts of a tuple.
const PARTS: usize = 8;

/// The type of a word.
fn plain_type(word: &Name, place: Place) -> Result<Ty, Refused>
    ensures { Answers (plain_type word.now place) result }
{
    let text = word.as_str();
    if text == "unit" {
        Ok(Ty::Unit)
    } else if text == "bool" {
        Ok(Ty::Bool)
    } else {
        Err(mismatch(place))
    }
}

/// A number from 1 to a bound.
fn up_to(most: u32, digits: &Node) -> Result<u32, Refused>
    ensures answer { Answers (up_to most digits.now) result }
    ensures bounded { IfOk result (λ n. n ≤ most) }
{
    match number(digits.text.as_str().as_bytes()) {
        Ok(n) if n > 0 && n <= u128::from(most) => Ok(n as u32),
        _ => Err(argument(digits.place)),
    }
}

/// Bit strings.
fn bits_type(parts: &[Node], place: Place) -> Result<Ty, Refused>
    ensures { Answers (bits_type (with_spellings parts.now) place) result }
{
    match parts {
        [count] => Ok(Ty::Bits(up_to(BITS, count)? as u8)),
        _ => Err(not_built(place)),
    }
}

/// Integers, which have a modulus.
fn int_type(parts: &[Node], place: Place) -> Result<Ty, Refused>
    ensures { Answers (int_type (with_spellings parts.now) place) result }
{
    match parts {
        [] => Err(mismatch(place)),
        [modulus] => Ok(Ty::Mod(up_to(MODULUS, modulus)?)),
        _ => Err(not_built(place)),
    }
}

/// The type that a type of a script spells, for several owners.
#[cycle(types)]
fn shared(alloc: Global, scope: &Scope, t: &Node, place: Place) -> Result<Shared<Ty>, Refused>
    ensures { Answers (spelled t.now scope.now place) result }
{
    let ty = spelled(alloc, scope, t, place)?;
    Ok(Shared::new(alloc, ty)?)
}

/// A type in brackets.
#[cycle(types)]
fn bracketed_type(alloc: Global, scope: &Scope, parts: &[Node], place: Place) -> Result<Ty, Refused>
    ensures { Answers (bracketed_type (with_spellings parts.now) scope.now place) result }
{
    match parts {
        [inner] => spelled(alloc, scope, inner, place),
        _ => Err(not_built(place)),
    }
}

/// Options.
#[cycle(types)]
fn option_type(alloc: Global, scope: &Scope, parts: &[Node], place: Place) -> Result<Ty, Refused>
    ensures { Answers (option_type (with_spellings parts.now) scope.now place) result }
{
    match parts {
        [inner] => Ok(Ty::Opt(shared(alloc, scope, inner, place)?)),
        _ => Err(not_built(place)),
    }
}

/// Finite maps.
#[cycle(types)]
fn map_type(alloc: Global, scope: &Scope, parts: &[Node], place: Place) -> Result<Ty, Refused>
    ensures { Answers (map_type (with_spellings parts.now) scope.now place) result }
{
    match parts {
        [key, value] => {
            let key = shared(alloc, scope, key, place)?;
            let value = shared(alloc, scope, value, place)?;
            Ok(Ty::Map(key, value))
        }
        _ => Err(not_built(place)),
    }
}

/// The types of the parts that a tuple may have, from left to right.
#[cycle(types)]
fn first_parts(alloc: Global, scope: &Scope, parts: &[Node], place: Place) -> Result<Tys, Refused>
    ensures { Answers (all_spelled (take 8 (with_spellings parts.now)) scope.now place) result }
{
    let mut types = Items::new(alloc);
    for i in 0..parts.len().min(PARTS) {
        let ty = spelled(alloc, scope, &parts[i], place)?;
        types.push(ty)?;
    }
    Ok(types)
}

/// Tuples.
#[cycle(types)]
fn tuple_type(alloc: Global, scope: &Scope, parts: &[Node], place: Place) -> Result<Ty, Refused>
    ensures { Answers (tuple_type (with_spellings parts.now) scope.now place) result }
{
    let types = first_parts(alloc, scope, parts, place)?;
    match parts.get(PARTS) {
        Some(extra) => Err(argument(extra.place)),
        None => Ok(Ty::Tuple(SharedItems::new(alloc, types)?)),
    }
}

/// The type that a name stands for, where the name stands at a place.
fn declared_type(alloc: Global, scope: &Scope, name: &Name, own: Place) -> Result<Ty, Refused>
    ensures { Answers (declared_type scope.now name.now own) result }
{
    match scope.type_named(alloc, name)? {
        Some(ty) => Ok(copy_ty(alloc, ty.get())?),
        None => Err(no_declared(alloc, None, scope, name, own)),
    }
}

/// The type that a type of a script spells, where the whole type that is written stands at this place.
#[cycle(types)]
fn spelled(alloc: Global, scope: &Scope, t: &Node, place: Place) -> Result<Ty, Refused>
    ensures { Answers (spelled t.now scope.now place) result }
{
    spelling(
        alloc,
        scope,
        t.head,
        &t.text,
        t.parts.as_slice(),
        t.place,
        place,
    )
}

/// .. from its head, its text, its parts and its own place.
#[cycle(types)]
fn spelling(
    alloc: Global,
    scope: &Scope,
    head: Head,
    text: &Name,
    parts: &[Node],
    own: Place,
    place: Place,
) -> Result<Ty, Refused>
    ensures { Answers (spelling head text.now (with_spellings parts.now) own scope.now place) result }
{
    match head {
        Head::PlainType => plain_type(text, place),
        Head::BitsType => bits_type(parts, place),
        Head::IntType => int_type(parts, place),
        Head::BracketedType => bracketed_type(alloc, scope, parts, place),
        Head::OptionType => option_type(alloc, scope, parts, place),
        Head::MapType => map_type(alloc, scope, parts, place),
        Head::ProductType => tuple_type(alloc, scope, parts, place),
        Head::Name => declared_type(alloc, scope, text, own),
        Head::Path => path_type(alloc, scope, parts, own),
        _ => Err(not_built(place)),
    }
}

/// The type that a path stands for.
fn path_type(alloc: Global, scope: &Scope, words: &[Node], own: Place) -> Result<Ty, Refused>
    ensures { Answers (declared_type scope.now (path words.now) own) result }
{
    let name = path(alloc, words)?;
    declared_type(alloc, scope, &name, own)
}

/// The type that a type of a script spells.
///
/// # Errors
///
/// `UnknownName` and `Argument` of a name that stands for no type, `Argument` of a number that no type has, and of the ninth part of a
/// tuple; `TypeMismatch` of a type that holds `int` or `real`, which stand in formulas alone; `Syntax` of a type that isn't built.
pub fn type_of(alloc: Global, scope: &Scope, t: &Node) -> Result<Shared<Ty>, Refused>
    ensures { Answers (type_of scope.now t.now) result }
{
    shared(alloc, scope, t, t.place)
}

/// Where a type is `int` or `real` itself, that one. Brackets may stand round it.
#[cycle(number_type)]
fn number_type(t: &Node) -> Option<Ty>
    ensures { result ≡ number_type t.now }
{
    number_typing(t.head, &t.text, t.parts.as_slice())
}

/// .. from its head, its text and its parts.
#[cycle(number_type)]
#[tactic(auto, unfolding(crate::specs::Types::number_typing))]
fn number_typing(head: Head, text: &Name, parts: &[Node]) -> Option<Ty>
    ensures { result ≡ number_typing head text.now (with_number_types parts.now) }
{
    match head {
        Head::PlainType => real(text),
        Head::IntType => match parts {
            [] => Some(Ty::Int),
            _ => None,
        },
        Head::BracketedType => match parts {
            [inner] => number_type(inner),
            _ => None,
        },
        _ => None,
    }
}

/// The type `real`, by its word.
fn real(text: &Name) -> Option<Ty>
    ensures { result ≡ (if bytes_eq text.now (codes "real") then Some Ty.Real else None) }
{
    if text.as_str() == "real" {
        Some(Ty::Real)
    } else {
        None
    }
}

/// The type that a type of a script spells where `int` and `real` may stand too.
///
/// # Errors
///
/// Those of `type_of` of other types.
pub fn type_or_number(alloc: Global, scope: &Scope, t: &Node) -> Result<Shared<Ty>, Refused>
    ensures { Answers (type_or_number scope.now t.now) result }
{
    match number_type(t) {
        Some(ty) => Ok(Shared::new(alloc, ty)?),
        None => type_of(alloc, scope, t),
    }
}

/// Whether a form of this type may stand where a type is wanted, or none.
pub fn fits(ty: &Ty, want: Option<&Ty>) -> bool
    ensures { result ≡ fits (option_copied want.entry) ty.now }
{
    match want {
        None => true,
        Some(wanted) => same_types(ty, wanted),
    }
}

/// The term that was answered itself, refused where another type is wanted.
pub fn wanted(
    answer: Result<Term, Refused>,
    want: Option<&Ty>,
    place: Place,
) -> Result<Term, Refused>
    ensures { (a : Answer Term) → Answers a answer → Answers (a and_then wanted (option_copied want.entry) place) result }
{
    let t = answer?;
    if fits(t.ty.get(), want) {
        Ok(t)
    } else {
        Err(mismatch(place))
    }
}
