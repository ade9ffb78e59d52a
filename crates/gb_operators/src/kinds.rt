// What operators ask of types.

ghost use Rattle.std.specs.Prelude.{◌≡◌};
ghost use Rattle.std.specs.Option.{option_copied, option_map};
ghost use Rattle.gb_operators.specs.Kinds.{component, components, element, entries, inside_option, is_arithmetic, is_of_bits, is_of_numbers, is_of_values, is_ordered, is_signed, is_small, outcome};

use gb_core::Shared;
use gb_core::size::{is_finite, size};
use gb_core::ty::Ty;

/// The most values of a type that has a uniform distribution.
const VALUES: u64 = 65_536;

/// Whether values of this type are in order by number.
pub fn is_ordered(ty: &Ty) -> bool
    ensures { result ≡ is_ordered ty.now }
{
    match ty {
        Ty::Mod(_) | Ty::Bits(_) | Ty::Int | Ty::Real => true,
        _ => false,
    }
}

/// Whether there are sums and products of this type.
pub fn is_arithmetic(ty: &Ty) -> bool
    ensures { result ≡ is_arithmetic ty.now }
{
    match ty {
        Ty::Mod(n) => *n > 0,
        Ty::Int | Ty::Real => true,
        _ => false,
    }
}

/// Whether values of this type have signs.
pub fn is_signed(ty: &Ty) -> bool
    ensures { result ≡ is_signed ty.now }
{
    match ty {
        Ty::Int | Ty::Real => true,
        _ => false,
    }
}

/// Whether exclusive or combines values of this type.
pub fn is_of_bits(ty: &Ty) -> bool
    ensures { result ≡ is_of_bits ty.now }
{
    match ty {
        Ty::Bool | Ty::Bits(_) => true,
        _ => false,
    }
}

/// Whether values of this type are fractions too.
pub fn is_of_numbers(ty: &Ty) -> bool
    ensures { result ≡ is_of_numbers ty.now }
{
    match ty {
        Ty::Mod(_) | Ty::Int => true,
        _ => false,
    }
}

/// Whether a type is one of values: no whole numbers, no fractions and no distributions.
pub fn is_of_values(ty: &Ty) -> bool
    ensures { result ≡ is_of_values ty.now }
{
    match ty {
        Ty::Int | Ty::Real | Ty::Distr(_) => false,
        _ => true,
    }
}

/// Whether a type has a uniform distribution.
pub fn is_small(ty: &Ty) -> bool
    ensures { result ≡ is_small ty.now }
{
    is_finite(ty) && size(ty) <= VALUES
}

/// The type of the values of an option.
pub fn inside_option(ty: &Ty) -> Option<&Shared<Ty>>
    ensures { option_copied result ≡ inside_option ty.now }
{
    match ty {
        Ty::Opt(inner) => Some(inner),
        _ => None,
    }
}

/// The type of the outcomes of a distribution.
pub fn outcome(ty: &Ty) -> Option<&Shared<Ty>>
    ensures { option_copied result ≡ outcome ty.now }
{
    match ty {
        Ty::Distr(inner) => Some(inner),
        _ => None,
    }
}

/// The types of the keys and of the values of a map.
pub fn entries(ty: &Ty) -> Option<(&Shared<Ty>, &Shared<Ty>)>
    ensures { option_map (λ e. (e.0.now, e.1.now)) result ≡ entries ty.now }
{
    match ty {
        Ty::Map(key, value) => Some((key, value)),
        _ => None,
    }
}

/// The types of the parts of a tuple.
pub fn components(ty: &Ty) -> Option<&[Ty]>
    ensures { option_copied result ≡ components ty.now }
{
    match ty {
        Ty::Tuple(parts) => Some(parts.as_slice()),
        _ => None,
    }
}

/// The part of a tuple's type by its number, counted from 1.
pub fn component(parts: &[Ty], number: u8) -> Option<&Ty>
    ensures { option_copied result ≡ component parts.now number }
{
    if number == 0 {
        None
    } else {
        parts.get(usize::from(number - 1))
    }
}

/// The type of the keys of a map, or of the outcomes of a distribution.
pub fn element(ty: &Ty) -> Option<&Shared<Ty>>
    ensures { option_copied result ≡ element ty.now }
{
    match ty {
        Ty::Map(key, _) => Some(key),
        Ty::Distr(inner) => Some(inner),
        _ => None,
    }
}
