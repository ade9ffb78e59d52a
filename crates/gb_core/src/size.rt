// How many values a type has.

ghost use Rattle.std.specs.Prelude.{◌≡◌, ◌^◌, ◌*◌, ◌≤◌, min, map};
ghost use Rattle.gb_core.specs.Numbering.{tuples};
ghost use Rattle.gb_core.specs.Types.{all_true, is_finite, size_of, numbering};

use crate::ty::Ty;

/// Sizes from here on are not told apart.
pub const MANY: u64 = 1 << 63;

/// Whether a type has a number of values of its own: it holds no whole numbers, reals, distributions, values of an
/// abstract type or globals of an abstract module.
#[cycle(finite)]
pub fn is_finite(ty: &Ty) -> bool
    ensures { result ≡ is_finite ty.now }
{
    match ty {
        Ty::Unit | Ty::Bool | Ty::Bits(_) | Ty::Mod(_) | Ty::Enumeration { .. } => true,
        Ty::Tuple(parts) => all_finite(parts.as_slice()),
        Ty::Opt(inner) => is_finite(inner.get()),
        Ty::Map(key, value) => is_finite(key.get()) && is_finite(value.get()),
        Ty::Abstract(_) | Ty::Glob(_) | Ty::Distr(_) | Ty::Int | Ty::Real => false,
    }
}

#[cycle(finite)]
#[tactic(auto, using(std::proofs::lemmas::List::at_drop_more))]
fn all_finite(parts: &[Ty]) -> bool
    ensures { result ≡ all_true (map is_finite parts.now) }
{
    for part in parts {
        if !is_finite(part) {
            return false;
        }
    }
    true
}

/// The product, up to `MANY`.
fn times(a: u64, b: u64) -> u64
    requires left { a ≤ 2 ^ 63 }
    requires right { b ≤ 2 ^ 63 }
    ensures { result ≡ min (a * b) (2 ^ 63) }
{
    a.saturating_mul(b).min(MANY)
}

/// The power, up to `MANY`.
pub fn power(base: u64, exponent: u64) -> u64
    requires base { base ≤ 2 ^ 63 }
    ensures { result ≡ min (base ^ exponent) (2 ^ 63) }
{
    let mut all = 1;
    for turn in 0..exponent.min(63) {
        all = times(all, base);
    }
    all
}

/// The number of values of a type, up to `MANY`; 0 where a type has no number of its own.
#[cycle(size)]
pub fn size(ty: &Ty) -> u64
    ensures { result ≡ min (size_of ty.now) (2 ^ 63) }
{
    match ty {
        Ty::Unit => 1,
        Ty::Bool => 2,
        Ty::Bits(n) => power(2, u64::from(*n)),
        Ty::Mod(n) => u64::from(*n),
        Ty::Enumeration { size, .. } => u64::from(*size),
        Ty::Tuple(parts) => size_of_tuple(parts.as_slice()),
        Ty::Opt(inner) => (size(inner.get()) + 1).min(MANY),
        Ty::Map(key, value) => power((size(value.get()) + 1).min(MANY), size(key.get())),
        Ty::Abstract(_) | Ty::Glob(_) | Ty::Distr(_) | Ty::Int | Ty::Real => 0,
    }
}

/// The number of tuples, up to `MANY`.
#[cycle(size)]
pub fn size_of_tuple(parts: &[Ty]) -> u64
    ensures { result ≡ min (tuples (map numbering parts.now)) (2 ^ 63) }
{
    let mut all = 1;
    for part in parts {
        all = times(all, size(part));
    }
    all
}
