// How many values variables have together.

ghost use Rattle.std.specs.Prelude.{◌≡◌, ◌≤◌, ◌*◌, ◌^◌, map, min, IfOk};
ghost use Rattle.gb_core.specs.declared.ty.Ty.TheVariants.{Tuple};
ghost use Rattle.gb_core.specs.Numbering.{tuples};
ghost use Rattle.gb_core.specs.Types.{all_true, is_finite, numbering, size_of, card_of};
ghost use Rattle.gb_meaning.specs.Operators.{outcome_type};
ghost use Rattle.gb_equality.specs.Sizes.{of_memory, read_by_only, greater};

use gb_closing::counted::card_at;
use gb_closing::linked::Variable;
use gb_core::size::{MANY, is_finite, size};
use gb_core::ty::Ty;
use gb_core::value::Card;
use gb_labels::reads::{TypedVar, reads};
use gb_terms::term::{Head, Term};
use std::alloc::{AllocError, Global};

/// The product, up to `MANY`.
pub fn times(a: u64, b: u64) -> u64
    requires left { a ≤ 2 ^ 63 }
    requires right { b ≤ 2 ^ 63 }
    ensures { result ≡ min (a * b) (2 ^ 63) }
{
    a.saturating_mul(b).min(MANY)
}

/// The size of the type of the outcomes of a distribution, up to `MANY`.
pub fn size_of_outcomes(ty: &Ty) -> u64
    ensures { result ≡ min (size_of (outcome_type ty.now)) (2 ^ 63) }
{
    match ty {
        Ty::Distr(outcomes) => size(outcomes.get()),
        _ => 1,
    }
}

/// The product of the sizes of the types at which variables are read, up to `MANY`.
fn size_of_reads(variables: &[TypedVar]) -> u64
    ensures { result ≡ min (tuples (map numbering (map (λ x. x.ty) variables.now))) (2 ^ 63) }
{
    let mut all = 1;
    for variable in variables {
        all = times(all, size(variable.ty.get()));
    }
    all
}

/// The product of the sizes of what is read of the memory that a head binds, up to `MANY`.
pub fn bound_size_of_memory(alloc: Global, head: &Head, args: &[Term]) -> Result<u64, AllocError>
    ensures { IfOk result (λ n. n ≡ min (tuples (map numbering (of_memory head.now (read_by_only args.now)))) (2 ^ 63)) }
{
    match head {
        Head::AllMemory | Head::SomeMemory => match args {
            [body] => {
                let variables = reads(alloc, body)?;
                Ok(size_of_reads(variables.as_slice()))
            }
            _ => Ok(1),
        },
        _ => Ok(1),
    }
}

/// The product of the sizes of the types of variables, up to `MANY`.
pub fn size_of_variables(variables: &[Variable]) -> u64
    ensures { result ≡ min (tuples (map numbering (map (λ v. v.ty) variables.now))) (2 ^ 63) }
{
    let mut all = 1;
    for variable in variables {
        all = times(all, size(variable.ty.get()));
    }
    all
}

/// Whether the types of variables have numbers of values of their own.
pub fn are_finite(variables: &[Variable]) -> bool
    ensures { result ≡ all_true (map is_finite (map (λ v. v.ty) variables.now)) }
{
    for variable in variables {
        if !is_finite(variable.ty.get()) {
            return false;
        }
    }
    true
}

/// The number of assignments to variables.
pub fn number_of_values(variables: &[Variable]) -> Card
    ensures { result ≡ card_of (Tuple (map (λ v. v.ty) variables.now)) }
{
    card_at(are_finite(variables), size_of_variables(variables))
}

/// The greater of two widths.
pub fn greater(a: Card, b: Card) -> Card
    ensures { result ≡ greater a b }
{
    match a {
        Card::Exact(m) => match b {
            Card::Exact(n) => Card::Exact(m.max(n)),
            Card::Above => Card::Above,
        },
        Card::Above => Card::Above,
    }
}
