// Comparisons of probabilities, as forms.

ghost use Rattle.std.specs.Prelude.{◌≡◌, IfOk};
ghost use Rattle.gb_prog.specs.Compared.{at_most_form, certain_or_not, compared, literal, literal_at, number, whole_at};

use gb_core::Shared;
use gb_core::ty::Ty;
use gb_terms::make::{binary, conjunction, equality, implication, leaf, negation, truth_ty, unary};
use gb_terms::op::{Op, Rel};
use gb_terms::term::{Form, Head, RealTerm, Term};
use std::alloc::{AllocError, Global};

/// `n%r`.
pub fn number(alloc: Global, n: i128) -> Result<RealTerm, AllocError>
    ensures { IfOk result (λ made. made ≡ number n) }
{
    let int = Shared::new(alloc, Ty::Int)?;
    let whole = leaf(alloc, Head::Whole(n), int)?;
    let real = Shared::new(alloc, Ty::Real)?;
    unary(alloc, Op::ToReal, whole, real)
}

/// `a <= b`.
fn at_most_form(alloc: Global, a: RealTerm, b: RealTerm) -> Result<Form, AllocError>
    ensures { IfOk result (λ made. made ≡ at_most_form a b) }
{
    let ty = truth_ty(alloc)?;
    binary(alloc, Op::AtMost, a, b, ty)
}

/// One real stands so to the other.
pub fn compared(alloc: Global, rel: Rel, a: RealTerm, b: RealTerm) -> Result<Form, AllocError>
    ensures { IfOk result (λ made. made ≡ compared rel a b) }
{
    match rel {
        Rel::AtMost => at_most_form(alloc, a, b),
        Rel::Equal => equality(alloc, a, b),
        Rel::AtLeast => at_most_form(alloc, b, a),
    }
}

/// A number stands so to a real.
pub fn number_compared(
    alloc: Global,
    rel: Rel,
    n: i128,
    bound: &RealTerm,
) -> Result<Form, AllocError>
    ensures { IfOk result (λ made. made ≡ compared rel (number n) bound.now) }
{
    let n = number(alloc, n)?;
    let bound = bound.share()?;
    compared(alloc, rel, n, bound)
}

/// Where the event is certain, 1 stands so to the bound, and where it is impossible, 0.
pub fn certain_or_not(
    alloc: Global,
    rel: Rel,
    event: &Form,
    bound: &RealTerm,
) -> Result<Form, AllocError>
    ensures { IfOk result (λ made. made ≡ certain_or_not rel event.now bound.now) }
{
    let one = number_compared(alloc, rel, 1, bound)?;
    let certain = implication(alloc, event.share()?, one)?;
    let zero = number_compared(alloc, rel, 0, bound)?;
    let never = implication(alloc, negation(alloc, event.share()?)?, zero)?;
    conjunction(alloc, certain, never)
}

/// The whole number that a head is.
fn whole_at(head: &Head) -> Option<i128>
    ensures { result ≡ whole_at head.now }
{
    match head {
        Head::Whole(n) => Some(*n),
        _ => None,
    }
}

/// The number that a node is, where it is a literal `n%r`.
fn literal_at(head: &Head, args: &[Term]) -> Option<i128>
    ensures { result ≡ literal_at head.now args.now }
{
    match (head, args) {
        (Head::Builtin(Op::ToReal), [whole]) => whole_at(whole.head.get()),
        _ => None,
    }
}

/// The number that a term is, where it is a literal `n%r`.
pub fn literal(term: &Term) -> Option<i128>
    ensures { result ≡ literal term.now }
{
    literal_at(term.head.get(), term.args.as_slice())
}
