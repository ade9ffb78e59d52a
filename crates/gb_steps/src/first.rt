// The first probability in a term.

ghost use Rattle.std.specs.Prelude.{◌≡◌};
ghost use Rattle.std.specs.Option.{option_map};
ghost use Rattle.gb_steps.specs.First.{first_in, first_of, first_procedure, is_quotient, procedure_at};

use gb_core::Shared;
use gb_terms::module::ProcRef;
use gb_terms::op::Op;
use gb_terms::term::{Head, Term};

/// Whether a head is that of a quotient: behind its first argument stands a divisor.
pub fn is_quotient(head: &Head) -> bool
    ensures { result ≡ is_quotient head.now }
{
    matches!(head, Head::Builtin(Op::Divide))
}

/// The procedure whose probability a term of this head is.
fn procedure_at(head: &Head) -> Option<&Shared<ProcRef>>
    ensures { option_map (λ p. p.now) result ≡ procedure_at head.now }
{
    match head {
        Head::Pr(procedure, _) => Some(procedure),
        _ => None,
    }
}

/// The procedure of the first probability in a term, in the order of the text: one around others comes before them. Divisors aren't gone
/// through, nor are the programs of judgments.
#[cycle(first)]
#[tactic(auto, using(crate::proofs::Among::first_out))]
pub fn first_procedure(term: &Term) -> Option<&Shared<ProcRef>>
    ensures { option_map (λ p. p.now) result ≡ first_procedure term.now }
{
    let head = term.head.get();
    if let Some(procedure) = procedure_at(head) {
        return Some(procedure);
    }
    if is_quotient(head) {
        return first_of(term.args.as_slice());
    }
    first_in(term.args.as_slice())
}

/// The procedure of the first probability in the first one of these terms.
#[cycle(first)]
fn first_of(list: &[Term]) -> Option<&Shared<ProcRef>>
    ensures { option_map (λ p. p.now) result ≡ first_of list.now }
{
    match list {
        [] => None,
        [first, ..] => first_procedure(first),
    }
}

/// The procedure of the first probability in these terms.
#[cycle(first)]
fn first_in(list: &[Term]) -> Option<&Shared<ProcRef>>
    ensures { option_map (λ p. p.now) result ≡ first_in list.now }
{
    for term in list {
        if let Some(procedure) = first_procedure(term) {
            return Some(procedure);
        }
    }
    None
}
