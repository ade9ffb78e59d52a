// Comparisons of probabilities of events, as steps see them.

ghost use Rattle.std.specs.Prelude.{◌≡◌, Some};
ghost use Rattle.std.specs.List.{list_any};
ghost use Rattle.std.specs.Option.{option_map};
ghost use Rattle.gb_terms.specs.declared.term.Head.TheVariants.{Pr};
ghost use Rattle.gb_steps.specs.Chances.{bounded_if, bounded_of, chance_at, chance_of, chances_by, chances_of, compared_of, head_speaks, speaks};
ghost use Rattle.gb_steps.specs.Views.{bounded_seen, chance_seen, compared_seen};

use gb_core::Shared;
use gb_terms::module::ProcRef;
use gb_terms::op::{Op, Read, Rel, Side};
use gb_terms::term::{Form, Head, RealTerm, Term};

/// The probability of an event after a procedure, from these arguments and a memory.
#[derive(Clone, Copy)]
pub struct Chance<'a> {
    pub procedure: &'a Shared<ProcRef>,
    pub arguments: &'a [Term],
    pub memory: Side,
    pub event: &'a Form,
}

/// How a probability stands to a bound.
#[derive(Clone, Copy)]
pub struct Bounded<'a> {
    pub chance: Chance<'a>,
    pub rel: Rel,
    pub bound: &'a RealTerm,
}

/// How two probabilities stand to one another.
#[derive(Clone, Copy)]
pub struct Compared<'a> {
    pub rel: Rel,
    pub left: Chance<'a>,
    pub right: Chance<'a>,
}

/// Whether a head speaks of programs, or of every memory; what it reads in a memory counts where `reads` holds.
fn head_speaks(head: &Head, reads: bool) -> bool
    ensures { result ≡ head_speaks reads head.now }
{
    match head {
        Head::Read(Read::Program { .. }) | Head::Glob(..) => reads,
        Head::AllMemory | Head::SomeMemory => true,
        Head::Pr(..) | Head::Hoare(_) | Head::Phoare(..) | Head::Equiv(..) => true,
        _ => false,
    }
}

/// Whether a term speaks of programs, or of every memory; what it reads in a memory counts where `reads` holds.
#[cycle(speaking)]
#[tactic(auto, using(crate::proofs::Parts::speaks_out))]
fn speaks(term: &Term, reads: bool) -> bool
    ensures { result ≡ speaks reads term.now }
{
    head_speaks(term.head.get(), reads) || any_speaks(term.args.as_slice(), reads)
}

#[cycle(speaking)]
fn any_speaks(list: &[Term], reads: bool) -> bool
    ensures { result ≡ list_any (speaks reads) list.now }
{
    for term in list {
        if speaks(term, reads) {
            return true;
        }
    }
    false
}

/// The probability whose arguments, and last its event, are these. None where an argument speaks of programs, or of every memory.
#[tactic(auto, using(crate::proofs::Parts::with_event, crate::proofs::Parts::no_event))]
fn with_event<'a>(
    procedure: &'a Shared<ProcRef>,
    memory: Side,
    args: &'a [Term],
) -> Option<Chance<'a>>
    ensures { option_map chance_seen result ≡ chance_at (Pr procedure.now memory) args.now }
{
    let (event, arguments) = args.split_last()?;
    if any_speaks(arguments, false) {
        return None;
    }
    Some(Chance {
        procedure,
        arguments,
        memory,
        event,
    })
}

/// The probability that a term is. None where an argument speaks of programs, or of every memory.
pub fn chance_of(term: &Term) -> Option<Chance<'_>>
    ensures { option_map chance_seen result ≡ chance_of term.now }
{
    match term.head.get() {
        Head::Pr(procedure, memory) => with_event(procedure, *memory, term.args.as_slice()),
        _ => None,
    }
}

/// The sides of a comparison `a <= b` or `a = b`, and how they stand.
pub fn compared_of(form: &Form) -> Option<(Rel, &Term, &Term)>
    ensures { option_map (λ z. (z.0, z.1.now, z.2.now)) result ≡ compared_of form.now }
{
    match (form.head.get(), form.args.as_slice()) {
        (Head::Builtin(Op::AtMost), [a, b]) => Some((Rel::AtMost, a, b)),
        (Head::Builtin(Op::Equal), [a, b]) => Some((Rel::Equal, a, b)),
        _ => None,
    }
}

/// A probability beside a bound. None where the bound reads in a memory, or a probability stands in it.
fn bounded_if<'a>(chance: Chance<'a>, rel: Rel, bound: &'a RealTerm) -> Option<Bounded<'a>>
    ensures { option_map bounded_seen result ≡ bounded_if (chance_seen chance.entry) rel bound.now }
{
    if speaks(bound, true) {
        return None;
    }
    Some(Bounded { chance, rel, bound })
}

/// How a form compares a probability with a bound, which reads logical variables alone and has no probability in it: `r <= Pr[..]` is
/// `Pr[..] >= r`.
pub fn bounded_of(form: &Form) -> Option<Bounded<'_>>
    ensures { option_map bounded_seen result ≡ bounded_of form.now }
{
    let (rel, a, b) = compared_of(form)?;
    match (rel, chance_of(a), chance_of(b)) {
        (rel, Some(chance), _) => bounded_if(chance, rel, b),
        (Rel::AtMost, None, Some(chance)) => bounded_if(chance, Rel::AtLeast, a),
        _ => None,
    }
}

/// Two probabilities beside one another. None where an event speaks of programs, or of every memory.
fn related<'a>(rel: Rel, left: Chance<'a>, right: Chance<'a>) -> Option<Compared<'a>>
    ensures { option_map compared_seen result ≡ chances_by rel (Some (chance_seen left.entry)) (Some (chance_seen right.entry)) }
{
    if speaks(left.event, false) || speaks(right.event, false) {
        return None;
    }
    Some(Compared { rel, left, right })
}

/// How a form compares two probabilities. None where an event speaks of programs, or of every memory.
pub fn chances_of(form: &Form) -> Option<Compared<'_>>
    ensures { option_map compared_seen result ≡ chances_of form.now }
{
    let (rel, a, b) = compared_of(form)?;
    match (chance_of(a), chance_of(b)) {
        (Some(left), Some(right)) => related(rel, left, right),
        _ => None,
    }
}
