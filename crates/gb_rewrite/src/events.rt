// The laws of events, and what they put in the place of a probability.

ghost use Rattle.std.specs.Prelude.{◌≡◌, ◌<◌, ◌↔◌, [], ◌∷◌, ◌++◌, length, slice_set, IfOk, IsTrue};
ghost use Rattle.std.specs.Option.{option_map};
ghost use Rattle.gb_terms.specs.declared.term.Term.{out-Term};
ghost use Rattle.gb_goal.specs.Goal.Code.{procedure};
ghost use Rattle.gb_full.specs.Loss.{code_loss};
ghost use Rattle.gb_full.specs.Loss.Loss.{nowhere};
ghost use Rattle.gb_typing.specs.Forms.{and_form};
ghost use Rattle.gb_rewrite.specs.Events.{any_by_law, by_first, by_law, chance, divided, either, either_of, first_by_law, is_false, law_at, minus, negated, negation_of, plus, whole_by};

use crate::rewritten::{before, with_args};
use gb_core::Shared;
use gb_core::ty::Ty;
use gb_core::value::Value;
use gb_full::loss::{Loss, subject_loss};
use gb_goal::scope::Scope;
use gb_mods::called::same_procedure;
use gb_prog::compared::number;
use gb_steps::first::is_quotient;
use gb_steps::step::EventLaw;
use gb_terms::make::{binary, boolean, conjunction, negation, term};
use gb_terms::module::ProcRef;
use gb_terms::op::{Op, Side};
use gb_terms::share::share_terms;
use gb_terms::term::{Form, Head, RealTerm, Subject, Term, Terms};
use std::alloc::{AllocError, Global};

/// A procedure that starts in a memory with these arguments.
#[derive(Clone, Copy)]
struct Start<'a> {
    procedure: &'a Shared<ProcRef>,
    memory: Side,
    arguments: &'a [Term],
}

/// Arguments, and an event behind them.
fn with_event(alloc: Global, arguments: &[Term], event: Form) -> Result<Terms, AllocError>
    ensures { IfOk result (λ made. made ≡ arguments.now ++ event ∷ []) }
{
    let mut made = share_terms(alloc, arguments)?;
    made.push(event)?;
    Ok(made)
}

/// The probability of an event.
fn chance(alloc: Global, start: Start<'_>, event: Form) -> Result<RealTerm, AllocError>
    ensures { IfOk result (λ made. made ≡ chance start.entry.procedure.now start.entry.memory start.entry.arguments.now event) }
{
    let args = with_event(alloc, start.arguments, event)?;
    let procedure = start.procedure.share()?;
    let real = Shared::new(alloc, Ty::Real)?;
    term(alloc, Head::Pr(procedure, start.memory), args, real)
}

/// The probability of an event that stands elsewhere too.
fn chance_of(alloc: Global, start: Start<'_>, event: &Form) -> Result<RealTerm, AllocError>
    ensures { IfOk result (λ made. made ≡ chance start.entry.procedure.now start.entry.memory start.entry.arguments.now event.now) }
{
    let event = event.share()?;
    chance(alloc, start, event)
}

/// The probability that two events are.
fn chance_of_both(
    alloc: Global,
    start: Start<'_>,
    a: &Form,
    b: &Form,
) -> Result<RealTerm, AllocError>
    ensures { IfOk result (λ made. made ≡ chance start.entry.procedure.now start.entry.memory start.entry.arguments.now (and_form a.now b.now)) }
{
    let a = a.share()?;
    let b = b.share()?;
    let both = conjunction(alloc, a, b)?;
    chance(alloc, start, both)
}

fn plus(alloc: Global, a: RealTerm, b: RealTerm) -> Result<RealTerm, AllocError>
    ensures { IfOk result (λ made. made ≡ plus a b) }
{
    let real = Shared::new(alloc, Ty::Real)?;
    binary(alloc, Op::Plus, a, b, real)
}

fn minus(alloc: Global, a: RealTerm, b: RealTerm) -> Result<RealTerm, AllocError>
    ensures { IfOk result (λ made. made ≡ minus a b) }
{
    let real = Shared::new(alloc, Ty::Real)?;
    binary(alloc, Op::Minus, a, b, real)
}

/// The events of a disjunction.
fn either_of(event: &Form) -> Option<(&Form, &Form)>
    ensures { option_map (λ p. (p.0.now, p.1.now)) result ≡ either_of event.now }
{
    match (event.head.get(), event.args.as_slice()) {
        (Head::Builtin(Op::Or), [a, b]) => Some((a, b)),
        _ => None,
    }
}

/// The event of a negation.
fn negation_of(event: &Form) -> Option<&Form>
    ensures { option_map (λ p. p.now) result ≡ negation_of event.now }
{
    match (event.head.get(), event.args.as_slice()) {
        (Head::Builtin(Op::Not), [a]) => Some(a),
        _ => None,
    }
}

/// Whether this is the event that never is.
fn is_false(event: &Form) -> bool
    ensures { result ≡ is_false event.now }
{
    matches!(event.head.get(), Head::Lit(Value::Num(0)))
}

/// `Pr[a] + Pr[b] - Pr[a /\ b]`, which is `Pr[a \/ b]`.
fn either(alloc: Global, start: Start<'_>, a: &Form, b: &Form) -> Result<RealTerm, AllocError>
    ensures { IfOk result (λ made. made ≡ either start.entry.procedure.now start.entry.memory start.entry.arguments.now (a.now, b.now)) }
{
    let one = chance_of(alloc, start, a)?;
    let other = chance_of(alloc, start, b)?;
    let sum = plus(alloc, one, other)?;
    let both = chance_of_both(alloc, start, a, b)?;
    minus(alloc, sum, both)
}

/// Whether a procedure loses no weight.
fn loses_nothing(alloc: Global, scope: &Scope, named: &Shared<ProcRef>) -> Result<bool, AllocError>
    ensures { IfOk result (λ b. IsTrue b ↔ (code_loss scope.now (procedure named.now) ≡ nowhere)) }
{
    let subject = Subject::Proc(named.share()?);
    match subject_loss(alloc, scope, &subject)? {
        Loss::Nowhere => Ok(true),
        _ => Ok(false),
    }
}

/// All that a procedure may come to: 1, where it loses no weight.
fn whole(alloc: Global, scope: &Scope, start: Start<'_>) -> Result<RealTerm, AllocError>
    ensures { IfOk result (λ made. made ≡ whole_by (code_loss scope.now (procedure start.entry.procedure.now)) start.entry.procedure.now start.entry.memory start.entry.arguments.now) }
{
    if loses_nothing(alloc, scope, start.procedure)? {
        return number(alloc, 1);
    }
    let always = boolean(alloc, true)?;
    chance(alloc, start, always)
}

/// What `Pr[event]` leaves of all that a procedure may come to, which is `Pr[!event]`.
fn negated(
    alloc: Global,
    scope: &Scope,
    start: Start<'_>,
    event: &Form,
) -> Result<RealTerm, AllocError>
    ensures { IfOk result (λ made. made ≡ negated scope.now start.entry.procedure.now start.entry.memory start.entry.arguments.now event.now) }
{
    let whole = whole(alloc, scope, start)?;
    let part = chance_of(alloc, start, event)?;
    minus(alloc, whole, part)
}

/// `Pr[a /\ b] + Pr[a /\ !b]`, which is `Pr[a]`.
fn divided(alloc: Global, start: Start<'_>, a: &Form, b: &Form) -> Result<RealTerm, AllocError>
    ensures { IfOk result (λ made. made ≡ divided start.entry.procedure.now start.entry.memory start.entry.arguments.now a.now b.now) }
{
    let other = b.share()?;
    let other = negation(alloc, other)?;
    let without = chance_of_both(alloc, start, a, &other)?;
    let with = chance_of_both(alloc, start, a, b)?;
    plus(alloc, with, without)
}

/// What a law puts in the place of a probability. None where it doesn't speak of it.
fn by_law(
    alloc: Global,
    scope: &Scope,
    law: &EventLaw,
    start: Start<'_>,
    event: &Form,
) -> Result<Option<RealTerm>, AllocError>
    ensures { IfOk result (λ made. made ≡ by_law scope.now law.now start.entry.procedure.now start.entry.memory start.entry.arguments.now event.now) }
{
    let made = match law {
        EventLaw::Or => match either_of(event) {
            Some((a, b)) => either(alloc, start, a, b)?,
            None => return Ok(None),
        },
        EventLaw::Not => match negation_of(event) {
            Some(other) => negated(alloc, scope, start, other)?,
            None => return Ok(None),
        },
        EventLaw::False => {
            if !is_false(event) {
                return Ok(None);
            }
            number(alloc, 0)?
        }
        EventLaw::Split(procedure, other) => {
            if !same_procedure(procedure.get(), start.procedure.get()) {
                return Ok(None);
            }
            divided(alloc, start, event, other)?
        }
    };
    Ok(Some(made))
}

/// What a law puts in the place of a term. None where the term is no probability of which it speaks.
#[tactic(auto, using(crate::proofs::Layered::law_behind))]
fn law_at(
    alloc: Global,
    scope: &Scope,
    law: &EventLaw,
    t: &Term,
) -> Result<Option<RealTerm>, AllocError>
    ensures { IfOk result (λ made. made ≡ law_at scope.now law.now (out-Term t.now).head (out-Term t.now).args) }
{
    let Head::Pr(procedure, memory) = t.head.get() else {
        return Ok(None);
    };
    let Some((event, arguments)) = t.args.as_slice().split_last() else {
        return Ok(None);
    };
    let start = Start {
        procedure,
        memory: *memory,
        arguments,
    };
    by_law(alloc, scope, law, start, event)
}

/// Terms with another one at a place.
fn with_part(alloc: Global, list: &[Term], at: usize, part: Term) -> Result<Terms, AllocError>
    requires { at < length list.now }
    ensures { IfOk result (λ made. made ≡ slice_set list.now at part) }
{
    let mut made = share_terms(alloc, list)?;
    made.set(at, part);
    Ok(made)
}

/// A term with what a law puts in the place of the first probability that it speaks of, in the order of the text: one around others comes
/// before them. None where it speaks of none. Divisors aren't gone through, nor are the programs of judgments.
#[cycle(by_first)]
#[tactic(auto, using(crate::proofs::Layered::by_first_out))]
pub fn by_first(
    alloc: Global,
    scope: &Scope,
    law: &EventLaw,
    t: &Term,
) -> Result<Option<Term>, AllocError>
    ensures { IfOk result (λ made. made ≡ by_first scope.now law.now t.now) }
{
    if let Some(made) = law_at(alloc, scope, law, t)? {
        return Ok(Some(made));
    }
    let args = if is_quotient(t.head.get()) {
        first_by_law(alloc, scope, law, t.args.as_slice())?
    } else {
        any_by_law(alloc, scope, law, t.args.as_slice())?
    };
    let Some(args) = args else {
        return Ok(None);
    };
    let made = with_args(alloc, t, args)?;
    Ok(Some(made))
}

#[cycle(by_first)]
fn first_by_law(
    alloc: Global,
    scope: &Scope,
    law: &EventLaw,
    list: &[Term],
) -> Result<Option<Terms>, AllocError>
    ensures { IfOk result (λ made. made ≡ first_by_law scope.now law.now list.now) }
{
    let [first, others @ ..] = list else {
        return Ok(None);
    };
    let Some(made) = by_first(alloc, scope, law, first)? else {
        return Ok(None);
    };
    let args = before(alloc, made, others)?;
    Ok(Some(args))
}

#[cycle(by_first)]
#[tactic(auto, using(crate::proofs::Layered::passing_none))]
fn any_by_law(
    alloc: Global,
    scope: &Scope,
    law: &EventLaw,
    list: &[Term],
) -> Result<Option<Terms>, AllocError>
    ensures { IfOk result (λ made. made ≡ any_by_law scope.now law.now list.now) }
{
    for at in 0..list.len() {
        if let Some(part) = by_first(alloc, scope, law, &list[at])? {
            let made = with_part(alloc, list, at, part)?;
            return Ok(Some(made));
        }
    }
    Ok(None)
}
