// Typing of forms, from left to right.

ghost use Rattle.std.specs.Prelude.{◌≡◌, ◌≤◌, [], ◌∷◌, drop, length, Some, ◌-◌, slice_get};
ghost use Rattle.std.specs.Option.{option_copied};
ghost use Rattle.gb_script.specs.Tree.{head_of, text_of, parts_of, place_of};
ghost use Rattle.gb_goal.specs.Seen.{typed as seen_type};
ghost use Rattle.gb_goal.specs.Answers.{Answers, Gives, ◌>>=◌ as ◌and_then◌};
ghost use Rattle.gb_core.specs.declared.refusal.Why.TheVariants.{TypeMismatch};
ghost use Rattle.gb_goal.specs.Answers.Answer.{given, refused};
ghost use Rattle.gb_names.specs.Allowed.{judgment};
ghost use Rattle.gb_elab.specs.Globs.{both_whole};
ghost use Rattle.gb_elab.specs.OneProcedure.{after_one, around, before_one, lossless, with_chance};
ghost use Rattle.gb_elab.specs.Probability.{before_call, chance};
ghost use Rattle.gb_names.specs.Environment.{ambient, environment};
ghost use Rattle.gb_names.specs.Names.{constant_at, memory_at, operator_at, path};
ghost use Rattle.gb_operators.specs.Rules.{asked};
ghost use Rattle.gb_names.specs.Judgments.{after, before, equivalent};
ghost use Rattle.gb_elab.specs.Forms.{annotated, applied, applied_form, application, arguments, arguments_of, bounded, bracketed, bracketed_function, by_rule, call, comparing, contract, contract_of, declared, elaborated, equivalence, hoare, from_right, function, function_of, function_typing, last_arguments, listed, meant, only, operand, operands, operation, operator_alone, plain_function, probability, projection, quantified, read, simple, summed, typed_function, typing, under, user_call, value_of, with_meanings, with_side};

use crate::contract::{Contract, always, lossless, relation, with_chance};
use crate::equalities::equalities;
use crate::globs::{bare_glob, both_whole, whole_alone, whole_equation};
use crate::probability::{chance, chance_here};
use gb_core::Shared;
use gb_core::name::Name;
use gb_core::place::Place;
use gb_core::refusal::Refused;
use gb_core::ty::Ty;
use gb_goal::scope::{OperatorType, Scope};
use gb_goal::sequent::Sequent;
use gb_names::allowed::{coin, formula, judgment, stands};
use gb_names::binders::{Quantifier, bound_by, over_all, quantifier_of};
use gb_names::bindings::{Binding, Bindings, within};
use gb_names::judgment::{Both, Named, both_procedures, called, equiv, one_procedure, result_of};
use gb_names::memories::memory_at;
use gb_names::names::{Known, beside, constant_at, known_at, named, operator_at, path, unit};
use gb_names::refusals::{argument, mismatch, not_built};
use gb_names::setting::{Memories, Setting};
use gb_names::types::{type_or_number, wanted};
use gb_operators::asked::asked;
use gb_operators::constants::{constant, literal};
use gb_operators::domain::{Domain, type_in, written_as};
use gb_operators::drawn::uniform;
use gb_operators::literals::{bound_of, numeral, part_number};
use gb_operators::made::{made, user_made};
use gb_operators::open::right_first;
use gb_operators::operators::{Operator, operator_of};
use gb_operators::rules::{Asked, Rule, rule_for, rule_of};
use gb_script::head::Head;
use gb_script::tree::Node;
use gb_terms::decl::TypedName;
use gb_terms::op::Rel;
use gb_terms::term::{Form, RealTerm, Term, Terms};
use gb_weights::weights::weights;
use sqlite_items::Items;
use std::alloc::Global;

/// The typed tree of a form of a proof step that reads no program variable, in the context of a sequent.
///
/// # Errors
///
/// As `typed`.
pub fn term(
    alloc: Global,
    scope: &Scope,
    s: &Sequent,
    t: &Node,
    want: Option<&Ty>,
) -> Result<Term, Refused>
    ensures { Answers (elaborated t.now (ambient scope.now s.now) [] (option_copied want.entry)) result }
{
    typed(alloc, &Setting::ambient(scope, s), &[], t, want)
}

/// The typed tree of a form under binders, the innermost of which comes first. The form has the wanted type, or any
/// type where none is wanted. The place of a refusal is the first token of what is refused; where a form has a type by
/// its shape alone, that is tested before its parts.
///
/// # Errors
///
/// `Syntax` of a form that isn't built, `UnknownName`, `Argument` of a part that may not stand there, `TypeMismatch`,
/// and `TooMany` of binders.
#[cycle(form)]
pub fn typed(
    alloc: Global,
    at: &Setting<'_>,
    bound: &[Binding],
    t: &Node,
    want: Option<&Ty>,
) -> Result<Term, Refused>
    ensures { Answers (elaborated t.now (environment at.now) bound.now (option_copied want.entry)) result }
{
    typing(
        alloc,
        at,
        bound,
        t.head,
        &t.text,
        t.parts.as_slice(),
        t.place,
        want,
    )
}

/// .. from its head, its text, its parts and its place.
#[cycle(form)]
fn typing(
    alloc: Global,
    at: &Setting<'_>,
    bound: &[Binding],
    head: Head,
    text: &Name,
    parts: &[Node],
    place: Place,
    want: Option<&Ty>,
) -> Result<Term, Refused>
    ensures { Answers (typing head text.now (with_meanings parts.now) place (environment at.now) bound.now (option_copied want.entry)) result }
{
    match head {
        Head::Name => simple(alloc, at, bound, text, want, place),
        Head::Path => at_path(alloc, at, bound, parts, want, place),
        Head::Number => numeral(alloc, at, text, want, place),
        Head::Unit => wanted(unit(alloc), want, place),
        Head::Bracketed => bracketed(alloc, at, bound, parts, place, want),
        Head::Sided => with_side(alloc, at, bound, parts, place, want),
        Head::Coin => coin(alloc, at, want, place),
        Head::Function | Head::TypedFunction => Err(mismatch(place)),
        Head::Typed => annotated(alloc, at, bound, parts, place, want),
        Head::Tuple => by_rule(
            alloc,
            at,
            bound,
            Rule::Tuple(parts.len()),
            parts,
            place,
            want,
        ),
        Head::Component => projection(alloc, at, bound, parts, place, want),
        Head::Conditional | Head::Chosen => by_rule(alloc, at, bound, Rule::If, parts, place, want),
        Head::Get => by_rule(alloc, at, bound, Rule::Get, parts, place, want),
        Head::Set => by_rule(alloc, at, bound, Rule::Set, parts, place, want),
        Head::PowerProduct => by_rule(alloc, at, bound, Rule::Product, parts, place, want),
        Head::Uniform => uniform(alloc, at, parts, want, place),
        Head::Weights => weights(alloc, at, bound, parts, want, place),
        Head::Apply => applied_form(alloc, at, bound, parts, place, want),
        Head::Equalities => equalities(alloc, at, bound, parts, want, place),
        Head::Glob => {
            let whole = whole_alone(alloc, at, bound, bare_glob(parts, None, place), place);
            wanted(whole, want, place)
        }
        Head::Compared => compared(alloc, at, bound, text, parts, place, want),
        Head::Quantified => quantified(alloc, at, bound, text, parts, place, want),
        Head::Equiv => equivalence(alloc, at, bound, parts, place, want),
        Head::Hoare => hoare(alloc, at, bound, parts, place, want),
        Head::Phoare => without_bound(at, place, want),
        Head::Bounded => bounded(alloc, at, bound, text, parts, place, want),
        Head::Lossless => lossless(alloc, at, bound, parts, place, want),
        Head::Probability => probability(alloc, at, bound, parts, place, want),
        _ => operation(
            alloc,
            at,
            bound,
            operator_of(head, text),
            parts,
            place,
            want,
        ),
    }
}

/// The meaning of a name without a side: of a built-in one where nothing else has it.
fn simple(
    alloc: Global,
    at: &Setting<'_>,
    bound: &[Binding],
    name: &Name,
    want: Option<&Ty>,
    place: Place,
) -> Result<Term, Refused>
    ensures { Answers (simple name.now place (environment at.now) bound.now (option_copied want.entry)) result }
{
    match known_at(at, bound, name) {
        Some(known) => constant(alloc, known, want, place),
        None => declared(alloc, at, bound, name, want, place),
    }
}

/// The meaning of a name of the script without arguments, or of a variable.
fn declared(
    alloc: Global,
    at: &Setting<'_>,
    bound: &[Binding],
    name: &Name,
    want: Option<&Ty>,
    place: Place,
) -> Result<Term, Refused>
    ensures { Answers (declared (constant_at (environment at.now) bound.now name.now) (operator_at (environment at.now) bound.now name.now) name.now place (environment at.now) bound.now (option_copied want.entry)) result }
{
    if let Some(constant) = constant_at(at, bound, name) {
        return wanted(literal(alloc, constant), want, place);
    }
    match operator_at(at, bound, name)? {
        Some(operator) => operator_alone(alloc, at, name, &operator, want, place),
        None => wanted(named(alloc, at, bound, name, place), want, place),
    }
}

/// An operator of the script without arguments.
fn operator_alone(
    alloc: Global,
    at: &Setting<'_>,
    name: &Name,
    operator: &OperatorType,
    want: Option<&Ty>,
    place: Place,
) -> Result<Term, Refused>
    ensures { Answers (operator_alone name.now operator.now place (environment at.now) (option_copied want.entry)) result }
{
    stands(at, want, place, operator.result.get())?;
    user_made(alloc, name, operator, place, Items::new(alloc))
}

/// The meaning of a path without a side.
fn at_path(
    alloc: Global,
    at: &Setting<'_>,
    bound: &[Binding],
    words: &[Node],
    want: Option<&Ty>,
    place: Place,
) -> Result<Term, Refused>
    ensures { Answers (simple (path words.now) place (environment at.now) bound.now (option_copied want.entry)) result }
{
    let name = path(alloc, words)?;
    simple(alloc, at, bound, &name, want, place)
}

/// The typed tree of a form with a side, which is of a name, or of all globals of an abstract module; those of another module stand in
/// equations alone.
fn read(
    alloc: Global,
    at: &Setting<'_>,
    bound: &[Binding],
    t: &Node,
    side: &Node,
) -> Result<Term, Refused>
    ensures { Answers (read (environment at.now) bound.now (head_of t.now) (text_of t.now) (parts_of t.now) (place_of t.now) side.now) result }
{
    match t.head {
        Head::Name => beside(alloc, at, bound, &t.text, side, t.place),
        Head::Path => {
            let name = path(alloc, t.parts.as_slice())?;
            beside(alloc, at, bound, &name, side, t.place)
        }
        Head::Glob => {
            let read = bare_glob(t.parts.as_slice(), Some(side), t.place);
            whole_alone(alloc, at, bound, read, t.place)
        }
        _ => Err(argument(t.place)),
    }
}

/// A form with a side.
fn with_side(
    alloc: Global,
    at: &Setting<'_>,
    bound: &[Binding],
    parts: &[Node],
    place: Place,
    want: Option<&Ty>,
) -> Result<Term, Refused>
    ensures { Answers (with_side parts.now place (environment at.now) bound.now (option_copied want.entry)) result }
{
    match parts {
        [operand, side] => wanted(read(alloc, at, bound, operand, side), want, place),
        _ => Err(not_built(place)),
    }
}

/// A form in brackets, which pass the wanted type on.
#[cycle(form)]
fn bracketed(
    alloc: Global,
    at: &Setting<'_>,
    bound: &[Binding],
    parts: &[Node],
    place: Place,
    want: Option<&Ty>,
) -> Result<Term, Refused>
    ensures { Answers (bracketed (with_meanings parts.now) place (environment at.now) bound.now (option_copied want.entry)) result }
{
    match parts {
        [inner] => typed(alloc, at, bound, inner, want),
        _ => Err(not_built(place)),
    }
}

/// A part as it is asked for.
#[cycle(form)]
fn operand(
    alloc: Global,
    at: &Setting<'_>,
    bound: &[Binding],
    asked: &Asked,
    part: &Node,
) -> Result<Term, Refused>
    ensures { Answers (operand asked.now (part.now, meant part.now) (environment at.now) bound.now) result }
{
    match asked {
        Asked::Form(want) => typed(alloc, &at.valued(), bound, part, inside(want)),
        Asked::Branch(want) => typed(alloc, at, bound, part, inside(want)),
        Asked::Source(want) => typed(alloc, &at.sampled(), bound, part, inside(want)),
        Asked::Function(domain, want) => {
            function_of(alloc, &at.valued(), bound, part, domain, inside(want))
        }
    }
}

/// What a shared type holds, where there is one.
fn inside(ty: &Option<Shared<Ty>>) -> Option<&Ty>
    ensures { option_copied result ≡ ty.now }
{
    match ty {
        Some(ty) => Some(ty.get()),
        None => None,
    }
}

/// The next part, typed as its rule asks.
#[cycle(form)]
fn next(
    alloc: Global,
    at: &Setting<'_>,
    bound: &[Binding],
    rule: &Rule,
    part: &Node,
    place: Place,
    want: Option<&Ty>,
    done: &[Term],
) -> Result<Term, Refused>
    ensures { Answers (asked rule.now (environment at.now) (option_copied want.entry) place (place_of part.now) done.now and_then λ k. operand k (part.now, meant part.now) (environment at.now) bound.now) result }
{
    let asked = asked(alloc, rule, at, want, place, part.place, done)?;
    operand(alloc, at, bound, &asked, part)
}

/// A form that a rule makes of its parts, which are typed from left to right.
#[cycle(form)]
#[tactic(auto, unfolding(crate::specs::Forms::operands))]
fn by_rule(
    alloc: Global,
    at: &Setting<'_>,
    bound: &[Binding],
    rule: Rule,
    parts: &[Node],
    place: Place,
    want: Option<&Ty>,
) -> Result<Term, Refused>
    ensures { Answers (by_rule rule (with_meanings parts.now) place (environment at.now) bound.now (option_copied want.entry)) result }
{
    let mut done = Items::new(alloc);
    for part in parts {
        done.push(next(alloc, at, bound, &rule, part, place, want, done.as_slice())?)?;
    }
    wanted(made(alloc, &rule, place, done), want, place)
}

/// .. of one part.
#[cycle(form)]
#[tactic(auto, unfolding(crate::specs::Forms::operands))]
fn of_one(
    alloc: Global,
    at: &Setting<'_>,
    bound: &[Binding],
    rule: Rule,
    part: &Node,
    place: Place,
    want: Option<&Ty>,
) -> Result<Term, Refused>
    ensures { Answers (by_rule rule ((part.now, meant part.now) ∷ []) place (environment at.now) bound.now (option_copied want.entry)) result }
{
    let mut done = Items::new(alloc);
    let form = next(alloc, at, bound, &rule, part, place, want, &[])?;
    done.push(form)?;
    wanted(made(alloc, &rule, place, done), want, place)
}

/// .. of two parts, which are typed from right to left.
#[cycle(form)]
#[tactic(auto, unfolding(crate::specs::Forms::operands))]
fn from_right(
    alloc: Global,
    at: &Setting<'_>,
    bound: &[Binding],
    rule: Rule,
    parts: &[Node],
    place: Place,
    want: Option<&Ty>,
) -> Result<Term, Refused>
    ensures { Answers (from_right rule (with_meanings parts.now) place (environment at.now) bound.now (option_copied want.entry)) result }
{
    match parts {
        [left, right] => {
            let mut done = Items::new(alloc);
            let first = next(alloc, at, bound, &rule, right, place, want, &[])?;
            done.push(first)?;
            let second = next(alloc, at, bound, &rule, left, place, want, done.as_slice())?;
            done.push(second)?;
            wanted(made(alloc, &rule, place, done), want, place)
        }
        _ => Err(not_built(place)),
    }
}

/// A form that an operator makes. An open left side takes the type of the right one, where that isn't open.
#[cycle(form)]
fn operation(
    alloc: Global,
    at: &Setting<'_>,
    bound: &[Binding],
    operator: Option<Operator>,
    parts: &[Node],
    place: Place,
    want: Option<&Ty>,
) -> Result<Term, Refused>
    ensures { Answers (operation operator (with_meanings parts.now) place (environment at.now) bound.now (option_copied want.entry)) result }
{
    let Some(operator) = operator else {
        return Err(not_built(place));
    };
    match parts {
        [a] => by_rule(
            alloc,
            at,
            bound,
            rule_for(operator, false, a),
            parts,
            place,
            want,
        ),
        [a, b] => {
            let backwards = right_first(a, b);
            let rule = rule_for(operator, backwards, b);
            if backwards {
                from_right(alloc, at, bound, rule, parts, place, want)
            } else {
                by_rule(alloc, at, bound, rule, parts, place, want)
            }
        }
        _ => Err(not_built(place)),
    }
}

/// A comparison, which may be an equation of all globals of a module in two memories.
#[cycle(form)]
fn compared(
    alloc: Global,
    at: &Setting<'_>,
    bound: &[Binding],
    sign: &Name,
    parts: &[Node],
    place: Place,
    want: Option<&Ty>,
) -> Result<Term, Refused>
    ensures { Answers (comparing (both_whole sign.now parts.now) sign.now (with_meanings parts.now) place (environment at.now) bound.now (option_copied want.entry)) result }
{
    match both_whole(sign, parts) {
        Some((left, right)) => whole_equation(alloc, at, bound, want, place, &left, &right),
        None => {
            let operator = operator_of(Head::Compared, sign);
            operation(alloc, at, bound, operator, parts, place, want)
        }
    }
}

/// A form with the type that the text gives it.
#[cycle(form)]
fn annotated(
    alloc: Global,
    at: &Setting<'_>,
    bound: &[Binding],
    parts: &[Node],
    place: Place,
    want: Option<&Ty>,
) -> Result<Term, Refused>
    ensures { Answers (annotated (with_meanings parts.now) place (environment at.now) bound.now (option_copied want.entry)) result }
{
    match parts {
        [form, written] => {
            let rule = Rule::Annotated(type_or_number(alloc, at.scope, written)?);
            of_one(alloc, at, bound, rule, form, place, want)
        }
        _ => Err(not_built(place)),
    }
}

/// A part of a tuple, by its number.
#[cycle(form)]
fn projection(
    alloc: Global,
    at: &Setting<'_>,
    bound: &[Binding],
    parts: &[Node],
    place: Place,
    want: Option<&Ty>,
) -> Result<Term, Refused>
    ensures { Answers (projection (with_meanings parts.now) place (environment at.now) bound.now (option_copied want.entry)) result }
{
    match parts {
        [tuple, digits] => {
            let rule = Rule::Part(part_number(&digits.text), digits.place);
            of_one(alloc, at, bound, rule, tuple, place, want)
        }
        _ => Err(not_built(place)),
    }
}

/// A sum over the numbers below one.
#[cycle(form)]
fn summed(
    alloc: Global,
    at: &Setting<'_>,
    bound: &[Binding],
    parts: &[Node],
    place: Place,
    want: Option<&Ty>,
) -> Result<Term, Refused>
    ensures { Answers (summed (with_meanings parts.now) place (environment at.now) bound.now (option_copied want.entry)) result }
{
    match parts {
        [below, summand] => {
            stands(at, want, place, &Ty::Real)?;
            let rule = Rule::Sum(bound_of(below)?);
            of_one(alloc, at, bound, rule, summand, place, want)
        }
        _ => Err(mismatch(place)),
    }
}

/// A built-in operator at its arguments.
#[cycle(form)]
fn call(
    alloc: Global,
    at: &Setting<'_>,
    bound: &[Binding],
    known: Known,
    parts: &[Node],
    place: Place,
    want: Option<&Ty>,
) -> Result<Term, Refused>
    ensures { Answers (call known (with_meanings parts.now) place (environment at.now) bound.now (option_copied want.entry)) result }
{
    match known {
        Known::Sum => summed(alloc, at, bound, parts, place, want),
        _ => match rule_of(known, parts.len()) {
            Some(rule) => by_rule(alloc, at, bound, rule, parts, place, want),
            None => Err(mismatch(place)),
        },
    }
}

/// A name at arguments, which is that of an operator.
#[cycle(form)]
fn applied(
    alloc: Global,
    at: &Setting<'_>,
    bound: &[Binding],
    name: &Name,
    parts: &[Node],
    place: Place,
    want: Option<&Ty>,
) -> Result<Term, Refused>
    ensures { Answers (applied name.now (with_meanings parts.now) place (environment at.now) bound.now (option_copied want.entry)) result }
{
    match known_at(at, bound, name) {
        Some(known) => call(alloc, at, bound, known, parts, place, want),
        None => user_call(alloc, at, bound, name, parts, place, want),
    }
}

/// An operator of the script at its arguments.
#[cycle(form)]
fn user_call(
    alloc: Global,
    at: &Setting<'_>,
    bound: &[Binding],
    name: &Name,
    parts: &[Node],
    place: Place,
    want: Option<&Ty>,
) -> Result<Term, Refused>
    ensures { Answers (user_call (operator_at (environment at.now) bound.now name.now) name.now (with_meanings parts.now) place (environment at.now) bound.now (option_copied want.entry)) result }
{
    let Some(operator) = operator_at(at, bound, name)? else {
        simple(alloc, at, bound, name, None, place)?;
        return Err(mismatch(place));
    };
    stands(at, want, place, operator.result.get())?;
    if parts.len() != operator.params.len() {
        return Err(mismatch(place));
    }
    let name = name.copy(alloc)?;
    by_rule(
        alloc,
        at,
        bound,
        Rule::User(name, operator),
        parts,
        place,
        want,
    )
}

/// A name with the arguments behind it.
#[cycle(form)]
#[tactic(auto, using(crate::proofs::Applied::none_behind))]
fn with_arguments(
    alloc: Global,
    at: &Setting<'_>,
    bound: &[Binding],
    name: &Name,
    parts: &[Node],
    place: Place,
    want: Option<&Ty>,
) -> Result<Term, Refused>
    ensures { Answers (applied name.now (with_meanings (drop 1 parts.now)) place (environment at.now) bound.now (option_copied want.entry)) result }
{
    match parts {
        [_, arguments @ ..] => applied(alloc, at, bound, name, arguments, place, want),
        [] => applied(alloc, at, bound, name, parts, place, want),
    }
}

/// A form at arguments, which is a name.
#[cycle(form)]
fn applied_form(
    alloc: Global,
    at: &Setting<'_>,
    bound: &[Binding],
    parts: &[Node],
    place: Place,
    want: Option<&Ty>,
) -> Result<Term, Refused>
    ensures { Answers (applied_form (with_meanings parts.now) place (environment at.now) bound.now (option_copied want.entry)) result }
{
    match parts {
        [operator, ..] => match operator.head {
            Head::Name => with_arguments(alloc, at, bound, &operator.text, parts, place, want),
            Head::Path => {
                let name = path(alloc, operator.parts.as_slice())?;
                with_arguments(alloc, at, bound, &name, parts, place, want)
            }
            _ => Err(mismatch(place)),
        },
        [] => Err(not_built(place)),
    }
}

/// A quantified form, which no program expression is.
#[cycle(form)]
fn quantified(
    alloc: Global,
    at: &Setting<'_>,
    bound: &[Binding],
    text: &Name,
    parts: &[Node],
    place: Place,
    want: Option<&Ty>,
) -> Result<Form, Refused>
    ensures { Answers (quantified text.now (with_meanings parts.now) place (environment at.now) bound.now (option_copied want.entry)) result }
{
    match parts {
        [binds, body] => {
            let quantifier = quantifier_of(text, place)?;
            formula(at, want, place)?;
            let bindings = bound_by(alloc, at, binds.parts.as_slice())?;
            over_body(alloc, at, bound, quantifier, bindings, body)
        }
        _ => Err(not_built(place)),
    }
}

/// The quantifiers over these things, which are bound in the body.
#[cycle(form)]
fn over_body(
    alloc: Global,
    at: &Setting<'_>,
    bound: &[Binding],
    quantifier: Quantifier,
    bindings: Bindings,
    body: &Node,
) -> Result<Form, Refused>
    ensures { Answers (under quantifier bindings bound.now (elaborated body.now (environment at.now))) result }
{
    let count = bindings.len();
    let inner = within(alloc, bindings, bound)?;
    let body = typed(alloc, at, inner.as_slice(), body, Some(&Ty::Bool))?;
    Ok(over_all(alloc, quantifier, &inner.as_slice()[..count], body)?)
}

/// An equivalence of two procedures.
#[cycle(form)]
fn equivalence(
    alloc: Global,
    at: &Setting<'_>,
    bound: &[Binding],
    parts: &[Node],
    place: Place,
    want: Option<&Ty>,
) -> Result<Form, Refused>
    ensures { Answers (equivalence (with_meanings parts.now) place (environment at.now) bound.now (option_copied want.entry)) result }
{
    match parts {
        [f, g, pre, post] => {
            judgment(at, want, place)?;
            let both = both_procedures(alloc, at, bound, f, g, place)?;
            let pre = precondition(alloc, at, bound, pre, &both)?;
            with_postcondition(alloc, at, bound, post, &both, pre)
        }
        _ => Err(not_built(place)),
    }
}

/// The precondition of an equivalence of two procedures, which reads their parameters.
#[cycle(form)]
fn precondition(
    alloc: Global,
    at: &Setting<'_>,
    bound: &[Binding],
    pre: &Node,
    both: &Both<'_>,
) -> Result<Form, Refused>
    ensures { Answers (elaborated pre.now (before (environment at.now) (seen_type both.now.left.ty) (seen_type both.now.right.ty)) bound.now (Some Ty.Bool)) result }
{
    let left = both.left.ty.params;
    let right = both.right.ty.params;
    let before = Setting::relational(at.scope, at.sequent, left, right).reading(
        at.memories.in_judgments(),
    );
    typed(alloc, &before, bound, pre, Some(&Ty::Bool))
}

/// The postcondition of an equivalence of two procedures, which reads their results.
#[cycle(form)]
fn postcondition(
    alloc: Global,
    at: &Setting<'_>,
    bound: &[Binding],
    post: &Node,
    both: &Both<'_>,
) -> Result<Form, Refused>
    ensures { Answers (elaborated post.now (after (environment at.now) (seen_type both.now.left.ty) (seen_type both.now.right.ty)) bound.now (Some Ty.Bool)) result }
{
    let left = result_of(alloc, both.left.ty)?;
    let right = result_of(alloc, both.right.ty)?;
    let after = Setting::relational(
        at.scope,
        at.sequent,
        left.as_slice(),
        right.as_slice(),
    ).reading(at.memories.in_judgments());
    typed(alloc, &after, bound, post, Some(&Ty::Bool))
}

/// An equivalence of two procedures with its postcondition.
#[cycle(form)]
fn with_postcondition(
    alloc: Global,
    at: &Setting<'_>,
    bound: &[Binding],
    post: &Node,
    both: &Both<'_>,
    pre: Form,
) -> Result<Form, Refused>
    ensures { Answers (elaborated post.now (after (environment at.now) (seen_type both.now.left.ty) (seen_type both.now.right.ty)) bound.now (Some Ty.Bool) and_then λ post. given (equivalent both.now.left.reference both.now.right.reference pre post)) result }
{
    let post = postcondition(alloc, at, bound, post, both)?;
    Ok(equiv(alloc, both, pre, post)?)
}

/// A judgment of one procedure that needs no bound.
#[cycle(form)]
fn hoare(
    alloc: Global,
    at: &Setting<'_>,
    bound: &[Binding],
    parts: &[Node],
    place: Place,
    want: Option<&Ty>,
) -> Result<Form, Refused>
    ensures { Answers (hoare (with_meanings parts.now) place (environment at.now) bound.now (option_copied want.entry)) result }
{
    judgment(at, want, place)?;
    let contract = contract(alloc, at, bound, parts, place)?;
    Ok(always(alloc, contract)?)
}

/// Refuses a judgment without the bound that it needs.
fn without_bound(at: &Setting<'_>, place: Place, want: Option<&Ty>) -> Result<Form, Refused>
    ensures { Answers (judgment (environment at.now) (option_copied want.entry) place and_then λ _. refused TypeMismatch place) result }
{
    judgment(at, want, place)?;
    Err(mismatch(place))
}

/// A judgment of one procedure with its bound, which reads logical variables alone.
#[cycle(form)]
fn bounded(
    alloc: Global,
    at: &Setting<'_>,
    bound: &[Binding],
    sign: &Name,
    parts: &[Node],
    place: Place,
    want: Option<&Ty>,
) -> Result<Form, Refused>
    ensures { Answers (bounded sign.now (with_meanings parts.now) place (environment at.now) bound.now (option_copied want.entry)) result }
{
    match parts {
        [judged, limit] => {
            judgment(at, want, place)?;
            let relation = relation(sign, place)?;
            let contract = contract_of(alloc, at, bound, judged)?;
            bounded_by(alloc, at, bound, contract, relation, limit)
        }
        _ => Err(not_built(place)),
    }
}

/// A contract with a relation and a bound.
#[cycle(form)]
fn bounded_by(
    alloc: Global,
    at: &Setting<'_>,
    bound: &[Binding],
    contract: Contract,
    relation: Rel,
    limit: &Node,
) -> Result<Form, Refused>
    ensures { Answers (elaborated limit.now (around (environment at.now)) bound.now (Some Ty.Real) and_then λ b. given (with_chance contract relation b)) result }
{
    let around = Setting::ambient(at.scope, at.sequent).reading(Memories::None);
    let limit = typed(alloc, &around, bound, limit, Some(&Ty::Real))?;
    Ok(with_chance(alloc, contract, relation, limit)?)
}

/// A judgment of one procedure behind which its bound stands.
#[cycle(form)]
fn contract_of(
    alloc: Global,
    at: &Setting<'_>,
    bound: &[Binding],
    t: &Node,
) -> Result<Contract, Refused>
    ensures { Answers (contract_of t.now (environment at.now) bound.now) result }
{
    match t.head {
        Head::Phoare => contract(alloc, at, bound, t.parts.as_slice(), t.place),
        _ => Err(mismatch(t.place)),
    }
}

/// What a judgment says of one procedure: its precondition reads the parameters.
#[cycle(form)]
fn contract(
    alloc: Global,
    at: &Setting<'_>,
    bound: &[Binding],
    parts: &[Node],
    place: Place,
) -> Result<Contract, Refused>
    ensures { Answers (contract (with_meanings parts.now) place (environment at.now) bound.now) result }
{
    match parts {
        [f, pre, post] => {
            let named = one_procedure(alloc, at, bound, f, place)?;
            let pre = before_one(alloc, at, bound, pre, &named)?;
            with_result(alloc, at, bound, post, &named, pre)
        }
        _ => Err(not_built(place)),
    }
}

/// The precondition of a judgment of one procedure, which reads its parameters.
#[cycle(form)]
fn before_one(
    alloc: Global,
    at: &Setting<'_>,
    bound: &[Binding],
    pre: &Node,
    named: &Named<'_>,
) -> Result<Form, Refused>
    ensures { Answers (elaborated pre.now (before_one (environment at.now) (seen_type named.now.ty)) bound.now (Some Ty.Bool)) result }
{
    let before = Setting::unary(at.scope, at.sequent, named.ty.params).reading(
        at.memories.in_judgments(),
    );
    typed(alloc, &before, bound, pre, Some(&Ty::Bool))
}

/// The postcondition of a judgment of one procedure, which reads its result.
#[cycle(form)]
fn after_one(
    alloc: Global,
    at: &Setting<'_>,
    bound: &[Binding],
    post: &Node,
    named: &Named<'_>,
) -> Result<Form, Refused>
    ensures { Answers (elaborated post.now (after_one (environment at.now) (seen_type named.now.ty)) bound.now (Some Ty.Bool)) result }
{
    let result = result_of(alloc, named.ty)?;
    let after = Setting::unary(at.scope, at.sequent, result.as_slice()).reading(
        at.memories.in_judgments(),
    );
    typed(alloc, &after, bound, post, Some(&Ty::Bool))
}

/// What a judgment says of one procedure behind its precondition.
#[cycle(form)]
fn with_result(
    alloc: Global,
    at: &Setting<'_>,
    bound: &[Binding],
    post: &Node,
    named: &Named<'_>,
    pre: Form,
) -> Result<Contract, Refused>
    ensures { Answers (elaborated post.now (after_one (environment at.now) (seen_type named.now.ty)) bound.now (Some Ty.Bool) and_then λ post. given (record { procedure = named.now.reference; pre = pre; post = post })) result }
{
    let post = after_one(alloc, at, bound, post, named)?;
    let procedure = named.reference.share()?;
    Ok(Contract {
        procedure,
        pre,
        post,
    })
}

/// A probability: the arguments of its call read logical variables and its memory, its event the result.
#[cycle(form)]
fn probability(
    alloc: Global,
    at: &Setting<'_>,
    bound: &[Binding],
    parts: &[Node],
    place: Place,
    want: Option<&Ty>,
) -> Result<RealTerm, Refused>
    ensures { Answers (probability (with_meanings parts.now) place (environment at.now) bound.now (option_copied want.entry)) result }
{
    match parts {
        [call, memory, event] => {
            chance_here(at, want, place)?;
            let named = called(alloc, at, bound, call)?;
            let arguments = before_call(alloc, at, bound, call, &named, &memory.text)?;
            from_memory(alloc, at, bound, &named, arguments, event, memory)
        }
        _ => Err(not_built(place)),
    }
}

/// The arguments of a call of a procedure, which read logical variables and the memory from which it is made.
#[cycle(form)]
fn before_call(
    alloc: Global,
    at: &Setting<'_>,
    bound: &[Binding],
    call: &Node,
    named: &Named<'_>,
    memory: &Name,
) -> Result<Terms, Refused>
    ensures { Answers (arguments_of call.now named.now.ty.params.now (place_of call.now) (before_call (environment at.now) memory.now) bound.now) result }
{
    let before = Setting::ambient(at.scope, at.sequent).reading(at.memories.in_arguments(memory));
    arguments_of(alloc, &before, bound, named.ty.params, call, call.place)
}

/// The probability of an event after a procedure with these arguments.
#[cycle(form)]
fn from_memory(
    alloc: Global,
    at: &Setting<'_>,
    bound: &[Binding],
    named: &Named<'_>,
    arguments: Terms,
    event: &Node,
    memory: &Node,
) -> Result<RealTerm, Refused>
    ensures { Answers (memory_at (environment at.now) bound.now (text_of memory.now) (place_of memory.now) and_then λ i. elaborated event.now (after_one (environment at.now) (seen_type named.now.ty)) bound.now (Some Ty.Bool) and_then λ b. given (chance named.now.reference i arguments b)) result }
{
    let memory = memory_at(alloc, at, bound, &memory.text, memory.place)?;
    let event = after_one(alloc, at, bound, event, named)?;
    let procedure = named.reference.share()?;
    Ok(chance(alloc, procedure, memory, arguments, event)?)
}

/// The arguments that a call, or the list in it, has for these parameters. The call has this place.
#[cycle(form)]
fn arguments_of(
    alloc: Global,
    at: &Setting<'_>,
    bound: &[Binding],
    params: &[TypedName],
    t: &Node,
    place: Place,
) -> Result<Terms, Refused>
    ensures { Answers (arguments_of t.now params.now place (environment at.now) bound.now) result }
{
    match t.head {
        Head::Call => in_last(alloc, at, bound, params, t.parts.as_slice(), place),
        Head::FunctorCall => in_last(alloc, at, bound, params, t.parts.as_slice(), place),
        Head::List => listed(alloc, at, bound, params, t.parts.as_slice(), place),
        _ => Err(not_built(place)),
    }
}

/// The arguments of a call, which stand in the last of these parts.
#[cycle(form)]
fn in_last(
    alloc: Global,
    at: &Setting<'_>,
    bound: &[Binding],
    params: &[TypedName],
    parts: &[Node],
    place: Place,
) -> Result<Terms, Refused>
    ensures { Answers (last_arguments (slice_get (with_meanings parts.now) (length parts.now - 1)) params.now place (environment at.now) bound.now) result }
{
    match parts.last() {
        Some(list) => arguments_of(alloc, at, bound, params, list, place),
        None => Err(not_built(place)),
    }
}

/// Arguments, one for each parameter. A call with fewer is refused before them.
#[cycle(form)]
fn listed(
    alloc: Global,
    at: &Setting<'_>,
    bound: &[Binding],
    params: &[TypedName],
    parts: &[Node],
    place: Place,
) -> Result<Terms, Refused>
    ensures { Answers (listed place (environment at.now) bound.now params.now (with_meanings parts.now)) result }
{
    if parts.len() < params.len() {
        Err(mismatch(place))
    } else {
        arguments(alloc, at, bound, params, parts, place)
    }
}

/// Arguments of the types of these parameters, of which there are no more, in the order of the text.
#[cycle(form)]
#[tactic(auto, unfolding(crate::specs::Forms::arguments))]
fn arguments(
    alloc: Global,
    at: &Setting<'_>,
    bound: &[Binding],
    params: &[TypedName],
    parts: &[Node],
    place: Place,
) -> Result<Terms, Refused>
    requires { length params.now ≤ length parts.now }
    ensures { Answers (arguments place (environment at.now) bound.now [] params.now (with_meanings parts.now)) result }
{
    let mut done = Items::new(alloc);
    let mut rest = params;
    for part in parts {
        let [param, more @ ..] = rest else {
            return Err(mismatch(part.place));
        };
        let argument = typed(alloc, at, bound, part, Some(param.ty.get()))?;
        done.push(argument)?;
        rest = more;
    }
    Ok(done)
}

/// The typed tree of a function of one variable from a type to a type, with its variable as the only bound one.
///
/// # Errors
///
/// As `function_of`.
pub fn function(
    alloc: Global,
    at: &Setting<'_>,
    t: &Node,
    from: &Shared<Ty>,
    to: &Ty,
) -> Result<Term, Refused>
    ensures { Answers (function t.now (environment at.now) from.now to.now) result }
{
    let domain = Domain::Exactly(from.share()?);
    function_of(alloc, at, &[], t, &domain, Some(to))
}

/// The typed tree of a function of one variable, with the variable as the innermost bound one. Brackets may stand round
/// it.
///
/// # Errors
///
/// `TypeMismatch` where the form is no function of one variable, where its variable has another type by the text (at
/// that type), and where its value has another type; those of `written_as` and those of `typed`.
#[cycle(form)]
fn function_of(
    alloc: Global,
    at: &Setting<'_>,
    bound: &[Binding],
    t: &Node,
    domain: &Domain,
    want: Option<&Ty>,
) -> Result<Term, Refused>
    ensures { Answers (function_of t.now domain.now (environment at.now) bound.now (option_copied want.entry)) result }
{
    function_typing(
        alloc,
        at,
        bound,
        t.head,
        t.parts.as_slice(),
        t.place,
        domain,
        want,
    )
}

/// .. from its head, its parts and its place.
#[cycle(form)]
fn function_typing(
    alloc: Global,
    at: &Setting<'_>,
    bound: &[Binding],
    head: Head,
    parts: &[Node],
    place: Place,
    domain: &Domain,
    want: Option<&Ty>,
) -> Result<Term, Refused>
    ensures { Answers (function_typing head (with_meanings parts.now) place domain.now (environment at.now) bound.now (option_copied want.entry)) result }
{
    match head {
        Head::Bracketed => bracketed_function(alloc, at, bound, parts, place, domain, want),
        Head::Function => plain_function(alloc, at, bound, parts, place, domain, want),
        Head::TypedFunction => typed_function(alloc, at, bound, parts, place, domain, want),
        _ => Err(mismatch(place)),
    }
}

/// A function in brackets.
#[cycle(form)]
fn bracketed_function(
    alloc: Global,
    at: &Setting<'_>,
    bound: &[Binding],
    parts: &[Node],
    place: Place,
    domain: &Domain,
    want: Option<&Ty>,
) -> Result<Term, Refused>
    ensures { Answers (bracketed_function (with_meanings parts.now) place domain.now (environment at.now) bound.now (option_copied want.entry)) result }
{
    match parts {
        [inner] => function_of(alloc, at, bound, inner, domain, want),
        _ => Err(mismatch(place)),
    }
}

/// A function whose variable has no type by the text.
#[cycle(form)]
fn plain_function(
    alloc: Global,
    at: &Setting<'_>,
    bound: &[Binding],
    parts: &[Node],
    place: Place,
    domain: &Domain,
    want: Option<&Ty>,
) -> Result<Term, Refused>
    ensures { Answers (plain_function (with_meanings parts.now) place domain.now (environment at.now) bound.now (option_copied want.entry)) result }
{
    match parts {
        [names, body] => {
            let x = only(names.parts.as_slice(), place)?;
            let ty = type_in(alloc, domain)?;
            value_of(alloc, at, bound, body, &x.text, &ty, want)
        }
        _ => Err(mismatch(place)),
    }
}

/// A function whose variable has a type by the text.
#[cycle(form)]
fn typed_function(
    alloc: Global,
    at: &Setting<'_>,
    bound: &[Binding],
    parts: &[Node],
    place: Place,
    domain: &Domain,
    want: Option<&Ty>,
) -> Result<Term, Refused>
    ensures { Answers (typed_function (with_meanings parts.now) place domain.now (environment at.now) bound.now (option_copied want.entry)) result }
{
    match parts {
        [names, written, body] => {
            let x = only(names.parts.as_slice(), place)?;
            let ty = written_as(alloc, at.scope, domain, written)?;
            value_of(alloc, at, bound, body, &x.text, &ty, want)
        }
        _ => Err(mismatch(place)),
    }
}

/// The variable of a function, which has one.
fn only<'t>(names: &'t [Node], place: Place) -> Result<&'t Node, Refused>
    ensures { Gives (λ x. x.now) (only names.now place) result }
{
    match names {
        [x] => Ok(x),
        _ => Err(mismatch(place)),
    }
}

/// The value of a function, with its variable as the innermost bound one.
#[cycle(form)]
fn value_of(
    alloc: Global,
    at: &Setting<'_>,
    bound: &[Binding],
    body: &Node,
    name: &Name,
    ty: &Shared<Ty>,
    want: Option<&Ty>,
) -> Result<Term, Refused>
    ensures { Answers (value_of name.now ty.now (body.now, meant body.now) (environment at.now) bound.now (option_copied want.entry)) result }
{
    let mut bindings = Items::new(alloc);
    let variable = Binding::value(alloc, name, ty)?;
    bindings.push(variable)?;
    let inner = within(alloc, bindings, bound)?;
    typed(alloc, at, inner.as_slice(), body, want)
}
