// What commands `op` declare.

ghost use Rattle.std.specs.Prelude.{◌≡◌, map, reverse, IfOk, MatchResult};
ghost use Rattle.std.specs.Option.{option_copied};
ghost use Rattle.gb_goal.specs.Answers.{Answers, Fails, ◌>>=◌ as ◌and_then◌};
ghost use Rattle.gb_goal.specs.Answers.Answer.{given};
ghost use Rattle.gb_names.specs.Bindings.{bound_value};
ghost use Rattle.gb_names.specs.Types.{all_given, type_of};
ghost use Rattle.gb_elab_prog.specs.Contexts.{nothing_bound};
ghost use Rattle.gb_elab_prog.specs.Operators.{all_parameters, body, defined, of_one_type, operator_entry, parameters, undefined, written};

use crate::context::{Bound, nothing_around, take_names};
use crate::sizes::small;
use gb_core::place::Place;
use gb_core::refusal::Refused;
use gb_core::ty::Ty;
use gb_core::{Shared, SharedItems};
use gb_elab::form::typed;
use gb_goal::scope::{Entry, Operator, OperatorType, Scope};
use gb_names::binders::of_type;
use gb_names::bindings::{Bindings, bound_values, within};
use gb_names::refusals::not_built;
use gb_names::setting::Setting;
use gb_names::types::{type_of, type_or_number};
use gb_script::head::Head;
use gb_script::tree::Node;
use gb_terms::decl::TypedName;
use gb_terms::term::Term;
use sqlite_items::{Boxed, Items};
use std::alloc::{AllocError, Global};

/// What the name of an operator stands for, from the head and the parts of its definition.
///
/// # Errors
///
/// `DoubleName` at a parameter whose name stands twice; those of types, and those of typing its body, in which no judgment stands
/// and nothing of programs is read; `TooMany` of the nodes of a form, whose place is for the caller to put in.
pub fn operator_entry(
    alloc: Global,
    scope: &Scope,
    head: Head,
    parts: &[Node],
    place: Place,
) -> Result<Boxed<Entry>, Refused>
    ensures { Answers (operator_entry scope.now head parts.now place) result }
{
    match head {
        Head::DefinedOperator => match parts {
            [groups, result, body] => defined(
                alloc,
                scope,
                groups.parts.as_slice(),
                result.parts.as_slice(),
                body,
            ),
            _ => Err(not_built(place)),
        },
        Head::Constant => match parts {
            [body] => defined(alloc, scope, &[], &[], body),
            _ => Err(not_built(place)),
        },
        Head::TypedConstant => match parts {
            [_, body] => defined(alloc, scope, &[], &parts[..1], body),
            _ => Err(not_built(place)),
        },
        Head::AbstractOperator => {
            let last = parts.len().saturating_sub(1);
            undefined(alloc, scope, &parts[..last], &parts[last..], place)
        }
        _ => Err(not_built(place)),
    }
}

/// An operator with a body.
#[tactic(auto, unfolding(crate::specs::Operators::defined))]
fn defined(
    alloc: Global,
    scope: &Scope,
    groups: &[Node],
    to: &[Node],
    form: &Node,
) -> Result<Boxed<Entry>, Refused>
    ensures { Answers (defined scope.now groups.now to.now form.now) result }
{
    let bound = all_parameters(alloc, scope, groups)?;
    let params = types_of(alloc, bound.values.as_slice())?;
    let body = written_body(alloc, scope, bound.values.as_slice(), to, form)?;
    Ok(Boxed::new(alloc, Entry::Operator(Operator { params, body }))?)
}

/// The parameters of all brackets.
#[tactic(auto, unfolding(crate::specs::Operators::all_parameters))]
fn all_parameters(alloc: Global, scope: &Scope, groups: &[Node]) -> Result<Bound, Refused>
    ensures { Answers (all_parameters scope.now nothing_bound groups.now) result }
{
    let mut bound = Bound::nothing(alloc);
    for x in groups {
        let parts = x.parts.as_slice();
        parameters(alloc, scope, &mut bound, x.head, parts, x.place)?;
    }
    Ok(bound)
}

/// Parameters of one type beside others.
fn parameters(
    alloc: Global,
    scope: &Scope,
    bound: &mut Bound,
    head: Head,
    parts: &[Node],
    place: Place,
) -> Result<(), Refused>
    ensures { MatchResult result
        (λ _. parameters scope.now bound.old head parts.now place ≡ given bound.new)
        (λ e. Fails (parameters scope.now bound.old head parts.now place) e) }
{
    match head {
        Head::Variables => match parts {
            [names, ty] => bind_all(alloc, scope, bound, names.parts.as_slice(), ty),
            _ => Err(not_built(place)),
        },
        _ => Err(not_built(place)),
    }
}

fn bind_all(
    alloc: Global,
    scope: &Scope,
    bound: &mut Bound,
    words: &[Node],
    ty: &Node,
) -> Result<(), Refused>
    ensures { MatchResult result
        (λ _. of_one_type scope.now bound.old words.now ty.now ≡ given bound.new)
        (λ e. Fails (of_one_type scope.now bound.old words.now ty.now) e) }
{
    take_names(alloc, &mut bound.names, words)?;
    let ty = type_or_number(alloc, scope, ty)?;
    bound.values.append(of_type(alloc, words, &ty)?)?;
    Ok(())
}

/// The types of parameters.
fn types_of(alloc: Global, params: &[TypedName]) -> Result<SharedItems<Shared<Ty>>, AllocError>
    ensures { IfOk result (λ made. made ≡ map (λ v. v.ty) params.now) }
{
    let mut types = Items::new(alloc);
    for x in params {
        let ty = x.ty.share()?;
        types.push(ty)?;
    }
    SharedItems::new(alloc, types)
}

/// The type that is written for the result, if one is.
fn written(alloc: Global, scope: &Scope, to: &[Node]) -> Result<Option<Shared<Ty>>, Refused>
    ensures { Answers (written scope.now to.now) result }
{
    match to {
        [] => Ok(None),
        [ty, ..] => Ok(Some(type_or_number(alloc, scope, ty)?)),
    }
}

/// The typed tree of a body under its parameters, of the type that is written for it, if one is.
fn written_body(
    alloc: Global,
    scope: &Scope,
    params: &[TypedName],
    to: &[Node],
    form: &Node,
) -> Result<Term, Refused>
    ensures { Answers (written scope.now to.now and_then λ w. body scope.now params.now w form.now) result }
{
    let want = written(alloc, scope, to)?;
    body_of(alloc, scope, params, inside(&want), form)
}

/// The typed tree of a body under its parameters, the last one innermost.
#[tactic(auto, unfolding(crate::specs::Operators::body))]
fn body_of(
    alloc: Global,
    scope: &Scope,
    params: &[TypedName],
    want: Option<&Ty>,
    form: &Node,
) -> Result<Term, Refused>
    ensures { Answers (body scope.now params.now (option_copied want.entry) form.now) result }
{
    let around = nothing_around(alloc)?;
    let params = innermost_first(alloc, params)?;
    let at = Setting::operator(scope, &around);
    small(typed(alloc, &at, params.as_slice(), form, want)?)
}

/// Parameters as what is bound, the last one innermost.
fn innermost_first(alloc: Global, params: &[TypedName]) -> Result<Bindings, AllocError>
    ensures { IfOk result (λ made. made ≡ reverse (map bound_value params.now)) }
{
    let params = bound_values(alloc, params)?;
    within(alloc, params, &[])
}

/// What a shared type holds, where there is one.
fn inside(ty: &Option<Shared<Ty>>) -> Option<&Ty>
    ensures { option_copied result ≡ ty.now }
{
    match ty {
        Some(ty) => Some(ty.get()),
        None => None,
    }
}

/// An operator without a body: the types of its parameters, and that of its result.
fn undefined(
    alloc: Global,
    scope: &Scope,
    types: &[Node],
    to: &[Node],
    place: Place,
) -> Result<Boxed<Entry>, Refused>
    ensures { Answers (undefined scope.now types.now to.now place) result }
{
    match to {
        [to] => {
            let params = all_types(alloc, scope, types)?;
            let result = type_or_number(alloc, scope, to)?;
            let entry = Entry::AbstractOperator(OperatorType { params, result });
            Ok(Boxed::new(alloc, entry)?)
        }
        _ => Err(not_built(place)),
    }
}

/// The types that are spelled, in order.
fn all_types(
    alloc: Global,
    scope: &Scope,
    types: &[Node],
) -> Result<SharedItems<Shared<Ty>>, Refused>
    ensures { Answers (all_given (map (type_of scope.now) types.now)) result }
{
    let mut all = Items::new(alloc);
    for ty in types {
        let ty = type_of(alloc, scope, ty)?;
        all.push(ty)?;
    }
    Ok(SharedItems::new(alloc, all)?)
}
