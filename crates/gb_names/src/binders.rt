// Binders, and the quantifiers over what they bind.

ghost use Rattle.std.specs.Prelude.{◌≡◌, ◌||◌, [], ◌∷◌, IfOk, bytes_eq, reverse};
ghost use Rattle.std.specs.List.{list_any};
ghost use Rattle.gb_goal.specs.Answers.{Answers, ◌>>=◌ as ◌and_then◌};
ghost use Rattle.gb_goal.specs.Answers.Answer.{given};
ghost use Rattle.gb_names.specs.Environment.{environment};
ghost use Rattle.gb_names.specs.Types.{type_of};
ghost use Rattle.gb_names.specs.declared.bindings.Kind.TheVariants.{Memory, Value};
ghost use Rattle.gb_script.specs.Tree.{head_of, parts_of, place_of, text_of};
ghost use Rattle.gb_names.specs.Binders.{bound_by, bound_in, memory_bound, new_names, of_type, over, over_all, quantifier_of, values};

use crate::allowed::memory_here;
use crate::bindings::{Binding, Bindings, Kind, add_value};
use crate::refusals::{double, not_built};
use crate::setting::Setting;
use crate::types::type_of;
use gb_core::Shared;
use gb_core::name::Name;
use gb_core::place::Place;
use gb_core::refusal::Refused;
use gb_core::ty::Ty;
use gb_goal::scope::Scope;
use gb_script::head::Head;
use gb_script::tree::Node;
use gb_terms::decl::{Typed, TypedName};
use gb_terms::make;
use gb_terms::term::{Form, Head as TermHead};
use sqlite_items::Items;
use std::alloc::{AllocError, Global};

/// Whether a form speaks of all values of its variables, or of some.
#[derive(Clone, Copy)]
pub enum Quantifier {
    Forall,
    Exists,
}

/// The quantifier that a word is.
pub fn quantifier_of(word: &Name, place: Place) -> Result<Quantifier, Refused>
    ensures { Answers (quantifier_of word.now place) result }
{
    match word.as_str() {
        "forall" => Ok(Quantifier::Forall),
        "exists" => Ok(Quantifier::Exists),
        _ => Err(not_built(place)),
    }
}

/// Names of one type.
pub fn of_type(alloc: Global, names: &[Node], ty: &Shared<Ty>) -> Result<Typed, AllocError>
    ensures { IfOk result (λ made. made ≡ of_type names.now ty.now) }
{
    let mut all = Items::new(alloc);
    for x in names {
        let name = variable(alloc, &x.text, ty)?;
        all.push(name)?;
    }
    Ok(all)
}

/// A name of this type.
pub fn variable(alloc: Global, name: &Name, ty: &Shared<Ty>) -> Result<TypedName, AllocError>
    ensures { IfOk result (λ made. made ≡ record { name = name.now; ty = ty.now }) }
{
    let name = name.copy(alloc)?;
    let ty = ty.share()?;
    Ok(TypedName { name, ty })
}

/// Values of one type under names, of which the first stands apart.
fn values(
    alloc: Global,
    first: &Node,
    more: &[Node],
    ty: &Shared<Ty>,
) -> Result<Bindings, AllocError>
    ensures { IfOk result (λ made. made ≡ values (first.now ∷ more.now) ty.now) }
{
    let mut all = Items::new(alloc);
    add_value(alloc, &mut all, &first.text, ty)?;
    for x in more {
        add_value(alloc, &mut all, &x.text, ty)?;
    }
    Ok(all)
}

/// What is bound, in the order of the text.
///
/// # Errors
///
/// `DoubleName` of a name that one of them has already, those of `type_of`, `Argument` of a memory where none may be bound, and `Syntax`
/// of a binder that isn't built.
#[tactic(auto, unfolding(crate::specs::Binders::bound_by))]
pub fn bound_by(alloc: Global, at: &Setting<'_>, binds: &[Node]) -> Result<Bindings, Refused>
    ensures { Answers (bound_by (environment at.now) [] binds.now) result }
{
    let mut all = Items::new(alloc);
    for bind in binds {
        let more = bound_in(
            alloc,
            at,
            all.as_slice(),
            bind.head,
            bind.parts.as_slice(),
            bind.place,
        )?;
        all.append(more)?;
    }
    Ok(all)
}

/// What one binder binds, from its head and its parts, beside others.
fn bound_in(
    alloc: Global,
    at: &Setting<'_>,
    beside: &[Binding],
    head: Head,
    parts: &[Node],
    place: Place,
) -> Result<Bindings, Refused>
    ensures { Answers (bound_in (environment at.now) beside.now head parts.now place) result }
{
    match head {
        Head::Values => match parts {
            [first, more, ty] => {
                typed_names(alloc, at.scope, beside, first, more.parts.as_slice(), ty)
            }
            _ => Err(not_built(place)),
        },
        Head::Memory => match parts {
            [name] => memory_bound(alloc, at, beside, name, place),
            _ => Err(not_built(place)),
        },
        Head::ModuleBind => match parts {
            [name, ..] => Err(not_built(name.place)),
            _ => Err(not_built(place)),
        },
        _ => Err(not_built(place)),
    }
}

/// A memory beside others, whose binder has this place.
fn memory_bound(
    alloc: Global,
    at: &Setting<'_>,
    beside: &[Binding],
    name: &Node,
    place: Place,
) -> Result<Bindings, Refused>
    ensures { Answers (memory_bound (environment at.now) beside.now name.now place) result }
{
    memory_here(at, place)?;
    new_names(alloc, beside, name, &[])?;
    let mut all = Items::new(alloc);
    let memory = Binding::memory(alloc, &name.text)?;
    all.push(memory)?;
    Ok(all)
}

fn is_name_of(list: &[Binding], name: &Name) -> bool
    ensures { result ≡ list_any (λ v. bytes_eq v.name name.now) list.now }
{
    for x in list {
        if x.name == *name {
            return true;
        }
    }
    false
}

fn is_word_of(list: &[Node], name: &Name) -> bool
    ensures { result ≡ list_any (λ y. bytes_eq (text_of y) name.now) list.now }
{
    for x in list {
        if x.text == *name {
            return true;
        }
    }
    false
}

/// Whether one of these has this name, or one of these words is it.
fn is_bound(beside: &[Binding], first: &Node, before: &[Node], name: &Name) -> bool
    ensures { result ≡ (list_any (λ v. bytes_eq v.name name.now) beside.now || (bytes_eq (text_of first.now) name.now || list_any (λ y. bytes_eq (text_of y) name.now) before.now)) }
{
    is_name_of(beside, name) || (first.text == *name || is_word_of(before, name))
}

/// Refuses a name that is bound beside these, or is one of them twice.
#[tactic(auto, unfolding(crate::specs::Binders::new_names))]
fn new_names(alloc: Global, beside: &[Binding], first: &Node, more: &[Node]) -> Result<(), Refused>
    ensures { Answers (new_names beside.now [] (first.now ∷ more.now)) result }
{
    if is_name_of(beside, &first.text) {
        return Err(double(alloc, &first.text, first.place));
    }
    for i in 0..more.len() {
        let x = &more[i];
        if is_bound(beside, first, &more[..i], &x.text) {
            return Err(double(alloc, &x.text, x.place));
        }
    }
    Ok(())
}

/// Values of the type that the text spells, under names that are bound beside these.
fn typed_names(
    alloc: Global,
    scope: &Scope,
    beside: &[Binding],
    first: &Node,
    more: &[Node],
    ty: &Node,
) -> Result<Bindings, Refused>
    ensures { Answers (new_names beside.now [] (first.now ∷ more.now) and_then λ _. type_of scope.now ty.now and_then λ t. given (values (first.now ∷ more.now) t)) result }
{
    new_names(alloc, beside, first, more)?;
    let ty = type_of(alloc, scope, ty)?;
    Ok(values(alloc, first, more, &ty)?)
}

/// The quantifiers over these things, the first one innermost.
pub fn over_all(
    alloc: Global,
    quantifier: Quantifier,
    bindings: &[Binding],
    body: Form,
) -> Result<Form, AllocError>
    ensures { IfOk result (λ made. made ≡ over_all quantifier (reverse bindings.now) body) }
{
    let mut form = body;
    for x in bindings {
        form = over(alloc, quantifier, &x.kind, form)?;
    }
    Ok(form)
}

fn over(alloc: Global, quantifier: Quantifier, kind: &Kind, body: Form) -> Result<Form, AllocError>
    ensures { IfOk result (λ made. made ≡ over quantifier kind.now body) }
{
    match kind {
        Kind::Value(ty) => {
            let ty = ty.share()?;
            over_values(alloc, quantifier, ty, body)
        }
        Kind::Memory => over_memories(alloc, quantifier, body),
    }
}

fn over_values(
    alloc: Global,
    quantifier: Quantifier,
    ty: Shared<Ty>,
    body: Form,
) -> Result<Form, AllocError>
    ensures { IfOk result (λ made. made ≡ over quantifier (Value ty) body) }
{
    match quantifier {
        Quantifier::Forall => make::forall(alloc, ty, body),
        Quantifier::Exists => make::exists(alloc, ty, body),
    }
}

fn over_memories(alloc: Global, quantifier: Quantifier, body: Form) -> Result<Form, AllocError>
    ensures { IfOk result (λ made. made ≡ over quantifier Memory body) }
{
    let truth = make::truth_ty(alloc)?;
    match quantifier {
        Quantifier::Forall => make::over(alloc, TermHead::AllMemory, body, truth),
        Quantifier::Exists => make::over(alloc, TermHead::SomeMemory, body, truth),
    }
}
