// What a name means where it stands.

ghost use Rattle.std.specs.Prelude.{◌≡◌, ◌++◌, Ok, IfOk, OnOk, bytes_eq, codes, string_bytes};
ghost use Rattle.std.specs.List.{list_any};
ghost use Rattle.std.specs.Option.{option_copied};
ghost use Rattle.gb_core.specs.declared.var.Var.TheVariants.{Local};
ghost use Rattle.gb_script.specs.Tree.{head_of};
ghost use Rattle.gb_goal.specs.Answers.{Answers, Fails, Gives, Refuses};
ghost use Rattle.gb_names.specs.Wanted.{counted};
ghost use Rattle.gb_goal.specs.Answers.Answer.{given};
ghost use Rattle.gb_names.specs.Environment.{environment};
ghost use Rattle.gb_names.specs.Names.{beside, bound_thing, bound_variable, built_in, constant_at, covered, dotted, first_named, hidden, is_on_side, is_variable, known_at, logical_variable, named, named_around, names_no_value, names_other, needs_side, no_variable, number_before, operator_at, path, program_variable, side_of, sided, spelled_by, target, unbound, unit, variable_on};

use crate::bindings::{Binding, Kind, binders_inside, innermost};
use crate::globals::{
    Target, global_at, global_target, is_own_global, module_hidden, names_member, names_parameter,
    read_global, unsided,
};
use crate::memories::remembered;
use crate::refusals::{argument, not_built, too_many, unknown};
use crate::setting::Setting;
use gb_core::Shared;
use gb_core::name::Name;
use gb_core::place::Place;
use gb_core::refusal::Refused;
use gb_core::ty::Ty;
use gb_core::value::Value;
use gb_core::var::Var;
use gb_goal::scope::{Constant, OperatorType};
use gb_goal::sequent::{Hyp, Sequent};
use gb_script::head::Head as NodeHead;
use gb_script::tree::Node;
use gb_terms::decl::TypedName;
use gb_terms::make;
use gb_terms::module::Bind;
use gb_terms::op::Side;
use gb_terms::term::{Head, Term};
use std::alloc::{AllocError, Global};

/// The most nodes of a formula.
pub const NODES: u64 = 65_536;

/// A dot and a name at the end of a path.
pub fn append(path: &mut String, name: &Name) -> Result<(), AllocError>
    ensures { OnOk result (string_bytes path.new ≡ (string_bytes path.old ++ codes ".") ++ name.now) }
{
    path.push_str(".")?;
    path.push_str(name.as_str())
}

/// A name with further words behind it, a dot before each.
pub fn dotted(alloc: Global, first: &Name, more: &[Node]) -> Result<Name, AllocError>
    ensures { IfOk result (λ made. made ≡ dotted first.now more.now) }
{
    let mut text = String::from_str(alloc, first.as_str())?;
    for word in more {
        append(&mut text, &word.text)?;
    }
    Ok(Name::new(text))
}

/// The name that some words are, joined by dots.
pub fn path(alloc: Global, words: &[Node]) -> Result<Name, AllocError>
    ensures { IfOk result (λ made. made ≡ path words.now) }
{
    match words {
        [] => Name::from_str(alloc, ""),
        [first, more @ ..] => dotted(alloc, &first.text, more),
    }
}

/// The name that a path of one word or of several spells.
pub fn spelled(alloc: Global, tree: &Node) -> Result<Name, AllocError>
    ensures { IfOk result (λ made. made ≡ spelled_by tree.now) }
{
    match tree.head {
        NodeHead::Path => path(alloc, tree.parts.as_slice()),
        _ => tree.text.copy(alloc),
    }
}

/// The first thing of this name in a list.
pub fn first_named<'a>(list: &'a [TypedName], name: &Name) -> Option<&'a TypedName>
    ensures { option_copied result ≡ first_named list.now name.now }
{
    for x in list {
        if x.name == *name {
            return Some(x);
        }
    }
    None
}

/// How many things stand before the first of this name.
fn number_before(list: &[TypedName], name: &Name) -> usize
    ensures { result ≡ number_before list.now name.now }
{
    for i in 0..list.len() {
        if list[i].name == *name {
            return i;
        }
    }
    list.len()
}

/// A number of things as a term counts them. More are past the nodes of a formula.
pub fn counted(n: usize) -> Result<u32, Refused>
    ensures { Answers (counted n) result }
{
    if n < 0x1_0000_0000 {
        Ok(n as u32)
    } else {
        Err(too_many(NODES))
    }
}

/// A variable that is bound below so many other binders.
fn bound_variable(alloc: Global, between: usize, ty: &Shared<Ty>) -> Result<Term, Refused>
    ensures { Answers (bound_variable between ty.now) result }
{
    let between = counted(between)?;
    let ty = ty.share()?;
    Ok(make::leaf(alloc, Head::Bound(between), ty)?)
}

/// What is bound there as a value, which a memory is none.
fn bound_thing(alloc: Global, between: usize, kind: &Kind, place: Place) -> Result<Term, Refused>
    ensures { Answers (bound_thing between place kind.now) result }
{
    match kind {
        Kind::Value(ty) => bound_variable(alloc, between, ty),
        Kind::Memory => Err(argument(place)),
    }
}

/// The logical variable at this place of the context.
fn logical_variable(alloc: Global, at: usize, x: &TypedName) -> Result<Term, Refused>
    ensures { Answers (logical_variable at x.now) result }
{
    let at = counted(at)?;
    let ty = x.ty.share()?;
    Ok(make::logical(alloc, at, ty)?)
}

/// A read of this program variable through a memory.
fn program_variable(alloc: Global, x: &TypedName, side: Side) -> Result<Term, Refused>
    ensures { Answers (given (program_variable side x.now)) result }
{
    let name = x.name.copy(alloc)?;
    let ty = x.ty.share()?;
    Ok(make::program(alloc, name, side, ty)?)
}

/// A built-in constant or operator.
#[derive(Clone, Copy)]
pub enum Known {
    True,
    False,
    Unit,
    None,
    Empty,
    Some,
    Oget,
    Dunit,
    Dmap,
    Drestrict,
    Mu,
    Mu1,
    Sum,
}

/// The built-in thing of this name.
#[tactic(auto, unfolding(crate::specs::Names::built_in))]
pub fn built_in(name: &Name) -> Option<Known>
    ensures { result ≡ built_in name.now }
{
    match name.as_str() {
        "true" => Some(Known::True),
        "false" => Some(Known::False),
        "tt" => Some(Known::Unit),
        "None" => Some(Known::None),
        "empty" => Some(Known::Empty),
        "Some" => Some(Known::Some),
        "oget" => Some(Known::Oget),
        "dunit" => Some(Known::Dunit),
        "dmap" => Some(Known::Dmap),
        "drestrict" => Some(Known::Drestrict),
        "mu" => Some(Known::Mu),
        "mu1" => Some(Known::Mu1),
        "sum" => Some(Known::Sum),
        _ => None,
    }
}

/// The one value of `unit`.
pub fn unit(alloc: Global) -> Result<Term, Refused>
    ensures { Answers (given unit) result }
{
    let ty = Shared::new(alloc, Ty::Unit)?;
    Ok(make::leaf(alloc, Head::Lit(Value::Num(0)), ty)?)
}

fn is_among(list: &[Name], name: &Name) -> bool
    ensures { result ≡ list_any (λ x. bytes_eq x name.now) list.now }
{
    for x in list {
        if *x == *name {
            return true;
        }
    }
    false
}

fn is_module(list: &[Bind], name: &Name) -> bool
    ensures { result ≡ list_any (λ x. bytes_eq x.name name.now) list.now }
{
    for x in list {
        if x.name == *name {
            return true;
        }
    }
    false
}

fn is_hyp(list: &[Hyp], name: &Name) -> bool
    ensures { result ≡ list_any (λ x. bytes_eq x.name name.now) list.now }
{
    for x in list {
        if x.name == *name {
            return true;
        }
    }
    false
}

/// Whether a memory, an abstract module or a hypothesis of the context has this name.
fn names_no_value(s: &Sequent, name: &Name) -> bool
    ensures { result ≡ names_no_value s.now name.now }
{
    is_among(s.memories.as_slice(), name)
        || is_module(s.modules.as_slice(), name)
        || is_hyp(s.hyps.as_slice(), name)
}

/// Whether a thing that is no variable has this name, or what has that of its module is none.
fn names_other(
    alloc: Global,
    at: &Setting<'_>,
    bound: &[Binding],
    name: &Name,
) -> Result<bool, AllocError>
    ensures { IfOk result (λ found. found ≡ names_other (environment at.now) bound.now name.now) }
{
    if names_parameter(at.inside, name)
        || names_no_value(at.sequent, name)
        || at.scope.entry(name).is_some()
    {
        return Ok(true);
    }
    if module_hidden(alloc, at, bound, name)? {
        return Ok(true);
    }
    names_member(alloc, at.inside, at.scope, name)
}

/// The refusal of a name that no variable has.
fn unbound(alloc: Global, at: &Setting<'_>, bound: &[Binding], name: &Name, place: Place) -> Refused
    ensures { Fails (unbound (environment at.now) bound.now name.now place) result }
{
    match names_other(alloc, at, bound, name) {
        Ok(true) => argument(place),
        Ok(false) => unknown(alloc, name, place),
        Err(_) => Refused::NoMemory,
    }
}

/// Whether a variable of one of two programs has this name.
fn is_on_side(at: &Setting<'_>, side: Side, name: &Name) -> bool
    ensures { result ≡ is_on_side (environment at.now) side name.now }
{
    match at.on_side(side) {
        Some(locals) => first_named(locals, name).is_some(),
        None => false,
    }
}

/// Whether a variable of either of two programs has this name.
fn needs_side(at: &Setting<'_>, name: &Name) -> bool
    ensures { result ≡ needs_side (environment at.now) name.now }
{
    is_on_side(at, Side::Left, name) || is_on_side(at, Side::Right, name)
}

/// The meaning of a name that nothing nearer than the context has.
fn named_around(
    alloc: Global,
    at: &Setting<'_>,
    bound: &[Binding],
    name: &Name,
    place: Place,
) -> Result<Term, Refused>
    ensures { Answers (named_around (environment at.now) bound.now name.now place) result }
{
    let logical = at.sequent.logical.as_slice();
    if let Some(x) = first_named(logical, name) {
        return logical_variable(alloc, number_before(logical, name), x);
    }
    match global_at(alloc, at, bound, name)? {
        Some(global) => unsided(alloc, at, place, global),
        None => Err(unbound(alloc, at, bound, name, place)),
    }
}

/// The meaning of a name without a side. Where two programs are around, it is none of their variables', and hidden by them.
///
/// # Errors
///
/// `UnknownName` where nothing has the name, and `Argument` where it is no value's, or that of a global whose memory isn't there.
#[tactic(auto, unfolding(crate::specs::Names::named))]
pub fn named(
    alloc: Global,
    at: &Setting<'_>,
    bound: &[Binding],
    name: &Name,
    place: Place,
) -> Result<Term, Refused>
    ensures { Answers (named (environment at.now) bound.now name.now place) result }
{
    if let Some(x) = innermost(bound, name) {
        return bound_thing(alloc, binders_inside(bound, name), &x.kind, place);
    }
    if let Some(x) = first_named(at.own(), name) {
        return program_variable(alloc, x, Side::Own);
    }
    if needs_side(at, name) {
        Err(no_variable(alloc, at, bound, name, place))
    } else {
        named_around(alloc, at, bound, name, place)
    }
}

/// Whether what is bound in the form, or a logical variable of the context, has this name.
fn is_variable(at: &Setting<'_>, bound: &[Binding], name: &Name) -> bool
    ensures { result ≡ is_variable (environment at.now) bound.now name.now }
{
    innermost(bound, name).is_some() || first_named(at.sequent.logical.as_slice(), name).is_some()
}

/// Whether a thing that is nearer than modules has this name.
pub fn hidden(at: &Setting<'_>, bound: &[Binding], name: &Name) -> bool
    ensures { result ≡ hidden (environment at.now) bound.now name.now }
{
    is_variable(at, bound, name)
        || first_named(at.own(), name).is_some()
        || needs_side(at, name)
        || names_no_value(at.sequent, name)
        || is_own_global(at, name)
}

/// Whether a thing that is nearer than modules has this name, or a parameter of the module around, which is nearer than the declarations.
fn covered(at: &Setting<'_>, bound: &[Binding], name: &Name) -> bool
    ensures { result ≡ covered (environment at.now) bound.now name.now }
{
    names_parameter(at.inside, name) || hidden(at, bound, name)
}

/// The built-in thing that a name means, where nothing else has it.
pub fn known_at(at: &Setting<'_>, bound: &[Binding], name: &Name) -> Option<Known>
    ensures { result ≡ known_at (environment at.now) bound.now name.now }
{
    if covered(at, bound, name) || at.scope.entry(name).is_some() {
        None
    } else {
        built_in(name)
    }
}

/// The constant of an enumeration that a name means.
pub fn constant_at<'a>(at: &Setting<'a>, bound: &[Binding], name: &Name) -> Option<&'a Constant>
    ensures { option_copied result ≡ constant_at (environment at.now) bound.now name.now }
{
    if covered(at, bound, name) {
        None
    } else {
        at.scope.constant_named(name)
    }
}

/// The operator of the script that a name means.
pub fn operator_at(
    at: &Setting<'_>,
    bound: &[Binding],
    name: &Name,
) -> Result<Option<OperatorType>, AllocError>
    ensures { IfOk result (λ found. found ≡ operator_at (environment at.now) bound.now name.now) }
{
    if covered(at, bound, name) {
        Ok(None)
    } else {
        at.scope.operator_named(name)
    }
}

/// Why a name means no variable of a program: something else has it, or nothing.
pub fn no_variable(
    alloc: Global,
    at: &Setting<'_>,
    bound: &[Binding],
    name: &Name,
    place: Place,
) -> Refused
    ensures { Refuses (no_variable (environment at.now) bound.now name.now) place result }
{
    let logical = at.sequent.logical.as_slice();
    if first_named(logical, name).is_some() || built_in(name).is_some() {
        return argument(place);
    }
    match names_other(alloc, at, bound, name) {
        Ok(true) => argument(place),
        Ok(false) => unknown(alloc, name, place),
        Err(_) => Refused::NoMemory,
    }
}

/// The variable of the program around, or the global, that has this name.
///
/// # Errors
///
/// `UnknownName` where nothing has the name, `Argument` where another thing has it.
pub fn target(alloc: Global, at: &Setting<'_>, name: &Name, place: Place) -> Result<Target, Refused>
    ensures { Gives (λ v. (v.var, v.ty)) (target (environment at.now) name.now place) result }
{
    if let Some(local) = first_named(at.own(), name) {
        return Ok(local_target(alloc, local)?);
    }
    match global_at(alloc, at, &[], name)? {
        Some(global) => Ok(global_target(alloc, global)?),
        None => Err(no_variable(alloc, at, &[], name, place)),
    }
}

/// A local that a statement writes.
fn local_target(alloc: Global, local: &TypedName) -> Result<Target, AllocError>
    ensures var { IfOk result (λ made. made.var ≡ Local local.now.name) }
    ensures ty { IfOk result (λ made. made.ty ≡ local.now.ty) }
{
    let name = local.name.copy(alloc)?;
    let ty = local.ty.share()?;
    Ok(Target {
        var: Var::Local { name },
        ty,
    })
}

/// The meaning of a name with a side.
///
/// # Errors
///
/// `Argument` where there is no such memory and where the name is another thing's, `UnknownName` where nothing has it.
#[tactic(auto, unfolding(crate::specs::Names::sided))]
pub fn sided(
    alloc: Global,
    at: &Setting<'_>,
    bound: &[Binding],
    name: &Name,
    side: Side,
    place: Place,
) -> Result<Term, Refused>
    ensures { Answers (sided (environment at.now) bound.now name.now side place) result }
{
    match at.on_side(side) {
        Some(locals) => variable_on(alloc, at, bound, name, side, place, locals),
        None => Err(argument(place)),
    }
}

/// One of these variables in a memory, or a global there.
pub fn variable_on(
    alloc: Global,
    at: &Setting<'_>,
    bound: &[Binding],
    name: &Name,
    side: Side,
    place: Place,
    locals: &[TypedName],
) -> Result<Term, Refused>
    ensures { Answers (variable_on (environment at.now) bound.now name.now side place locals.now) result }
{
    if innermost(bound, name).is_some() {
        return Err(argument(place));
    }
    if let Some(x) = first_named(locals, name) {
        return program_variable(alloc, x, side);
    }
    match global_at(alloc, at, bound, name)? {
        Some(global) => read_global(alloc, at, side, place, global),
        None => Err(no_variable(alloc, at, bound, name, place)),
    }
}

/// The side of a number.
pub fn side_of(number: &Name, place: Place) -> Result<Side, Refused>
    ensures { Answers (side_of number.now place) result }
{
    let text = number.as_str();
    if text == "1" {
        Ok(Side::Left)
    } else if text == "2" {
        Ok(Side::Right)
    } else {
        Err(not_built(place))
    }
}

/// The meaning of a name with what stands behind it in braces: the number of a side, or the name of a memory.
///
/// # Errors
///
/// Those of `sided`, and those of `memory_at`; `Argument` where the memory may not be read.
pub fn beside(
    alloc: Global,
    at: &Setting<'_>,
    bound: &[Binding],
    name: &Name,
    behind: &Node,
    place: Place,
) -> Result<Term, Refused>
    ensures { Answers (beside (head_of behind.now) behind.now (environment at.now) bound.now name.now place) result }
{
    match behind.head {
        NodeHead::Number => sided(alloc, at, bound, name, side_of(&behind.text, place)?, place),
        _ => remembered(alloc, at, bound, name, behind, place),
    }
}
