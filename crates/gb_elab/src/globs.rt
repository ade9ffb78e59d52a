//! All globals of a module, in equations of two memories.

ghost use Rattle.std.specs.Prelude.{◌≡◌, None, IfOk};
ghost use Rattle.std.specs.Option.{option_copied, option_map};
ghost use Rattle.gb_script.specs.Tree.{head_of};
ghost use Rattle.gb_goal.specs.Answers.{Answers};
ghost use Rattle.gb_goal.specs.Scope.{module_of};
ghost use Rattle.gb_names.specs.Environment.{environment};
ghost use Rattle.gb_names.specs.Names.{global_in};
ghost use Rattle.gb_elab.specs.Globs.{agreed, agreement, agreements, agrees, as_value, bare_glob, behind_if, both_whole, same_globals, global_named, is_abstract, memory_behind, memory_read, owner, seeing, seen, side_read, true_if_none, whole_agrees, whole_alone, whole_equation, whole_in, whole_read, whole_value, with_braces, with_seen};

use gb_core::Shared;
use gb_core::name::Name;
use gb_core::place::Place;
use gb_core::refusal::Refused;
use gb_core::ty::Ty;
use gb_core::var::Var;
use gb_goal::scope::Scope;
use gb_mods::footprint::footprint;
use gb_names::allowed::truth;
use gb_names::bindings::Binding;
use gb_names::globals::{ModuleVariable, global_variable};
use gb_names::memories::memory_at;
use gb_names::modules::{complete, module_at};
use gb_names::names::{first_named, side_of};
use gb_names::refusals::{argument, mismatch, not_built};
use gb_names::setting::{Language, Setting, Variables};
use gb_script::head::Head;
use gb_script::tree::Node;
use gb_terms::make;
use gb_terms::module::Mexp;
use gb_terms::op::Side;
use gb_terms::same::same_module;
use gb_terms::term::{Form, Term};
use std::alloc::{AllocError, Global};

/// The global of this name that a declared module has.
fn global_in<'a>(
    alloc: Global,
    scope: &'a Scope,
    owner: &Name,
    name: &Name,
) -> Result<Option<ModuleVariable<'a>>, AllocError>
    ensures { IfOk result (λ found. option_map (λ g. (g.owner, g.variable.now)) found ≡ global_in owner.now (module_of scope.now owner.now) name.now) }
{
    let Some(found) = scope.module(owner) else {
        return Ok(None);
    };
    let Some(variable) = first_named(found.globals.as_slice(), name) else {
        return Ok(None);
    };
    let owner = owner.copy(alloc)?;
    Ok(Some(ModuleVariable { owner, variable }))
}

/// The global that a variable is, as its module declares it.
fn global_named<'a>(
    alloc: Global,
    scope: &'a Scope,
    variable: &Var,
) -> Result<Option<ModuleVariable<'a>>, AllocError>
    ensures { IfOk result (λ found. option_map (λ g. (g.owner, g.variable.now)) found ≡ global_named scope.now variable.now) }
{
    match variable {
        Var::Global { module, name } => global_in(alloc, scope, module, name),
        _ => Ok(None),
    }
}

/// A global is the same in two memories.
fn agrees(
    alloc: Global,
    left: Side,
    right: Side,
    global: ModuleVariable<'_>,
) -> Result<Form, AllocError>
    ensures { IfOk result (λ made. made ≡ agrees left right (global.entry.owner, global.entry.variable.now)) }
{
    let again = ModuleVariable {
        owner: global.owner.copy(alloc)?,
        variable: global.variable,
    };
    let first = global_variable(alloc, left, global)?;
    let second = global_variable(alloc, right, again)?;
    make::equality(alloc, first, second)
}

/// All that is an abstract module's own, as one value, read in a memory.
fn whole_value(alloc: Global, side: Side, module: &Name) -> Result<Term, AllocError>
    ensures { IfOk result (λ made. made ≡ whole_value side «module».now) }
{
    let ty = Shared::new(alloc, Ty::Glob(module.copy(alloc)?))?;
    let module = module.copy(alloc)?;
    make::variable(alloc, Var::Glob { module }, side, ty)
}

/// .. is the same in two memories.
fn whole_agrees(alloc: Global, left: Side, right: Side, module: &Name) -> Result<Form, AllocError>
    ensures { IfOk result (λ made. made ≡ whole_agrees left right «module».now) }
{
    let first = whole_value(alloc, left, module)?;
    let second = whole_value(alloc, right, module)?;
    make::equality(alloc, first, second)
}

/// A variable of a footprint is the same in two memories; none where no module declares it, or where it is all globals of a module that
/// isn't an abstract one.
fn agreed(
    alloc: Global,
    scope: &Scope,
    left: Side,
    right: Side,
    variable: &Var,
) -> Result<Option<Form>, AllocError>
    ensures { IfOk result (λ made. made ≡ agreed scope.now left right variable.now) }
{
    match variable {
        Var::Glob { module } => match scope.abstract_module(module) {
            Some(_) => Ok(Some(whole_agrees(alloc, left, right, module)?)),
            None => Ok(None),
        },
        _ => match global_named(alloc, scope, variable)? {
            Some(global) => Ok(Some(agrees(alloc, left, right, global)?)),
            None => Ok(None),
        },
    }
}

/// A form behind others, if there are any.
fn behind_if(alloc: Global, others: Option<Form>, form: Form) -> Result<Form, AllocError>
    ensures { IfOk result (λ made. made ≡ behind_if others form) }
{
    match others {
        None => Ok(form),
        Some(others) => make::conjunction(alloc, others, form),
    }
}

/// These globals are the same in two memories; none where there are none.
fn agreements(
    alloc: Global,
    scope: &Scope,
    left: Side,
    right: Side,
    list: &[Var],
) -> Result<Option<Form>, AllocError>
    ensures { IfOk result (λ made. made ≡ agreements scope.now left right None list.now) }
{
    let mut form = None;
    for variable in list {
        if let Some(next) = agreed(alloc, scope, left, right, variable)? {
            form = Some(behind_if(alloc, form, next)?);
        }
    }
    Ok(form)
}

/// These globals are the same in two memories; `true` where there are none.
pub fn agreement_on(
    alloc: Global,
    scope: &Scope,
    left: Side,
    right: Side,
    list: &[Var],
) -> Result<Form, AllocError>
    ensures { IfOk result (λ made. made ≡ true_if_none (agreements scope.now left right None list.now)) }
{
    match agreements(alloc, scope, left, right, list)? {
        Some(form) => Ok(form),
        None => make::boolean(alloc, true),
    }
}

/// The globals of a module's footprint are the same in two memories.
fn agreement(
    alloc: Global,
    scope: &Scope,
    module: &Mexp,
    left: Side,
    right: Side,
    place: Place,
) -> Result<Form, Refused>
    ensures { Answers (agreement scope.now «module».now left right place) result }
{
    match footprint(alloc, scope, module)? {
        Some(list) => Ok(agreement_on(alloc, scope, left, right, list.as_slice())?),
        None => Err(not_built(place)),
    }
}

/// Whether it is an abstract module by itself; with modules for its parameters it isn't one any more.
pub fn is_abstract(scope: &Scope, module: &Mexp) -> bool
    ensures { result ≡ is_abstract scope.now «module».now }
{
    match module {
        Mexp::Name(name) => scope.abstract_module(name).is_some(),
        Mexp::Apply(..) => false,
    }
}

/// The module of which all globals are meant: one that lacks nothing, or an abstract one.
fn owner(alloc: Global, at: &Setting<'_>, bound: &[Binding], t: &Node) -> Result<Mexp, Refused>
    ensures { Answers (owner (environment at.now) bound.now t.now) result }
{
    let known = module_at(alloc, at, bound, t)?;
    if is_abstract(at.scope, &known.module) {
        Ok(known.module)
    } else {
        complete(known, t.place)
    }
}

/// What `={glob M}` says: the globals that M's procedures read or write are the same in both programs; of an abstract module all that is
/// its own, as one value.
///
/// # Errors
///
/// Those of the module expression, which is to lack nothing, but where it is an abstract module.
pub fn same_globals(
    alloc: Global,
    at: &Setting<'_>,
    bound: &[Binding],
    t: &Node,
) -> Result<Form, Refused>
    ensures { Answers (same_globals (environment at.now) bound.now t.now) result }
{
    let module = owner(alloc, at, bound, t)?;
    agreement(alloc, at.scope, &module, Side::Left, Side::Right, t.place)
}

/// What is read as `(glob M)`, or with a memory behind it: the module expression, what stands in the braces, and its place.
#[derive(Drop)]
pub struct Whole<'a> {
    pub owner: &'a Node,
    pub behind: Option<&'a Node>,
    pub place: Place,
}

/// What `(glob M)` reads, with what stands in braces behind it, if anything does.
pub fn bare_glob<'a>(parts: &'a [Node], behind: Option<&'a Node>, place: Place) -> Option<Whole<'a>>
    ensures { option_map seen result ≡ bare_glob parts.now (option_copied behind.entry) place }
{
    match parts {
        [owner] => Some(Whole {
            owner,
            behind,
            place,
        }),
        _ => None,
    }
}

/// What a form with braces reads, if it reads all globals of a module.
fn with_braces<'a>(parts: &'a [Node]) -> Option<Whole<'a>>
    ensures { option_map seen result ≡ with_braces parts.now }
{
    match parts {
        [operand, behind] => match operand.head {
            Head::Glob => bare_glob(operand.parts.as_slice(), Some(behind), operand.place),
            _ => None,
        },
        _ => None,
    }
}

/// What a form reads, if it reads all globals of a module. Brackets may stand round it.
#[cycle(whole)]
fn whole_in<'a>(t: &'a Node) -> Option<Whole<'a>>
    ensures { option_map seen result ≡ whole_in t.now }
{
    seeing(t.head, t.parts.as_slice(), t.place)
}

/// .. from its head, its parts and its place.
#[cycle(whole)]
#[tactic(auto, unfolding(crate::specs::Globs::seeing), using(crate::proofs::Seen::nodes_seen))]
fn seeing<'a>(head: Head, parts: &'a [Node], place: Place) -> Option<Whole<'a>>
    ensures { option_map seen result ≡ seeing head (with_seen parts.now) place }
{
    match head {
        Head::Glob => bare_glob(parts, None, place),
        Head::Sided => with_braces(parts),
        Head::Bracketed => match parts {
            [inner] => whole_in(inner),
            _ => None,
        },
        _ => None,
    }
}

/// Both sides of a comparison, if it is an equation and both read all globals of a module.
pub fn both_whole<'a>(sign: &Name, parts: &'a [Node]) -> Option<(Whole<'a>, Whole<'a>)>
    ensures { option_map (λ s. (seen s.0, seen s.1)) result ≡ both_whole sign.now parts.now }
{
    match parts {
        [left, right] if sign.as_str() == "=" => {
            let left = whole_in(left)?;
            let right = whole_in(right)?;
            Some((left, right))
        }
        _ => None,
    }
}

/// The memory of a side, which is that of one of two programs.
fn side_read(at: &Setting<'_>, number: &Name, place: Place) -> Result<Side, Refused>
    ensures { Answers (side_read (environment at.now) number.now place) result }
{
    let side = side_of(number, place)?;
    if at.on_side(side).is_some() {
        Ok(side)
    } else {
        Err(argument(place))
    }
}

/// The memory that braces name.
fn memory_behind(
    alloc: Global,
    at: &Setting<'_>,
    bound: &[Binding],
    behind: &Node,
    place: Place,
) -> Result<Side, Refused>
    ensures { Answers (memory_behind (head_of behind.now) behind.now (environment at.now) bound.now place) result }
{
    match behind.head {
        Head::Number => side_read(at, &behind.text, place),
        _ => {
            let memory = memory_at(alloc, at, bound, &behind.text, behind.place)?;
            if at.memories.may_read(&behind.text) {
                Ok(memory)
            } else {
                Err(argument(place))
            }
        }
    }
}

/// The memory that braces name, or, where there are none, the own one.
fn memory_read(
    alloc: Global,
    at: &Setting<'_>,
    bound: &[Binding],
    behind: Option<&Node>,
    place: Place,
) -> Result<Side, Refused>
    ensures { Answers (memory_read (environment at.now) bound.now (option_copied behind.entry) place) result }
{
    match behind {
        Some(behind) => memory_behind(alloc, at, bound, behind, place),
        None => match &at.variables {
            Variables::Own(_) => Ok(Side::Own),
            _ => Err(argument(place)),
        },
    }
}

/// Of which module all globals are read, and in which memory.
fn whole_read(
    alloc: Global,
    at: &Setting<'_>,
    bound: &[Binding],
    read: &Whole<'_>,
) -> Result<(Mexp, Side), Refused>
    ensures { Answers (whole_read (environment at.now) bound.now (seen read.now)) result }
{
    match at.language {
        Language::Formula | Language::Function => {
            let side = memory_read(alloc, at, bound, read.behind, read.place)?;
            let module = owner(alloc, at, bound, read.owner)?;
            Ok((module, side))
        }
        Language::Program | Language::Sampled | Language::Operator => Err(argument(read.place)),
    }
}

/// All globals of a module as one value, which those of an abstract module are.
fn as_value(
    alloc: Global,
    scope: &Scope,
    module: &Mexp,
    side: Side,
    place: Place,
) -> Result<Term, Refused>
    ensures { Answers (as_value scope.now («module».now, side) place) result }
{
    match module {
        Mexp::Name(name) if scope.abstract_module(name).is_some() => {
            Ok(whole_value(alloc, side, name)?)
        }
        _ => Err(argument(place)),
    }
}

/// All globals of an abstract module, read in a place where they aren't compared.
///
/// # Errors
///
/// Those of the memory and of the module, and `Argument` where the module isn't an abstract one.
pub fn whole_alone(
    alloc: Global,
    at: &Setting<'_>,
    bound: &[Binding],
    read: Option<Whole<'_>>,
    place: Place,
) -> Result<Term, Refused>
    ensures { Answers (whole_alone (environment at.now) bound.now (option_map seen read.entry) place) result }
{
    let Some(read) = read else {
        return Err(not_built(place));
    };
    let (module, side) = whole_read(alloc, at, bound, &read)?;
    as_value(alloc, at.scope, &module, side, place)
}

/// The equation of all globals of a module in two memories.
///
/// # Errors
///
/// `TypeMismatch` where another type than that of truths is wanted; those of the memories and of the modules, from left to right. Where
/// the modules are two, `Argument` of the first side of which the module isn't abstract, else `TypeMismatch` of the right side.
pub fn whole_equation(
    alloc: Global,
    at: &Setting<'_>,
    bound: &[Binding],
    want: Option<&Ty>,
    place: Place,
    left: &Whole<'_>,
    right: &Whole<'_>,
) -> Result<Form, Refused>
    ensures { Answers (whole_equation (environment at.now) bound.now (option_copied want.entry) place (seen left.now) (seen right.now)) result }
{
    truth(want, place)?;
    let (first, from) = whole_read(alloc, at, bound, left)?;
    let (second, to) = whole_read(alloc, at, bound, right)?;
    if same_module(&first, &second) {
        agreement(alloc, at.scope, &first, from, to, place)
    } else {
        as_value(alloc, at.scope, &first, from, left.place)?;
        as_value(alloc, at.scope, &second, to, right.place)?;
        Err(mismatch(right.place))
    }
}
