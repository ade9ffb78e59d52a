// Named memories, and what is read in them.

ghost use Rattle.std.specs.Prelude.{◌≡◌};
ghost use Rattle.gb_script.specs.Tree.{text_of};
ghost use Rattle.gb_goal.specs.Answers.{Answers, Fails};
ghost use Rattle.gb_names.specs.Environment.{environment};
ghost use Rattle.gb_names.specs.Names.{bound_memory, context_memory, in_memory, memory, memory_at, names_before, no_memory, remembered};

use crate::bindings::{Binding, Kind, binders_inside, innermost};
use crate::locals::locals_in;
use crate::names::{counted, known_at, named, variable_on};
use crate::refusals::argument;
use crate::setting::{Language, Setting};
use gb_core::name::Name;
use gb_core::place::Place;
use gb_core::refusal::Refused;
use gb_script::tree::Node;
use gb_terms::op::Side;
use gb_terms::term::Term;
use std::alloc::Global;

/// How many names stand before the first one that is this.
fn names_before(list: &[Name], name: &Name) -> usize
    ensures { result ≡ names_before list.now name.now }
{
    for i in 0..list.len() {
        if list[i] == *name {
            return i;
        }
    }
    list.len()
}

/// The refusal of a name that no memory has.
fn no_memory(
    alloc: Global,
    at: &Setting<'_>,
    bound: &[Binding],
    name: &Name,
    place: Place,
) -> Refused
    ensures { Fails (no_memory (environment at.now) bound.now name.now place) result }
{
    if known_at(at, bound, name).is_some() {
        return argument(place);
    }
    match named(alloc, at, bound, name, place) {
        Ok(_) => argument(place),
        Err(refused) => refused,
    }
}

/// The memory of the context at this place.
fn memory(at: usize) -> Result<Side, Refused>
    ensures { Answers (memory at) result }
{
    let at = counted(at)?;
    Ok(Side::Memory(at))
}

/// What is bound below so many other binders as a memory, which a value is none.
fn bound_memory(between: usize, kind: &Kind, place: Place) -> Result<Side, Refused>
    ensures { Answers (bound_memory between place kind.now) result }
{
    match kind {
        Kind::Value(_) => Err(argument(place)),
        Kind::Memory => {
            let between = counted(between)?;
            Ok(Side::Bound(between))
        }
    }
}

/// The memory of the context that has this name.
fn context_memory(
    alloc: Global,
    at: &Setting<'_>,
    bound: &[Binding],
    name: &Name,
    place: Place,
) -> Result<Side, Refused>
    ensures { Answers (context_memory (environment at.now) bound.now name.now place) result }
{
    let memories = at.sequent.memories.as_slice();
    let before = names_before(memories, name);
    if before < memories.len() {
        memory(before)
    } else {
        Err(no_memory(alloc, at, bound, name, place))
    }
}

/// The memory that has this name: what is bound in the form, the innermost first, hides those of the context.
///
/// # Errors
///
/// `UnknownName` of a name that nothing has, `Argument` of one that another thing has.
pub fn memory_at(
    alloc: Global,
    at: &Setting<'_>,
    bound: &[Binding],
    name: &Name,
    place: Place,
) -> Result<Side, Refused>
    ensures { Answers (memory_at (environment at.now) bound.now name.now place) result }
{
    match innermost(bound, name) {
        Some(x) => bound_memory(binders_inside(bound, name), &x.kind, place),
        None => context_memory(alloc, at, bound, name, place),
    }
}

/// A local or a global in a named memory.
#[tactic(auto, unfolding(crate::specs::Names::in_memory))]
fn in_memory(
    alloc: Global,
    at: &Setting<'_>,
    bound: &[Binding],
    name: &Name,
    memory: &Node,
    place: Place,
) -> Result<Term, Refused>
    ensures { Answers (in_memory (environment at.now) bound.now name.now memory.now place) result }
{
    let side = memory_at(alloc, at, bound, &memory.text, memory.place)?;
    if at.memories.may_read(&memory.text) {
        let locals = locals_in(alloc, at.sequent, side, name)?;
        variable_on(alloc, at, bound, name, side, place, locals.as_slice())
    } else {
        Err(argument(place))
    }
}

/// The meaning of a name in a named memory.
///
/// # Errors
///
/// Those of `memory_at`; `Argument` in a program, where the memory may not be read, and of a name that is another thing's; `UnknownName` of
/// a name that nothing has.
pub fn remembered(
    alloc: Global,
    at: &Setting<'_>,
    bound: &[Binding],
    name: &Name,
    memory: &Node,
    place: Place,
) -> Result<Term, Refused>
    ensures { Answers (remembered (environment at.now) bound.now name.now memory.now place) result }
{
    match at.language {
        Language::Formula | Language::Function => {
            in_memory(alloc, at, bound, name, memory, place)
        }
        Language::Program | Language::Sampled | Language::Operator => Err(argument(place)),
    }
}
