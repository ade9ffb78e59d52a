// What a form names, as text: modules, variables, memories and what is bound.

ghost use Rattle.std.specs.Prelude.{◌≡◌, OnOk};
ghost use Rattle.gb_print_names.specs.BoundNames.{place};
ghost use Rattle.gb_print_names.specs.Names.{module_name, variable, memory, beside, read, bound_at, constants};
ghost use Rattle.gb_print_names.specs.Text.{word};

use crate::bound_names::{Enumeration, Known, Setting};
use crate::text::Text;
use gb_core::Stack;
use gb_core::name::Name;
use gb_core::var::Var;
use gb_terms::op::{Read, Side};
use std::alloc::AllocError;

/// The name that is printed for a module: that of its binder where it is bound.
fn module_name<'a>(bound: &'a Stack<Known>, name: &'a Name) -> &'a Name
    ensures { result.now ≡ module_name bound.now name.now }
{
    for i in 0..bound.len() {
        let Some(known) = bound.get(i) else {
            return name;
        };
        if known.stands == *name {
            return &known.shown;
        }
    }
    name
}

pub fn put_module_name(text: &mut Text, bound: &Stack<Known>, name: &Name) -> Result<(), AllocError>
    ensures { OnOk result (text.new ≡ word (module_name bound.now name.now) text.old) }
{
    text.put(module_name(bound, name).as_str())
}

/// What is bound below so many other binders.
pub fn put_bound(text: &mut Text, bound: &Stack<Known>, i: u32) -> Result<(), AllocError>
    ensures { OnOk result (text.new ≡ bound_at bound.now i text.old) }
{
    match bound.get(i as usize) {
        Some(known) => text.put(known.shown.as_str()),
        None => Ok(()),
    }
}

pub fn put_variable(text: &mut Text, bound: &Stack<Known>, x: &Var) -> Result<(), AllocError>
    ensures { OnOk result (text.new ≡ variable bound.now x.now text.old) }
{
    match x {
        Var::Global { module, name } => {
            put_module_name(text, bound, module)?;
            text.put(".")?;
            text.put(name.as_str())
        }
        Var::Local { name } => text.put(name.as_str()),
        Var::Glob { module } => {
            text.put("(glob ")?;
            put_module_name(text, bound, module)?;
            text.put(")")
        }
    }
}

/// The name of a memory.
pub fn put_memory(
    text: &mut Text,
    bound: &Stack<Known>,
    at: &Setting<'_>,
    side: Side,
) -> Result<(), AllocError>
    ensures { OnOk result (text.new ≡ memory (place at.now bound.now) side text.old) }
{
    match side {
        Side::Own => Ok(()),
        Side::Left => text.put("1"),
        Side::Right => text.put("2"),
        Side::Memory(i) => match at.memories.get(i as usize) {
            Some(name) => text.put(name.as_str()),
            None => Ok(()),
        },
        Side::Bound(i) => put_bound(text, bound, i),
    }
}

/// The memory of a read, which is left out where a form speaks of one program.
pub fn put_beside(
    text: &mut Text,
    bound: &Stack<Known>,
    at: &Setting<'_>,
    side: Side,
) -> Result<(), AllocError>
    ensures { OnOk result (text.new ≡ beside (place at.now bound.now) side text.old) }
{
    if matches!(side, Side::Own) {
        return Ok(());
    }
    text.put("{")?;
    put_memory(text, bound, at, side)?;
    text.put("}")
}

pub fn put_read(
    text: &mut Text,
    bound: &Stack<Known>,
    at: &Setting<'_>,
    source: &Read,
) -> Result<(), AllocError>
    ensures { OnOk result (text.new ≡ read (place at.now bound.now) source.now text.old) }
{
    match source {
        Read::Logical(i) => match at.logical.get(*i as usize) {
            Some(x) => text.put(x.name.as_str()),
            None => Ok(()),
        },
        Read::Program { var, side } => {
            put_variable(text, bound, var)?;
            put_beside(text, bound, at, *side)
        }
    }
}

/// The constants of the enumeration of this name.
pub fn constants<'a>(enumerations: &'a [Enumeration], name: &Name) -> &'a [Name]
    ensures { result.now ≡ constants enumerations.now name.now }
{
    for e in enumerations {
        if e.name == *name {
            return e.constants.as_slice();
        }
    }
    &[]
}
