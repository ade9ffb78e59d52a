// Modules, procedures and module binders.

ghost use Rattle.std.specs.Prelude.{◌≡◌, map, codes, OnOk};
ghost use Rattle.gb_print_names.specs.Text.{word, separated};
ghost use Rattle.gb_print_names.specs.Modules.{module_text, procedure, restriction, limit, limits, abstract_module, excluded};

use crate::bound_names::Known;
use crate::place::put_module_name;
use crate::text::Text;
use gb_core::Stack;
use gb_core::name::Name;
use gb_terms::module::{Bind, Bound, Mexp, ProcRef};
use std::alloc::{AllocError, Global};

/// A module expression.
#[cycle(modules)]
pub fn put_module(text: &mut Text, bound: &Stack<Known>, m: &Mexp) -> Result<(), AllocError>
    ensures { OnOk result (text.new ≡ module_text m.now bound.now text.old) }
{
    match m {
        Mexp::Name(name) => put_module_name(text, bound, name),
        Mexp::Apply(name, args) => {
            put_module_name(text, bound, name)?;
            text.put("(")?;
            put_modules(text, bound, args.as_slice())?;
            text.put(")")
        }
    }
}

#[cycle(modules)]
fn put_modules(text: &mut Text, bound: &Stack<Known>, list: &[Mexp]) -> Result<(), AllocError>
    ensures { OnOk result (text.new ≡ separated (codes ", ") (λ m. m bound.now) (map module_text list.now) text.old) }
{
    let [first, rest @ ..] = list else {
        return Ok(());
    };
    put_module(text, bound, first)?;
    for m in rest {
        text.put(", ")?;
        put_module(text, bound, m)?;
    }
    Ok(())
}

/// A procedure of a module.
pub fn put_procedure(text: &mut Text, bound: &Stack<Known>, p: &ProcRef) -> Result<(), AllocError>
    ensures { OnOk result (text.new ≡ procedure bound.now p.now text.old) }
{
    put_module(text, bound, &p.module)?;
    text.put(".")?;
    text.put(p.name.as_str())
}

fn put_excluded(text: &mut Text, bound: &Stack<Known>, name: &Name) -> Result<(), AllocError>
    ensures { OnOk result (text.new ≡ excluded bound.now name.now text.old) }
{
    text.put("-")?;
    put_module_name(text, bound, name)
}

/// The modules whose globals aren't touched.
fn put_restriction(text: &mut Text, bound: &Stack<Known>, list: &[Name]) -> Result<(), AllocError>
    ensures { OnOk result (text.new ≡ restriction bound.now list.now text.old) }
{
    let [first, rest @ ..] = list else {
        return Ok(());
    };
    text.put(" {")?;
    put_excluded(text, bound, first)?;
    for name in rest {
        text.put(", ")?;
        put_excluded(text, bound, name)?;
    }
    text.put("}")
}

fn put_group(text: &mut Text, procs: &[Name]) -> Result<(), AllocError>
    ensures { OnOk result (text.new ≡ separated (codes " + ") word procs.now text.old) }
{
    let [first, rest @ ..] = procs else {
        return Ok(());
    };
    text.put(first.as_str())?;
    for name in rest {
        text.put(" + ")?;
        text.put(name.as_str())?;
    }
    Ok(())
}

/// A bound on calls.
fn put_limit(
    alloc: Global,
    text: &mut Text,
    bound: &Stack<Known>,
    b: &Bound,
) -> Result<(), AllocError>
    ensures { OnOk result (text.new ≡ limit bound.now b.now text.old) }
{
    put_group(text, b.procs.as_slice())?;
    text.put(" : {")?;
    put_procedure(text, bound, &b.oracle)?;
    text.put(" <= ")?;
    text.put_number(alloc, b.most)?;
    text.put("}")
}

fn put_limits(
    alloc: Global,
    text: &mut Text,
    bound: &Stack<Known>,
    list: &[Bound],
) -> Result<(), AllocError>
    ensures { OnOk result (text.new ≡ limits bound.now list.now text.old) }
{
    let [first, rest @ ..] = list else {
        return Ok(());
    };
    text.put(" [")?;
    put_limit(alloc, text, bound, first)?;
    for b in rest {
        text.put(", ")?;
        put_limit(alloc, text, bound, b)?;
    }
    text.put("]")
}

/// An abstract module under a name: its module type, its restriction and its bounds.
pub fn put_abstract_module(
    alloc: Global,
    text: &mut Text,
    bound: &Stack<Known>,
    name: &Name,
    bind: &Bind,
) -> Result<(), AllocError>
    ensures { OnOk result (text.new ≡ abstract_module bound.now name.now bind.now text.old) }
{
    text.put(name.as_str())?;
    text.put(" <: ")?;
    text.put(bind.ty.as_str())?;
    put_restriction(text, bound, bind.minus.as_slice())?;
    put_limits(alloc, text, bound, bind.bounds.as_slice())
}
