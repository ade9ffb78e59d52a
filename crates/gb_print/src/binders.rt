// What heads bind.

ghost use Rattle.std.specs.Prelude.{◌≡◌, codes, OnOk, IfOk};
ghost use Rattle.std.specs.Option.{option_copied};
ghost use Rattle.gb_print_names.specs.Text.{◌▸◌, word};
ghost use Rattle.gb_print_names.specs.Types.{type_text};
ghost use Rattle.gb_print.specs.Layout.{letter, stands, over_values, over_memories, over_modules, type_needed, of_function, binding};

use gb_core::Stack;
use gb_core::name::Name;
use gb_core::ty::Ty;
use gb_print_names::bound_names::Known;
use gb_print_names::modules::put_abstract_module;
use gb_print_names::open::type_read;
use gb_print_names::text::Text;
use gb_print_names::types::put_type;
use gb_terms::module::Bind;
use gb_terms::term::{Head, Term};
use std::alloc::{AllocError, Global};

/// The letter of what a head binds.
pub fn letter(head: &Head) -> &'static str
    ensures { result.now ≡ letter head.now }
{
    match head {
        Head::AllMemory | Head::SomeMemory => "m",
        Head::AllModule(_) => "A",
        _ => "v",
    }
}

/// The name in the tree of what a head binds, which is empty for a value or a memory.
pub fn stands(alloc: Global, head: &Head) -> Result<Name, AllocError>
    ensures { IfOk result (λ x. x ≡ stands head.now) }
{
    match head {
        Head::AllModule(bind) => bind.get().name.copy(alloc),
        _ => Name::from_str(alloc, ""),
    }
}

/// A name and its type.
pub fn put_typed(
    alloc: Global,
    text: &mut Text,
    bound: &Stack<Known>,
    name: &Name,
    t: &Ty,
) -> Result<(), AllocError>
    ensures { OnOk result (text.new ≡ (word name.now ▸ word (codes " : ") ▸ type_text t.now bound.now) text.old) }
{
    text.put(name.as_str())?;
    text.put(" : ")?;
    put_type(alloc, text, bound, t)
}

/// A quantifier over the values of a type.
fn put_over_values(
    alloc: Global,
    text: &mut Text,
    bound: &Stack<Known>,
    quantifier: &str,
    name: &Name,
    t: &Ty,
) -> Result<(), AllocError>
    ensures { OnOk result (text.new ≡ over_values quantifier.now name.now t.now bound.now text.old) }
{
    text.put(quantifier)?;
    text.put(" (")?;
    put_typed(alloc, text, bound, name, t)?;
    text.put("), ")
}

fn put_over_memories(text: &mut Text, quantifier: &str, name: &Name) -> Result<(), AllocError>
    ensures { OnOk result (text.new ≡ over_memories quantifier.now name.now text.old) }
{
    text.put(quantifier)?;
    text.put(" &")?;
    text.put(name.as_str())?;
    text.put(", ")
}

fn put_over_modules(
    alloc: Global,
    text: &mut Text,
    bound: &Stack<Known>,
    name: &Name,
    bind: &Bind,
) -> Result<(), AllocError>
    ensures { OnOk result (text.new ≡ over_modules name.now bind.now bound.now text.old) }
{
    text.put("forall (")?;
    put_abstract_module(alloc, text, bound, name, bind)?;
    text.put("), ")
}

/// The type of the variable of a sum, where it isn't the one that the sum gives it.
fn type_needed<'a>(q: u128, found: Option<&'a Ty>) -> Option<&'a Ty>
    ensures { option_copied result ≡ type_needed q (option_copied found.entry) }
{
    match found {
        Some(Ty::Mod(n)) if *n as u128 == q => None,
        other => other,
    }
}

/// The variable of a function, with its type where this is needed.
fn put_of_function(
    alloc: Global,
    text: &mut Text,
    bound: &Stack<Known>,
    name: &Name,
    t: Option<&Ty>,
) -> Result<(), AllocError>
    ensures { OnOk result (text.new ≡ of_function name.now (option_copied t.entry) bound.now text.old) }
{
    let Some(t) = t else {
        text.put(" (fun ")?;
        text.put(name.as_str())?;
        return text.put(" => ");
    };
    text.put(" (fun (")?;
    put_typed(alloc, text, bound, name, t)?;
    text.put(") => ")
}

/// What a head binds in a term, under its name.
pub fn put_binding(
    alloc: Global,
    text: &mut Text,
    bound: &Stack<Known>,
    head: &Head,
    inside: &Term,
    name: &Name,
) -> Result<(), AllocError>
    ensures { OnOk result (text.new ≡ binding head.now inside.now name.now bound.now text.old) }
{
    match head {
        Head::All(t) => put_over_values(alloc, text, bound, "forall", name, t.get()),
        Head::Some(t) => put_over_values(alloc, text, bound, "exists", name, t.get()),
        Head::AllMemory => put_over_memories(text, "forall", name),
        Head::SomeMemory => put_over_memories(text, "exists", name),
        Head::AllModule(bind) => put_over_modules(alloc, text, bound, name, bind.get()),
        Head::Sum(q) => {
            let found = type_read(inside, 0)?;
            put_of_function(alloc, text, bound, name, type_needed(*q, found))
        }
        _ => put_of_function(alloc, text, bound, name, None),
    }
}
